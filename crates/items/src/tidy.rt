// A text written without its marks: its pieces in a row, which are the printed text of the plan that it reads as.
ghost use Rattle.std.specs.Prelude.{◌≡◌, ℕ};
ghost use Rattle.kinds.specs.Limits.{token_limit};
ghost use Rattle.plan.specs.Plan.{Plan, print};
ghost use Rattle.plan.specs.Pieces.{Shows, pieces};
ghost use Rattle.kinds.specs.Written.{put_at};
ghost use Rattle.items.specs.Walk.{Tidyable};

use crate::{Placed, Walk};
use pieces::put_piece;

// Writes the pieces of an accepted text to the output, from the place `from` on.
pub fn put_tidied(text: &[u8], out: &mut [u8], from: usize)
    requires { Tidyable text.now out.old from }
    ensures { (p : Plan ℕ) → Shows token_limit 0 text.now (pieces p) → out.new ≡ put_at out.old from (print p) }
{
    let mut put = from;
    for Placed { piece, at } in Walk::over(text) {
        put_piece(text, piece, out, put);
        put += piece.length() as usize;
    }
}
