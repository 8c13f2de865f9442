// Whether the plan of an accepted text has no ready operator, told by the text alone in one pass, without lent memory and without
// recursion. An operator is ready where as many blocks come right before it as it takes. One bit says whether a block came right behind
// another, and is kept while the block is open. So nothing is looked for twice, however deep the plan is nested.
#![tactic(auto)]

ghost use Rattle.std.specs.Prelude.{◌≡◌, ℕ};
ghost use Rattle.kinds.specs.Limits.{token_limit};
ghost use Rattle.plan.specs.Plan.{Plan};
ghost use Rattle.plan.specs.Pieces.{Shows, pieces};
ghost use Rattle.rules.specs.Rewriting.{finished};
ghost use Rattle.finished.specs.ShowsPlan.{ShowsPlan};

use items::{Placed, Walk};
use kinds::Cell;
use pieces::Piece;

// Whether no operator of the text's plan is ready.
pub fn is_finished(text: &[u8]) -> bool
    requires { ShowsPlan text.now }
    ensures { (p : Plan ℕ) → Shows token_limit 0 text.now (pieces p) → result ≡ finished p }
{
    // The blocks right before the next piece, counted up to two: no operator takes more.
    let mut blocks: u32 = 0;
    // Of each open block, outermost first, whether it came right behind a block. A plan has no more open blocks than cells.
    let mut second = [false; Cell::LIMIT];
    let mut deep: usize = 0;
    for Placed { piece, .. } in Walk::over(text) {
        match piece {
            Piece::Operator(operator) => {
                if rules::takes(operator) <= blocks {
                    return false;
                }
                blocks = 0;
            }
            Piece::Token(_) => blocks = 0,
            Piece::Open => {
                second[deep] = 0 < blocks;
                deep += 1;
                blocks = 0;
            }
            Piece::Close => {
                deep -= 1;
                blocks = if second[deep] { 2 } else { 1 };
            }
        }
    }
    true
}
