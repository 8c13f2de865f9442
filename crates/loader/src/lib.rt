// Builds the plan of an accepted text in the memory. The walk over the text gives piece after piece, and each is put behind the last.
#![tactic(auto)]

ghost use Rattle.std.specs.Prelude.{◌≡◌, ℕ, ◌≤◌, length};
ghost use Rattle.kinds.specs.Limits.{text_limit, token_limit};
ghost use Rattle.plan.specs.Plan.{Plan};
ghost use Rattle.plan.specs.Reading.{ACCEPTED, read};
ghost use Rattle.memory.specs.Held.{HeldAlike};
ghost use Rattle.memory.specs.Lent.{Aside, Lent};

use builder::{end_plan, fresh, put_piece};
use items::{Placed, Walk};
use kinds::Cell;
use memory::HeldPlan;

// The plan of the text, in the cells lent.
pub fn build_plan<'a>(text: &[u8], numbers: &'a mut [u32], outer: Cell) -> HeldPlan<'a>
    requires { Lent outer.0 numbers.old × (length text.now ≤ text_limit) × ((p : Plan ℕ) × (read token_limit outer.0 text.now ≡ ACCEPTED p)) }
    ensures holds { (p : Plan ℕ) → read token_limit outer.0 text.now ≡ ACCEPTED p → HeldAlike text.now result p }
    ensures same_cells { result.kept.outer ≡ outer }
    ensures same_numbers { result.numbers.ghost_name ≡ numbers.entry.ghost_name }
    ensures aside { Aside outer.0 numbers.old result.numbers.now }
{
    let mut held = fresh(numbers, outer);
    for Placed { piece, .. } in Walk::over(text) {
        put_piece(&mut held, piece);
    }
    end_plan(&mut held);
    held
}
