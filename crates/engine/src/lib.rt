// One turn of a run of a plan in the memory, and the whole run: DONE, FULL and QUOTA asked in the definition's order. Each turn makes one
// rewrite of the definition. The run goes on until no operator is ready, the next plan finds no room, or the quota is used up.
#![tactic(auto)]

ghost use Rattle.std.specs.Prelude.{◌≡◌, ℕ};
ghost use Rattle.rules.specs.Frames.{Frame, plug};
ghost use Rattle.plan.specs.Plan.{Plan, cells};
ghost use Rattle.memory.specs.Held.{SameCells};
ghost use Rattle.engine.specs.Running.{Countable, RunMade, Runnable, Spotted, TurnMade};

use blocks::block_cells;
use hunt::hunt;
use memory::HeldPlan;
use plan::Operator;
use ready::Spot;
use rewrites::rewrite;
use rules::Ending;
use std::ops::ControlFlow;

// How a run ended, the rewrites it made, and the cells of the plan that is held then.
#[derive(Clone, Copy)]
pub struct Ended {
    pub ending: Ending,
    pub steps: u32,
    pub size: u32,
}

// How many cells the plan has after the rewrite at a spot. Only the rules of c and d count the cells of their block.
fn size_after(text: &[u8], held: &HeldPlan, spot: Spot, size: u32) -> u32
    requires { Countable text.now held.now spot size }
    ensures { (f : Frame ℕ) (q q' : Plan ℕ) → Spotted text.now held.now spot size f q q' → result ≡ cells (plug f q') }
{
    match spot.which {
        Operator::A => size - 2,
        Operator::B => size - 1,
        Operator::C => size + block_cells(text, held, spot.newer),
        Operator::D => size - block_cells(text, held, spot.newer) - 2,
    }
}

// One turn: the run stops, or it goes on with the next plan, which has so many cells. FULL is known before anything changes, and before
// the quota is asked.
pub fn step(text: &[u8], held: &mut HeldPlan, size: u32, more: bool) -> ControlFlow<Ending, u32>
    requires { Runnable text.now held.old size }
    ensures turned { TurnMade text.now held.old size more held.new result }
    ensures same { SameCells held.old held.new }
{
    let outer = held.kept.outer;
    let Some(spot) = hunt(text, held, outer) else {
        return ControlFlow::Break(Ending::Done);
    };
    let after = size_after(text, held, spot, size);
    if after > outer.0 {
        return ControlFlow::Break(Ending::Full);
    }
    if !more {
        return ControlFlow::Break(Ending::Quota);
    }
    rewrite(text, held, spot);
    ControlFlow::Continue(after)
}

// The whole run.
pub fn run(text: &[u8], held: &mut HeldPlan, size: u32, quota: u32) -> Ended
    requires { Runnable text.now held.old size }
    ensures ran { RunMade text.now held.old size quota held.new result }
    ensures same { SameCells held.old held.new }
{
    let mut cells = size;
    let mut steps: u32 = 0;
    loop {
        match step(text, held, cells, steps < quota) {
            ControlFlow::Break(ending) => {
                return Ended {
                    ending,
                    steps,
                    size: cells,
                };
            }
            ControlFlow::Continue(next) => {
                cells = next;
                steps += 1;
            }
        }
    }
}
