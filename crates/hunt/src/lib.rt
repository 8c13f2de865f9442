// Finds the next ready operator of a plan in the memory, in document 01's order, from a given sequence on. That order looks into the
// sequences as their `[` come, and in each for its leftmost ready operator. So one loop goes along the chain over the ports where a block
// opens. One scan goes over a sequence's own items, and passes the inside of each block by its close. There is no recursion and no stack.
#![tactic(auto)]

ghost use Rattle.std.specs.Prelude.{ℕ};
ghost use Rattle.plan.specs.Plan.{Plan};
ghost use Rattle.memory.specs.Held.{HeldIn, held_numbers};
ghost use Rattle.memory.specs.Memory.{start};
ghost use Rattle.hunt.specs.Hunting.{Finds, Huntable, Scannable, Scanned, SequenceAt};

use kinds::Cell;
use memory::{HeldPlan, Port};
use ready::{Spot, block_opens, end_port, ready_at};

// The leftmost ready operator of the sequence inside a cell.
pub fn scan(text: &[u8], held: &HeldPlan, sequence: Cell) -> Option<Spot>
    requires { Scannable text.now held.now sequence.0 }
    ensures { (q : Plan ℕ) → SequenceAt text.now held.now.kept.outer.0 (held_numbers held.now) sequence.0 q → Scanned result sequence.0 q }
{
    let end = Port::close(sequence);
    let mut third = Port::start(sequence);
    let mut second = third;
    let mut last = third;
    let mut at = held.link_of(last);
    while at != end {
        let kind = held.kind_at(at);
        if let Some(spot) = ready_at(kind, at, last, second, third) {
            return Some(spot);
        }
        third = second;
        second = last;
        last = end_port(kind, at);
        at = held.link_of(last);
    }
    None
}

// The next ready operator of the plan, from the sequence inside a cell on. Nothing before that sequence is ready.
pub fn hunt(text: &[u8], held: &HeldPlan, from: Cell) -> Option<Spot>
    requires { Huntable text.now held.now from.0 }
    ensures { (t : Plan ℕ) → HeldIn text.now held.now t → Finds result held.now.kept.outer.0 t }
{
    let end = Port::close(held.kept.outer);
    let mut port = Port::start(from);
    while port != end {
        if block_opens(held, port) {
            if let Some(spot) = scan(text, held, port.cell()) {
                return Some(spot);
            }
        }
        port = held.link_of(port);
    }
    None
}
