// Copies a block of a plan in the memory into free cells, beside the plan. No port links to the copy yet. The ports of the block's contents
// stand in one chain, and for each of them the builder puts its like. There is no recursion, and nothing is kept beside the copy.
#![tactic(auto)]

ghost use Rattle.std.specs.Prelude.{ℕ};
ghost use Rattle.plan.specs.Plan.{Plan};
ghost use Rattle.memory.specs.Held.{SameCells};
ghost use Rattle.memory.specs.Model.{Stepped, model};
ghost use Rattle.copier.specs.Copying.{Copies, Copyable, CopyMade, LikeReady, like};

use builder::{begin_apart, put_piece};
use kinds::Cell;
use memory::{HeldPlan, Port};

// Puts the like of a port behind the last item.
fn put_like(held: &mut HeldPlan, port: Port)
    requires { LikeReady held.old port.0 }
    ensures { Stepped held.old held.new (like (model held.old) port.0) }
{
    let piece = held.piece_at(port);
    put_piece(held, piece);
}

// Copies the block at a cell into the first free cells, beside the plan as it is held. Answers the cell of the copy.
pub fn copy_block(text: &[u8], held: &mut HeldPlan, block: Cell) -> Cell
    requires { Copyable text.now held.old block.0 }
    ensures made { (t b : Plan ℕ) → Copies text.now held.old block.0 t b → CopyMade text.now held.new result.0 t b }
    ensures same { SameCells held.old held.new }
{
    let copy = held.kept.free;
    let end = Port::close(block);
    begin_apart(held);
    let mut port = held.link_of(Port::start(block));
    while port != end {
        put_like(held, port);
        port = held.link_of(port);
    }
    let last = held.tail;
    held.set_link(last, Port::close(copy));
    copy
}
