// The walks over one block: one counts its cells, one frees them, and one finds its last port. The links join the ports of a block in one
// chain, from its start to its own close. So each walk is one loop along the links, and what stands around the block does not matter.
#![tactic(auto)]

ghost use Rattle.std.specs.Prelude.{◌≡◌, ℕ};
ghost use Rattle.plan.specs.Plan.{Plan, cells};
ghost use Rattle.memory.specs.Held.{BlockIn, HeldIn, SameCells, held_numbers};
ghost use Rattle.memory.specs.Memory.{start, ports, last_of};
ghost use Rattle.blocks.specs.Blocks.{Alone, BlockFreed, HasBlock, Leaves};

use kinds::Cell;
use memory::{HeldPlan, Port};

// How many cells the contents of a block have. The text itself is not read. It is there for the contract, which tells the plan by it.
pub fn block_cells(text: &[u8], held: &HeldPlan, block: Cell) -> u32
    requires { HasBlock text.now held.now block.0 }
    ensures { (t b : Plan ℕ) → HeldIn text.now held.now t → BlockIn block.0 b t → result ≡ cells b }
{
    let end = Port::close(block);
    let mut port = held.link_of(Port::start(block));
    let mut count: u32 = 0;
    while port != end {
        if !port.closes() {
            count += 1;
        }
        port = held.link_of(port);
    }
    count
}

// Frees the cells of a block that no plan links to any more, in the order of their starts. The start of a free cell keeps the next free
// one, so the link to the next port is read before the cell is freed.
pub fn free_block(held: &mut HeldPlan, block: Cell)
    requires { Leaves held.old block.0 }
    ensures frees { BlockFreed held.old block.0 held.new }
    ensures same { SameCells held.old held.new }
{
    let end = Port::close(block);
    let mut at = Port::start(block);
    while at != end {
        let next = held.link_of(at);
        if !at.closes() {
            let spare = held.kept.free;
            held.keep_cell(at, spare);
            held.kept.free = at.cell();
        }
        at = next;
    }
}

// The last port inside a block: its own start, where it is empty.
pub fn last_port(held: &HeldPlan, block: Cell) -> Port
    requires { Leaves held.now block.0 }
    ensures { (b : Plan ℕ) → Alone held.now.kept.outer.0 (held_numbers held.now) block.0 b → result.0 ≡ last_of (start block.0) (ports b) }
{
    let end = Port::close(block);
    let mut port = Port::start(block);
    let mut next = held.link_of(port);
    while next != end {
        port = next;
        next = held.link_of(port);
    }
    port
}
