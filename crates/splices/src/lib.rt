// The moves of links that a rewrite is made of: ports cut out of the chain, ports put in, a block moved or opened, an operator taken out, a
// cell free again. Each function does on the memory what specs/Splices.antt says on plain values.
#![tactic(auto)]

ghost use Rattle.std.specs.Prelude.{◌≤◌, ◌<◌};
ghost use Rattle.memory.specs.Held.{held_numbers};
ghost use Rattle.memory.specs.Memory.{start};
ghost use Rattle.splices.specs.Splices.{BlockOpened, OperatorOut, Spliced, cut, moved, put_in, released};

use kinds::Cell;
use memory::{HeldPlan, Port};

// Lets the port `after` link to what stands behind the port `last`. The ports between them, and `last` itself, are then out of the chain.
pub fn cut(held: &mut HeldPlan, after: Port, last: Port)
    requires { (after.0 ≤ start held.old.kept.outer.0) × (last.0 ≤ start held.old.kept.outer.0) }
    ensures { Spliced held.old held.new (cut (held_numbers held.old) after.0 last.0) held.old.kept.free.0 }
{
    let to = held.link_of(last);
    held.set_link(after, to);
}

// Puts linked ports, in a row, behind a port.
pub fn put_in(held: &mut HeldPlan, after: Port, head: Port, tail: Port)
    requires { (after.0 ≤ start held.old.kept.outer.0) × (tail.0 ≤ start held.old.kept.outer.0) }
    ensures { Spliced held.old held.new (put_in (held_numbers held.old) after.0 head.0 tail.0) held.old.kept.free.0 }
{
    let to = held.link_of(after);
    held.set_link(tail, to);
    held.set_link(after, head);
}

// Moves a block from its place behind one port to that behind another.
pub fn move_block(held: &mut HeldPlan, before: Port, block: Cell, after: Port)
    requires { (before.0 ≤ start held.old.kept.outer.0) × (after.0 ≤ start held.old.kept.outer.0) × (block.0 < held.old.kept.outer.0) }
    ensures { Spliced held.old held.new (moved (held_numbers held.old) before.0 block.0 after.0) held.old.kept.free.0 }
{
    let tail = Port::close(block);
    cut(held, before, tail);
    put_in(held, after, Port::start(block), tail);
}

// A cell that no port links to is free again.
pub fn release(held: &mut HeldPlan, cell: Cell)
    requires { cell.0 < held.old.kept.outer.0 }
    ensures { Spliced held.old held.new (released (held_numbers held.old) held.old.kept.free.0 cell.0) cell.0 }
{
    let free = held.kept.free;
    held.keep_cell(Port::start(cell), free);
    held.kept.free = cell;
}

// Takes an operator out of the plan, from behind the block before it.
pub fn remove_operator(held: &mut HeldPlan, newer: Cell, operator: Cell)
    requires { (newer.0 < held.old.kept.outer.0) × (operator.0 < held.old.kept.outer.0) }
    ensures { OperatorOut held.old held.new newer.0 operator.0 }
{
    cut(held, Port::close(newer), Port::start(operator));
    release(held, operator);
}

// Opens a block: its contents, which end at the port `last`, stand in its place.
pub fn unwrap(held: &mut HeldPlan, before: Port, block: Cell, last: Port)
    requires { (before.0 ≤ start held.old.kept.outer.0) × (last.0 ≤ start held.old.kept.outer.0) × (block.0 < held.old.kept.outer.0) }
    ensures { BlockOpened held.old held.new before.0 block.0 last.0 }
{
    cut(held, last, Port::close(block));
    cut(held, before, Port::start(block));
    release(held, block);
}
