// Whether the item at a port is a ready operator, whether a block opens at a port, and where an item ends. The hunt asks these port by port.
#![tactic(auto)]

ghost use Rattle.std.specs.Prelude.{◌≡◌, ◌/◌, ◌≤◌};
ghost use Rattle.kinds.specs.Limits.{cell_limit};
ghost use Rattle.memory.specs.Held.{held_numbers};
ghost use Rattle.memory.specs.Memory.{start};
ghost use Rattle.ready.specs.Ready.{block_opens, end_port, ready_at};

use kinds::Cell;
use memory::{HeldPlan, Kind, Port};
use plan::Operator;
use rules::takes;

// A ready operator: which one it is, the port that links to the first of its blocks, its blocks and itself. The operators c and
// d have the newer block alone.
#[derive(Clone, Copy)]
pub struct Spot {
    pub which: Operator,
    pub before: Port,
    pub older: Cell,
    pub newer: Cell,
    pub operator: Cell,
}

// The operator at a port, if it is ready. The last ports of the items before it tell whether those are blocks.
pub fn ready_at(kind: Kind, at: Port, last: Port, second: Port, third: Port) -> Option<Spot>
    ensures { result ≡ ready_at kind at.0 last.0 second.0 third.0 }
{
    let Kind::Operator(which) = kind else {
        return None;
    };
    if !last.closes() {
        return None;
    }
    let mut before = second;
    if takes(which) == 2 {
        if !second.closes() {
            return None;
        }
        before = third;
    }
    Some(Spot {
        which,
        before,
        older: second.cell(),
        newer: last.cell(),
        operator: at.cell(),
    })
}

// The last port of the item that starts at a port. It links to what comes behind the item. A block's last port is its close.
pub fn end_port(kind: Kind, at: Port) -> Port
    requires { at.0 / 2 ≤ cell_limit }
    ensures { result.0 ≡ end_port kind at.0 }
{
    match kind {
        Kind::Block => Port::close(at.cell()),
        Kind::Operator(_) | Kind::Token => at,
    }
}

// Whether a block opens at a port; the outermost sequence opens at the start of the cell that is not lent.
pub fn block_opens(held: &HeldPlan, port: Port) -> bool
    requires { port.0 ≤ start held.now.kept.outer.0 }
    ensures { result ≡ block_opens (held_numbers held.now) port.0 }
{
    if port.closes() {
        return false;
    }
    if port == Port::start(held.kept.outer) {
        return true;
    }
    matches!(held.kind_at(port), Kind::Block)
}
