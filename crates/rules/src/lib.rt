// What rewriting is: the four rewrites, their order, runs, and the laws of these. specs/ has the definitions. The code says how a run ends,
// and how many blocks an operator takes.
#![tactic(auto)]

ghost use Rattle.std.specs.Prelude.{◌≡◌};
ghost use Rattle.rules.specs.Leftmost.{takes};

use plan::Operator;

// How an unrefused run ends.
#[derive(Clone, Copy, PartialEq, Eq)]
pub enum Ending {
    Done,
    Quota,
    Full,
}

// How many blocks an operator takes: those just before it make it ready.
pub fn takes(operator: Operator) -> u32
    ensures { result ≡ takes operator }
{
    match operator {
        Operator::A | Operator::B => 2,
        Operator::C | Operator::D => 1,
    }
}
