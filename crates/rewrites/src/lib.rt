// Makes the rewrite of a ready operator in the memory: links move, c copies, d frees. The operator leaves the chain first. Then a moves the
// older block to the end of the newer one and opens that, b moves the older block to the front of the newer one, c copies, d drops. Except
// for the copy of c, only links move. A cell that leaves the plan is free at once.
#![tactic(auto)]

ghost use Rattle.memory.specs.Held.{SameCells};
ghost use Rattle.rewrites.specs.Rules.{DropBlock, OneBlock, Rewritable, RewriteMade, RuleA, RuleB, RuleC, RuleD, TwoBlocks};

use blocks::{free_block, last_port};
use copier::copy_block;
use memory::{HeldPlan, Port};
use plan::Operator;
use ready::Spot;
use splices::{cut, move_block, put_in, remove_operator, unwrap};

// The rule of a, once its operator is out. The older block goes behind the contents of the newer one, and the newer one is opened.
fn rule_a(held: &mut HeldPlan, spot: Spot)
    requires { TwoBlocks held.old spot.before.0 spot.older.0 spot.newer.0 }
    ensures changed { RuleA held.old held.new spot.before.0 spot.older.0 spot.newer.0 }
    ensures same { SameCells held.old held.new }
{
    let last = last_port(held, spot.newer);
    move_block(held, spot.before, spot.older, last);
    unwrap(held, spot.before, spot.newer, Port::close(spot.older));
}

// The rule of b, once its operator is out. The older block goes before the contents of the newer one.
fn rule_b(held: &mut HeldPlan, spot: Spot)
    requires { TwoBlocks held.old spot.before.0 spot.older.0 spot.newer.0 }
    ensures changed { RuleB held.old held.new spot.before.0 spot.older.0 spot.newer.0 }
    ensures same { SameCells held.old held.new }
{
    move_block(held, spot.before, spot.older, Port::start(spot.newer));
}

// The rule of c, once its operator is out. A copy of the block goes behind it.
fn rule_c(text: &[u8], held: &mut HeldPlan, spot: Spot)
    requires { OneBlock text.now held.old spot.newer.0 }
    ensures changed { RuleC text.now held.old held.new spot.newer.0 }
    ensures same { SameCells held.old held.new }
{
    let copy = copy_block(text, held, spot.newer);
    put_in(
        held,
        Port::close(spot.newer),
        Port::start(copy),
        Port::close(copy),
    );
}

// The rule of d, once its operator is out. The block leaves the plan, and its cells are free.
fn rule_d(held: &mut HeldPlan, spot: Spot)
    requires { DropBlock held.old spot.before.0 spot.newer.0 }
    ensures changed { RuleD held.old held.new spot.before.0 spot.newer.0 }
    ensures same { SameCells held.old held.new }
{
    cut(held, spot.before, Port::close(spot.newer));
    free_block(held, spot.newer);
}

// Makes the rewrite of a ready operator: the memory then holds what the rule gives.
pub fn rewrite(text: &[u8], held: &mut HeldPlan, spot: Spot)
    requires { Rewritable text.now held.old spot }
    ensures rewritten { RewriteMade text.now held.old spot held.new }
    ensures same { SameCells held.old held.new }
{
    remove_operator(held, spot.newer, spot.operator);
    match spot.which {
        Operator::A => rule_a(held, spot),
        Operator::B => rule_b(held, spot),
        Operator::C => rule_c(text, held, spot),
        Operator::D => rule_d(held, spot),
    }
}
