// The numbers by which the code keeps an operator and says the class of a byte, and an operator's letter: each in these functions alone.
ghost use Rattle.std.specs.Prelude.{◌≡◌};
ghost use Rattle.plan.specs.Plan.{letter};
ghost use Rattle.pieces.specs.Numbered.{operator_number, operator_of, class_of};

use plan::{Class, Operator};

// The byte that an operator is read from and printed as.
#[tactic(auto, unfolding(plan::specs::Plan::letter))]
pub fn letter(operator: Operator) -> u8
    ensures { result ≡ letter operator }
{
    match operator {
        Operator::A => b'a',
        Operator::B => b'b',
        Operator::C => b'c',
        Operator::D => b'd',
    }
}

// An operator is stored as its number, and told by it.
pub fn operator_number(operator: Operator) -> u32
    ensures { result ≡ operator_number operator }
{
    operator as u32
}

pub fn operator_of(number: u32) -> Operator
    ensures { result ≡ operator_of number }
{
    match number {
        0 => Operator::A,
        1 => Operator::B,
        2 => Operator::C,
        _ => Operator::D,
    }
}

// The class that an entry of the table of class numbers says.
pub fn class_of_number(number: u8) -> Class
    ensures { result ≡ class_of number }
{
    match number {
        4 => Class::Open,
        5 => Class::Close,
        6 => Class::Brace,
        7 => Class::Blank,
        8 => Class::Bad,
        _ => Class::Operator(operator_of(number as u32)),
    }
}
