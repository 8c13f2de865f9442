// What a text is: plans, tokens and their faults, annotations, reading, printing, a plan as a flat list of pieces; which texts are
// acceptable, what READ answers, and the one way to answer; the laws of all these. The definitions in specs/ speak of the types here, so
// that a promise is one equation.
#![tactic(auto)]

ghost use Rattle.std.specs.Prelude.{◌≡◌};
ghost use Rattle.plan.specs.declared.ReadRefusal.TheVariants.{NotRead};
ghost use Rattle.plan.specs.declared.Unread.TheVariants.{Text};

use kinds::Place;

#[derive(Clone, Copy, PartialEq, Eq)]
pub enum Operator {
    A,
    B,
    C,
    D,
}

// The class of a byte outside tokens.
#[derive(Clone, Copy, PartialEq, Eq)]
pub enum Class {
    Operator(Operator),
    Open,
    Close,
    Brace,
    Blank,
    Bad,
}

// A character of UTF-8, and how many bytes it has. Bytes that begin none have no character.
#[derive(Clone, Copy, PartialEq, Eq)]
pub struct Character {
    pub value: u32,
    pub width: u32,
}

// What is wrong with a token.
#[derive(Clone, Copy, PartialEq, Eq)]
pub enum TokenFault {
    Empty,
    Long,
    BadUtf8,
    Forbidden,
    InnerBrace,
}

// What is wrong with a text, with the place of the fault: every family of services that reads a text shares these.
#[derive(Clone, Copy, PartialEq, Eq)]
pub enum TextFault {
    TooLong,
    BadByte(Place),
    BadToken { fault: TokenFault, at: Place },
    Unmatched(Place),
    Unclosed(Place),
}

// Why a text is not read: because it has a fault, or because it is too large, at the first item past the cells that there are.
#[derive(Clone, Copy, PartialEq, Eq)]
pub enum Unread {
    Text(TextFault),
    Overfull(Place),
}

// A fault is the first thing that keeps a text from being read.
impl From<TextFault> for Unread {
    ghost from_gives = { λ f u. u ≡ Text f };

    fn from(fault: TextFault) -> Unread {
        Unread::Text(fault)
    }
}

// Why a call of READ is refused.
#[derive(Clone, Copy, PartialEq, Eq)]
pub enum ReadRefusal {
    NotRead(Unread),
    // The bytes needed.
    OutShort(u32),
}

impl From<Unread> for ReadRefusal {
    ghost from_gives = { λ u r. r ≡ NotRead u };

    fn from(why: Unread) -> ReadRefusal {
        ReadRefusal::NotRead(why)
    }
}

// How large a plan is: its cells, and the bytes of its printed text.
#[derive(Clone, Copy, PartialEq, Eq)]
pub struct Size {
    pub cells: u32,
    pub length: u32,
}
