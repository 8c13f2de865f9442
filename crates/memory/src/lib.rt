// The work memory, a plan in lent numbers, four for each cell: what it means that the memory holds a plan, and its laws; links, printing
// along the chain, clearing. specs/Memory.antt says what a number means. A link is read and stored as the `Port` that it leads to or as the
// `Cell` that it keeps, and a token as a `Token` with its `Place` in the text.
#![tactic(auto)]

ghost use Rattle.std.specs.Prelude.{◌≡◌, ◌+◌, ◌*◌, ◌/◌, ◌%◌, ◌<◌, ◌≤◌, eqb, length, set};
ghost use Rattle.kinds.specs.Limits.{cell_limit, cell_numbers};
ghost use Rattle.plan.specs.Outcomes.{cleared};
ghost use Rattle.memory.specs.Lent.{Lent};
ghost use Rattle.memory.specs.Memory.{start, close, datum, link, token_at};
ghost use Rattle.memory.specs.Numbered.{kind_number, kind_of};

use kinds::{Cell, Place, Token};
use pieces::{operator_number, operator_of};
use plan::Operator;

mod print;

pub use print::piece_at;

// A port of a cell: its start, or its close.
#[derive(Clone, Copy, PartialEq, Eq)]
pub struct Port(pub u32);

impl Port {
    pub fn start(cell: Cell) -> Port
        requires { cell.0 ≤ cell_limit }
        ensures { result.0 ≡ start cell.0 }
    {
        Port(2 * cell.0)
    }

    pub fn close(cell: Cell) -> Port
        requires { cell.0 ≤ cell_limit }
        ensures { result.0 ≡ close cell.0 }
    {
        Port(2 * cell.0 + 1)
    }

    pub fn cell(self) -> Cell
        ensures { result.0 ≡ self.0 / 2 }
    {
        Cell(self.0 / 2)
    }

    pub fn closes(self) -> bool
        ensures { result ≡ eqb (self.0 % 2) 1 }
    {
        self.0 % 2 == 1
    }
}

// What a cell is.
#[derive(Clone, Copy)]
pub enum Kind {
    Operator(Operator),
    Token,
    Block,
}

// A kind is stored as its number, and told by it, in these two functions alone.

impl From<Kind> for u32 {
    ghost from_gives = { λ kind number. number ≡ kind_number kind };

    fn from(kind: Kind) -> u32 {
        match kind {
            Kind::Operator(which) => operator_number(which),
            Kind::Token => 4,
            Kind::Block => 5,
        }
    }
}

impl From<u32> for Kind {
    ghost from_gives = { λ number kind. kind ≡ kind_of number };

    fn from(number: u32) -> Kind {
        match number {
            4 => Kind::Token,
            5 => Kind::Block,
            _ => Kind::Operator(operator_of(number)),
        }
    }
}

// Sets every number to 0.
#[tactic(auto, unfolding(plan::specs::Outcomes::cleared))]
pub fn clear(memory: &mut [u32])
    ensures { memory.new ≡ cleared memory.old }
{
    memory.fill(0);
}

// The kind that the datum of a start says.
pub fn kind_at(memory: &[u32], port: Port) -> Kind
    requires { 2 * port.0 < length memory.now }
    ensures { result ≡ kind_of (datum memory.now port.0) }
{
    Kind::from(memory[2 * port.0 as usize])
}

// The token that starts at a port: its cell's second pair of numbers is its place and its length.
pub fn token_at(memory: &[u32], port: Port) -> Token
    requires { 2 * port.0 + cell_numbers ≤ length memory.now }
    ensures { result ≡ token_at memory.now port.0 }
{
    let number = 2 * (port.0 as usize + 1);
    Token {
        at: Place(memory[number]),
        len: memory[number + 1],
    }
}

// What is kept beside the numbers of a plan in the memory: the cell that is not lent, whose inside is the outermost sequence; the first port of
// that sequence; and the first free cell.
#[derive(Clone, Copy, PartialEq, Eq)]
pub struct Held {
    pub outer: Cell,
    pub first: Port,
    pub free: Cell,
}

// A plan in the memory: the numbers lent, four for each cell, and as they were past the last; and what is kept beside them. Where a sequence is
// built, `tail` is its last port so far, and `opened` its innermost open block.
#[derive(Drop)]
pub struct HeldPlan<'a> {
    pub numbers: &'a mut [u32],
    pub kept: Held,
    pub tail: Port,
    pub opened: Cell,
    pub ghost lent: { Lent kept.outer.0 numbers.now },
}

impl HeldPlan<'_> {
    ghost use Rattle.memory.specs.Held.{held_numbers};
    ghost use Rattle.memory.specs.Model.{Stepped, model, with_numbers};

    // The kind that the datum of a start says, as the numbers alone say it.
    pub fn kind_at(&self, port: Port) -> Kind
        requires { 2 * port.0 < length self.now.numbers.now }
        ensures { result ≡ kind_of (datum self.now.numbers.now port.0) }
    {
        kind_at(self.numbers, port)
    }

    // The token that starts at a port, as the numbers alone say it.
    pub fn token_at(&self, port: Port) -> Token
        requires { 2 * port.0 + cell_numbers ≤ length self.now.numbers.now }
        ensures { result ≡ token_at self.now.numbers.now port.0 }
    {
        token_at(self.numbers, port)
    }

    // The number in the link of a port of a lent cell.
    fn link_number(&self, port: Port) -> u32
        requires { port.0 < start self.now.kept.outer.0 }
        ensures { result ≡ link (held_numbers self.now) port.0 }
    {
        self.numbers[2 * port.0 as usize + 1]
    }

    // Stores a number of a lent cell.
    pub fn set_number(&mut self, number: usize, value: u32)
        requires { number < cell_numbers * self.old.kept.outer.0 }
        ensures { Stepped self.old self.new (with_numbers (model self.old) (set (held_numbers self.old) number value)) }
    {
        self.numbers[number] = value;
    }

    // Where the link of a port leads; that of the outermost start is kept beside the numbers.
    pub fn link_of(&self, port: Port) -> Port
        requires { port.0 ≤ start self.now.kept.outer.0 }
        ensures { result.0 ≡ link (held_numbers self.now) port.0 }
    {
        if port == Port::start(self.kept.outer) {
            return self.kept.first;
        }
        Port(self.link_number(port))
    }

    // Lets a port link to another.
    pub fn set_link(&mut self, port: Port, to: Port)
        requires { port.0 ≤ start self.old.kept.outer.0 }
        ensures { Stepped self.old self.new (with_numbers (model self.old) (set (held_numbers self.old) (2 * port.0 + 1) to.0)) }
    {
        if port == Port::start(self.kept.outer) {
            self.kept.first = to;
        } else {
            self.set_number(2 * port.0 as usize + 1, to.0);
        }
    }

    // The cell that a port keeps where its link leads nowhere. The start of a free cell keeps the next free one. The close
    // of an open block keeps the cell around it.
    pub fn kept_cell(&self, port: Port) -> Cell
        requires { port.0 < start self.now.kept.outer.0 }
        ensures { result.0 ≡ link (held_numbers self.now) port.0 }
    {
        Cell(self.link_number(port))
    }

    pub fn keep_cell(&mut self, port: Port, cell: Cell)
        requires { port.0 < start self.old.kept.outer.0 }
        ensures { Stepped self.old self.new (with_numbers (model self.old) (set (held_numbers self.old) (2 * port.0 + 1) cell.0)) }
    {
        self.set_number(2 * port.0 as usize + 1, cell.0);
    }
}
