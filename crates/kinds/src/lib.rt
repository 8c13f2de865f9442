// `Place`, `Cell` and `Token`: the kinds of number that must not be mixed up, each with its limit, written once; also bytes put into an
// output, and laws of tests.
#![tactic(auto)]

ghost use Rattle.std.specs.Prelude.{◌≡◌, ◌≤◌};
ghost use Rattle.kinds.specs.Limits.{token_limit, cell_limit, cell_numbers, text_limit};

// The place of a byte in a text, or the place just past its last byte.
#[derive(Clone, Copy, PartialEq, Eq)]
pub struct Place(pub u32);

// The number of a cell of the work memory.
#[derive(Clone, Copy, PartialEq, Eq)]
pub struct Cell(pub u32);

// A token in a text: the place of its `{` and its bytes, both braces among them.
#[derive(Clone, Copy, PartialEq, Eq)]
pub struct Token {
    pub at: Place,
    pub len: u32,
}

impl Place {
    // The longest text.
    pub const LIMIT: usize = 1_048_576;

    pub fn limit() -> usize
        ensures { result ≡ text_limit }
    {
        Self::LIMIT
    }

    // A place is never past the longest text.
    pub fn new(at: usize) -> Place
        requires { at ≤ text_limit }
        ensures { result.0 ≡ at }
    {
        Place(at as u32)
    }
}

impl Cell {
    // The largest plan.
    pub const LIMIT: usize = 4096;

    // The numbers lent for one cell.
    pub const NUMBERS: usize = 4;

    pub fn limit() -> usize
        ensures { result ≡ cell_limit }
    {
        Self::LIMIT
    }

    pub fn numbers() -> usize
        ensures { result ≡ cell_numbers }
    {
        Self::NUMBERS
    }

    pub fn new(number: usize) -> Cell
        requires { number ≤ cell_limit }
        ensures { result.0 ≡ number }
    {
        Cell(number as u32)
    }
}

impl Token {
    // The longest token, both braces among its bytes.
    pub const LIMIT: usize = 64;

    pub fn limit() -> usize
        ensures { result ≡ token_limit }
    {
        Self::LIMIT
    }

    pub fn new(at: Place, len: usize) -> Token
        requires { len ≤ token_limit }
        ensures { (result.at ≡ at) × (result.len ≡ len) }
    {
        Token {
            at,
            len: len as u32,
        }
    }
}
