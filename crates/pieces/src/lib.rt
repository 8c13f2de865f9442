// The pieces of a plan as the code hands them about (an operator, a token, `[`, `]`), and writing one to an output; the numbers by which
// the code keeps operators and classes of bytes. A walk over a text gives pieces, and the chain of the work memory shows pieces. A token's
// bytes stay in the text.
#![tactic(auto)]

ghost use Rattle.std.specs.Prelude.{◌≡◌, ◌+◌, ◌≤◌, length, take, drop};
ghost use Rattle.kinds.specs.Written.{put_at};
ghost use Rattle.pieces.specs.Written.{piece_length, piece_bytes, InText};

use kinds::Token;
use plan::Operator;

mod numbering;

pub use numbering::{class_of_number, letter, operator_number, operator_of};

#[derive(Clone, Copy, PartialEq, Eq)]
pub enum Piece {
    Operator(Operator),
    Token(Token),
    Open,
    Close,
}

impl Piece {
    // How many bytes it prints.
    pub fn length(self) -> u32
        ensures { result ≡ piece_length self }
    {
        match self {
            Piece::Token(token) => token.len,
            Piece::Operator(_) | Piece::Open | Piece::Close => 1,
        }
    }
}

// Copies the bytes of a token of the text to the output, from the place `put` on.
fn copy_token(text: &[u8], token: Token, out: &mut [u8], put: usize)
    requires { (token.at.0 + token.len ≤ length text.now) × (put + token.len ≤ length out.old) }
    ensures { out.new ≡ put_at out.old put (take token.len (drop token.at.0 text.now)) }
{
    let at = token.at.0 as usize;
    let len = token.len as usize;
    out[put..put + len].copy_from_slice(&text[at..at + len]);
}

// Writes a piece to the output, from the place `put` on.
pub fn put_piece(text: &[u8], piece: Piece, out: &mut [u8], put: usize)
    requires { InText text.now piece × (put + piece_length piece ≤ length out.old) }
    ensures { out.new ≡ put_at out.old put (piece_bytes text.now piece) }
{
    match piece {
        Piece::Operator(operator) => out[put] = letter(operator),
        Piece::Token(token) => copy_token(text, token, out, put),
        Piece::Open => out[put] = b'[',
        Piece::Close => out[put] = b']',
    }
}
