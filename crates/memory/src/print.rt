// The printed text of a plan in the memory. The ports of a plan stand in one chain in the order of the printed text, so
// each walk here is one loop along the links: no recursion, and nothing is kept of the blocks that are open.
ghost use Rattle.std.specs.Prelude.{◌≡◌, ℕ, ◌+◌, ◌*◌, ◌/◌, ◌≤◌, length};
ghost use Rattle.kinds.specs.Limits.{cell_numbers};
ghost use Rattle.kinds.specs.Written.{put_at};
ghost use Rattle.plan.specs.Plan.{Plan, print};
ghost use Rattle.memory.specs.Held.{HeldIn};
ghost use Rattle.memory.specs.Pieces.{piece_at, PrintsWithin, print_limit};

use crate::{HeldPlan, Kind, Port, kind_at, token_at};
use pieces::{Piece, put_piece};

// The piece that a port shows: a block's `]`, or by its cell's kind an operator, a token or a block's `[`.
pub fn piece_at(memory: &[u32], port: Port) -> Piece
    requires { cell_numbers * (port.0 / 2) + cell_numbers ≤ length memory.now }
    ensures { result ≡ piece_at memory.now port.0 }
{
    if port.closes() {
        return Piece::Close;
    }
    match kind_at(memory, port) {
        Kind::Operator(operator) => Piece::Operator(operator),
        Kind::Token => Piece::Token(token_at(memory, port)),
        Kind::Block => Piece::Open,
    }
}

impl HeldPlan<'_> {
    // The piece that a port shows, as the numbers alone say it.
    pub fn piece_at(&self, port: Port) -> Piece
        requires { cell_numbers * (port.0 / 2) + cell_numbers ≤ length self.now.numbers.now }
        ensures { result ≡ piece_at self.now.numbers.now port.0 }
    {
        piece_at(self.numbers, port)
    }

    // How long the printed text is. The text itself is not read. It is there for the contract, which tells the plan by it.
    pub fn printed_length(&self, text: &[u8]) -> u32
        requires { PrintsWithin 0 print_limit text.now self.now }
        ensures { (t : Plan ℕ) → HeldIn text.now self.now t → result ≡ length (print t) }
    {
        let end = Port::close(self.kept.outer);
        let mut port = self.kept.first;
        let mut length = 0;
        while port != end {
            length += self.piece_at(port).length();
            port = self.link_of(port);
        }
        length
    }

    // Writes the printed text to the output, from the place `from` on.
    pub fn print_into(&self, text: &[u8], out: &mut [u8], from: usize)
        requires { PrintsWithin from (length out.old) text.now self.now }
        ensures { (t : Plan ℕ) → HeldIn text.now self.now t → out.new ≡ put_at out.old from (print t) }
    {
        let end = Port::close(self.kept.outer);
        let mut port = self.kept.first;
        let mut put = from;
        while port != end {
            let piece = self.piece_at(port);
            put_piece(text, piece, out, put);
            put += piece.length() as usize;
            port = self.link_of(port);
        }
    }
}
