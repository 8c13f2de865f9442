// How large a linked plan is: its cells and the bytes of its printed text, before anything is written. To measure a text is to measure the
// words that it uses. A word is measured once and then remembered, and counts stop growing past the limit. So even a list in which each word
// uses the one before it twice is soon measured.
#![tactic(auto)]

ghost use Rattle.std.specs.Prelude.{◌≡◌, ℕ, ◌<◌, ◌≤◌, List, [], ◌∷◌, length};
ghost use Rattle.plan.specs.Pieces.{Piece as PlanPiece};
ghost use Rattle.pieces.specs.Written.{Is};
ghost use Rattle.words_shelf.specs.Shelf.{Readable, linked_text, linked_word};
ghost use Rattle.words_measure.specs.Sizes.{SizesKnown, piece_cells, plus, size, size_of};

use items::{Placed, Walk};
use kinds::{Cell, Token};
use pieces::Piece;
use plan::Size;
use words_meaning::MOST;
use words_shelf::Shelf;

// One cell more than a plan may have, and one byte more than its printed text can have: a size does not grow past these two.
pub const PAST_CELLS: u32 = Cell::LIMIT as u32 + 1;

pub const PAST_BYTES: u32 = (Token::LIMIT * Cell::LIMIT) as u32 + 1;

// The sizes of the words that were measured.
pub type Sizes = [Option<Size>; MOST];

#[tactic(auto, unfolding(crate::specs::Sizes::plus))]
fn plus(a: Size, b: Size) -> Size
    ensures { result ≡ plus a b }
{
    Size {
        cells: a.cells.saturating_add(b.cells).min(PAST_CELLS),
        length: a.length.saturating_add(b.length).min(PAST_BYTES),
    }
}

// A piece begins an item, except a `]`.
fn cells_of(piece: Piece) -> u32
    ensures { result ≡ piece_cells piece }
{
    match piece {
        Piece::Operator(_) | Piece::Token(_) | Piece::Open => 1,
        Piece::Close => 0,
    }
}

// The size of a piece that stays.
fn size_of(piece: Piece) -> Size
    ensures { (text : List ℕ) (x : PlanPiece ℕ) → Is text piece x → result ≡ size_of (x ∷ []) }
{
    Size {
        cells: cells_of(piece),
        length: piece.length().min(PAST_BYTES),
    }
}

// The size of a word's linked plan: as it is remembered, or else measured now by the words before it, and remembered.
#[cycle(measure_measure_word)]
fn measure_word(shelf: &Shelf, word: usize, sizes: &mut [Option<Size>]) -> Size
    requires below { word < shelf.now.below }
    requires known { SizesKnown shelf.now.list.now shelf.now.words.now sizes.old }
    requires long { shelf.now.below ≤ length sizes.old }
    ensures told { result ≡ size (linked_word shelf.now.list.now shelf.now.words.now word) }
    ensures known { SizesKnown shelf.now.list.now shelf.now.words.now sizes.new }
    ensures as_long { length sizes.new ≡ length sizes.old }
{
    if let Some(size) = sizes[word] {
        return size;
    }
    let size = measure(&shelf.before(word), shelf.text_of(word), sizes);
    sizes[word] = Some(size);
    size
}

// Measures a text's plan, linked by the words of a shelf. A word that it uses is measured in the same way: its rank is smaller, so this ends.
#[cycle(measure_measure_word)]
pub fn measure(shelf: &Shelf, text: &[u8], sizes: &mut [Option<Size>]) -> Size
    requires reads { Readable text.now }
    requires known { SizesKnown shelf.now.list.now shelf.now.words.now sizes.old }
    requires long { shelf.now.below ≤ length sizes.old }
    ensures told { result ≡ size (linked_text shelf.now.list.now shelf.now.words.now shelf.now.below text.now) }
    ensures known { SizesKnown shelf.now.list.now shelf.now.words.now sizes.new }
    ensures as_long { length sizes.new ≡ length sizes.old }
{
    let mut sum = Size {
        cells: 0,
        length: 0,
    };
    for Placed { piece, .. } in Walk::over(text) {
        let size = match shelf.find_piece(text, piece) {
            None => size_of(piece),
            Some(word) => measure_word(shelf, word, sizes),
        };
        sum = plus(sum, size);
    }
    sum
}
