// Writes a linked plan: the text's pieces in a row, with a word's linked text where its token stands. A word is written once and then
// copied from the output, and one that links to nothing is not entered. So the work is to walk each text once and to write the bytes.
#![tactic(auto)]

ghost use Rattle.std.specs.Prelude.{◌≡◌, ℕ, ◌+◌, ◌≤◌, ◌<◌, List, length, IfSome};
ghost use Rattle.kinds.specs.Written.{put_at};
ghost use Rattle.plan.specs.Plan.{print};
ghost use Rattle.pieces.specs.Written.{InText, piece_bytes, piece_length};
ghost use Rattle.stored.specs.Spans.{part};
ghost use Rattle.words_meaning.specs.Stock.{word_limit};
ghost use Rattle.words_shelf.specs.declared.WordAt.{WordAt};
ghost use Rattle.words_shelf.specs.Shelf.{Readable, linked_text, linked_word};
ghost use Rattle.words_measure.specs.Sizes.{SizesKnown};
ghost use Rattle.words_write.specs.Writing.{WordsPlaced, WritableLong, WritableWordLong, WrittenBefore};

use items::{Placed, Walk};
use pieces::{Piece, put_piece};
use plan::Size;
use stored::Span;
use words_meaning::MOST;
use words_shelf::Shelf;

// Where in the output the linked texts of the words stand that were written.
pub type Places = [Option<Span>; MOST];

// Writes a piece, and gives the place behind it.
fn put_itself(text: &[u8], piece: Piece, out: &mut [u8], put: usize) -> usize
    requires { InText text.now piece × (put + piece_length piece ≤ length out.old) }
    ensures behind { result ≡ put + piece_length piece }
    ensures written { out.new ≡ put_at out.old put (piece_bytes text.now piece) }
{
    put_piece(text, piece, out, put);
    put + piece.length() as usize
}

// Copies bytes of the output to a place behind them, and gives the place behind the copy.
fn copy_on(out: &mut [u8], span: Span, put: usize) -> usize
    requires { (span.at + span.len ≤ put) × (put + span.len ≤ length out.old) }
    ensures behind { result ≡ put + span.len }
    ensures written { out.new ≡ put_at out.old put (part out.old span) }
{
    out.copy_within(span.at..span.end(), put);
    put + span.len
}

// Where a word's linked text stands in the output, if it does. One that links to nothing stands anywhere.
fn place_of(sizes: &[Option<Size>], places: &[Option<Span>], word: usize) -> Option<Span>
    requires { (word < length sizes.now) × (word < length places.now) }
    ensures { (list : List ℕ) (words : List WordAt) (out : List ℕ) (put : ℕ) → SizesKnown list words sizes.now → WordsPlaced list words places.now out put → IfSome result (λ s. WrittenBefore out put s (print (linked_word list words word))) }
{
    match sizes[word] {
        Some(size) if size.cells == 0 => Some(Span { at: 0, len: 0 }),
        _ => places[word],
    }
}

// Writes a word's linked text, and gives the place behind it. Where it stands in the output it is copied. Else it is written now by the words
// before it, and its place is remembered.
#[cycle(write_text_write_word)]
fn write_word(
    shelf: &Shelf,
    word: usize,
    sizes: &[Option<Size>],
    places: &mut [Option<Span>],
    out: &mut [u8],
    put: usize,
) -> usize
    requires { WritableWordLong shelf.now.list.now shelf.now.words.now shelf.now.below word sizes.now places.old out.old put }
    ensures behind { result ≡ put + length (print (linked_word shelf.now.list.now shelf.now.words.now word)) }
    ensures written { out.new ≡ put_at out.old put (print (linked_word shelf.now.list.now shelf.now.words.now word)) }
    ensures placed { WordsPlaced shelf.now.list.now shelf.now.words.now places.new out.new result }
    ensures as_long { length places.new ≡ length places.old }
{
    if let Some(span) = place_of(sizes, places, word) {
        return copy_on(out, span, put);
    }
    let end = write_text(
        &shelf.before(word),
        shelf.text_of(word),
        sizes,
        places,
        out,
        put,
    );
    places[word] = Some(Span {
        at: put,
        len: end - put,
    });
    end
}

// Writes a text's plan, linked by the words of a shelf, and gives the place behind it. A word that it uses is written in the same way: its
// rank is smaller, so this ends.
#[cycle(write_text_write_word)]
pub fn write_text(
    shelf: &Shelf,
    text: &[u8],
    sizes: &[Option<Size>],
    places: &mut [Option<Span>],
    out: &mut [u8],
    put: usize,
) -> usize
    requires { WritableLong shelf.now.list.now shelf.now.words.now shelf.now.below text.now sizes.now places.old out.old put }
    ensures behind { result ≡ put + length (print (linked_text shelf.now.list.now shelf.now.words.now shelf.now.below text.now)) }
    ensures written { out.new ≡ put_at out.old put (print (linked_text shelf.now.list.now shelf.now.words.now shelf.now.below text.now)) }
    ensures placed { WordsPlaced shelf.now.list.now shelf.now.words.now places.new out.new result }
    ensures as_long { length places.new ≡ length places.old }
{
    let mut end = put;
    for Placed { piece, .. } in Walk::over(text) {
        end = match shelf.find_piece(text, piece) {
            None => put_itself(text, piece, out, end),
            Some(word) => write_word(shelf, word, sizes, places, out, end),
        };
    }
    end
}

// Writes a text's plan, linked by the words of a shelf, to the front of the output.
pub fn write(shelf: &Shelf, text: &[u8], sizes: &[Option<Size>], out: &mut [u8])
    requires few { shelf.now.below ≤ word_limit }
    requires reads { Readable text.now }
    requires known { SizesKnown shelf.now.list.now shelf.now.words.now sizes.now }
    requires long { shelf.now.below ≤ length sizes.now }
    requires room { length (print (linked_text shelf.now.list.now shelf.now.words.now shelf.now.below text.now)) ≤ length out.old }
    ensures { out.new ≡ put_at out.old 0 (print (linked_text shelf.now.list.now shelf.now.words.now shelf.now.below text.now)) }
{
    let mut places: Places = [None; MOST];
    write_text(shelf, text, sizes, &mut places, out, 0);
}
