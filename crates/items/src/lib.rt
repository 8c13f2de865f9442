// The one walk over an accepted text, piece by piece, past its marks; and writing the text without them. Marks (SP, LF and annotations)
// mean nothing. All code that goes over an accepted text uses this walk, so its marks are passed over here and nowhere else. The walk looks
// for no fault, since there is none.
#![tactic(auto)]

ghost use Rattle.std.specs.Prelude.{◌≡◌, ◌==◌, ℕ, suc, ◌+◌, ◌-◌, ◌<◌, ◌≤◌, List, length, drop, position};
ghost use Rattle.kinds.specs.Limits.{text_limit, token_limit};
ghost use Rattle.plan.specs.Plan.{close_brace};
ghost use Rattle.plan.specs.Pieces.{Found, Piece as PlanPiece, Shows};
ghost use Rattle.std.specs.Iterator.{at_most};
ghost use Rattle.items.specs.Walk.{Begins, Gives, MarkAt, MarkFrom, PieceFrom, ShowsAhead, TokenFrom, Walked, at_place, one_token};

use kinds::{Place, Token};
use pieces::Piece;
use plan::Class;
use text::{class_of, is_mark};

mod tidy;

pub use tidy::put_tidied;

// A piece of the text, with the place of its first byte.
#[derive(Clone, Copy)]
pub struct Placed {
    pub piece: Piece,
    pub at: Place,
}

impl Placed {
    // The piece that begins at a byte of the text.
    fn new(piece: Piece, at: usize) -> Placed
        requires { at ≤ text_limit }
        ensures { result ≡ at_place piece at }
    {
        Placed {
            piece,
            at: Place::new(at),
        }
    }
}

// The walk over an accepted text, piece by piece: the text, and where the walk stands in it. A walk may begin wherever the text shows pieces.
#[derive(Clone, Copy)]
pub struct Walk<'a> {
    pub text: &'a [u8],
    pub at: usize,
}

// Where the first `}` stands.
fn first_brace(text: &[u8]) -> Option<usize>
    ensures { result ≡ position (λ b. b == close_brace) text.now }
{
    text.iter().position(|byte| *byte == b'}')
}

// The place of the `}` that ends a token. `from` is the place right behind the token's `{`.
fn token_end(text: &[u8], from: usize) -> usize
    requires { (t : List ℕ) × Found token_limit (drop from text.now) t }
    ensures { (t : List ℕ) → Found token_limit (drop from text.now) t → result ≡ from + length t }
{
    from + first_brace(&text[from..]).unwrap()
}

fn token_piece(text: &[u8], at: usize) -> Placed
    requires { TokenFrom text.now at }
    ensures { (t : List ℕ) → Found token_limit (drop (at + 1) text.now) t → result ≡ one_token at t }
{
    let end = token_end(text, at + 1);
    let token = Token::new(Place::new(at), end + 1 - at);
    Placed::new(Piece::Token(token), at)
}

// The place behind a mark: an annotation ends as every token does.
fn mark_end(text: &[u8], at: usize) -> usize
    requires { MarkFrom text.now at }
    ensures { (m : List ℕ) → MarkAt text.now at m → result ≡ at + suc (length m) }
{
    if text[at] == b'{' {
        return token_end(text, at + 1) + 1;
    }
    at + 1
}

// The piece that begins at a place of an accepted text, where no mark begins.
#[inline(always)]
fn piece_at(text: &[u8], at: usize) -> Placed
    requires { PieceFrom text.now at }
    ensures { (ps : List (PlanPiece ℕ)) → Shows token_limit at (drop at text.now) ps → Begins text.now at result ps }
{
    match class_of(text[at]) {
        Class::Operator(operator) => Placed::new(Piece::Operator(operator), at),
        Class::Open => Placed::new(Piece::Open, at),
        Class::Close => Placed::new(Piece::Close, at),
        Class::Brace => token_piece(text, at),
        // A blank is a mark, and an accepted text has no refused byte.
        Class::Blank | Class::Bad => unreachable!(),
    }
}

// The next piece of an accepted text, from a place on.
#[inline(always)]
fn next_piece(text: &[u8], from: usize) -> Option<Placed>
    requires { ShowsAhead text.now from }
    ensures { (ps : List (PlanPiece ℕ)) → Shows token_limit from (drop from text.now) ps → Walked text.now from result ps }
{
    let mut at = from;
    while at < text.len() {
        if is_mark(text, at) {
            at = mark_end(text, at);
        } else {
            return Some(piece_at(text, at));
        }
    }
    None
}

impl<'a> Walk<'a> {
    // The walk from the first byte on.
    pub fn over(text: &'a [u8]) -> Walk<'a>
        ensures { (result.text.now ≡ text.now) × (result.at ≡ 0) }
    {
        Walk { text, at: 0 }
    }
}

impl<'a> Iterator for Walk<'a> {
    type Item = Placed;

    ghost can_next = { λ s. ShowsAhead s.text.now s.at };

    ghost next_gives = { λ s r t. Gives s.text.now s.at r t.text.now t.at };

    ghost remaining = { λ s. at_most (length s.text.now - s.at) };

    // A loop over a text takes half as long again where each piece is handed to it through memory.
    #[inline(always)]
    fn next(&mut self) -> Option<Placed> {
        let next = next_piece(self.text, self.at)?;
        self.at = next.at.0 as usize + next.piece.length() as usize;
        Some(next)
    }
}
