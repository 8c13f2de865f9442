// Where the names and the texts of a list's words stand, and which word a token names. A word is known by its rank.
#![tactic(auto)]

ghost use Rattle.std.specs.Prelude.{◌≡◌, ◌≤◌, ◌<◌, length};
ghost use Rattle.words_shelf.specs.Words.{Shelved};

use kinds::Token;
use pieces::Piece;
use stored::{Span, part};
use words_meaning::MOST;

// Where a word of a list stands: its name and its text.
#[derive(Clone, Copy)]
pub struct WordAt {
    pub name: Span,
    pub text: Span,
}

// Where the words of a list stand, by their ranks.
pub type Words = [WordAt; MOST];

// What stands there for a rank whose word was not found yet.
pub const NO_WORD: WordAt = WordAt {
    name: Span { at: 0, len: 0 },
    text: Span { at: 0, len: 0 },
};

// The words of a list below a rank, each by where it stands.
#[derive(Clone, Copy)]
pub struct Shelf<'a> {
    pub list: &'a [u8],
    pub words: &'a [WordAt],
    pub below: usize,
    pub ghost few: { below ≤ length words.now },
    pub ghost shelved: { Shelved list.now words.now below },
}

impl<'a> Shelf<'a> {
    ghost use Rattle.std.specs.Prelude.{ℕ, List, ◌∷◌};
    ghost use Rattle.plan.specs.Pieces.{Piece as PlanPiece};
    ghost use Rattle.pieces.specs.Written.{Is, TokenAt};
    ghost use Rattle.words_meaning.specs.Linking.{percent};
    ghost use Rattle.words_shelf.specs.Shelf.{PieceStands, TokenStands, seek, seek_piece};
    ghost use Rattle.words_shelf.specs.Words.{word_of};

    // The name of the word of a rank.
    #[tactic(auto, unfolding(crate::specs::Words::word_of))]
    fn name_of(&self, rank: usize) -> &'a [u8]
        requires { rank < self.now.below }
        ensures { result.now ≡ (word_of self.now.list.now self.now.words.now rank).name }
    {
        part(self.list, self.words[rank].name)
    }

    // The text of the word of a rank.
    #[tactic(auto, unfolding(crate::specs::Words::word_of))]
    pub fn text_of(&self, rank: usize) -> &'a [u8]
        requires { rank < self.now.below }
        ensures { result.now ≡ (word_of self.now.list.now self.now.words.now rank).text }
    {
        part(self.list, self.words[rank].text)
    }

    // The words before the word of a rank.
    pub fn before(&self, rank: usize) -> Shelf<'a>
        requires { rank ≤ self.now.below }
        ensures list { result.list.now ≡ self.now.list.now }
        ensures words { result.words.now ≡ self.now.words.now }
        ensures below { result.below ≡ rank }
    {
        Shelf {
            list: self.list,
            words: self.words,
            below: rank,
        }
    }

    // Which of the words has this name. No two of them have the same one.
    pub fn find(&self, name: &[u8]) -> Option<usize>
        ensures { result ≡ seek self.now.list.now self.now.words.now self.now.below (percent ∷ name.now) }
    {
        for rank in (0..self.below).rev() {
            if self.name_of(rank) == name {
                return Some(rank);
            }
        }
        None
    }

    // Which of the words a token of the text names: behind its `{` stands `%`, and then the name.
    fn find_token(&self, text: &[u8], token: Token) -> Option<usize>
        requires { TokenStands text.now token }
        ensures { (t : List ℕ) → TokenAt text.now token.at.0 token.len t → result ≡ seek self.now.list.now self.now.words.now self.now.below t }
    {
        let at = token.at.0 as usize;
        let len = token.len as usize;
        if text[at + 1] != b'%' {
            return None;
        }
        self.find(&text[at + 2..at + len - 1])
    }

    // Which of the words a piece of the text names: only a token names any. Most pieces are none, so the question is asked where the walk is.
    #[inline(always)]
    pub fn find_piece(&self, text: &[u8], piece: Piece) -> Option<usize>
        requires { PieceStands text.now piece }
        ensures { (x : PlanPiece ℕ) → Is text.now piece x → result ≡ seek_piece self.now.list.now self.now.words.now self.now.below x }
    {
        match piece {
            Piece::Token(token) => self.find_token(text, token),
            Piece::Operator(_) | Piece::Open | Piece::Close => None,
        }
    }
}
