// Whether a word list is right, and if not, the least rank at fault. Each word is checked by itself and beside the names before it, up to
// the first that is not right. Then the texts of the words before that one are walked once, and each token is asked which word it names. So
// nothing grows with the square of the list's bytes.
#![tactic(auto)]

ghost use Rattle.std.specs.Prelude.{◌≡◌, ℕ, [], ◌≤◌, length, drop, IfOk, MatchOption, MatchResult, false};
ghost use Rattle.kinds.specs.Limits.{standard, token_limit};
ghost use Rattle.plan.specs.Pieces.{pieces};
ghost use Rattle.plan.specs.Reading.{plan_of};
ghost use Rattle.plan.specs.Token.{all_permitted};
ghost use Rattle.words_meaning.specs.Stock.{LIST_FAULT as LIST_FAULT, WORDS, is_name, stock, word_limit};
ghost use Rattle.words_meaning.specs.declared.LinkRefusal.TheVariants.{BadWords};
ghost use Rattle.words_shelf.specs.Shelf.{Readable};
ghost use Rattle.words_shelf.specs.Words.{Shelved, words_to};
ghost use Rattle.words_check.specs.Checking.{FitThere, OwnNames, earliest, fit_front, fit_words_told, fitting, is_new_name, lower, lowered, word_ahead};

#[cfg(test)]
mod tests;

use characters::{character_at, may_hold};
use items::{Placed, Walk};
use plan::Character;
use read::is_acceptable;
use stored::{NUMBER, number_at, part, two_counted_at};
use words_meaning::{LinkRefusal, MOST, NAME_LIMIT};
use words_shelf::{Shelf, WordAt};

// How many words fit by themselves, and whether they are all, with no byte behind them.
#[derive(Clone, Copy)]
pub struct FitWords {
    pub fit: usize,
    pub whole: bool,
}

// Every character is one that a token may hold.
fn are_permitted(name: &[u8]) -> bool
    ensures { result ≡ all_permitted 0 name.now }
{
    let mut at = 0;
    while at < name.len() {
        let Some(Character { value, width }) = character_at(name, at) else {
            return false;
        };
        if !may_hold(value) {
            return false;
        }
        at += width as usize;
    }
    true
}

// A name is not empty, and with `%` before it makes an allowed token.
#[tactic(auto, using(crate::proofs::Names::name_empty, crate::proofs::Names::name_long, crate::proofs::Names::name_told))]
fn is_name(name: &[u8]) -> bool
    ensures { result ≡ is_name standard name.now }
{
    match name.len() {
        1..=NAME_LIMIT => are_permitted(name),
        _ => false,
    }
}

// Whether these bytes are a name, and none of the words has it.
fn is_new_name(shelf: &Shelf, name: &[u8]) -> bool
    ensures { result ≡ is_new_name (words_to shelf.now.list.now shelf.now.words.now shelf.now.below) name.now }
{
    is_name(name) && shelf.find(name).is_none()
}

// Judges the word at a place of the list, behind the words of the shelf: by itself, and beside their names. Where it stands, if it fits.
fn check_word(shelf: &Shelf, at: usize) -> Option<WordAt>
    ensures { MatchOption result (fit_front standard (words_to shelf.now.list.now shelf.now.words.now shelf.now.below) (word_ahead shelf.now.list.now at) ≡ false) (λ w. FitThere shelf.now.list.now (words_to shelf.now.list.now shelf.now.words.now shelf.now.below) at w) }
{
    let (name, text) = two_counted_at(shelf.list, at)?;
    if !is_new_name(shelf, part(shelf.list, name)) {
        return None;
    }
    if !is_acceptable(part(shelf.list, text)) {
        return None;
    }
    Some(WordAt { name, text })
}

// Finds where the words of a list stand, up to the first that does not fit.
fn shelve(list: &[u8], words: &mut [WordAt], count: usize) -> FitWords
    requires few { count ≤ word_limit }
    requires counted { 4 ≤ length list.now }
    requires room { word_limit ≤ length words.old }
    ensures told { fitting standard count [] (drop 4 list.now) ≡ fit_words_told list.now words.new result }
    ensures shelved { Shelved list.now words.new result.fit × (result.fit ≤ word_limit) }
    ensures own_names { OwnNames list.now words.new result.fit }
    ensures as_long { length words.new ≡ length words.old }
{
    let mut at = NUMBER;
    for rank in 0..count {
        let shelf = Shelf {
            list,
            words,
            below: rank,
        };
        let Some(word) = check_word(&shelf, at) else {
            return FitWords {
                fit: rank,
                whole: false,
            };
        };
        words[rank] = word;
        at = word.text.end();
    }
    FitWords {
        fit: count,
        whole: at == list.len(),
    }
}

// The rank that was found, which is lower than the bound. Where it is below `rank`, or none was found, the bound.
fn lower(found: Option<usize>, rank: usize, bound: usize) -> usize
    ensures { result ≡ lower found rank bound }
{
    match found {
        Some(word) if rank <= word => word,
        _ => bound,
    }
}

// The least rank from `rank` on that a token of the text names, else the number of words.
fn least_named(shelf: &Shelf, text: &[u8], rank: usize) -> usize
    requires { Readable text.now }
    ensures { result ≡ lowered shelf.now.list.now shelf.now.words.now rank shelf.now.below (pieces (plan_of token_limit text.now)) }
{
    let mut least = shelf.below;
    for Placed { piece, .. } in Walk::over(text) {
        least = lower(shelf.before(least).find_piece(text, piece), rank, least);
    }
    least
}

// The least rank that a word of the same or a smaller rank uses, else the number of words.
fn earliest(shelf: &Shelf) -> usize
    requires { OwnNames shelf.now.list.now shelf.now.words.now shelf.now.below }
    ensures { result ≡ earliest token_limit (words_to shelf.now.list.now shelf.now.words.now shelf.now.below) }
{
    let mut bound = shelf.below;
    let mut rank = 0;
    while rank < bound {
        bound = least_named(&shelf.before(bound), shelf.text_of(rank), rank);
        rank += 1;
    }
    bound
}

// Judges a list, and finds where its words stand.
pub fn check_list<'a>(list: &'a [u8], words: &'a mut [WordAt]) -> Result<Shelf<'a>, LinkRefusal>
    requires { word_limit ≤ length words.old }
    ensures told { MatchResult result (λ s. stock standard list.now ≡ WORDS (words_to s.list.now s.words.now s.below)) (λ r. (rank : ℕ) × (r ≡ BadWords rank) × (stock standard list.now ≡ LIST_FAULT rank)) }
    ensures own_list { IfOk result (λ s. s.list.now ≡ list.now) }
    ensures few { IfOk result (λ s. s.below ≤ word_limit) }
    ensures as_long { IfOk result (λ s. length s.words.now ≡ length words.old) }
{
    let Some(count) = number_at(list, 0) else {
        return Err(LinkRefusal::BadWords(0));
    };
    if MOST < count as usize {
        return Err(LinkRefusal::BadWords(MOST as u32));
    }
    let FitWords { fit, whole } = shelve(list, words, count as usize);
    let shelf = Shelf {
        list,
        words,
        below: fit,
    };
    let fault = earliest(&shelf);
    if fault < fit || !whole {
        return Err(LinkRefusal::BadWords(fault as u32));
    }
    Ok(shelf)
}
