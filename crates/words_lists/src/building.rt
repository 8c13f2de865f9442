// Word lists as they are stored, built in a buffer from the field of a line.
//
// The field is words `name = text` parted by `, `, or `0x` and the bytes of a list in hex, or `-` for the list of the line before. An empty
// field is the list of no words.
ghost use Rattle.std.specs.Prelude.{◌≤◌};
ghost use Rattle.words_lists.specs.declared.building.TheConstants.{LIST};

use lines::{SignedParts, put_hex, split_once};
use stored::{NUMBER, put_counted, put_number};

// More bytes than any of these lists has.
pub const LIST: usize = 8192;

// No name and no text here is longer.
const LONGEST: usize = 1000;

// No list has more words.
const MOST: u32 = 1000;

// A list in the first bytes of its room, and how many words were put into it.
#[derive(Clone, Copy)]
pub struct List {
    bytes: usize,
    pub words: u32,
    ghost within: { bytes ≤ LIST },
}

impl List {
    // The count of the words alone.
    fn empty() -> Self {
        Self {
            bytes: NUMBER,
            words: 0,
        }
    }

    // The list with bytes behind their count at its end; none if there is no room.
    fn with_bytes(self, room: &mut [u8; LIST], given: &[u8]) -> Option<Self> {
        if LONGEST < given.len() {
            return None;
        }
        let bytes = self.bytes + NUMBER + given.len();
        if room.len() < bytes {
            return None;
        }
        put_counted(room, self.bytes, given);
        Some(Self {
            bytes,
            words: self.words,
        })
    }

    // The list with a word more; none if this is no word, or cannot be put.
    fn with_word(self, room: &mut [u8; LIST], word: &[u8]) -> Option<Self> {
        let (name, text) = split_once(word, b" = ")?;
        if MOST < self.words {
            return None;
        }
        let put = self.with_bytes(room, name)?.with_bytes(room, text)?;
        Some(Self {
            bytes: put.bytes,
            words: self.words + 1,
        })
    }
}

// Puts the words of a field behind the list's count.
fn put_words(room: &mut [u8; LIST], field: &[u8]) -> Option<List> {
    let mut put = List::empty();
    if field.is_empty() {
        return Some(put);
    }
    for word in SignedParts::of(field, b", ") {
        put = put.with_word(room, word)?;
    }
    Some(put)
}

// Room for a list, and the last that was put to its front; none if there was none yet, or its field could not be read.
#[derive(Drop)]
pub struct Lists<'a> {
    room: &'a mut [u8; LIST],
    last: Option<List>,
}

impl<'a> Lists<'a> {
    pub fn new(room: &'a mut [u8; LIST]) -> Self {
        Self { room, last: None }
    }

    fn build(&mut self, field: &[u8]) -> Option<List> {
        if field == b"-".as_slice() {
            return self.last;
        }
        if let Some(digits) = field.strip_prefix(b"0x") {
            let bytes = put_hex(digits, self.room)?;
            return Some(List { bytes, words: 0 });
        }
        let list = put_words(self.room, field)?;
        put_number(self.room, 0, list.words);
        Some(list)
    }

    // Puts the list that a field stands for.
    pub fn put(&mut self, field: &[u8]) -> Option<List> {
        self.last = self.build(field);
        self.last
    }

    // The bytes of the list that was put last.
    pub fn bytes_of(&self, list: List) -> &[u8] {
        &self.room[..list.bytes]
    }
}
