// The one reader of a text: it finds the first fault and its place, or else counts the cells and the printed bytes. It needs no lent
// memory. An outer loop goes over the items, and an inner loop over the bytes of a token. The first fault leaves both by a label. A token
// without a fault is an item, unless it is an annotation, which counts for nothing. The reader goes on counting when there is no more room
// for cells, because a fault later in the text outranks a plan that is too large. The caller decides whether the plan is too large.
#![tactic(auto)]

ghost use Rattle.std.specs.Prelude.{◌≡◌, ◌+◌, ◌-◌, ◌<◌, ◌≤◌, length, get_or, drop};
ghost use Rattle.kinds.specs.Limits.{text_limit, token_limit};
ghost use Rattle.plan.specs.Reading.{class, mark, read_bytes};
ghost use Rattle.text.specs.TokenEnds.{TokenEnds};
ghost use Rattle.reader.specs.Counting.{Small, nothing_yet, one_item, opened, block_closed, stepped, kept_or_passed, survey_ended, surveyed};

use kinds::{Place, Token};
use plan::{Class, Size, TextFault};
use text::{class_of, is_mark};
use tokens::{FaultyToken, InToken, token_byte};

// What was counted so far: blocks open, items begun, bytes that will be printed, and the place of the first item past
// the room, once there is one.
#[derive(Clone, Copy)]
pub struct Count {
    pub depth: u32,
    pub cells: u32,
    pub length: u32,
    pub overfull: Place,
}

// What one byte outside tokens does, where it is no fault.
#[derive(Clone, Copy)]
pub enum ByteStep {
    On(Count),
    Token,
}

// What a text without a fault is found to be: how large its plan is, and where the first item past the room begins, once there is one.
#[derive(Clone, Copy)]
pub struct Counted {
    pub size: Size,
    pub overfull: Place,
}

impl Count {
    fn nothing_yet() -> Count
        ensures { result ≡ nothing_yet }
    {
        Count {
            depth: 0,
            cells: 0,
            length: 0,
            overfull: Place::new(0),
        }
    }

    // One item more, of so many bytes. A block's contents are not among these bytes.
    fn one_item(self, at: usize, room: u32, bytes: u32) -> Count
        requires { Small self × (at ≤ text_limit) × (bytes ≤ token_limit) }
        ensures { result ≡ one_item self at room bytes }
    {
        let overfull = if self.cells == room {
            Place::new(at)
        } else {
            self.overfull
        };
        Count {
            cells: self.cells + 1,
            length: self.length + bytes,
            overfull,
            ..self
        }
    }

    // A block is an item of one byte, its `[`, and is open from there on.
    fn open_block(self, at: usize, room: u32) -> Count
        requires { Small self × (at ≤ text_limit) }
        ensures { result ≡ opened self at room }
    {
        let item = self.one_item(at, room, 1);
        Count {
            depth: item.depth + 1,
            ..item
        }
    }

    // The last `[` of those open has its `]`.
    fn close_block(self, at: usize) -> Result<Count, TextFault>
        requires { Small self × (at ≤ text_limit) }
        ensures { result ≡ block_closed self at }
    {
        if self.depth == 0 {
            return Err(TextFault::Unmatched(Place::new(at)));
        }
        Ok(Count {
            depth: self.depth - 1,
            length: self.length + 1,
            ..self
        })
    }
}

// One byte outside tokens, by its class.
#[tactic(auto, unfolding(crate::specs::Counting::stepped))]
fn read_byte(count: Count, byte: u8, at: usize, room: u32) -> Result<ByteStep, TextFault>
    requires { Small count × (at ≤ text_limit) }
    ensures { result ≡ stepped count (class byte) at room }
{
    match class_of(byte) {
        Class::Operator(_) => Ok(ByteStep::On(count.one_item(at, room, 1))),
        Class::Open => Ok(ByteStep::On(count.open_block(at, room))),
        Class::Close => Ok(ByteStep::On(count.close_block(at)?)),
        Class::Brace => Ok(ByteStep::Token),
        Class::Blank => Ok(ByteStep::On(count)),
        Class::Bad => Err(TextFault::BadByte(Place::new(at))),
    }
}

// A token that was read to its `}`. It is kept as an item, or passed over where it is a mark.
fn whole_token(text: &[u8], count: Count, at: usize, end: usize, room: u32) -> Count
    requires { Small count × TokenEnds text.now at end }
    ensures { result ≡ kept_or_passed (mark (class (get_or text.now at 0)) (drop (at + 1) text.now)) count at room (end + 1 - at) }
{
    if is_mark(text, at) {
        count
    } else {
        count.one_item(at, room, (end + 1 - at) as u32)
    }
}

// The end of the text.
#[tactic(auto, unfolding(crate::specs::Counting::survey_ended))]
fn end_survey(count: Count, at: usize) -> Result<Counted, TextFault>
    requires { at ≤ text_limit }
    ensures { result ≡ survey_ended count at }
{
    if 0 < count.depth {
        return Err(TextFault::Unclosed(Place::new(at)));
    }
    let Count {
        cells,
        length,
        overfull,
        ..
    } = count;
    Ok(Counted {
        size: Size { cells, length },
        overfull,
    })
}

pub fn survey(text: &[u8], room: u32) -> Result<Counted, TextFault>
    requires { length text.now ≤ text_limit }
    ensures { result ≡ surveyed room (read_bytes token_limit text.now) }
{
    let mut count = Count::nothing_yet();
    let mut at = 0;
    let fault = 'items: loop {
        if text.len() <= at {
            return end_survey(count, at);
        }
        match read_byte(count, text[at], at, room) {
            Ok(ByteStep::On(next)) => {
                count = next;
                at += 1;
            }
            Ok(ByteStep::Token) => {
                let mut end = at + 1;
                loop {
                    match token_byte(text, at, end) {
                        InToken::Further(width) => end += width as usize,
                        InToken::Ends(token) => {
                            let Err(FaultyToken { fault, at }) = token else {
                                break;
                            };
                            break 'items TextFault::BadToken { fault, at };
                        }
                    }
                }
                count = whole_token(text, count, at, end, room);
                at = end + 1;
            }
            Err(fault) => break 'items fault,
        }
    };
    Err(fault)
}
