// What is kept on disk: a number in four bytes, lowest first, and bytes behind their count, each read and written at a place; spans and
// the parts they name; whether bytes are the same. Every request that stores uses these. What the end of the bytes cuts is told as cut.
#![tactic(auto)]

ghost use Rattle.std.specs.Prelude.{◌≡◌, ◌+◌, ◌≤◌, ◌<◌, ◌^◌, length};
ghost use Rattle.kinds.specs.Written.{put_at};
ghost use Rattle.stored.specs.Counted.{four_bytes, with_count};
ghost use Rattle.stored.specs.Places.{number_at, counted_at, two_counted_at};
ghost use Rattle.stored.specs.Spans.{SpanWithin, part};

// The bytes that a number takes.
pub const NUMBER: usize = 4;

// The largest number that is stored, and so the most bytes behind a count.
pub const LARGEST: u32 = u32::MAX;

// Bytes of a slice: where they begin, and how many they are.
#[derive(Clone, Copy, PartialEq, Eq)]
pub struct Span {
    pub at: usize,
    pub len: usize,
}

impl Span {
    // The place behind them.
    pub fn end(self) -> usize
        requires { self.at + self.len < 2 ^ 64 }
        ensures { result ≡ self.at + self.len }
    {
        self.at + self.len
    }
}

// The bytes that a span names.
pub fn part(bytes: &[u8], span: Span) -> &[u8]
    requires { SpanWithin bytes.now span }
    ensures { result.now ≡ part bytes.now span }
{
    &bytes[span.at..span.end()]
}

// The number at a place, or that it is cut.
pub fn number_at(bytes: &[u8], at: usize) -> Option<u32>
    ensures { result ≡ number_at bytes.now at }
{
    // The last place where a number fits is the same for every place asked of, so a walk over many entries finds it once.
    let last = bytes.len().checked_sub(NUMBER)?;
    if last < at {
        return None;
    }
    let number = [bytes[at], bytes[at + 1], bytes[at + 2], bytes[at + 3]];
    Some(u32::from_le_bytes(number))
}

// The bytes at a place, behind their count, or that they are cut.
pub fn counted_at(bytes: &[u8], at: usize) -> Option<Span>
    ensures { result ≡ counted_at bytes.now at }
{
    let len = number_at(bytes, at)? as usize;
    let from = at + NUMBER;
    if bytes.len() - from < len {
        return None;
    }
    Some(Span { at: from, len })
}

// Two of these at a place, one behind the other.
pub fn two_counted_at(bytes: &[u8], at: usize) -> Option<(Span, Span)>
    ensures { result ≡ two_counted_at bytes.now at }
{
    let first = counted_at(bytes, at)?;
    let second = counted_at(bytes, first.end())?;
    Some((first, second))
}

// Writes bytes at a place, without a count.
fn put_bytes(bytes: &mut [u8], at: usize, given: &[u8])
    requires { at + length given.now ≤ length bytes.old }
    ensures { bytes.new ≡ put_at bytes.old at given.now }
{
    bytes[at..at + given.len()].copy_from_slice(given);
}

pub fn put_number(bytes: &mut [u8], at: usize, number: u32)
    requires { at + 4 ≤ length bytes.old }
    ensures { bytes.new ≡ put_at bytes.old at (four_bytes number) }
{
    put_bytes(bytes, at, &number.to_le_bytes());
}

pub fn put_counted(bytes: &mut [u8], at: usize, given: &[u8])
    requires { (length given.now < 2 ^ 32) × (at + 4 + length given.now ≤ length bytes.old) }
    ensures { bytes.new ≡ put_at bytes.old at (with_count given.now) }
{
    put_number(bytes, at, given.len() as u32);
    put_bytes(bytes, at + NUMBER, given);
}
