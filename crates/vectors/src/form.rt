// The fields of a line: numbers in decimal, and bytes as runs of a pattern in hex.
//
// A SP or an LF ends a field. Where a field is missing or malformed there is none, and the line is no case.
ghost use Rattle.std.specs.Prelude.{◌≡◌, ◌+◌, ◌≤◌, IfSome, length};

use lines::{number_of, put_hex};

// The largest number that a field may hold.
const LARGEST: usize = 10_000_000_000_009;

// The fields of a line that are still to be read, each with the SP or the LF that ends it.
#[derive(Clone, Copy)]
pub struct Fields<'a> {
    rest: &'a [u8],
}

// Repeats the first bytes of a room, the width of a pattern, to its end.
fn repeat(room: &mut [u8], width: usize) {
    for at in width..room.len() {
        room[at] = room[at - width];
    }
}

impl<'a> Fields<'a> {
    pub fn of(line: &'a [u8]) -> Self {
        Self { rest: line }
    }

    pub fn are_over(&self) -> bool {
        self.rest.is_empty()
    }

    // The bytes of the next field.
    fn next(&mut self) -> Option<&'a [u8]> {
        let rest = self.rest;
        let end = rest.iter().position(|byte| matches!(*byte, b' ' | b'\n'))?;
        self.rest = &rest[end + 1..];
        Some(&rest[..end])
    }

    pub fn number(&mut self) -> Option<usize> {
        number_of(self.next()?).filter(|number| *number <= LARGEST)
    }

    // Puts a pattern to the front of the room. One of no bytes, or longer than the room, is malformed.
    fn pattern(&mut self, room: &mut [u8]) -> Option<usize> {
        put_hex(self.next()?, room).filter(|width| 0 < *width)
    }

    // Puts a run to the front of the room: a length in bytes, and the pattern that fills it.
    fn run(&mut self, room: &mut [u8]) -> Option<usize>
        ensures { IfSome result (λ run. run ≤ length room.new) }
    {
        let length = self.number()?;
        let filled = room.get_mut(..length)?;
        let width = self.pattern(filled)?;
        repeat(filled, width);
        Some(length)
    }

    // Puts the bytes that runs stand for to the front of the room.
    fn put(&mut self, room: &mut [u8]) -> Option<usize>
        ensures { IfSome result (λ filled. filled ≤ length room.new) }
    {
        let mut filled = 0;
        for _ in 0..self.number()? {
            filled += self.run(&mut room[filled..])?;
        }
        Some(filled)
    }

    // The bytes that runs stand for, put to the front of the room, and the room behind them.
    pub fn bytes<'r>(&mut self, room: &'r mut [u8]) -> Option<(&'r [u8], &'r mut [u8])>
        ensures { IfSome result (λ cut. length cut.0.now + length cut.1.now ≡ length room.old) }
    {
        let filled = self.put(room)?;
        let (bytes, left) = room.split_at_mut(filled);
        Some((bytes, left))
    }
}
