// The fronts of a roll: each is read, gone on with, and read again.
use crate::entering::{NEXT, NO_ENTRIES, ROLL, start_of, with_line};
use crate::fault::{Fault, right_or_told};
use roll_rules::{RollRefusal, Sums};

// More than the roll has entries.
pub const LIST: usize = 160;

// The whole roll, and the places of its entries.
#[derive(Clone, Copy)]
pub struct Whole<'a> {
    pub roll: &'a [u8; ROLL],
    pub places: &'a [u32; LIST],
}

// Reads the first bytes of a buffer as a roll.
pub fn read_front(
    buffer: &[u8; ROLL],
    bytes: u32,
    list: &mut [u32; LIST],
) -> Result<Sums, RollRefusal> {
    let front = buffer.get(..bytes as usize).unwrap_or(&[]);
    roll_read::read(front, list)
}

// Whether all bytes before a place, and all from another on, are the same.
fn kept(roll: &[u8; ROLL], other: &[u8; ROLL], start: usize, end: usize) -> bool {
    let mut bytes = roll.iter().zip(other.iter()).enumerate();
    bytes.all(|(at, (byte, now))| byte == now || (start <= at && at < end))
}

impl Whole<'_> {
    // Whether the first bytes of a buffer read as expected, with each entry at its place in the whole roll.
    fn reads_as(self, buffer: &[u8; ROLL], bytes: u32, expected: Sums) -> bool {
        let mut list = [0u32; LIST];
        if read_front(buffer, bytes, &mut list) != Ok(expected) {
            return false;
        }
        let places = self.places;
        let entries = expected.entries as usize;
        places
            .iter()
            .zip(list.iter())
            .take(entries)
            .all(|(place, listed)| place == listed)
    }

    // Goes on with a front that reads as it should: it takes the next entry, and then reads as with that. Behind the front stands the rest of
    // the roll, which is not to be read.
    fn go_on(self, now: Sums, bytes: u32) -> Result<(), Fault> {
        let expected = NEXT.added_to(now);
        let mut other = *self.roll;
        let entered = NEXT.enter(&mut other, bytes).map_err(|_| Fault::NotTaken)?;
        if entered.sums != expected {
            return Err(Fault::NotTaken);
        }
        if !kept(self.roll, &other, now.end as usize, expected.end as usize) {
            return Err(Fault::Changed);
        }
        if !self.reads_as(&other, expected.end, expected) {
            return Err(Fault::ReadAgainWrong);
        }
        Ok(())
    }

    // Reads a front, and goes on with it.
    fn cut(self, now: Sums, bytes: u32) -> Result<(), Fault> {
        if !self.reads_as(self.roll, bytes, now) {
            return Err(Fault::ReadWrong);
        }
        self.go_on(now, bytes)
    }

    // How many fronts are right, of those that have these entries whole: up to the place where the next entry ends.
    fn cut_between(self, rt: &(impl Print + Eprint), before: Sums, end: u32) -> u32 {
        let mut now = before;
        let mut right: u32 = 0;
        for bytes in before.end..end {
            let so = right_or_told(rt, self.cut(now, bytes), bytes);
            right = right.saturating_add(u32::from(so));
            now.end = start_of(now.end);
        }
        right
    }

    // How many fronts are right, of all that lack a byte or more.
    pub fn cut_lines(self, rt: &(impl Print + Eprint), lines: &[u8]) -> u32 {
        let mut right: u32 = 0;
        let mut now = NO_ENTRIES;
        for line in lines.split_inclusive(|byte| *byte == b'\n') {
            let then = with_line(now, line);
            right = right.saturating_add(self.cut_between(rt, now, then.end));
            now = then;
        }
        right
    }
}
