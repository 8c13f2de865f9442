// The entry of a line of standard input: put into a roll, and what the roll is to read as with it.
ghost use Rattle.std.specs.Prelude.{◌≡◌, max};

use roll_add::{Entered, done_entry, file_entry};
use roll_format::NewEntry;
use roll_rules::{Counts, RollRefusal, Sums};

// More bytes than the roll has, with the entry that is added to the whole of it.
pub const ROLL: usize = 4096;

// What no bytes are to read as.
pub const NO_ENTRIES: Sums = Sums {
    entries: 0,
    filed: 0,
    done: 0,
    end: 0,
};

// What a line says of its entry: the entry, how it counts, and how many bytes it takes.
#[derive(Clone, Copy)]
pub struct LineEntry<'a> {
    entry: NewEntry<'a>,
    counts: Counts,
    bytes: u32,
}

// The entry that each front is gone on with.
pub const NEXT: LineEntry<'static> = LineEntry {
    entry: NewEntry::Filed {
        job: b"999",
        text: b"{x}",
    },
    counts: Counts {
        filed: true,
        done: false,
    },
    bytes: 12 + 3 + 3,
};

// The first byte of a roll is before its entries, and no bytes are a roll too.
pub fn start_of(place: u32) -> u32
    ensures { result ≡ max place 1 }
{
    place.max(1)
}

// How many bytes more than its line an entry has. A filed one has twelve beside its job and its text, a done one eight beside its job. The
// lines have four and three.
fn more_than_line(counts: Counts) -> u32 {
    if counts.done { 5 } else { 8 }
}

impl<'a> LineEntry<'a> {
    // A line is its kind, a SP, a job of three digits and, where it has a text, a SP and that. An LF ends it.
    pub fn of(line: &'a [u8]) -> Option<Self> {
        let (head, rest) = line.split_first_chunk::<6>()?;
        let counts = Counts {
            filed: head[0] == b'f',
            done: head[0] == b'd',
        };
        let line_bytes = u32::try_from(line.len()).ok()?;
        let job = &head[2..5];
        let entry = match rest.split_last() {
            Some((_, text)) => NewEntry::Filed { job, text },
            None => NewEntry::Done { job },
        };
        Some(Self {
            entry,
            counts,
            bytes: line_bytes.saturating_add(more_than_line(counts)),
        })
    }

    // Adds the entry to the first bytes of a buffer.
    pub fn enter(self, roll: &mut [u8; ROLL], used: u32) -> Result<Entered, RollRefusal> {
        match self.entry {
            NewEntry::Filed { job, text } => file_entry(roll, used as usize, job, text),
            NewEntry::Done { job } => done_entry(roll, used as usize, job),
        }
    }

    // What a roll is to read as with the entry.
    pub fn added_to(self, before: Sums) -> Sums {
        Sums {
            entries: before.entries.saturating_add(1),
            filed: before.filed.saturating_add(u32::from(self.counts.filed)),
            done: before.done.saturating_add(u32::from(self.counts.done)),
            end: start_of(before.end).saturating_add(self.bytes),
        }
    }
}

// What a roll is to read as with the entry of a line more, where the line has one.
pub fn with_line(before: Sums, line: &[u8]) -> Sums {
    LineEntry::of(line).map_or(before, |entry| entry.added_to(before))
}
