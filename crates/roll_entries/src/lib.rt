// The entry at a place of a roll: what it is and where the next one would stand, or that it is torn.
#![tactic(auto)]

ghost use Rattle.std.specs.Prelude.{◌≡◌, ◌≤◌, Some, length, drop};
ghost use Rattle.roll_format.specs.Format.{sections};
ghost use Rattle.roll_entries.specs.Entries.{done_at, entry_at, filed_at, next_told, other_at, sections_end_told};

use roll_format::EntryKind;
use stored::{NUMBER, Span, counted_at, number_at, two_counted_at};

// A whole entry, of one of the two kinds or of neither, and where the next one would stand.
#[derive(Clone, Copy, PartialEq, Eq)]
pub enum EntryAt {
    // Where its job number and its text stand. A DONE has no text, so its text is the span of no bytes.
    Known {
        kind: EntryKind,
        job: Span,
        text: Span,
        next: usize,
    },
    Other {
        next: usize,
    },
}

// Where so many sections end, which begin at a place; or one of them is torn.
fn pass_sections(roll: &[u8], from: usize, count: u32) -> Option<usize>
    requires { from ≤ length roll.now }
    ensures { result ≡ sections_end_told roll.now (sections count (drop from roll.now)) }
{
    let mut at = from;
    for _ in 0..count {
        let section = counted_at(roll, at)?;
        at = section.end();
    }
    Some(at)
}

// The one section of a DONE.
fn done_at(roll: &[u8], at: usize) -> Option<EntryAt>
    ensures { result ≡ done_at roll.now at }
{
    let job = counted_at(roll, at)?;
    Some(EntryAt::Known {
        kind: EntryKind::Done,
        job,
        text: Span { at: 0, len: 0 },
        next: job.end(),
    })
}

// The two sections of a FILED.
fn filed_at(roll: &[u8], at: usize) -> Option<EntryAt>
    ensures { result ≡ filed_at roll.now at }
{
    let (job, text) = two_counted_at(roll, at)?;
    Some(EntryAt::Known {
        kind: EntryKind::Filed,
        job,
        text,
        next: text.end(),
    })
}

fn other_at(roll: &[u8], at: usize, count: u32) -> Option<EntryAt>
    requires { at ≤ length roll.now }
    ensures { result ≡ other_at roll.now at count }
{
    let next = pass_sections(roll, at, count)?;
    Some(EntryAt::Other { next })
}

// The entry at a place, or that it is torn.
pub fn entry_at(roll: &[u8], at: usize) -> Option<EntryAt>
    ensures { result ≡ entry_at roll.now at }
{
    let count = number_at(roll, at)?;
    let from = at + NUMBER;
    match count {
        1 => done_at(roll, from),
        2 => filed_at(roll, from),
        _ => other_at(roll, from, count),
    }
}

impl EntryAt {
    // Where the entry behind this one would stand.
    fn next(self) -> usize
        ensures { result ≡ next_told (Some self) 0 }
    {
        match self {
            EntryAt::Known { next, .. } | EntryAt::Other { next } => next,
        }
    }
}

// Where the entry behind this one would stand; behind a torn one there is none before the end.
pub fn next_of(entry: Option<EntryAt>, end: usize) -> usize
    ensures { result ≡ next_told entry end }
{
    match entry {
        Some(entry) => entry.next(),
        None => end,
    }
}
