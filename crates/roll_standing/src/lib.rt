// What a job number and a printed text must be, and how a job stands in a roll: not filed, filed or done.
#![tactic(auto)]

ghost use Rattle.std.specs.Prelude.{◌≡◌, ◌≤◌, length};
ghost use Rattle.std.specs.List.{list_all};
ghost use Rattle.std.specs.Char.{is_ascii_digit};
ghost use Rattle.kinds.specs.Limits.{standard};
ghost use Rattle.stored.specs.Spans.{SpanWithin, part};
ghost use Rattle.roll_rules.specs.Rules.{is_job, is_printed, newest};
ghost use Rattle.roll_rules.specs.EntriesBefore.{HasEntriesBefore};
ghost use Rattle.roll_entries.specs.Entries.{EntryWithin, says_told};
ghost use Rattle.roll_standing.specs.Looking.{StandingWithin, standing_told};

use read::acceptance_of;
use roll_entries::{EntryAt, entry_at, next_of};
use roll_format::EntryKind;
use roll_rules::JOB_LIMIT;
use stored::{Span, part};

// The bytes `0` to `9`, and nothing else.
fn are_digits(job: &[u8]) -> bool
    ensures { result ≡ list_all is_ascii_digit job.now }
{
    job.iter().all(|byte| byte.is_ascii_digit())
}

// A job number: one digit at least, and not too many.
pub fn is_job(job: &[u8]) -> bool
    ensures { result ≡ is_job job.now }
{
    if job.is_empty() || JOB_LIMIT < job.len() {
        return false;
    }
    are_digits(job)
}

// Whether a text is acceptable and nothing of it is left out where it is printed.
pub fn is_printed(text: &[u8]) -> bool
    ensures { result ≡ is_printed standard text.now }
{
    match acceptance_of(text) {
        Ok(size) => size.length as usize == text.len(),
        Err(_) => false,
    }
}

// How a job stands: not filed; filed last by the entry at a place, with its text; or done by the entry at a place.
#[derive(Clone, Copy, PartialEq, Eq)]
pub enum StandingAt {
    Unfiled,
    Filed { at: usize, text: Span },
    Done { at: usize },
}

// How the job stands behind one entry more. Job numbers are the same byte for byte: `7` and `07` are two jobs.
fn newest(
    roll: &[u8],
    at: usize,
    entry: Option<EntryAt>,
    job: &[u8],
    older: StandingAt,
) -> StandingAt
    requires { EntryWithin roll.now entry × StandingWithin roll.now older × (at ≤ length roll.now) }
    ensures within { StandingWithin roll.now result }
    ensures told { standing_told roll.now result ≡ newest job.now at (says_told roll.now entry) (standing_told roll.now older) }
{
    let Some(entry) = entry else {
        return older;
    };
    match entry {
        EntryAt::Other { .. } => older,
        EntryAt::Known {
            kind,
            job: found,
            text,
            ..
        } => {
            if part(roll, found) != job {
                return older;
            }
            match kind {
                EntryKind::Filed => StandingAt::Filed { at, text },
                EntryKind::Done => StandingAt::Done { at },
            }
        }
    }
}

// The front of a roll: its entries before a place, which obey the rules. Before 0, in a roll of no bytes, there is none.
#[derive(Clone, Copy)]
pub struct Front<'a> {
    pub roll: &'a [u8],
    pub upto: usize,
    pub ghost entries: { ∥ HasEntriesBefore roll.now upto ∥₁ },
}

impl<'a> Front<'a> {
    ghost use Rattle.std.specs.Prelude.{◌≡◌};
    ghost use Rattle.roll_rules.specs.Rules.{standing};
    ghost use Rattle.roll_rules.specs.EntriesBefore.{Behind};
    ghost use Rattle.roll_standing.specs.Looking.{StandingWithin, standing_told};

    // How a job stands by these entries.
    pub fn look_back(&self, job: &[u8]) -> StandingAt
        ensures within { StandingWithin self.now.roll.now result }
        ensures told { Behind self.now.roll.now self.now.upto (λ earlier. standing_told self.now.roll.now result ≡ standing job.now earlier) }
    {
        if self.upto == 0 {
            return StandingAt::Unfiled;
        }
        let mut at: usize = 1;
        let mut found = StandingAt::Unfiled;
        while at != self.upto {
            let entry = entry_at(self.roll, at);
            found = newest(self.roll, at, entry, job, found);
            at = next_of(entry, self.upto);
        }
        found
    }
}
