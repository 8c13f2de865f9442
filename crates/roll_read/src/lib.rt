// Reads a roll of filed jobs: tells whether its entries read, where they stand and what they add up to; and tells one entry by itself. Both
// services are public and ask nothing of their callers.
#![tactic(auto)]

ghost use Rattle.std.specs.Prelude.{◌≡◌, Some, List, ◌≤◌, length, drop};
ghost use Rattle.kinds.specs.Limits.{standard};
ghost use Rattle.stored.specs.Spans.{SpanWithin, part};
ghost use Rattle.roll_format.specs.Format.{Entry, entry, listing, longest, parts_in, parts_of};
ghost use Rattle.roll_rules.specs.EntriesBefore.{Behind, EntriesBefore};
ghost use Rattle.roll_rules.specs.Answers.{by_rules, edition_1, judged, one_entry, places};
ghost use Rattle.roll_read.specs.Calls.{Lists};
ghost use Rattle.roll_read.specs.Judging.{Fillable, entry_judged, judged_as};

use roll_entries::{EntryAt, entry_at, next_of};
use roll_format::{EntryKind, FIRST, LONGEST, NewEntry};
use roll_rules::{Counts, EntryRefusal, FoundEntry, RollRefusal, Sums};
use roll_standing::Front;
use roll_weigh::weigh;
use stored::{Span, part};

// An entry that obeys the rules: where the next one would stand, and what it adds to the tally.
#[derive(Clone, Copy, PartialEq, Eq)]
pub struct JudgedEntry {
    pub next: usize,
    pub counts: Counts,
}

// An entry of the roll, by its kind and where its sections stand. A DONE has no text, so no text is read for one.
fn entry_of(roll: &[u8], kind: EntryKind, job: Span, text: Span) -> NewEntry<'_>
    requires { SpanWithin roll.now job × SpanWithin roll.now text }
    ensures { parts_in result ≡ parts_of kind (part roll.now job) (part roll.now text) }
{
    match kind {
        EntryKind::Filed => NewEntry::Filed {
            job: part(roll, job),
            text: part(roll, text),
        },
        EntryKind::Done => NewEntry::Done {
            job: part(roll, job),
        },
    }
}

// The entry behind the front of a roll: none where it is torn. Whatever is wrong with it, the roll is refused by its place.
fn judge_entry(front: &Front) -> Result<Option<JudgedEntry>, RollRefusal>
    ensures { Behind front.now.roll.now front.now.upto (λ earlier. result ≡ entry_judged earlier front.now.upto (entry (drop front.now.upto front.now.roll.now)) front.now.roll.now) }
{
    let Front { roll, upto: at, .. } = *front;
    let Some(entry) = entry_at(roll, at) else {
        return Ok(None);
    };
    match entry {
        EntryAt::Other { .. } => Err(RollRefusal::BadRoll(at as u32)),
        EntryAt::Known {
            kind,
            job,
            text,
            next,
        } => match weigh(front, entry_of(roll, kind, job, text)) {
            Err(_) => Err(RollRefusal::BadRoll(at as u32)),
            Ok(counts) => Ok(Some(JudgedEntry { next, counts })),
        },
    }
}

// Entry by entry, up to the first that is torn or breaks a rule.
fn judge_entries(roll: &[u8]) -> Result<Sums, RollRefusal>
    requires { (1 ≤ length roll.now) × (length roll.now ≤ longest) }
    ensures { result ≡ judged_as (by_rules standard (Some (listing 0 1 (drop 1 roll.now)))) }
{
    let mut sums = Sums {
        entries: 0,
        filed: 0,
        done: 0,
        end: 1,
    };
    while let Some(JudgedEntry { next, counts }) = judge_entry(&Front {
        roll,
        upto: sums.end as usize,
    })? {
        let end = next as u32;
        sums = sums.with_entry(counts, end);
    }
    Ok(sums)
}

// A roll of no bytes lists nothing. Any first byte other than `FIRST` is refused.
pub fn judge_roll(roll: &[u8]) -> Result<Sums, RollRefusal>
    ensures { result ≡ judged_as (judged edition_1 roll.now) }
{
    if LONGEST < roll.len() {
        return Err(RollRefusal::TooLong);
    }
    if roll.is_empty() {
        return Ok(Sums {
            entries: 0,
            filed: 0,
            done: 0,
            end: 0,
        });
    }
    if roll[0] != FIRST {
        return Err(RollRefusal::BadRoll(0));
    }
    judge_entries(roll)
}

// Puts the places of the entries up to an end into a list of as many, in order. Where a roll is refused by its last entry, the list stays as
// it was. So the places go into it only now, and the entries are passed a second time.
fn fill(roll: &[u8], end: usize, list: &mut [u32])
    requires { Fillable roll.now end (length list.old) }
    ensures { (es : List Entry) → EntriesBefore roll.now es end → list.new ≡ places es }
{
    let mut at: usize = 1;
    for place in list.iter_mut() {
        *place = at as u32;
        at = next_of(entry_at(roll, at), end);
    }
}

// Reads a roll: the places of its whole entries go to the front of the list.
pub fn read(roll: &[u8], list: &mut [u32]) -> Result<Sums, RollRefusal>
    ensures { Lists roll.now list.old result list.new }
{
    let sums = judge_roll(roll)?;
    if list.len() < sums.entries as usize {
        return Err(RollRefusal::MoreEntries(sums.entries));
    }
    fill(roll, sums.end as usize, &mut list[..sums.entries as usize]);
    Ok(sums)
}

// Tells one entry by its own bytes; whether the roll reads is not asked.
pub fn entry(roll: &[u8], at: usize) -> Result<FoundEntry, EntryRefusal>
    ensures { result ≡ one_entry roll.now at }
{
    if LONGEST < roll.len() {
        return Err(EntryRefusal::TooLong);
    }
    let Some(entry) = entry_at(roll, at) else {
        return Err(EntryRefusal::NoEntry);
    };
    match entry {
        EntryAt::Other { .. } => Err(EntryRefusal::NoEntry),
        EntryAt::Known { job, text, .. } => Ok(FoundEntry {
            job: job.at as u32,
            job_bytes: job.len as u32,
            text: text.at as u32,
            text_bytes: text.len as u32,
        }),
    }
}
