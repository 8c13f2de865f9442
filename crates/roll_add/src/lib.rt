// Adds a FILED or a DONE to a roll: weighs the entry, writes it at the end where there is room, and counts it in the tally lent. Both
// services are public and ask nothing of their callers.
#![tactic(auto)]

ghost use Rattle.std.specs.Prelude.{◌≡◌, ◌+◌, ◌≤◌, length};
ghost use Rattle.roll_rules.specs.Answers.{add, close_job, edition_1, file, in_use};
ghost use Rattle.roll_format.specs.Format.{longest, parts_in};
ghost use Rattle.roll_put.specs.Putting.{opening};
ghost use Rattle.roll_add.specs.Entering.{TallyCounted, EnteredAs, JudgedWeighed, RollWeighed};
ghost use Rattle.roll_add.specs.Calls.{Adds};

use roll_format::{LONGEST, NewEntry};
use roll_put::{entry_size, put_entry};
use roll_read::judge_roll;
use roll_rules::{Counts, RollRefusal, Sums, Tally};
use roll_standing::Front;
use roll_weigh::weigh;

// What the roll comes to, and what an entry that may be added behind it counts as; or what is wrong with the roll, and then with the entry.
fn weigh_roll(roll: &[u8], added: NewEntry) -> Result<(Sums, Counts), RollRefusal>
    ensures { RollWeighed roll.now (parts_in added.entry) result }
{
    let sums = judge_roll(roll)?;
    let front = Front {
        roll,
        upto: sums.end as usize,
    };
    match weigh(&front, added) {
        Ok(counts) => Ok((sums, counts)),
        Err(refusal) => Err(refusal),
    }
}

// Only the bytes in use of a buffer are a roll. A use longer than the buffer counts as all of it.
fn weigh_used(buffer: &[u8], used: usize, added: NewEntry) -> Result<(Sums, Counts), RollRefusal>
    ensures { JudgedWeighed (in_use edition_1 buffer.now used) (parts_in added.entry) (length buffer.now) result }
{
    if LONGEST < buffer.len() {
        return Err(RollRefusal::TooLong);
    }
    let end = used.min(buffer.len());
    weigh_roll(&buffer[..end], added)
}

// Where a roll ends with so many bytes more. A roll that had no first byte gets that byte too.
fn new_end(end: u32, bytes: usize) -> usize
    requires { bytes ≤ longest }
    ensures { result ≡ end + (length (opening end) + bytes) }
{
    end.max(1) as usize + bytes
}

// What the roll comes to with an entry that was added, and what that entry adds to a tally.
#[derive(Clone, Copy, PartialEq, Eq)]
pub struct Entered {
    pub sums: Sums,
    pub counts: Counts,
}

// Adds an entry of either kind.
fn add_entry(buffer: &mut [u8], used: usize, added: NewEntry) -> Result<Entered, RollRefusal>
    ensures { EnteredAs (add edition_1 buffer.old used (parts_in added.entry)) result buffer.new }
{
    let (sums, counts) = weigh_used(buffer, used, added)?;
    let last = new_end(sums.end, entry_size(added));
    if buffer.len() < last {
        return Err(RollRefusal::NoRoom(last.min(LONGEST) as u32));
    }
    put_entry(buffer, sums.end as usize, added);
    Ok(Entered {
        sums: sums.with_entry(counts, last as u32),
        counts,
    })
}

// The two kinds of entry, each under its own name. So the functions that are lent a tally only hand over.
pub fn file_entry(
    buffer: &mut [u8],
    used: usize,
    job: &[u8],
    text: &[u8],
) -> Result<Entered, RollRefusal>
    ensures { EnteredAs (file edition_1 buffer.old used job.now text.now) result buffer.new }
{
    add_entry(buffer, used, NewEntry::Filed { job, text })
}

pub fn done_entry(buffer: &mut [u8], used: usize, job: &[u8]) -> Result<Entered, RollRefusal>
    ensures { EnteredAs (close_job edition_1 buffer.old used job.now) result buffer.new }
{
    add_entry(buffer, used, NewEntry::Done { job })
}

// Counts in the tally lent what was added, and answers what the roll then comes to. A refusal counts nothing.
fn count(tally: &mut Tally, entered: Result<Entered, RollRefusal>) -> Result<Sums, RollRefusal>
    ensures { TallyCounted tally.old entered result tally.new }
{
    let Entered { sums, counts } = entered?;
    *tally = tally.with_entry(counts);
    Ok(sums)
}

// Adds a FILED to the roll in the first `used` bytes of the buffer, and counts it in the tally lent.
pub fn file(
    tally: &mut Tally,
    buffer: &mut [u8],
    used: usize,
    job: &[u8],
    text: &[u8],
) -> Result<Sums, RollRefusal>
    ensures { Adds (file edition_1 buffer.old used job.now text.now) tally.old result buffer.new tally.new }
{
    let entered = file_entry(buffer, used, job, text);
    count(tally, entered)
}

// Adds a DONE to the roll in the first `used` bytes of the buffer, and counts it in the tally lent.
pub fn close_job(
    tally: &mut Tally,
    buffer: &mut [u8],
    used: usize,
    job: &[u8],
) -> Result<Sums, RollRefusal>
    ensures { Adds (close_job edition_1 buffer.old used job.now) tally.old result buffer.new tally.new }
{
    let entered = done_entry(buffer, used, job);
    count(tally, entered)
}
