// What is wrong with an entry that follows those of a roll, or else what it adds to the tally. One answer serves both services: reading
// refuses a roll by it, and adding tells it.
#![tactic(auto)]

ghost use Rattle.std.specs.Prelude.{◌≡◌, ℕ};
ghost use Rattle.roll_format.specs.Format.{parts_in};
ghost use Rattle.roll_rules.specs.EntriesBefore.{Behind};
ghost use Rattle.roll_weigh.specs.Weighed.{weighed_at, weighed_done, weighed_filed};

use finished::is_finished;
use roll_format::NewEntry;
use roll_rules::{Counts, RollRefusal};
use roll_standing::{Front, StandingAt, is_job, is_printed};
use stored::part;

// A FILED whose job number is right: whether its text is a printed one, and how the job stands.
fn weigh_filed(front: &Front, job: &[u8], text: &[u8]) -> Result<Counts, RollRefusal>
    ensures { Behind front.now.roll.now front.now.upto (λ earlier. result ≡ weighed_filed earlier job.now text.now) }
{
    if !is_printed(text) {
        return Err(RollRefusal::BadText);
    }
    match front.look_back(job) {
        StandingAt::Unfiled => Ok(Counts {
            filed: true,
            done: false,
        }),
        StandingAt::Filed { .. } => Ok(Counts {
            filed: false, // It was counted when it was filed first.
            done: false,
        }),
        StandingAt::Done { at } => Err(RollRefusal::AlreadyDone(at as u32)),
    }
}

// A DONE whose job number is right: how the job stands. The text of a FILED of the roll was accepted already, so only one
// question is left: whether it is finished.
fn weigh_done(front: &Front, job: &[u8]) -> Result<Counts, RollRefusal>
    ensures { Behind front.now.roll.now front.now.upto (λ earlier. result ≡ weighed_done earlier job.now) }
{
    match front.look_back(job) {
        StandingAt::Unfiled => Err(RollRefusal::Unfiled),
        StandingAt::Done { at } => Err(RollRefusal::AlreadyDone(at as u32)),
        StandingAt::Filed { at, text } => {
            if !is_finished(part(front.roll, text)) {
                return Err(RollRefusal::Unfinished(at as u32));
            }
            Ok(Counts {
                filed: false,
                done: true,
            })
        }
    }
}

// An entry of either kind, behind the front of a roll.
pub fn weigh(front: &Front, added: NewEntry) -> Result<Counts, RollRefusal>
    ensures { Behind front.now.roll.now front.now.upto (λ earlier. ((place : ℕ) → result ≡ weighed_at earlier place (parts_in added.entry))) }
{
    if !is_job(added.job()) {
        return Err(RollRefusal::BadJob);
    }
    match added {
        NewEntry::Filed { job, text } => weigh_filed(front, job, text),
        NewEntry::Done { job } => weigh_done(front, job),
    }
}
