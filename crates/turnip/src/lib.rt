// The C interface: each service as a function for C and other languages, with its answer told by five numbers. include/turnip.h declares
// and explains these functions. Each asks nothing of its caller, and its contract is the service's (specs/Arrays.antt, specs/RollArrays.antt).
// The crate turnip_c exports each of them to C, under its name.
#![tactic(auto)]

ghost use Rattle.std.specs.Prelude.{◌≡◌, get_or};
ghost use Rattle.numbers.specs.Numbers.{read_numbers};
ghost use Rattle.read.specs.Calls.{ReadsOut};
ghost use Rattle.roll_rules.specs.Answers.{one_entry, roll_numbers};
ghost use Rattle.roll_read.specs.Calls.{Lists};
ghost use Rattle.words_meaning.specs.Answers.{link_numbers};
ghost use Rattle.words_link.specs.Calls.{Links};
ghost use Rattle.turnip.specs.RollArrays.{ClosesInArray, FilesInArray, five_of_entry, five_of_roll, tally_set};
ghost use Rattle.turnip.specs.Arrays.{InArray, RunsInArray, five_of};

use numbers::Numbers;
use roll_rules::{EntryRefusal, FoundEntry, LISTED, RollNumbers, RollRefusal, Sums, Tally};

fn store(told: Numbers, answer: &mut [u32; 5])
    ensures { answer.new ≡ five_of told }
{
    *answer = [told.number, told.steps, told.cells, told.length, told.place];
}

pub fn turnip_read(text: &[u8], out: &mut [u8], answer: &mut [u32; 5])
    ensures { InArray (λ r. five_of (read_numbers r)) (λ r. ReadsOut text.now out.old r out.new) answer.new }
{
    store(read::read(text, out).into(), answer);
}

pub fn turnip_run(
    text: &[u8],
    quota: u32,
    memory: &mut [u32],
    out: &mut [u8],
    answer: &mut [u32; 5],
)
    ensures { RunsInArray text.now quota memory.old out.old memory.new out.new answer.new }
{
    store(run::run(text, quota, memory, out).into(), answer);
}

fn store_roll(given: Result<Sums, RollRefusal>, answer: &mut [u32; 5])
    ensures { answer.new ≡ five_of_roll (roll_numbers given) }
{
    let told = RollNumbers::from(given);
    *answer = [told.number, told.entries, told.filed, told.done, told.place];
}

pub fn turnip_roll_read(roll: &[u8], list: &mut [u32], answer: &mut [u32; 5])
    ensures { InArray (λ r. five_of_roll (roll_numbers r)) (λ r. Lists roll.now list.old r list.new) answer.new }
{
    store_roll(roll_read::read(roll, list), answer);
}

fn store_entry(given: Result<FoundEntry, EntryRefusal>, answer: &mut [u32; 5])
    ensures { answer.new ≡ five_of_entry given }
{
    *answer = match given {
        Ok(entry) => [
            LISTED,
            entry.job,
            entry.job_bytes,
            entry.text,
            entry.text_bytes,
        ],
        Err(why) => [why.number(), 0, 0, 0, 0],
    };
}

pub fn turnip_roll_entry(roll: &[u8], at: usize, answer: &mut [u32; 5])
    ensures { answer.new ≡ five_of_entry (one_entry roll.now at) }
{
    store_entry(roll_read::entry(roll, at), answer);
}

// The array for a tally has jobs filed, then jobs done.
fn tally_in(tally: &[u32; 2]) -> Tally
    ensures { (result.filed ≡ get_or tally.now 0 0) × (result.done ≡ get_or tally.now 1 0) }
{
    let [filed, done] = *tally;
    Tally { filed, done }
}

fn store_tally(counted: Tally, tally: &mut [u32; 2])
    ensures { tally.new ≡ tally_set tally.old counted.filed counted.done }
{
    *tally = [counted.filed, counted.done];
}

// The roll is written first, then the tally, and the answer last. No contract speaks of this order: it is kept for callers in C who may look.
pub fn turnip_roll_file(
    roll: &mut [u8],
    used: usize,
    job: &[u8],
    text: &[u8],
    tally: &mut [u32; 2],
    answer: &mut [u32; 5],
)
    ensures { FilesInArray roll.old used job.now text.now tally.old roll.new tally.new answer.new }
{
    let mut counted = tally_in(tally);
    let told = roll_add::file(&mut counted, roll, used, job, text);
    store_tally(counted, tally);
    store_roll(told, answer);
}

pub fn turnip_roll_done(
    roll: &mut [u8],
    used: usize,
    job: &[u8],
    tally: &mut [u32; 2],
    answer: &mut [u32; 5],
)
    ensures { ClosesInArray roll.old used job.now tally.old roll.new tally.new answer.new }
{
    let mut counted = tally_in(tally);
    let told = roll_add::close_job(&mut counted, roll, used, job);
    store_tally(counted, tally);
    store_roll(told, answer);
}

pub fn turnip_link(list: &[u8], text: &[u8], out: &mut [u8], answer: &mut [u32; 5])
    ensures { InArray (λ r. five_of (link_numbers r)) (λ r. Links list.now text.now out.old r out.new) answer.new }
{
    store(words_link::link(list, text, out).into(), answer);
}
