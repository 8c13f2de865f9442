// The static library for C: each function of the crate turnip, exported under its name with its parameters and its contract.
// include/turnip.h declares and explains these functions.
#![tactic(auto)]

ghost use Rattle.std.specs.Prelude.{◌≡◌};
ghost use Rattle.numbers.specs.Numbers.{read_numbers};
ghost use Rattle.read.specs.Calls.{ReadsOut};
ghost use Rattle.roll_rules.specs.Answers.{one_entry, roll_numbers};
ghost use Rattle.roll_read.specs.Calls.{Lists};
ghost use Rattle.words_meaning.specs.Answers.{link_numbers};
ghost use Rattle.words_link.specs.Calls.{Links};
ghost use Rattle.turnip.specs.RollArrays.{ClosesInArray, FilesInArray, five_of_entry, five_of_roll};
ghost use Rattle.turnip.specs.Arrays.{InArray, RunsInArray, five_of};

#[unsafe(no_mangle)]
pub extern "C" fn turnip_read(text: &[u8], out: &mut [u8], answer: &mut [u32; 5])
    ensures { InArray (λ r. five_of (read_numbers r)) (λ r. ReadsOut text.now out.old r out.new) answer.new }
{
    turnip::turnip_read(text, out, answer);
}

#[unsafe(no_mangle)]
pub extern "C" fn turnip_run(
    text: &[u8],
    quota: u32,
    memory: &mut [u32],
    out: &mut [u8],
    answer: &mut [u32; 5],
)
    ensures { RunsInArray text.now quota memory.old out.old memory.new out.new answer.new }
{
    turnip::turnip_run(text, quota, memory, out, answer);
}

#[unsafe(no_mangle)]
pub extern "C" fn turnip_roll_read(roll: &[u8], list: &mut [u32], answer: &mut [u32; 5])
    ensures { InArray (λ r. five_of_roll (roll_numbers r)) (λ r. Lists roll.now list.old r list.new) answer.new }
{
    turnip::turnip_roll_read(roll, list, answer);
}

#[unsafe(no_mangle)]
pub extern "C" fn turnip_roll_entry(roll: &[u8], at: usize, answer: &mut [u32; 5])
    ensures { answer.new ≡ five_of_entry (one_entry roll.now at) }
{
    turnip::turnip_roll_entry(roll, at, answer);
}

#[unsafe(no_mangle)]
pub extern "C" fn turnip_roll_file(
    roll: &mut [u8],
    used: usize,
    job: &[u8],
    text: &[u8],
    tally: &mut [u32; 2],
    answer: &mut [u32; 5],
)
    ensures { FilesInArray roll.old used job.now text.now tally.old roll.new tally.new answer.new }
{
    turnip::turnip_roll_file(roll, used, job, text, tally, answer);
}

#[unsafe(no_mangle)]
pub extern "C" fn turnip_roll_done(
    roll: &mut [u8],
    used: usize,
    job: &[u8],
    tally: &mut [u32; 2],
    answer: &mut [u32; 5],
)
    ensures { ClosesInArray roll.old used job.now tally.old roll.new tally.new answer.new }
{
    turnip::turnip_roll_done(roll, used, job, tally, answer);
}

#[unsafe(no_mangle)]
pub extern "C" fn turnip_link(list: &[u8], text: &[u8], out: &mut [u8], answer: &mut [u32; 5])
    ensures { InArray (λ r. five_of (link_numbers r)) (λ r. Links list.now text.now out.old r out.new) answer.new }
{
    turnip::turnip_link(list, text, out, answer);
}
