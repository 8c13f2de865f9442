// A program that builds a roll of filed jobs, cuts it at every byte, reads each front and goes on with it, and writes how many are right.
// A machine that stops while it writes may leave any of these fronts. Each is to read as exactly its whole entries, and to take a new
// entry.
//
// Standard input has a line for each entry of the roll. They alone tell what each front is to read as:
//
//     f JOB TEXT    a job is filed first
//     a JOB TEXT    it is filed again
//     d JOB         it is marked done
//
// What is wrong is pointed out by a fault's number and a place: 1 an entry was not added as expected, 2 a front reads as something else,
// or has an entry at another place, 3 it does not take a new entry as expected, 4 a byte before or behind that is changed, 5 it then reads as
// something else. The cuts that are right are to be as many as the bytes of the roll, since no bytes are a roll too.
#![tactic(auto)]

mod cutting;
mod entering;
mod fault;

use cutting::{LIST, Whole, read_front};
use entering::{LineEntry, NO_ENTRIES, ROLL, with_line};
use fault::{Fault, right_or_told};
use lines::read_input;
use roll_rules::{RollNumbers, Sums, Tally};
use telling::{say, say_line};

// More bytes than the lines have.
const INPUT: usize = 4096;

fn tally_of(sums: Sums) -> Tally {
    Tally {
        filed: sums.filed,
        done: sums.done,
    }
}

// Adds the entry of a line to the roll: the answer is to be as expected, and a tally that goes along with it too.
fn build_line(
    line: &[u8],
    roll: &mut [u8; ROLL],
    before: Sums,
    expected: Sums,
) -> Result<(), Fault> {
    let entry = LineEntry::of(line).ok_or(Fault::AddedWrong)?;
    let entered = entry
        .enter(roll, before.end)
        .map_err(|_| Fault::AddedWrong)?;
    let tally = tally_of(before).with_entry(entered.counts);
    if entered.sums != expected || tally != tally_of(expected) {
        return Err(Fault::AddedWrong);
    }
    Ok(())
}

// Adds the entry of each line to the roll; what the roll is then to read as.
fn build(rt: &(impl Print + Eprint), lines: &[u8], roll: &mut [u8; ROLL]) -> Sums {
    let mut built = NO_ENTRIES;
    for line in lines.split_inclusive(|byte| *byte == b'\n') {
        let expected = with_line(built, line);
        right_or_told(rt, build_line(line, roll, built, expected), built.end);
        built = expected;
    }
    built
}

fn tell_all(rt: &(impl Print + Eprint), whole: RollNumbers, right: u32) {
    say(
        rt,
        b"entries, jobs filed, jobs done, bytes, cuts that are right:\n",
    );
    for count in [whole.entries, whole.filed, whole.done, whole.place, right] {
        say_line(rt, count);
    }
}

fn run(rt: &(impl Print + Eprint), lines: &[u8]) {
    let mut roll = [255u8; ROLL];
    let mut places = [0u32; LIST];
    let built = build(rt, lines, &mut roll);
    let read = read_front(&roll, built.end, &mut places);
    let whole = Whole {
        roll: &roll,
        places: &places,
    };
    tell_all(rt, read.into(), whole.cut_lines(rt, lines));
}

fn main(rt: HostRuntime) {
    let mut input = [0u8; INPUT];
    run(&rt, read_input(&rt, &mut input));
}
