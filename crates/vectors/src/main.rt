// A program that runs READ and RUN on each case of standard input, and compares what they answer and write with what the case expects. It
// says how many are as expected, and points out the first lines that are not, by the line and the fault: 3 something else was answered or
// written, 4 a byte of the output past the text was changed, 5 a number of the memory is not 0, 6 the line is malformed. Of a line with
// more faults than one it says the first of these.
//
// A case is a line, made by tests/vectors-to-stdin.py:
//
//     KIND QUOTA MEMLEN OUTLEN NUMBER STEPS CELLS LENGTH PLACE TEXT OUT
//
// Fields are parted by one SP, and the last is ended by LF. KIND is 1 for READ and 2 for RUN. What a
// kind has not, its line has as 0. Numbers are decimal. TEXT, what the service is given, and OUT, what it is to write,
// are bytes: the number of their runs, then for each run its LENGTH in bytes and its pattern in hex, which is repeated
// until LENGTH bytes are filled. So `2 3 5b 1 5d` is `[[[]`, and `0` is no bytes.
#![tactic(auto)]

mod case;
mod form;
mod report;

use case::{Case, Head, Service};
use form::Fields;
use kinds::{Cell, Place, Token};
use lines::read_input;
use report::{Fault, Report};

// Room for all of the input, and more.
const INPUT: usize = 2_097_152;

// The longest printed text: cells that are all tokens, each as long as may be.
const OUTPUT: usize = Token::LIMIT * Cell::LIMIT;

// Room for what is written behind a text: a byte more than the longest text, for the cases that are TOOLONG.
const ROOM: usize = Place::LIMIT + 1 + OUTPUT;

// More numbers than a run may be lent, for the cases that are BADARENA.
const MEMORY: usize = 100_000;

// Runs the case of a line, with as much of the memory and of the output lent as it says. A line that asks for more than there is is
// malformed, and is found so before the bytes that it stands for are put into the room: they may be many.
fn run_case(
    line: &[u8],
    room: &mut [u8],
    memory: &mut [u32],
    output: &mut [u8],
) -> Result<Service, Fault> {
    let mut fields = Fields::of(line);
    let head = Head::read(&mut fields).ok_or(Fault::Malformed)?;
    let memory = memory.get_mut(..head.memory).ok_or(Fault::Malformed)?;
    let output = output.get_mut(..head.output).ok_or(Fault::Malformed)?;
    let case = Case::read(head, fields, room).ok_or(Fault::Malformed)?;
    case.run(memory, output)
}

fn run_lines(rt: &(impl Print + Eprint), lines: &[u8]) {
    let mut room = [0u8; ROOM];
    let mut memory = [0u32; MEMORY];
    let mut output = [0u8; OUTPUT];
    let mut report = Report::new();
    for line in lines.split_inclusive(|byte| *byte == b'\n') {
        let outcome = run_case(line, &mut room, &mut memory, &mut output);
        report.add(rt, outcome);
    }
    report.print(rt);
}

// Behind a reference the length of the buffer is known by its type; in `main` a proof would go through its zeros one by one.
fn run_input(rt: &(impl Input + Print + Eprint), input: &mut [u8; INPUT]) {
    run_lines(rt, read_input(rt, input));
}

fn main(rt: HostRuntime) {
    let mut input = [0u8; INPUT];
    run_input(&rt, &mut input);
}
