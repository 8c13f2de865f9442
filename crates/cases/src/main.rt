// A program that runs each plan of standard input, as the plans that document 01 gives to try, and writes a line for each. A reader can hold
// each line to that page by eye.
//
// A line of the input is `label | text | cells | quota`, or a heading. It is written as it is, except a long text, which is told by its
// length; then come the five numbers of the answer, the printed text, and whether every number of the memory is 0 and every byte of the
// output past that text as it was.
#![tactic(auto)]

ghost use Rattle.std.specs.Prelude.{◌≤◌, length};

use kinds::Cell;
use lending::{all_zero, fill_memory, fill_output};
use lines::{echo, fields_of, number_of, read_input, tell_answer, tell_lines, tell_rest};
use numbers::Numbers;
use std::io;
use telling::{printed_and_rest, say};

// Room for all of the input, and more.
const INPUT: usize = 65_536;

const MEMORY: usize = Cell::NUMBERS * Cell::LIMIT;

// The longest text that is printed here is of blocks alone: two bytes for each cell.
const OUTPUT: usize = 2 * Cell::LIMIT;

// RUN, on a memory and an output that hold other values before.
fn run_filled(text: &[u8], quota: u32, memory: &mut [u32], output: &mut [u8]) -> Numbers
    ensures { result.length ≤ length output.new }
{
    fill_memory(memory);
    fill_output(output);
    run::run(text, quota, memory, output).into()
}

// Runs a text in all of the memory and tells what came of it.
fn tell_run(
    rt: &(impl Print + Eprint),
    text: &[u8],
    quota: u32,
    memory: &mut [u32],
    output: &mut [u8],
) {
    let numbers = run_filled(text, quota, memory, output);
    let (printed, rest) = printed_and_rest(numbers, output);
    tell_answer(rt, numbers, printed);
    if all_zero(memory) {
        say(rt, b"memory 0, ");
    } else {
        say(rt, b"memory NOT 0, ");
    }
    tell_rest(rt, rest);
}

// Runs the case of a line in as many cells as it says; none where the line is no case, or there are not so many.
fn tell_case(
    rt: &(impl Print + Eprint),
    line: &[u8],
    memory: &mut [u32],
    output: &mut [u8],
) -> Option<()> {
    let fields = fields_of(line);
    let cells = number_of::<u32>(fields.third)?;
    let quota = number_of(fields.fourth)?;
    let lent = memory.get_mut(..Cell::NUMBERS * cells as usize)?;
    echo(rt, fields, fields.second.len(), b" bytes");
    tell_run(rt, fields.second, quota, lent, output);
    Some(())
}

// Behind a reference the length of a buffer is known by its type; in `main` a proof would go through its zeros one by one.
fn tell_input(
    rt: &(impl io::Input + Print + Eprint),
    input: &mut [u8; INPUT],
    memory: &mut [u32; MEMORY],
    output: &mut [u8; OUTPUT],
) {
    tell_lines(
        rt,
        read_input(rt, input),
        |line| tell_case(rt, line, memory, output),
        b" | NOT RUN: no label | text | cells | quota\n",
    );
}

fn main(rt: HostRuntime) {
    let mut input = [0u8; INPUT];
    let mut memory = [0u32; MEMORY];
    let mut output = [0u8; OUTPUT];
    tell_input(&rt, &mut input, &mut memory, &mut output);
}
