// A program that links each text of standard input by its list of words, as small lists, lists at fault and lists of 256 words, and writes
// a line for each. A reader can hold each line to request 6.
//
// A line of the input is `label | words | text | output`, or a heading; `output` is how many bytes of output are lent. The line is written
// as it is, except a long list, which is told by the number of its words; then come the five numbers of the answer, the printed text or
// how long it is, and whether every byte of the output past that text is as it was.
#![tactic(auto)]

mod building;

ghost use Rattle.std.specs.Prelude.{◌≤◌, length};

use building::{LIST, Lists};
use lending::fill_output;
use lines::{echo, fields_of, number_of, read_input, tell_answer, tell_lines, tell_rest};
use numbers::Numbers;
use std::io;
use telling::printed_and_rest;

// Room for all of the input, and more.
const INPUT: usize = 65_536;

// More than any of these texts links to.
const OUTPUT: usize = 8192;

// LINK, on an output that holds other values before.
fn link_filled(list: &[u8], text: &[u8], output: &mut [u8]) -> Numbers
    ensures { result.length ≤ length output.new }
{
    fill_output(output);
    words_link::link(list, text, output).into()
}

// Links a text into all of the output, and tells what came of it.
fn tell_link(rt: &(impl Print + Eprint), list: &[u8], text: &[u8], output: &mut [u8]) {
    let numbers = link_filled(list, text, output);
    let (printed, rest) = printed_and_rest(numbers, output);
    tell_answer(rt, numbers, printed);
    tell_rest(rt, rest);
}

// Links the text of a line by its list, into as many bytes of the output as it says. None where the line is no case; its list is there for
// the lines behind it all the same.
fn tell_case(
    rt: &(impl Print + Eprint),
    line: &[u8],
    lists: &mut Lists,
    output: &mut [u8],
) -> Option<()> {
    let fields = fields_of(line);
    let list = lists.put(fields.second)?;
    let lent = output.get_mut(..number_of::<usize>(fields.fourth)?)?;
    echo(rt, fields, list.words as usize, b" words");
    tell_link(rt, lists.bytes_of(list), fields.third, lent);
    Some(())
}

// Behind a reference the length of a buffer is known by its type; in `main` a proof would go through its zeros one by one.
fn tell_input(
    rt: &(impl io::Input + Print + Eprint),
    input: &mut [u8; INPUT],
    room: &mut [u8; LIST],
    output: &mut [u8; OUTPUT],
) {
    let mut lists = Lists::new(room);
    tell_lines(
        rt,
        read_input(rt, input),
        |line| tell_case(rt, line, &mut lists, output),
        b" | NOT LINKED: no label | words | text | output\n",
    );
}

fn main(rt: HostRuntime) {
    let mut input = [0u8; INPUT];
    let mut room = [0u8; LIST];
    let mut output = [0u8; OUTPUT];
    tell_input(&rt, &mut input, &mut room, &mut output);
}
