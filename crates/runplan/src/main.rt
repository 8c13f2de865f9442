// The program behind `./runplan`: it reads a plan from standard input, runs it, and writes what is left of it and the five numbers of the
// answer. The quota is 10,000, and there are 4,096 cells. The text comes first, then a line with the numbers. After a refusal there is no
// text, and the first line is empty. What cannot be read or written is said on standard error, and the status is then 1.
#![tactic(auto)]

use input::read_whole;
use kinds::Cell;
use numbers::Numbers;
use std::process::ExitCode;
use std::{fmt, io};
use telling::{tell_five, tell_printed};

const QUOTA: u32 = 10_000;

const MEMORY: usize = Cell::NUMBERS * Cell::LIMIT;

// Each of the two text buffers.
const TEXT: usize = 65_536;

// Not all could be read, or not all written, and why.
#[derive(Debug, Drop)]
enum Failure {
    Reading(io::Error),
    Writing(io::Error),
}

impl fmt::Display for Failure {
    fn fmt<W: fmt::Write>(&self, f: &mut fmt::Formatter<W>) -> fmt::Result {
        match self {
            Failure::Reading(error) => write!(f, "standard input: {error}"),
            Failure::Writing(error) => write!(f, "standard output: {error}"),
        }
    }
}

// Whether more stands behind the bytes that were read. There is something to ask only where these fill the buffer: a shorter input has
// ended.
fn has_more(rt: &impl io::Input, read: usize) -> io::Result<bool> {
    if read < TEXT {
        return Ok(false);
    }
    let mut next = [0u8; 1];
    Ok(0 < read_whole(rt, &mut next)?)
}

// The input; none where it is too long.
fn read_text<'a>(rt: &impl io::Input, buffer: &'a mut [u8]) -> io::Result<Option<&'a [u8]>> {
    let read = read_whole(rt, buffer)?;
    if has_more(rt, read)? {
        return Ok(None);
    }
    Ok(Some(&buffer[..read]))
}

// Runs a text and writes what came of it; an error where not all could be written.
fn run_text(rt: &impl Print, text: &[u8], memory: &mut [u32], output: &mut [u8]) -> io::Result<()> {
    let numbers: Numbers = run::run(text, QUOTA, memory, output).into();
    tell_printed(rt, numbers, output)?;
    println!(rt)?;
    tell_five(rt, numbers)?;
    println!(rt)
}

// An input that could not be read to its end is not run.
fn run_input(
    rt: &(impl io::Input + Print),
    input: &mut [u8],
    memory: &mut [u32],
    output: &mut [u8],
) -> Result<(), Failure> {
    match read_text(rt, input).map_err(Failure::Reading)? {
        Some(text) => run_text(rt, text, memory, output),
        None => println!(rt; "input too long"),
    }
    .map_err(Failure::Writing)
}

// Lends each buffer as a slice. Behind a reference its length is known by its type; in `main` a proof would go through
// its zeros one by one. The status is 1 where not all could be read and written, which is said on standard error.
fn lend(
    rt: &(impl io::Input + Print + Eprint),
    input: &mut [u8; TEXT],
    memory: &mut [u32; MEMORY],
    output: &mut [u8; TEXT],
) -> ExitCode {
    match run_input(rt, input, memory, output) {
        Ok(()) => ExitCode::SUCCESS,
        Err(failure) => {
            let _ = eprintln!(rt; "runplan: {failure}");
            ExitCode::FAILURE
        }
    }
}

fn main(rt: HostRuntime) -> ExitCode {
    let mut input = [0u8; TEXT];
    let mut memory = [0u32; MEMORY];
    let mut output = [0u8; TEXT];
    lend(&rt, &mut input, &mut memory, &mut output)
}
