// Writes to standard output: the five numbers of an answer, its printed text, plain words and counts. What cannot be written is said on
// standard error.
#![tactic(auto)]

ghost use Rattle.std.specs.Prelude.{◌≡◌, ◌≤◌, length, take, drop};

use numbers::Numbers;
use std::fmt::Display;
use std::io;

// What could not be written is said on standard error.
pub fn warn_unless(rt: &impl Eprint, written: io::Result<()>) {
    if let Err(error) = written {
        let _ = eprintln!(rt; "standard output: {error}");
    }
}

pub fn say(rt: &(impl Print + Eprint), bytes: &[u8]) {
    warn_unless(rt, rt.write_all(bytes));
}

pub fn say_count(rt: &(impl Print + Eprint), count: impl Display + Drop) {
    warn_unless(rt, print!(rt; "{count}"));
}

// A count on a line of its own.
pub fn say_line(rt: &(impl Print + Eprint), count: impl Display + Drop) {
    say_count(rt, count);
    say(rt, b"\n");
}

// Number, steps, cells, length and place in decimal, with one SP between; an error where not all could be written. Each number is a write of
// its own, with its SP: where an output takes a write whole or not at all, those that it has room for are there.
pub fn tell_five(rt: &impl Print, numbers: Numbers) -> io::Result<()> {
    let Numbers {
        number,
        steps,
        cells,
        length,
        place,
    } = numbers;
    rt.print(number)?;
    print!(rt; " {steps}")?;
    print!(rt; " {cells}")?;
    print!(rt; " {length}")?;
    print!(rt; " {place}")
}

// The printed text, which the output holds first, and what stands behind it.
pub fn printed_and_rest(numbers: Numbers, output: &[u8]) -> (&[u8], &[u8])
    requires { numbers.length ≤ length output.now }
    ensures printed { result.0.now ≡ take numbers.length output.now }
    ensures rest { result.1.now ≡ drop numbers.length output.now }
{
    output.split_at(numbers.length as usize)
}

// The printed text; an error where not all of it could be written.
pub fn tell_printed(rt: &impl Print, numbers: Numbers, output: &[u8]) -> io::Result<()>
    requires { numbers.length ≤ length output.now }
{
    let (printed, _) = printed_and_rest(numbers, output);
    rt.write_all(printed)
}
