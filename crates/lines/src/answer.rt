// A line written again, and behind it what was answered.
use crate::parts::Fields;
use lending::untouched;
use numbers::Numbers;
use telling::{say, say_count, tell_five, warn_unless};

// The most bytes of a text that a person reads in a line.
const SHOWN: usize = 100;

// A text; if it is too long to be read, a count and what is counted stand for it.
fn tell_short(rt: &(impl Print + Eprint), text: &[u8], count: usize, counted: &[u8]) {
    if text.len() <= SHOWN {
        say(rt, text);
    } else {
        say_count(rt, count);
        say(rt, counted);
    }
}

// Writes the line of a case again, without its end. The second field is told by a count if it is too long.
pub fn echo(rt: &(impl Print + Eprint), fields: Fields, count: usize, counted: &[u8]) {
    say(rt, fields.before);
    tell_short(rt, fields.second, count, counted);
    say(rt, fields.behind);
}

// Behind a line: the five numbers and the printed text.
pub fn tell_answer(rt: &(impl Print + Eprint), numbers: Numbers, printed: &[u8]) {
    say(rt, b" | ");
    warn_unless(rt, tell_five(rt, numbers));
    say(rt, b" | ");
    tell_short(rt, printed, printed.len(), b" bytes");
    say(rt, b" | ");
}

// Ends a line: whether what stands behind the printed text is as it was.
pub fn tell_rest(rt: &(impl Print + Eprint), rest: &[u8]) {
    if untouched(rest) {
        say(rt, b"rest untouched\n");
    } else {
        say(rt, b"rest CHANGED\n");
    }
}
