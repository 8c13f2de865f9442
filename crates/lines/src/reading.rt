// Standard input, read whole and told line by line.
ghost use Rattle.std.specs.Prelude.{◌≤◌, length};

use input::read_whole;
use std::io;
use telling::say;

// Reads all of standard input, and gives what there is to go through. Of an input that cannot be read to its end, or that fills the buffer
// and so may go on, that is nothing: standard error says which.
pub fn read_input<'a>(rt: &(impl io::Input + Eprint), buffer: &'a mut [u8]) -> &'a [u8]
    ensures { length result.now ≤ length buffer.old }
{
    match read_whole(rt, buffer) {
        Ok(read) if read < buffer.len() => &buffer[..read],
        Ok(_) => {
            let _ = eprintln!(rt; "input too long");
            &[]
        }
        Err(error) => {
            let _ = eprintln!(rt; "standard input: {error}");
            &[]
        }
    }
}

// A line again, and what stands behind it.
fn say_again(rt: &(impl Print + Eprint), line: &[u8], behind: &[u8]) {
    say(rt, line);
    say(rt, behind);
}

// Tells each line without its end, which the last may lack: a heading, which begins with `#`, as it is, and any other as a case. One that
// is no case is never passed over: it comes back with what it should have been.
pub fn tell_lines<F: FnMut(&[u8]) -> Option<()>>(
    rt: &(impl Print + Eprint),
    lines: &[u8],
    mut tell_case: F,
    no_case: &[u8],
)
    requires { F.IsAlwaysCallable tell_case }
{
    for line in lines.split_inclusive(|byte| *byte == b'\n') {
        let line = line.strip_suffix(b"\n").unwrap_or(line);
        if line.starts_with(b"#") {
            say_again(rt, line, b"\n");
        } else if tell_case(line).is_none() {
            say_again(rt, line, no_case);
        }
    }
}
