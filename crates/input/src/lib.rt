// Reads standard input, so that an error is never taken for its end. What stood before a read that failed is not the input.
#![tactic(auto)]

ghost use Rattle.std.specs.Prelude.{◌≤◌, IfOk, length};

use std::io;
use std::io::{ErrorKind, Read};

// How often reads may be interrupted; past it the input counts as failed, so that reading ends.
const PATIENCE: u32 = 1_000_000;

// Reads until the buffer is full, the input ends or a read fails, and gives how many bytes of the input stand in the buffer. Where they do
// not fill it, they are all of the input. After a read that was interrupted it goes on.
pub fn read_whole(rt: &impl io::Input, buffer: &mut [u8]) -> io::Result<usize>
    ensures { IfOk result (λ read. read ≤ length buffer.new) }
{
    let mut reader = rt.reader();
    let mut done = 0;
    let mut patience = PATIENCE;
    while done < buffer.len() {
        match reader.read(&mut buffer[done..]) {
            Ok(0) => return Ok(done),
            Ok(more) => done += more,
            Err(error) if error.kind() == ErrorKind::Interrupted && 0 < patience => patience -= 1,
            Err(error) => return Err(error),
        }
    }
    Ok(done)
}
