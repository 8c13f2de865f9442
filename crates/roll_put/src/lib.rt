// The bytes that a new entry takes at the end of a roll: how many they are, and writing them.
#![tactic(auto)]

ghost use Rattle.std.specs.Prelude.{◌≡◌, [], ◌+◌, ◌≤◌, ◌<◌, length};
ghost use Rattle.kinds.specs.Written.{put_at};
ghost use Rattle.roll_rules.specs.Answers.{edition_1, new_bytes};
ghost use Rattle.roll_format.specs.Format.{entry_bytes, longest, parts_in, parts_of};
ghost use Rattle.roll_format.specs.declared.EntryKind.TheVariants.{Filed, Done};
ghost use Rattle.roll_put.specs.Putting.{RoomAt, RoomFor, opening};

use roll_format::{FIRST, NewEntry};
use stored::{NUMBER, put_counted, put_number};

// Puts the first byte of a roll that has no bytes, and answers where the entry goes.
fn begin(buffer: &mut [u8], end: usize) -> usize
    requires { end < length buffer.old }
    ensures put { buffer.new ≡ put_at buffer.old end (opening end) }
    ensures there { result ≡ end + length (opening end) }
{
    if end == 0 {
        buffer[0] = FIRST;
        return 1;
    }
    end
}

// The bytes of an entry: its number of sections, and each section behind its count.
pub fn entry_size(added: NewEntry) -> usize
    requires { length (entry_bytes (parts_in added)) ≤ longest }
    ensures { result ≡ length (entry_bytes (parts_in added.entry)) }
{
    match added {
        NewEntry::Filed { job, text } => NUMBER + NUMBER + job.len() + NUMBER + text.len(),
        NewEntry::Done { job } => NUMBER + NUMBER + job.len(),
    }
}

// Writes the bytes of a FILED at a place.
fn put_filed(buffer: &mut [u8], at: usize, job: &[u8], text: &[u8])
    requires { RoomAt buffer.old at (parts_of Filed job.now text.now) }
    ensures { buffer.new ≡ put_at buffer.old at (entry_bytes (parts_of Filed job.now text.now)) }
{
    put_number(buffer, at, 2);
    put_counted(buffer, at + NUMBER, job);
    put_counted(buffer, at + NUMBER + NUMBER + job.len(), text);
}

// Writes the bytes of a DONE at a place.
fn put_done(buffer: &mut [u8], at: usize, job: &[u8])
    requires { RoomAt buffer.old at (parts_of Done job.now []) }
    ensures { buffer.new ≡ put_at buffer.old at (entry_bytes (parts_of Done job.now [])) }
{
    put_number(buffer, at, 1);
    put_counted(buffer, at + NUMBER, job);
}

// Writes an entry at the end.
pub fn put_entry(buffer: &mut [u8], end: usize, added: NewEntry)
    requires { RoomFor buffer.old end (parts_in added) }
    ensures { buffer.new ≡ put_at buffer.old end (new_bytes edition_1 end (parts_in added.entry)) }
{
    let at = begin(buffer, end);
    match added {
        NewEntry::Filed { job, text } => put_filed(buffer, at, job, text),
        NewEntry::Done { job } => put_done(buffer, at, job),
    }
}
