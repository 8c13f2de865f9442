// How a roll is kept in bytes: its entries one behind the other, what each says, and the bytes of a new one. Nothing here asks whether an
// entry is right.
#![tactic(auto)]

ghost use Rattle.std.specs.Prelude.{◌≡◌};
ghost use Rattle.roll_format.specs.Format.{job_in};

use stored::LARGEST;

// No roll and no buffer is longer.
pub const LONGEST: usize = LARGEST as usize;

// The first byte of a roll.
pub const FIRST: u8 = 1;

// What an entry is.
#[derive(Clone, Copy, PartialEq, Eq)]
pub enum EntryKind {
    Filed,
    Done,
}

// An entry to go behind those of a roll: a FILED has a job number and a text, a DONE has a job number alone.
#[derive(Clone, Copy, PartialEq, Eq)]
pub enum NewEntry<'a> {
    Filed { job: &'a [u8], text: &'a [u8] },
    Done { job: &'a [u8] },
}

impl<'a> NewEntry<'a> {
    // Its job number, which an entry of either kind has.
    pub fn job(self) -> &'a [u8]
        ensures { result.now ≡ job_in self.entry }
    {
        match self {
            Self::Filed { job, .. } | Self::Done { job } => job,
        }
    }
}
