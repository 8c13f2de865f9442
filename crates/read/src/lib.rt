// READ, and the one way in to the reader for every service: what is wrong with a text, whether it is accepted, and whether it is
// acceptable. Request 4 made READ of document 01's first two services. All functions are public and ask nothing of their callers. They
// stand on the text alone: no memory is lent.
#![tactic(auto)]

ghost use Rattle.std.specs.Prelude.{◌≡◌};
ghost use Rattle.kinds.specs.Limits.{cell_limit, standard};
ghost use Rattle.plan.specs.Read.{acceptable};
ghost use Rattle.plan.specs.Reading.{accept, read_text};
ghost use Rattle.reader.specs.Counting.{surveyed};
ghost use Rattle.read.specs.Calls.{ReadsOut};
ghost use Rattle.read.specs.Accepted.{acceptance_told};

use items::put_tidied;
use kinds::{Cell, Place};
use plan::{ReadRefusal, Size, TextFault, Unread};
use reader::{Counted, survey};

// What a text reads as, however many cells it has; and where the first item past the room begins.
#[tactic(auto, unfolding(plan::specs::Reading::read_text, reader::specs::Counting::surveyed))]
pub fn survey_text(text: &[u8], room: u32) -> Result<Counted, TextFault>
    ensures { result ≡ surveyed room (read_text standard text.now) }
{
    if Place::LIMIT < text.len() {
        return Err(TextFault::TooLong);
    }
    survey(text, room)
}

// Whether a text is accepted where there is room for so many cells, and how large its plan is; or why it is not read.
#[tactic(auto, unfolding(plan::specs::Reading::accept))]
pub fn accept(text: &[u8], room: u32) -> Result<Size, Unread>
    ensures { result ≡ acceptance_told (accept standard room text.now) }
{
    let Counted { size, overfull } = survey_text(text, room)?;
    if room < size.cells {
        return Err(Unread::Overfull(overfull));
    }
    Ok(size)
}

// READ before its output is looked at. No memory is lent to it, so its plans may have as many cells as any.
pub fn acceptance_of(text: &[u8]) -> Result<Size, Unread>
    ensures { result ≡ acceptance_told (accept standard cell_limit text.now) }
{
    accept(text, Cell::LIMIT as u32)
}

// Whether nothing but OUTSHORT could refuse a text.
#[tactic(auto, using(crate::proofs::Accepting::told_whether))]
pub fn is_acceptable(text: &[u8]) -> bool
    ensures { result ≡ acceptable standard text.now }
{
    acceptance_of(text).is_ok()
}

pub fn read(text: &[u8], output: &mut [u8]) -> Result<Size, ReadRefusal>
    ensures { ReadsOut text.now output.old result output.new }
{
    let size = acceptance_of(text)?;
    if output.len() < size.length as usize {
        return Err(ReadRefusal::OutShort(size.length));
    }
    put_tidied(text, output, 0);
    Ok(size)
}
