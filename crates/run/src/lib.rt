// RUN, the service of document 01: it builds the plan of an accepted text in the memory, rewrites it there and prints it from there. It is
// public and asks nothing of its caller, and its contract says for every input what the call answers and leaves (specs/Calls.antt). At the
// end of every call, whatever its answer, all numbers lent are 0.
#![tactic(auto)]

ghost use Rattle.std.specs.Prelude.{◌≡◌, length};
ghost use Rattle.kinds.specs.Limits.{token_limit, standard};
ghost use Rattle.plan.specs.Outcomes.{Wrote};
ghost use Rattle.plan.specs.Reading.{read};
ghost use Rattle.answers.specs.Run.{quarter, run_family, run_read, run_outcome};
ghost use Rattle.run.specs.Calls.{Runs};
ghost use Rattle.run.specs.Writing.{EndWritten, Printable, TextAccepted};

use answers::{Ran, RunRefusal};
use engine::Ended;
use kinds::{Cell, Place};
use loader::build_plan;
use memory::{HeldPlan, clear};
use plan::{TextFault, Unread};
use read::accept;

// The answer of a run that ended, and its printed text in the output; or 18, and the output as it was.
fn print_plan(
    text: &[u8],
    held: &HeldPlan,
    ended: Ended,
    output: &mut [u8],
) -> Result<Ran, RunRefusal>
    requires { Printable text.now held.now ended }
    ensures { EndWritten text.now held.now ended output.old result output.new }
{
    let length = held.printed_length(text);
    if output.len() < length as usize {
        return Err(RunRefusal::OutShort(length));
    }
    held.print_into(text, output, 0);
    Ok(Ran {
        ending: ended.ending,
        steps: ended.steps,
        cells: ended.size,
        length,
    })
}

// RUN of a text that was accepted, before the clearing.
fn run_accepted(
    text: &[u8],
    quota: u32,
    memory: &mut [u32],
    output: &mut [u8],
    outer: Cell,
    size: u32,
) -> Result<Ran, RunRefusal>
    requires { TextAccepted text.now memory.old outer.0 size }
    ensures written { Wrote run_family (run_read outer.0 quota (read token_limit outer.0 text.now)) output.old result output.new }
    ensures as_long { length memory.new ≡ length memory.old }
{
    let mut held = build_plan(text, memory, outer);
    let ended = engine::run(text, &mut held, size, quota);
    print_plan(text, &held, ended, output)
}

// RUN before the clearing: 11 comes before 12, and 12 before what stands in the text.
fn run_uncleared(
    text: &[u8],
    quota: u32,
    memory: &mut [u32],
    output: &mut [u8],
) -> Result<Ran, RunRefusal>
    ensures written { Wrote run_family (run_outcome standard (quarter (length memory.old)) quota text.now) output.old result output.new }
    ensures as_long { length memory.new ≡ length memory.old }
{
    let lent = memory.len() / Cell::NUMBERS;
    if Place::LIMIT < text.len() {
        return Err(RunRefusal::NotRead(Unread::Text(TextFault::TooLong)));
    }
    if Cell::LIMIT < lent {
        return Err(RunRefusal::BadArena);
    }
    let size = accept(text, lent as u32)?;
    run_accepted(text, quota, memory, output, Cell::new(lent), size.cells)
}

pub fn run(
    text: &[u8],
    quota: u32,
    memory: &mut [u32],
    output: &mut [u8],
) -> Result<Ran, RunRefusal>
    ensures { Runs text.now quota memory.old output.old result memory.new output.new }
{
    let answer = run_uncleared(text, quota, memory, output);
    clear(memory);
    answer
}
