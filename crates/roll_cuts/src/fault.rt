// What is wrong, as it is pointed out.
use telling::{say, say_line};

#[derive(Clone, Copy)]
pub enum Fault {
    AddedWrong = 1,
    ReadWrong = 2,
    NotTaken = 3,
    Changed = 4,
    ReadAgainWrong = 5,
}

// Whether nothing is wrong. What is, is pointed out, and where.
pub fn right_or_told(rt: &(impl Print + Eprint), outcome: Result<(), Fault>, place: u32) -> bool {
    if let Err(fault) = outcome {
        say(rt, b"fault and place:\n");
        say_line(rt, fault as u32);
        say_line(rt, place);
    }
    outcome.is_ok()
}
