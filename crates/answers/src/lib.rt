// What RUN answers, and its five numbers; a run cut into slots; the worked plans and tokens. The definitions in specs/ speak of the types
// here, so that a promise is one equation.
#![tactic(auto)]

ghost use Rattle.std.specs.Prelude.{◌≡◌};
ghost use Rattle.answers.specs.Run.{ending_number, ran_numbers, run_refusal_numbers};
ghost use Rattle.answers.specs.declared.RunRefusal.TheVariants.{NotRead};

use numbers::Numbers;
use plan::Unread;
use rules::Ending;

// Why a call of RUN is refused.
#[derive(Clone, Copy, PartialEq, Eq)]
pub enum RunRefusal {
    BadArena,
    NotRead(Unread),
    // The bytes needed.
    OutShort(u32),
}

// How a run that was not refused went: how it ended, the rewrites that it made, and how large the plan is that is left.
#[derive(Clone, Copy, PartialEq, Eq)]
pub struct Ran {
    pub ending: Ending,
    pub steps: u32,
    pub cells: u32,
    pub length: u32,
}

impl From<Unread> for RunRefusal {
    ghost from_gives = { λ u r. r ≡ NotRead u };

    fn from(unread: Unread) -> RunRefusal {
        RunRefusal::NotRead(unread)
    }
}

fn ending_number(ending: Ending) -> u32
    ensures { result ≡ ending_number ending }
{
    match ending {
        Ending::Done => 0,
        Ending::Quota => 1,
        Ending::Full => 2,
    }
}

impl From<RunRefusal> for Numbers {
    ghost from_gives = { λ r n. n ≡ run_refusal_numbers r };

    fn from(refusal: RunRefusal) -> Numbers {
        match refusal {
            RunRefusal::BadArena => Numbers::refused(12, 0),
            RunRefusal::NotRead(why) => why.into(),
            RunRefusal::OutShort(needed) => Numbers::out_short(needed),
        }
    }
}

impl From<Ran> for Numbers {
    ghost from_gives = { λ r n. n ≡ ran_numbers r };

    fn from(ran: Ran) -> Numbers {
        Numbers {
            number: ending_number(ran.ending),
            steps: ran.steps,
            cells: ran.cells,
            length: ran.length,
            place: 0,
        }
    }
}
