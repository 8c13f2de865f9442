// What the roll means: what is wrong with an entry, the tally, the answers and their types. The definitions in specs/
// speak of the types here, so that a promise is one equation.
#![tactic(auto)]

ghost use Rattle.std.specs.Prelude.{◌≡◌, ◌<◌, Err};
ghost use Rattle.stored.specs.Counted.{largest};
ghost use Rattle.roll_rules.specs.Answers.{entry_number, grown, roll_numbers, roll_refusal_number, roll_refusal_place};
ghost use Rattle.roll_rules.specs.EntriesBefore.{one_entry_more};

// The most digits of a job number.
pub const JOB_LIMIT: usize = 10;

// The number of a roll that reads, of an entry that is added, and of one that is found.
pub const LISTED: u32 = 3;

// Why a call over a roll is refused, with the place that goes with it.
#[derive(Clone, Copy, PartialEq, Eq)]
pub enum RollRefusal {
    TooLong,
    BadRoll(u32),
    BadJob,
    BadText,
    AlreadyDone(u32),
    Unfiled,
    Unfinished(u32),
    // The bytes needed.
    NoRoom(u32),
    // The entries needed.
    MoreEntries(u32),
}

// What the entries of a roll come to: how many they are, the jobs filed and the jobs done by them, and where they end. Reading a roll and
// adding to it answer this, or a refusal.
#[derive(Clone, Copy, PartialEq, Eq)]
pub struct Sums {
    pub entries: u32,
    pub filed: u32,
    pub done: u32,
    pub end: u32,
}

// What an entry adds to the tally: whether it counts as a job filed, or as a job done.
#[derive(Clone, Copy, PartialEq, Eq)]
pub struct Counts {
    pub filed: bool,
    pub done: bool,
}

// The five numbers of an answer about a roll.
#[derive(Clone, Copy, PartialEq, Eq)]
pub struct RollNumbers {
    pub number: u32,
    pub entries: u32,
    pub filed: u32,
    pub done: u32,
    pub place: u32,
}

// One entry: where its job number and its text stand in the roll, and their bytes.
#[derive(Clone, Copy, PartialEq, Eq)]
pub struct FoundEntry {
    pub job: u32,
    pub job_bytes: u32,
    pub text: u32,
    pub text_bytes: u32,
}

// Why asking for one entry is refused.
#[derive(Clone, Copy, PartialEq, Eq)]
pub enum EntryRefusal {
    TooLong,
    NoEntry,
}

// A running tally: jobs filed and jobs done.
#[derive(Clone, Copy, PartialEq, Eq)]
pub struct Tally {
    pub filed: u32,
    pub done: u32,
}

// One more where it counts; the largest number stays.
pub fn grown(count: u32, more: bool) -> u32
    ensures { result ≡ grown more count }
{
    count.saturating_add(u32::from(more))
}

impl Sums {
    // The sums with one entry more, which ends at a place. Reading and adding count by this alone.
    pub fn with_entry(self, counts: Counts, end: u32) -> Sums
        requires { self.entries < largest }
        ensures { result ≡ one_entry_more self counts.filed counts.done end }
    {
        Sums {
            entries: self.entries + 1,
            filed: grown(self.filed, counts.filed),
            done: grown(self.done, counts.done),
            end,
        }
    }
}

impl Tally {
    // The tally with one entry more.
    pub fn with_entry(self, counts: Counts) -> Tally
        ensures { (result.filed ≡ grown counts.filed self.filed) × (result.done ≡ grown counts.done self.done) }
    {
        Tally {
            filed: grown(self.filed, counts.filed),
            done: grown(self.done, counts.done),
        }
    }
}

impl RollRefusal {
    fn number(self) -> u32
        ensures { result ≡ roll_refusal_number self }
    {
        match self {
            RollRefusal::TooLong => 11,
            RollRefusal::BadRoll(_) => 31,
            RollRefusal::BadJob => 32,
            RollRefusal::BadText => 33,
            RollRefusal::AlreadyDone(_) => 34,
            RollRefusal::Unfiled => 35,
            RollRefusal::Unfinished(_) => 36,
            RollRefusal::NoRoom(_) => 37,
            RollRefusal::MoreEntries(_) => 38,
        }
    }

    fn place(self) -> u32
        ensures { result ≡ roll_refusal_place self }
    {
        match self {
            RollRefusal::TooLong
            | RollRefusal::BadJob
            | RollRefusal::BadText
            | RollRefusal::Unfiled => 0,
            RollRefusal::BadRoll(place)
            | RollRefusal::AlreadyDone(place)
            | RollRefusal::Unfinished(place) => place,
            RollRefusal::NoRoom(needed) | RollRefusal::MoreEntries(needed) => needed,
        }
    }
}

// What reading a roll and adding to it answer is told by these. A refusal counts nothing.
impl From<Result<Sums, RollRefusal>> for RollNumbers {
    ghost from_gives = { λ r n. n ≡ roll_numbers r };

    fn from(answer: Result<Sums, RollRefusal>) -> RollNumbers {
        match answer {
            Ok(sums) => RollNumbers {
                number: LISTED,
                entries: sums.entries,
                filed: sums.filed,
                done: sums.done,
                place: sums.end,
            },
            Err(refusal) => RollNumbers {
                number: refusal.number(),
                entries: 0,
                filed: 0,
                done: 0,
                place: refusal.place(),
            },
        }
    }
}

impl EntryRefusal {
    pub fn number(self) -> u32
        ensures { result ≡ entry_number (Err self) }
    {
        match self {
            EntryRefusal::TooLong => RollRefusal::TooLong.number(),
            EntryRefusal::NoEntry => 39,
        }
    }
}
