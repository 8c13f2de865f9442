// The five numbers of an answer: READ's own, and those that are the same for every service that reads a text.
#![tactic(auto)]

ghost use Rattle.std.specs.Prelude.{◌≡◌, MatchResult};
ghost use Rattle.numbers.specs.Numbers.{token_fault_number, fault_number, fault_place, refused_numbers, fault_numbers, unread_numbers, outshort_numbers, given_numbers, read_refusal_numbers};

use plan::{ReadRefusal, Size, TextFault, TokenFault, Unread};

#[derive(Clone, Copy, PartialEq, Eq)]
pub struct Numbers {
    pub number: u32,
    pub steps: u32,
    pub cells: u32,
    pub length: u32,
    pub place: u32,
}

impl Numbers {
    // A refusal has no steps, no cells and no length.
    pub fn refused(number: u32, place: u32) -> Numbers
        ensures { result ≡ refused_numbers number place }
    {
        Numbers {
            number,
            steps: 0,
            cells: 0,
            length: 0,
            place,
        }
    }

    // OUTSHORT, with the bytes needed.
    pub fn out_short(needed: u32) -> Numbers
        ensures { result ≡ outshort_numbers needed }
    {
        Numbers::refused(18, needed)
    }
}

fn token_fault_number(fault: TokenFault) -> u32
    ensures { result ≡ token_fault_number fault }
{
    match fault {
        TokenFault::Empty => 21,
        TokenFault::Long => 22,
        TokenFault::BadUtf8 => 23,
        TokenFault::Forbidden => 24,
        TokenFault::InnerBrace => 25,
    }
}

fn fault_number(fault: TextFault) -> u32
    ensures { result ≡ fault_number fault }
{
    match fault {
        TextFault::TooLong => 11,
        TextFault::BadByte(_) => 13,
        TextFault::BadToken { fault, .. } => token_fault_number(fault),
        TextFault::Unmatched(_) => 15,
        TextFault::Unclosed(_) => 16,
    }
}

fn fault_place(fault: TextFault) -> u32
    ensures { result ≡ fault_place fault }
{
    match fault {
        TextFault::TooLong => 0,
        TextFault::BadByte(at)
        | TextFault::BadToken { at, .. }
        | TextFault::Unmatched(at)
        | TextFault::Unclosed(at) => at.0,
    }
}

// A fault of a text is told in the same way by every service.
impl From<TextFault> for Numbers {
    ghost from_gives = { λ f n. n ≡ fault_numbers f };

    fn from(fault: TextFault) -> Numbers {
        Numbers::refused(fault_number(fault), fault_place(fault))
    }
}

impl From<Unread> for Numbers {
    ghost from_gives = { λ u n. n ≡ unread_numbers u };

    fn from(why: Unread) -> Numbers {
        match why {
            Unread::Text(fault) => fault.into(),
            Unread::Overfull(past) => Numbers::refused(17, past.0),
        }
    }
}

impl From<ReadRefusal> for Numbers {
    ghost from_gives = { λ r n. n ≡ read_refusal_numbers r };

    fn from(refusal: ReadRefusal) -> Numbers {
        match refusal {
            ReadRefusal::NotRead(why) => why.into(),
            ReadRefusal::OutShort(needed) => Numbers::out_short(needed),
        }
    }
}

// READ: nothing was rewritten.
impl From<Size> for Numbers {
    ghost from_gives = { λ s n. n ≡ given_numbers s.cells s.length };

    fn from(size: Size) -> Numbers {
        Numbers {
            number: 3,
            steps: 0,
            cells: size.cells,
            length: size.length,
            place: 0,
        }
    }
}

// What a service answers is told by the numbers of what it gives, or by those of why it refuses.
impl<A, E> From<Result<A, E>> for Numbers
where
    Numbers: From<A> + From<E>,
{
    ghost from_gives = { λ r n. MatchResult r (λ a. ⟦<Numbers as From<A>>⟧.from_gives a n) (λ e. ⟦<Numbers as From<E>>⟧.from_gives e n) };

    fn from(answer: Result<A, E>) -> Numbers {
        match answer {
            Ok(given) => Numbers::from(given),
            Err(refusal) => Numbers::from(refusal),
        }
    }
}
