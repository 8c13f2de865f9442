// What stock words mean: the stored list and its faults, linking, the answers and their types; the laws of these, and the worked lists. The
// definitions in specs/ speak of the types here, so that a promise is one equation.
#![tactic(auto)]

ghost use Rattle.std.specs.Prelude.{◌≡◌};
ghost use Rattle.words_meaning.specs.Answers.{link_refusal_numbers};
ghost use Rattle.words_meaning.specs.declared.LinkRefusal.TheVariants.{Text};

use kinds::Token;
use numbers::Numbers;
use plan::TextFault;

// No list has more words.
pub const MOST: usize = 256;

// The most bytes of a name: `{`, `%` and `}` are the token's and not the name's.
pub const NAME_LIMIT: usize = Token::LIMIT - 3;

// Why a call of LINK is refused, with the place that goes with it. One that is not refused answers the `Size` of the linked plan.
#[derive(Clone, Copy, PartialEq, Eq)]
pub enum LinkRefusal {
    // The least rank at fault.
    BadWords(u32),
    Text(TextFault),
    Overfull,
    // The bytes needed.
    OutShort(u32),
}

// A text's fault is passed on.
impl From<TextFault> for LinkRefusal {
    ghost from_gives = { λ f r. r ≡ Text f };

    fn from(fault: TextFault) -> Self {
        Self::Text(fault)
    }
}

impl From<LinkRefusal> for Numbers {
    ghost from_gives = { λ r n. n ≡ link_refusal_numbers r };

    fn from(refusal: LinkRefusal) -> Numbers {
        match refusal {
            LinkRefusal::BadWords(rank) => Numbers::refused(26, rank),
            LinkRefusal::Text(fault) => fault.into(),
            LinkRefusal::Overfull => Numbers::refused(17, 0),
            LinkRefusal::OutShort(needed) => Numbers::out_short(needed),
        }
    }
}
