// What the next byte of a token says: the token goes on, ends, or has a fault here. The reader's inner loop asks this byte by byte.
#![tactic(auto)]

ghost use Rattle.std.specs.Prelude.{◌≡◌, ◌+◌, ◌<◌, ◌≤◌, length, drop};
ghost use Rattle.kinds.specs.Limits.{text_limit, token_limit};
ghost use Rattle.plan.specs.Token.{character};
ghost use Rattle.tokens.specs.InToken.{in_character, in_token, token_faulty};

use characters::{OPEN_BRACE, character_at, may_hold};
use kinds::{Place, Token};
use plan::{Character, TokenFault};

// A token's first fault, and where it stands.
#[derive(Clone, Copy)]
pub struct FaultyToken {
    pub fault: TokenFault,
    pub at: Place,
}

// What the next byte of a token begins: a character of so many bytes that the token may hold, or the end of the token's reading, which is
// the end of a whole token unless it has a fault.
#[derive(Clone, Copy)]
pub enum InToken {
    Further(u32),
    Ends(Result<(), FaultyToken>),
}

fn token_faulty(fault: TokenFault, at: usize) -> InToken
    requires { at ≤ text_limit }
    ensures { result ≡ token_faulty fault at }
{
    InToken::Ends(Err(FaultyToken {
        fault,
        at: Place::new(at),
    }))
}

// The character at a place of a token. The token may have no byte behind `last`, which has to be its `}`. A fault of the character's own
// comes first, since it stands before that byte.
#[tactic(auto, unfolding(crate::specs::InToken::in_character))]
fn token_character(text: &[u8], last: usize, at: usize) -> InToken
    requires { (length text.now ≤ text_limit) × (at < last) × (at < length text.now) }
    ensures { result ≡ in_character last at (character (drop at text.now)) }
{
    let Some(Character { value, width }) = character_at(text, at) else {
        return token_faulty(TokenFault::BadUtf8, at);
    };
    // The character's own fault stands at its first byte. Whether it reaches `last` is asked of its last byte.
    let reached = at + (width as usize - 1);
    if value == OPEN_BRACE {
        return token_faulty(TokenFault::InnerBrace, at);
    }
    if !may_hold(value) {
        return token_faulty(TokenFault::Forbidden, at);
    }
    if last <= reached {
        return token_faulty(TokenFault::Long, last);
    }
    InToken::Further(width)
}

// The next byte of the token whose `{` is at `start`. The token's 64th byte is the last that it may have, and has to be its `}`.
#[tactic(auto, unfolding(crate::specs::InToken::in_token))]
pub fn token_byte(text: &[u8], start: usize, at: usize) -> InToken
    requires { (length text.now ≤ text_limit) × (start < at) × (at < start + token_limit) × (at ≤ length text.now) }
    ensures { result ≡ in_token token_limit start at text.now }
{
    let last = start + (Token::LIMIT - 1);
    match text.get(at) {
        None => token_faulty(TokenFault::Long, text.len()),
        Some(b'}') if at == start + 1 => token_faulty(TokenFault::Empty, at),
        Some(b'}') => InToken::Ends(Ok(())),
        Some(_) if at == last => token_faulty(TokenFault::Long, at),
        Some(_) => token_character(text, last, at),
    }
}
