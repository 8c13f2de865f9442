// The character of UTF-8 that stands at a place, and which characters a token may hold.
#![tactic(auto)]

ghost use Rattle.std.specs.Prelude.{◌≡◌, ◌+◌, ◌≤◌, length, drop, ◌∷◌, IfSome};
ghost use Rattle.plan.specs.Token.{character, may_hold, value, well_formed};
ghost use Rattle.characters.specs.Continued.{Room};

use plan::Character;

// The value of a character once the `count` bytes 10xxxxxx that follow its first have been taken, if they are there. Each adds six bits to
// the value, for which there is room.
#[tactic(auto, unfolding(plan::specs::Token::value, plan::specs::Token::follows))]
fn following(bytes: &[u8], first: u32, count: usize) -> Option<u32>
    requires { Room count first }
    ensures { result ≡ value count first bytes.now }
{
    let mut value = first;
    for byte in bytes.get(..count)? {
        let byte @ 0x80..=0xBF = *byte else {
            return None;
        };
        value = value * 64 + (byte as u32 - 0x80);
    }
    Some(value)
}

// A character of this width, unless its value is an overlong form, a surrogate, or past U+10FFFF.
#[tactic(auto, unfolding(plan::specs::Token::well_formed, plan::specs::Token::scalar))]
fn well_formed(width: u32, least: u32, value: u32) -> Option<Character>
    ensures { result ≡ well_formed width least (Some value) }
{
    match value {
        0..=0xD7FF | 0xE000..=0x10FFFF if least <= value => Some(Character { value, width }),
        _ => None,
    }
}

// The character of several bytes that begins with this one, if these bytes follow it.
#[tactic(auto, unfolding(plan::specs::Token::character, plan::specs::Token::well_formed))]
fn longer_character(first: u32, rest: &[u8]) -> Option<Character>
    requires { 0x80 ≤ first }
    ensures { result ≡ character (first ∷ rest.now) }
{
    match first {
        0xC0..=0xDF => well_formed(2, 0x80, following(rest, first - 0xC0, 1)?),
        0xE0..=0xEF => well_formed(3, 0x800, following(rest, first - 0xE0, 2)?),
        0xF0..=0xF7 => well_formed(4, 0x10000, following(rest, first - 0xF0, 3)?),
        _ => None,
    }
}

// The character of UTF-8 that these bytes begin with, if they begin one. Most characters are one byte, and are told where they are asked for.
#[inline(always)]
#[tactic(auto, unfolding(plan::specs::Token::character))]
fn first_character(bytes: &[u8]) -> Option<Character>
    ensures { result ≡ character bytes.now }
{
    let [first, rest @ ..] = bytes else {
        return None;
    };
    let value = *first as u32;
    if value < 0x80 {
        Some(Character { value, width: 1 })
    } else {
        // Taken out of its Option and put into one again: handed on as it is, a character of one byte would go through memory with it.
        Some(longer_character(value, rest)?)
    }
}

// The character that begins at a place, with all its bytes in the text; at the end of the text or past it there is none.
#[inline(always)]
#[tactic(auto, unfolding(plan::specs::Token::character))]
pub fn character_at(text: &[u8], at: usize) -> Option<Character>
    ensures is { result ≡ character (drop at text.now) }
    ensures there { IfSome result (λ c. (1 ≤ c.width) × (at + c.width ≤ length text.now)) }
{
    first_character(text.get(at..)?)
}

// The characters that open and close a token.
pub const OPEN_BRACE: u32 = 0x7B;

const CLOSE_BRACE: u32 = 0x7D;

// Whether a token may hold the character of this value: no brace, no control character, no U+FFFD.
#[tactic(auto, unfolding(plan::specs::Token::may_hold))]
pub fn may_hold(value: u32) -> bool
    ensures { result ≡ may_hold value }
{
    match value {
        OPEN_BRACE | CLOSE_BRACE => false,
        0x20..=0x7E => true,
        0..=0x9F | 0xFFFD => false,
        _ => true,
    }
}
