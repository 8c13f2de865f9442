// Numbers in decimal, and bytes in hex. What is not made of digits alone, or does not fit, is none.
ghost use Rattle.std.specs.Prelude.{◌<◌, ◌≤◌, IfSome, length};

// A number with one digit more behind it.
fn with_digit(value: u64, digit: u8) -> Option<u64> {
    let digit = char::from(digit).to_digit(10)?;
    value.checked_mul(10)?.checked_add(u64::from(digit))
}

// The number that digits stand for, in a type that has it.
pub fn number_of<N: TryFrom<u64>>(digits: &[u8]) -> Option<N>
where
    N::Error: Drop,
{
    if digits.is_empty() {
        return None;
    }
    let number = digits
        .iter()
        .try_fold(0, |value, digit| with_digit(value, *digit))?;
    N::try_from(number).ok()
}

// The value of a hex digit.
fn hex_digit(byte: u8) -> Option<u8>
    ensures { IfSome result (λ value. value < 16) }
{
    match byte {
        b'0'..=b'9' => Some(byte - b'0'),
        b'a'..=b'f' => Some(byte - b'a' + 10),
        _ => None,
    }
}

// The byte that two hex digits stand for.
fn byte_of(high: u8, low: u8) -> Option<u8> {
    Some(hex_digit(high)? * 16 + hex_digit(low)?)
}

// Puts the bytes of hex digits, two for each, to the front of the room, and gives how many they are. None where not all can be read, or
// where there is no room for all.
pub fn put_hex(digits: &[u8], room: &mut [u8]) -> Option<usize>
    ensures { IfSome result (λ bytes. bytes ≤ length room.new) }
{
    let (pairs, odd) = digits.as_chunks::<2>();
    if !odd.is_empty() || room.len() < pairs.len() {
        return None;
    }
    for (byte, [high, low]) in room.iter_mut().zip(pairs) {
        *byte = byte_of(*high, *low)?;
    }
    Some(pairs.len())
}
