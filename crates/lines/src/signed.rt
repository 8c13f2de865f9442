// The parts of a text at a sign that is known to have a byte.
ghost use Rattle.std.specs.Prelude.{◌<◌, length};
ghost use Rattle.lines.specs.Signs.{parts_left, sign_of};

use crate::Parts;

// `Parts` may have a sign of no bytes too, which parts nothing.
#[derive(Clone, Copy)]
pub struct SignedParts<'a> {
    parts: Parts<'a>,
    ghost sign_is_there: { 0 < length (sign_of parts) },
}

impl<'a> SignedParts<'a> {
    pub fn of(text: &'a [u8], sign: &'a [u8]) -> Self
        requires { 0 < length sign.now }
    {
        Self {
            parts: Parts::of(text, sign),
        }
    }
}

impl<'a> Iterator for SignedParts<'a> {
    ghost use Rattle.std.specs.Iterator.{at_most};

    type Item = &'a [u8];

    ghost remaining = { λ s. at_most (parts_left s.parts) };

    fn next(&mut self) -> Option<&'a [u8]> {
        self.parts.next()
    }
}
