// A text cut at a sign, and the fields of a line, which the sign ` | ` parts.
ghost use Rattle.std.specs.Prelude.{◌≡◌, ◌+◌, ◌++◌, ◌<◌, IfSome, length};
ghost use Rattle.std.specs.Iterator.{at_most};
ghost use Rattle.lines.specs.Parts.{CutAt, InOrder, turns};

// The parts of a text that a sign parts. A text without the sign is one part, also where it or the sign is empty.
#[derive(Clone, Copy)]
pub struct Parts<'a> {
    left: Option<&'a [u8]>,
    sign: &'a [u8],
}

// The fields of a line of a case. One that the line does not have is empty, and a fifth is part of the fourth, which is then no number.
// Since a line is written again but for its second field, all that stands before that one and all behind it are here too, signs and all.
#[derive(Clone, Copy)]
pub struct Fields<'a> {
    pub label: &'a [u8],
    pub second: &'a [u8],
    pub third: &'a [u8],
    pub fourth: &'a [u8],
    pub before: &'a [u8],
    pub behind: &'a [u8],
}

// What stands before the first sign, and what stands behind it. A sign of no bytes stands nowhere: so a text that is cut again and again
// comes to its end.
pub fn split_once<'a>(text: &'a [u8], sign: &[u8]) -> Option<(&'a [u8], &'a [u8])>
    ensures cut { IfSome result (λ cut. text.now ≡ cut.0.now ++ (sign.now ++ cut.1.now)) }
    ensures shorter { IfSome result (λ cut. length cut.0.now + length cut.1.now < length text.now) }
{
    if sign.is_empty() {
        return None;
    }
    for at in 0..text.len() {
        let (before, from) = text.split_at(at);
        if let Some(behind) = from.strip_prefix(sign) {
            return Some((before, behind));
        }
    }
    None
}

impl<'a> Parts<'a> {
    ghost use Rattle.lines.specs.Signs.{sign_of};

    pub fn of(text: &'a [u8], sign: &'a [u8]) -> Self
        ensures sign { sign_of result ≡ sign.now }
    {
        Self {
            left: Some(text),
            sign,
        }
    }
}

impl<'a> Iterator for Parts<'a> {
    ghost use Rattle.lines.specs.Signs.{sign_of};

    type Item = &'a [u8];

    ghost next_gives = { λ s r t. sign_of t ≡ sign_of s };

    ghost remaining = { λ s. at_most (turns s.left) };

    fn next(&mut self) -> Option<&'a [u8]> {
        let text = self.left?;
        match split_once(text, self.sign) {
            Some((part, others)) => {
                self.left = Some(others);
                Some(part)
            }
            None => {
                self.left = None;
                Some(text)
            }
        }
    }
}

// A text cut at its first sign. One without the sign stands before the cut, all of it.
fn cut<'a>(text: &'a [u8], sign: &[u8]) -> (&'a [u8], &'a [u8])
    ensures { CutAt sign.now text.now result.0.now result.1.now }
{
    split_once(text, sign).unwrap_or((text, b""))
}

pub fn fields_of(line: &[u8]) -> Fields<'_>
    ensures in_order { InOrder line.now result.label.now result.second.now result.third.now result.fourth.now }
    ensures again { line.now ≡ result.before.now ++ (result.second.now ++ result.behind.now) }
{
    let bar = b" | ";
    let (label, from_second) = cut(line, bar);
    let (second, from_third) = cut(from_second, bar);
    let (third, fourth) = cut(from_third, bar);
    Fields {
        label,
        second,
        third,
        fourth,
        before: &line[..line.len() - from_second.len()],
        behind: &from_second[second.len()..],
    }
}
