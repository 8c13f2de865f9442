// The smallest questions about a text: the class of a byte, and whether a mark begins at a place.
#![tactic(auto)]

ghost use Rattle.std.specs.Prelude.{◌≡◌, ◌+◌, ◌<◌, length, get_or, drop};
ghost use Rattle.plan.specs.Reading.{class, mark};
ghost use Rattle.plan.specs.Token.{annotation};

use pieces::class_of_number;
use plan::Class;

mod classes;

// The class of a byte outside tokens.
pub fn class_of(byte: u8) -> Class
    ensures { result ≡ class byte }
{
    class_of_number(classes::CLASSES[byte as usize])
}

// Whether a token's text, which begins at a place, is that of an annotation.
fn is_annotation(text: &[u8], from: usize) -> bool
    ensures { result ≡ annotation (drop from text.now) }
{
    text.get(from) == Some(&b'&')
}

// Whether a mark begins at a place outside tokens: SP, LF, or an annotation. All of them mean nothing.
#[tactic(auto, unfolding(plan::specs::Reading::mark))]
pub fn is_mark(text: &[u8], at: usize) -> bool
    requires { at < length text.now }
    ensures { result ≡ mark (class (get_or text.now at 0)) (drop (at + 1) text.now) }
{
    match class_of(text[at]) {
        Class::Brace => is_annotation(text, at + 1),
        Class::Blank => true,
        Class::Operator(_) | Class::Open | Class::Close | Class::Bad => false,
    }
}
