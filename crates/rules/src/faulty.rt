// The faulty sign as a part of the caller's own text.
ghost use Rattle.std.specs.Prelude.{◌≡◌};
ghost use Rattle.rules.specs.FaultySigns.{faulty_sign, sign_part};

use grammar::RuleFault;
use signs::{SignFault, faulty};

// The sign that a refusal speaks of: a name or a word as long as can be, or one byte. There is none at the end of the text
// or behind it, and none where a rule is refused for want of nodes.
pub fn faulty_sign<'a>(text: &'a [u8], fault: RuleFault) -> &'a [u8]
    ensures { result.now ≡ faulty_sign text.now fault }
{
    match fault {
        RuleFault::Sign(sign) => faulty(text, sign),
        RuleFault::TooMany(place)
        | RuleFault::Unfit(place)
        | RuleFault::UnknownName(place)
        | RuleFault::TooDeep(place)
        | RuleFault::NotATest(place) => sign_part(text, place),
        RuleFault::NoRoom => &text[0..0],
    }
}

// The sign at a place.
fn sign_part<'a>(text: &'a [u8], place: usize) -> &'a [u8]
    ensures { result.now ≡ sign_part text.now place }
{
    let word = faulty(text, SignFault::NameTooLong(place));
    if word.is_empty() {
        return faulty(text, SignFault::StrayByte(place));
    }
    word
}
