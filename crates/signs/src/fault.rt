// Why a text is refused before any of its signs means something. Each case has its number and its place.
ghost use Rattle.std.specs.Prelude.{◌≡◌};
ghost use Rattle.signs.specs.Faults.{faulty_part, refusal_of};

use crate::limits::TEXT_BYTES;
use crate::runs::{inner_part, rest_from};
use refusals::{Layer, Refusal};

// A refusal of the sign reader.
#[derive(Clone, Copy, PartialEq, Eq, Debug)]
pub enum SignFault {
    // The text has more than 4,096 bytes.
    TextTooLong,
    // A byte that belongs to no sign, with its place.
    StrayByte(usize),
    // A name of more than 12 bytes, with the place of its first.
    NameTooLong(usize),
}

// Each refusal as it is told.
impl From<SignFault> for Refusal {
    ghost from_gives = { λ fault r. r ≡ refusal_of fault };

    fn from(fault: SignFault) -> Refusal {
        let (number, place) = match fault {
            SignFault::TextTooLong => (5, TEXT_BYTES),
            SignFault::StrayByte(place) => (6, place),
            SignFault::NameTooLong(place) => (7, place),
        };
        Refusal {
            layer: Layer::Signs,
            number,
            place,
        }
    }
}

// The faulty sign as a part of the caller's own text: the stray byte, or the whole of the name that is too long. A text
// that is too long has no faulty sign.
pub fn faulty<'a>(text: &'a [u8], fault: SignFault) -> &'a [u8]
    ensures { result.now ≡ faulty_part text.now fault }
{
    match fault {
        SignFault::TextTooLong => &text[0..0],
        SignFault::StrayByte(place) => {
            let rest = rest_from(text, place);
            &rest[..rest.len().min(1)]
        }
        SignFault::NameTooLong(place) => inner_part(text, place),
    }
}

#[cfg(test)]
mod tests {
    use super::{SignFault, faulty};
    use refusals::Refusal;

    fn told(fault: SignFault) -> (u8, usize) {
        let Refusal { number, place, .. } = Refusal::from(fault);
        (number, place)
    }

    #[test]
    fn numbers_and_places(rt: HostRuntime) {
        assert!(rt; told(SignFault::TextTooLong) == (5, 4096));
        assert!(rt; told(SignFault::StrayByte(3)) == (6, 3));
        assert!(rt; told(SignFault::NameTooLong(9)) == (7, 9));
    }

    #[test]
    fn the_whole_faulty_sign_is_shown(rt: HostRuntime) {
        assert!(rt; matches!(faulty(b"send $", SignFault::StrayByte(5)), b"$"));
        assert!(rt; faulty(b" thirteenbytes;", SignFault::NameTooLong(1)).len() == 13);
        assert!(rt; matches!(faulty(b"send", SignFault::StrayByte(4)), b""));
        assert!(rt; matches!(faulty(b"send", SignFault::TextTooLong), b""));
    }
}
