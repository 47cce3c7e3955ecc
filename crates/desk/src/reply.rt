// What a call of a script is answered, or why it is refused.
ghost use Rattle.std.specs.Prelude.{◌≡◌, None};
ghost use Rattle.sheet.specs.Faults as nameFaults;
ghost use Rattle.vocabulary.specs.Faults as vocabularyFaults;

use refusals::Refusal;
use sheet::NameFault;
use vocabulary::VocabularyFault;

// The answer to a call that is granted.
#[derive(Clone, Copy)]
pub enum Reply {
    // A vocabulary was made, with so many situations and tests.
    Vocabulary { situations: u8, tests: u8 },
    // A name was given this number.
    Number(u8),
    // The book was opened, with so many tests and actions named.
    Opened { tests: u8, actions: u8 },
    // A rule's text was read, into so many nodes with so many actions.
    Read { nodes: u8, actions: u8 },
}

// Why a call is refused, with the sign that it is refused for if there is one, which is a part of the text that was given.
#[derive(Clone, Copy)]
pub struct Refused<'a> {
    pub refusal: Refusal,
    pub sign: Option<&'a [u8]>,
}

// A refusal that is for no sign.
fn for_no_sign<'a>(refusal: Refusal) -> Refused<'a>
    ensures { result ≡ record { refusal = refusal; sign = None } }
{
    Refused {
        refusal,
        sign: None,
    }
}

// No name is refused for a sign.
impl<'a> From<NameFault> for Refused<'a> {
    ghost from_gives = { λ fault r. r ≡ record { refusal = nameFaults.refusal_of fault; sign = None } };

    fn from(fault: NameFault) -> Refused<'a> {
        for_no_sign(Refusal::from(fault))
    }
}

// No vocabulary is refused for a sign.
impl<'a> From<VocabularyFault> for Refused<'a> {
    ghost from_gives = { λ fault r. r ≡ record { refusal = vocabularyFaults.refusal_of fault; sign = None } };

    fn from(fault: VocabularyFault) -> Refused<'a> {
        for_no_sign(Refusal::from(fault))
    }
}
