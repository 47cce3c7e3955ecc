// The words that a line can begin with, and the kinds of vocabulary.
ghost use Rattle.std.specs.Prelude.{◌≡◌};
ghost use Rattle.script.specs.Lines.{keyword_of, part_of};

use crate::command::Part;

// The first word of a line that asks for a call.
#[derive(Clone, Copy)]
pub enum Keyword {
    Vocabulary,
    Test,
    Action,
    Open,
    Read,
}

// The call that a line begins with.
pub fn read_keyword(word: &[u8]) -> Option<Keyword>
    ensures { result ≡ keyword_of word.now }
{
    match word {
        b"vocabulary" => Some(Keyword::Vocabulary),
        b"test" => Some(Keyword::Test),
        b"action" => Some(Keyword::Action),
        b"open" => Some(Keyword::Open),
        b"read" => Some(Keyword::Read),
        _ => None,
    }
}

// The part of a vocabulary that a kind and a number ask for.
pub fn read_part(kind: &[u8], number: &[u8]) -> Option<Part>
    ensures { result ≡ part_of kind.now number.now }
{
    let n = words::number(number)?;
    match kind {
        b"flags" => Some(Part::Flags(n)),
        b"scale" => Some(Part::Scale(n)),
        _ => None,
    }
}
