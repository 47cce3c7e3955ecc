// The sign reader: it gives the signs of a text one by one, and keeps no more than its place.
ghost use Rattle.std.specs.Prelude.{◌≡◌, ◌+◌, ◌<◌, length, drop, slice_index};
ghost use Rattle.signs.specs.Runs.{inner_part};
ghost use Rattle.signs.specs.Signs.{sign_at, signs_of, word_at, word_of};
ghost use Rattle.signs.specs.Reader.{Begun, MovesOn, followed_by, mark_of, marked, marked_pair, next_of, place_after, place_in, signs_ahead, signs_to_come, text_of, with_behind};
ghost use Rattle.signs.specs.Spelling.{OneListOfSigns, SignsGiveTheTextBack, SpellingSignsAreRead};
ghost use Rattle.signs.specs.FirstFault.{RefusedAtTheFirstFault, SoundTextHasItsSigns};

use crate::fault::SignFault;
use crate::limits::{NAME_BYTES, TEXT_BYTES};
use crate::names::is_letter;
use crate::runs::{after_blanks, inner_part};
use crate::sign::Sign;

// Reads a text sign by sign.
#[derive(Clone, Copy)]
pub struct SignReader<'a> {
    text: &'a [u8],
    // Where the next sign is looked for.
    at: usize,
}

impl<'a> SignReader<'a> {
    // A reader of a text of at most 4,096 bytes. The first two clauses say what is returned, and the others what the
    // signs of the text are, whatever the text.
    #[tactic(auto, using(crate::proofs::Theorems::signs_give_the_text_back, crate::proofs::Theorems::spelling_signs_are_read, crate::proofs::Theorems::one_list_of_signs, crate::proofs::Theorems::sound_text_has_its_signs))]
    pub fn new(text: &'a [u8]) -> Result<SignReader<'a>, SignFault>
        ensures begins_at_the_first_byte { Begun text.now result }
        ensures has_all_signs_ahead { signs_to_come result ≡ signs_of text.now }
        ensures signs_joined_give_the_text_back { SignsGiveTheTextBack text.now }
        ensures signs_that_spell_the_text_are_read { SpellingSignsAreRead text.now }
        ensures one_list_of_signs { OneListOfSigns text.now }
        ensures a_sound_text_has_its_signs { SoundTextHasItsSigns text.now }
        ensures refused_at_the_first_fault { RefusedAtTheFirstFault text.now }
    {
        if text.len() > TEXT_BYTES {
            return Err(SignFault::TextTooLong);
        }
        Ok(SignReader { text, at: 0 })
    }

    // The next sign, or `None` at the end. At a fault the reader stays, and so gives the same fault again.
    pub fn next(&mut self) -> Result<Option<Sign<'a>>, SignFault>
        ensures keeps_the_text { text_of self.new ≡ text_of self.old }
        ensures gives_the_next_sign { marked result ≡ next_of self.old }
        ensures stands_behind_the_sign { place_in self.new ≡ place_after (place_in self.old) (next_of self.old) }
        ensures moves_on { MovesOn (length (text_of self.old)) (place_in self.old) (place_in self.new) result }
        ensures takes_the_first_sign_ahead { followed_by (marked result) (signs_ahead self.new) ≡ signs_ahead self.old }
    {
        let at = after_blanks(self.text, self.at);
        if at >= self.text.len() {
            return Ok(None);
        }
        let (sign, behind) = sign_at(self.text, at)?;
        self.at = behind;
        Ok(Some(sign))
    }
}

// The sign that begins at a place of the text, and the place behind it.
fn sign_at<'a>(text: &'a [u8], at: usize) -> Result<(Sign<'a>, usize), SignFault>
    requires { at < length text.now }
    ensures { marked_pair result ≡ with_behind (sign_at at (slice_index text.now at) (drop (at + 1) text.now)) }
{
    match char::from(text[at]) {
        '(' => Ok((Sign::Open(at), at + 1)),
        ')' => Ok((Sign::Close(at), at + 1)),
        '!' => Ok((Sign::Not(at), at + 1)),
        '*' => Ok((Sign::Star(at), at + 1)),
        ';' => Ok((Sign::Then(at), at + 1)),
        '|' => Ok((Sign::Or(at), at + 1)),
        _ if is_letter(text[at]) => word_at(text, at),
        _ => Err(SignFault::StrayByte(at)),
    }
}

// The name or the word that begins at a place of the text, and the place behind it.
fn word_at<'a>(text: &'a [u8], at: usize) -> Result<(Sign<'a>, usize), SignFault>
    requires { at < length text.now }
    ensures { marked_pair result ≡ with_behind (word_at at (inner_part at text.now)) }
{
    let word = inner_part(text, at);
    if word.len() > NAME_BYTES {
        return Err(SignFault::NameTooLong(at));
    }
    Ok((word_sign(word, at), at + word.len()))
}

// One of the two words, or else a name.
fn word_sign<'a>(word: &'a [u8], at: usize) -> Sign<'a>
    ensures { mark_of result ≡ word_of word.now at }
{
    match word {
        b"skip" => Sign::Skip(at),
        b"stop" => Sign::Stop(at),
        _ => Sign::Name(word, at),
    }
}

#[cfg(test)]
mod tests {
    use super::SignReader;
    use crate::fault::SignFault;
    use crate::sign::Sign;
    use std::test::Fail;

    #[test]
    fn words_are_as_long_as_can_be(rt: HostRuntime) -> Result<(), Fail> {
        let mut signs = SignReader::new(b"skip|stops")?;
        assert!(rt; matches!(signs.next()?, Some(Sign::Skip(0))));
        assert!(rt; matches!(signs.next()?, Some(Sign::Or(4))));
        assert!(rt; matches!(signs.next()?, Some(Sign::Name(b"stops", 5))));
        assert!(rt; matches!(signs.next()?, None));
        Ok(())
    }

    #[test]
    fn a_byte_of_no_sign_is_refused_each_time(rt: HostRuntime) -> Result<(), Fail> {
        let mut signs = SignReader::new(b"send $")?;
        assert!(rt; matches!(signs.next()?, Some(Sign::Name(_, 0))));
        assert!(rt; matches!(signs.next(), Err(SignFault::StrayByte(5))));
        assert!(rt; matches!(signs.next(), Err(SignFault::StrayByte(5))));
        Ok(())
    }

    #[test]
    fn bytes_at_the_edges_are_refused(rt: HostRuntime) -> Result<(), Fail> {
        assert!(rt; matches!(SignReader::new(&[0])?.next(), Err(SignFault::StrayByte(0))));
        assert!(rt;
            matches!(
                SignReader::new(&[127])?.next(),
                Err(SignFault::StrayByte(0))
            )
        );
        assert!(rt;
            matches!(
                SignReader::new(&[128])?.next(),
                Err(SignFault::StrayByte(0))
            )
        );
        assert!(rt;
            matches!(
                SignReader::new(&[255])?.next(),
                Err(SignFault::StrayByte(0))
            )
        );
        Ok(())
    }

    #[test]
    fn names_have_at_most_twelve_bytes(rt: HostRuntime) -> Result<(), Fail> {
        assert!(rt;
            matches!(
                SignReader::new(b"twelve_bytes")?.next()?,
                Some(Sign::Name(_, 0))
            )
        );
        assert!(rt;
            matches!(
                SignReader::new(b" thirteenbytes")?.next(),
                Err(SignFault::NameTooLong(1))
            )
        );
        Ok(())
    }

    #[test]
    fn texts_have_at_most_4096_bytes(rt: HostRuntime) -> Result<(), Fail> {
        assert!(rt; matches!(SignReader::new(&[b' '; 4096])?.next()?, None));
        assert!(rt; matches!(SignReader::new(&[b' '; 4097]), Err(SignFault::TextTooLong)));
        Ok(())
    }
}
