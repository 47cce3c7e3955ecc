// A run read from the words that tell it.
ghost use Rattle.std.specs.Prelude.{◌≡◌, IfOk, vec_items};
ghost use Rattle.std.specs.Option.{option_map};
ghost use Rattle.sheet.specs.Held.{names_of};
ghost use Rattle.telling.specs.Told.{action_of, situation_of, told_by};
ghost use Rattle.words.specs.Words.{words_of};

use sheet::{Named, Names};
use std::alloc::{AllocError, Global};
use words::{Words, number};

// The situation that a word tells, where it is one of so many.
fn situation(word: &[u8], situations: u8) -> Option<u8>
    ensures { result ≡ situation_of situations word.now }
{
    let s = u8::try_from(number(word)?).ok()?;
    (s < situations).then_some(s)
}

// The action that a word names.
fn action(word: &[u8], names: &Names) -> Option<u8>
    ensures { result ≡ action_of (names_of names.now) word.now }
{
    match names.meaning(word) {
        Some(Named::Action(a)) => Some(a),
        _ => None,
    }
}

// The bytes s0 a1 s1 .. an sn of the run that the words of a text tell; none where they tell no run. A situation and an action
// are two words, so the loop asks for them itself.
pub fn read_run(
    heap: Global,
    text: &[u8],
    situations: u8,
    names: &Names,
) -> Result<Option<Vec<u8>>, AllocError>
    ensures as_told { IfOk result (λ run. option_map vec_items run ≡ told_by situations (names_of names.now) (words_of text.now)) }
{
    let mut words = Words::new(text);
    let mut run = Vec::new(heap);
    while let Some(word) = words.next() {
        let Some(s) = situation(word, situations) else {
            return Ok(None);
        };
        run.push(s)?;
        let Some(word) = words.next() else {
            return Ok(Some(run));
        };
        let Some(a) = action(word, names) else {
            return Ok(None);
        };
        run.push(a)?;
    }
    Ok(None)
}
