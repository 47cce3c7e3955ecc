// Reading a line of a script: its first word says which call it asks for, and the words behind it what of.
ghost use Rattle.std.specs.Prelude.{◌≡◌, IfOk, vec_items};
ghost use Rattle.std.specs.Option.{option_map};
ghost use Rattle.words.specs.Words.{words_of};
ghost use Rattle.script.specs.Asked.{asked, call_from, call_of, line_of};
ghost use Rattle.script.specs.Lines.{is_comment, is_nil, only_word, parts_of};

use crate::command::{Command, Line, Part};
use crate::keyword::{Keyword, read_keyword, read_part};
use std::alloc::{AllocError, Global};
use words::{Words, text_behind};

// Whether a line that begins with this word is a comment.
fn is_comment(first: &[u8]) -> bool
    ensures { result ≡ is_comment first.now }
{
    first.starts_with(b"#")
}

// The words as parts of a vocabulary, a kind and a number each: two words a turn, so the loop asks for them itself.
fn parts(heap: Global, rest: &[u8]) -> Result<Option<Vec<Part>>, AllocError>
    ensures { IfOk result (λ p. option_map vec_items p ≡ parts_of (words_of rest.now)) }
{
    let mut words = Words::new(rest);
    let mut parts = Vec::new(heap);
    while let Some(kind) = words.next() {
        let Some(number) = words.next() else {
            return Ok(None);
        };
        let Some(part) = read_part(kind, number) else {
            return Ok(None);
        };
        parts.push(part)?;
    }
    Ok(Some(parts))
}

// The one word that there is, where there is just one.
fn only_word<'a>(rest: &'a [u8]) -> Option<&'a [u8]>
    ensures { option_map (λ x. x.now) result ≡ only_word (words_of rest.now) }
{
    let mut words = Words::new(rest);
    match (words.next(), words.next()) {
        (Some(only), None) => Some(only),
        _ => None,
    }
}

// Whether there is no word.
fn no_word(rest: &[u8]) -> bool
    ensures { result ≡ is_nil (words_of rest.now) }
{
    Words::new(rest).next().is_none()
}

// The call that a first word asks for, of the bytes behind it; none where they do not fit it.
fn command<'a>(
    heap: Global,
    keyword: Keyword,
    rest: &'a [u8],
) -> Result<Option<Command<'a>>, AllocError>
    ensures { IfOk result (λ c. option_map call_of c ≡ call_from keyword rest.now) }
{
    match keyword {
        Keyword::Vocabulary => match parts(heap, rest)? {
            Some(parts) if !parts.is_empty() => Ok(Some(Command::Vocabulary(parts))),
            _ => Ok(None),
        },
        Keyword::Test => Ok(only_word(rest).map(Command::Test)),
        Keyword::Action => Ok(only_word(rest).map(Command::Action)),
        Keyword::Open => Ok(no_word(rest).then_some(Command::Open)),
        Keyword::Read => Ok(text_behind(rest).map(Command::Read)),
    }
}

// What the line asks for.
pub fn read_line<'a>(heap: Global, line: &'a [u8]) -> Result<Line<'a>, AllocError>
    ensures { IfOk result (λ l. line_of l ≡ asked line.now) }
{
    let mut words = Words::new(line);
    let Some(first) = words.next() else {
        return Ok(Line::PassedOver);
    };
    if is_comment(first) {
        return Ok(Line::PassedOver);
    }
    let Some(keyword) = read_keyword(first) else {
        return Ok(Line::NotUnderstood);
    };
    let command = command(heap, keyword, words.rest())?;
    Ok(command.map_or(Line::NotUnderstood, Line::Call))
}
