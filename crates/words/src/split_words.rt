// The words of a line, read one by one, and the text that stands behind a word.
ghost use Rattle.std.specs.Prelude.{◌≡◌, ℕ, List, length};
ghost use Rattle.std.specs.Option.{option_map};
ghost use Rattle.std.specs.List.{prefix_len};
ghost use Rattle.words.specs.Words.{blank, in_word, words_of, Parted, WordRead, text_behind};
ghost use Rattle.std.specs.Iterator.{at_most};

// What is left of a line whose words are read one by one. It is no `Lines` with another byte in the line feed's place: blanks side
// by side part two words as one does, while each line feed ends a line.
#[derive(Drop)]
pub struct Words<'a> {
    // The bytes right behind the last word read.
    rest: &'a [u8],
}

impl<'a> Words<'a> {
    // All words of the line are still to be read.
    pub fn new(line: &'a [u8]) -> Words<'a>
        ensures all_bytes_are_ahead { result.rest.now ≡ line.now }
        ensures the_words_part_the_line { Parted (words_of line.now) line.now }
        ensures no_other_words_do { (ws : List (List ℕ)) → Parted ws line.now → ws ≡ words_of line.now }
    {
        Words { rest: line }
    }

    // The bytes that are not read yet: right behind a word, the blank or tab that ends it comes first.
    pub fn rest(&self) -> &'a [u8]
        ensures { result.now ≡ self.now.rest.now }
    {
        self.rest
    }
}

// Whether the byte parts two words.
fn is_blank(b: u8) -> bool
    ensures { result ≡ blank b }
{
    b == b' ' || b == b'\t'
}

// How many blanks and tabs the line begins with.
fn blanks_len(line: &[u8]) -> usize
    ensures { result ≡ prefix_len blank line.now }
{
    line.iter().take_while(|b| is_blank(**b)).count()
}

// How many bytes of the line stand before its first blank or tab.
fn word_len(line: &[u8]) -> usize
    ensures { result ≡ prefix_len in_word line.now }
{
    line.iter().take_while(|b| !is_blank(**b)).count()
}

// The words in their order. Each that is read leaves fewer bytes, so they come to an end.
impl<'a> Iterator for Words<'a> {
    type Item = &'a [u8];

    ghost next_gives = { λ s r t. WordRead s.rest.now (option_map (λ x. x.now) r) t.rest.now };

    ghost remaining = { λ s. at_most (length s.rest.now) };

    // Reads the next word. What is left begins right behind it.
    fn next(&mut self) -> Option<&'a [u8]> {
        let (_, line) = self.rest.split_at(blanks_len(self.rest));
        let (word, rest) = line.split_at(word_len(line));
        self.rest = rest;
        if word.is_empty() { None } else { Some(word) }
    }
}

// The text behind a word, where `rest` begins right behind the word: the bytes after the one blank or tab that ends it.
pub fn text_behind<'a>(rest: &'a [u8]) -> Option<&'a [u8]>
    ensures { option_map (λ x. x.now) result ≡ text_behind rest.now }
{
    match rest.split_first() {
        Some((first, text)) if is_blank(*first) => Some(text),
        _ => None,
    }
}
