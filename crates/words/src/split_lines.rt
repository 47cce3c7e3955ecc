// The lines of a text, read one by one.
ghost use Rattle.std.specs.Prelude.{◌≡◌, ℕ, List, length};
ghost use Rattle.std.specs.Option.{option_map};
ghost use Rattle.std.specs.List.{prefix_len};
ghost use Rattle.words.specs.Lines.{in_line, lines_of, Lined, LineRead};
ghost use Rattle.std.specs.Iterator.{at_most};

// What is left of a text whose lines are read one by one.
#[derive(Drop)]
pub struct Lines<'a> {
    // The bytes behind the line feed of the last line read.
    rest: &'a [u8],
}

impl<'a> Lines<'a> {
    // All lines of the text are still to be read.
    pub fn new(text: &'a [u8]) -> Lines<'a>
        ensures all_bytes_are_ahead { result.rest.now ≡ text.now }
        ensures the_lines_give_the_text_back { Lined (lines_of text.now) text.now }
        ensures no_other_lines_do { (ls : List (List ℕ)) → Lined ls text.now → ls ≡ lines_of text.now }
    {
        Lines { rest: text }
    }
}

// How many bytes of the text stand before its first line feed.
fn line_len(text: &[u8]) -> usize
    ensures { result ≡ prefix_len in_line text.now }
{
    text.iter().take_while(|b| **b != b'\n').count()
}

// The lines in their order. Each that is read leaves fewer bytes, so they come to an end.
impl<'a> Iterator for Lines<'a> {
    type Item = &'a [u8];

    ghost next_gives = { λ s r t. LineRead s.rest.now (option_map (λ x. x.now) r) t.rest.now };

    ghost remaining = { λ s. at_most (length s.rest.now) };

    // Reads the next line, without its line feed.
    fn next(&mut self) -> Option<&'a [u8]> {
        if self.rest.is_empty() {
            return None;
        }
        let (line, behind) = self.rest.split_at(line_len(self.rest));
        self.rest = behind.split_first().map_or(behind, |(_, rest)| rest);
        Some(line)
    }
}
