// Runs of bytes of one kind in a text: where the blanks end, and how far a name goes. Each is asked of a text from a place on,
// since signs and faults are told by their places in the whole text.
ghost use Rattle.std.specs.Prelude.{◌≡◌, ◌+◌, drop};
ghost use Rattle.std.specs.List.{prefix_len};
ghost use Rattle.signs.specs.Runs.{blank, inner_part};

use crate::names::is_inner;

// Whether the byte parts signs: a blank, a tab, a line feed or a carriage return.
fn is_blank(b: u8) -> bool
    ensures { result ≡ blank b }
{
    matches!(b, b' ' | b'\t' | b'\n' | b'\r')
}

// The bytes of a text from a place on: none where the text has no such place.
pub(crate) fn rest_from(text: &[u8], from: usize) -> &[u8]
    ensures { result.now ≡ drop from text.now }
{
    &text[from.min(text.len())..]
}

// The place of the first byte from `from` on that is no blank.
pub(crate) fn after_blanks(text: &[u8], from: usize) -> usize
    ensures { result ≡ from + prefix_len blank (drop from text.now) }
{
    from + rest_from(text, from)
        .iter()
        .take_while(|b| is_blank(**b))
        .count()
}

// The bytes from `from` on that may stand in a name behind its first, as many as there are.
pub(crate) fn inner_part<'a>(text: &'a [u8], from: usize) -> &'a [u8]
    ensures { result.now ≡ inner_part from text.now }
{
    let rest = rest_from(text, from);
    let bytes = rest.iter().take_while(|b| is_inner(**b)).count();
    &rest[..bytes]
}
