// What a name is: an ASCII letter, then letters, digits or `_`, at most 12 bytes, and neither of the two words `skip`
// and `stop`. Nothing outside this crate knows what a name is made of.
ghost use Rattle.std.specs.Prelude.{◌≡◌};
ghost use Rattle.std.specs.List.{list_all};
ghost use Rattle.signs.specs.Names.{inner, is_name, letter, spelled};

use crate::limits::NAME_BYTES;

// Whether the byte is an ASCII letter.
pub(crate) fn is_letter(b: u8) -> bool
    ensures { result ≡ letter b }
{
    b.is_ascii_alphabetic()
}

// Whether the byte may stand in a name behind its first.
pub(crate) fn is_inner(b: u8) -> bool
    ensures { result ≡ inner b }
{
    b.is_ascii_alphanumeric() || b == b'_'
}

// Whether each of the bytes may stand in a name behind its first.
fn all_inner(bytes: &[u8]) -> bool
    ensures { result ≡ list_all inner bytes.now }
{
    bytes.iter().all(|b| is_inner(*b))
}

// Whether the bytes are spelled as a name of any length is.
fn is_spelled(bytes: &[u8]) -> bool
    ensures { result ≡ spelled bytes.now }
{
    match bytes {
        [] => false,
        [first, rest @ ..] => is_letter(*first) && all_inner(rest),
    }
}

// Whether the bytes are a name.
pub fn is_name(bytes: &[u8]) -> bool
    ensures { result ≡ is_name bytes.now }
{
    match bytes {
        b"skip" | b"stop" => false,
        _ => is_spelled(bytes) && bytes.len() <= NAME_BYTES,
    }
}

#[cfg(test)]
mod tests {
    use super::is_name;

    #[test]
    fn names_at_their_limits(rt: HostRuntime) {
        assert!(rt; is_name(b"a"));
        assert!(rt; is_name(b"Locked_2"));
        assert!(rt; is_name(b"twelve_bytes"));
        assert!(rt; !is_name(b"thirteenbytes"));
        assert!(rt; !is_name(b""));
        assert!(rt; !is_name(b"2nd"));
        assert!(rt; !is_name(b"_a"));
        assert!(rt; !is_name(b"a-b"));
        assert!(rt; !is_name(b"\xc3\xa4"));
    }

    #[test]
    fn the_two_words_are_no_names(rt: HostRuntime) {
        assert!(rt; !is_name(b"skip"));
        assert!(rt; !is_name(b"stop"));
        assert!(rt; is_name(b"Skip"));
        assert!(rt; is_name(b"skips"));
        assert!(rt; is_name(b"sto"));
    }
}
