// Examples of lines, words, numbers and printed numbers.
use crate::{Lines, Words, number, push_decimal, text_behind};
use std::test::Fail;

#[test]
fn lines_end_in_a_line_feed(rt: HostRuntime) {
    let mut lines = Lines::new(b"a\n\nb");
    assert_eq!(rt; lines.next(), Some(b"a".as_slice()));
    assert_eq!(rt; lines.next(), Some(b"".as_slice()));
    assert_eq!(rt; lines.next(), Some(b"b".as_slice()));
    assert_eq!(rt; lines.next(), None);
    assert_eq!(rt; Lines::new(b"").count(), 0);
    assert_eq!(rt; Lines::new(b"\n").count(), 1);
}

#[test]
fn blanks_and_tabs_part_words(rt: HostRuntime) {
    let mut words = Words::new(b"  a\tbb  c\r");
    assert_eq!(rt; words.next(), Some(b"a".as_slice()));
    assert_eq!(rt; text_behind(words.rest()), Some(b"bb  c\r".as_slice()));
    assert_eq!(rt; words.next(), Some(b"bb".as_slice()));
    assert_eq!(rt; words.next(), Some(b"c\r".as_slice()));
    assert_eq!(rt; text_behind(words.rest()), None);
    assert_eq!(rt; words.next(), None);
}

#[test]
fn digits_write_a_number(rt: HostRuntime) {
    for word in ["", "18446744073709551616", "1_0", "+1"] {
        assert_eq!(rt; number(word.as_bytes()), None);
    }
    assert_eq!(rt; number(b"0"), Some(0));
    assert_eq!(rt; number(b"007"), Some(7));
    assert_eq!(rt; number(b"0000000000000000000000000000007"), Some(7));
    assert_eq!(rt; number(b"18446744073709551615"), Some(u64::MAX));
}

#[test]
fn a_number_is_printed_in_decimal(rt: HostRuntime) -> Result<(), Fail> {
    let mut out = Vec::new(rt.alloc());
    for n in [0, 7, 10, u64::MAX] {
        push_decimal(&mut out, n)?;
        out.push(b' ')?;
    }
    assert_eq!(rt; out.as_slice(), b"0 7 10 18446744073709551615 ".as_slice());
    Ok(())
}
