// Lines that are understood and lines that are not, with their answers.
use crate::Desk;
use std::process::Abort;
use std::test::Fail;
use words::Lines;

// Whether a script is answered by this text, with every line understood or not.
fn answers(
    rt: &(impl Abort + AllocGlobal),
    script: &[u8],
    text: &[u8],
    understood: bool,
) -> Result<(), Fail> {
    let mut desk = Desk::Empty;
    let mut out = Vec::new(rt.alloc());
    let mut all = true;
    for (number, line) in (1..u64::MAX).zip(Lines::new(script)) {
        if !desk.answer(rt.alloc(), number, line, &mut out)? {
            all = false;
        }
    }
    assert!(rt; out.as_slice() == text);
    assert_eq!(rt; all, understood);
    Ok(())
}

#[test]
fn nothing_is_asked(rt: HostRuntime) -> Result<(), Fail> {
    answers(&rt, b"", b"", true)?;
    answers(&rt, b"\n \t\n  # vocabulary\n#", b"", true)
}

#[test]
fn lines_at_the_wrong_time(rt: HostRuntime) -> Result<(), Fail> {
    answers(
        &rt,
        b"test a\nopen\nvocabulary flags 0\nvocabulary flags 0\nopen\nopen\naction a\nvocabulary scale 1",
        b"line 1: not understood\nline 2: not understood\nvocabulary: 1 situations, 0 tests\nline 4: not understood\nopen: 0 tests and 0 actions named\nline 6: not understood\nline 7: not understood\nline 8: not understood\n",
        false,
    )
}

#[test]
fn lines_of_other_words(rt: HostRuntime) -> Result<(), Fail> {
    answers(
        &rt,
        b"Vocabulary flags 1\nvocabulary\nvocabulary flags\nvocabulary flags x\nvocabulary flags 1 scale\nvocabulary flags 18446744073709551616\nvocabulary flags 1\r\ntest\ntest a b",
        b"line 1: not understood\nline 2: not understood\nline 3: not understood\nline 4: not understood\nline 5: not understood\nline 6: not understood\nline 7: not understood\nline 8: not understood\nline 9: not understood\n",
        false,
    )
}

#[test]
fn any_bytes_may_be_named(rt: HostRuntime) -> Result<(), Fail> {
    answers(
        &rt,
        b"vocabulary flags 007 \n\tvocabulary\tscale 2\ntest \xff\naction a\r\naction a",
        b"vocabulary: refused, vocabulary 1 at 0\nvocabulary: 2 situations, 1 tests\ntest \xff: refused, names 2 at 0\naction a\r: refused, names 2 at 0\naction a: number 0\n",
        true,
    )
}
