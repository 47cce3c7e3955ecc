// Naming at its limits.
use crate::{NameFault, Sheet};
use std::test::Fail;
use vocabulary::Flags;

// The sixteen letters that the test names its actions by.
const LETTERS: [u8; 16] = *b"abcdefghijklmnop";

#[test]
fn sixteen_actions_and_no_more(rt: HostRuntime) -> Result<(), Fail> {
    let mut sheet = Sheet::begin(rt.alloc(), &Flags::new(0)?)?;
    for (number, letter) in (0..16).zip(LETTERS) {
        assert_eq!(rt; sheet.name_action(&[letter])?, number);
    }
    assert_eq!(rt; sheet.names().actions(), 16);
    assert_eq!(rt; sheet.name_action(b"q"), Err(NameFault::AllNamed));
    assert_eq!(rt; sheet.name_test(b"q"), Err(NameFault::AllNamed));
    Ok(())
}

#[test]
fn checks_come_in_their_order(rt: HostRuntime) -> Result<(), Fail> {
    let mut sheet = Sheet::begin(rt.alloc(), &Flags::new(1)?)?;
    assert_eq!(rt; sheet.name_test(b"skip"), Err(NameFault::NotAName));
    assert_eq!(rt; sheet.name_action(b"send")?, 0);
    assert_eq!(rt; sheet.name_test(b"send"), Err(NameFault::AlreadyNamed));
    assert_eq!(rt; sheet.name_test(b"twelve_bytes")?, 0);
    assert_eq!(rt;
        sheet.name_action(b"twelve_bytes"),
        Err(NameFault::AlreadyNamed)
    );
    assert_eq!(rt;
        sheet.name_test(b"twelve_bytes"),
        Err(NameFault::AlreadyNamed)
    );
    assert_eq!(rt; sheet.name_test(b"thirteenbytes"), Err(NameFault::NotAName));
    assert_eq!(rt; sheet.name_test(b"Send"), Err(NameFault::AllNamed));
    assert_eq!(rt; sheet.name_action(b"Send")?, 1);
    Ok(())
}
