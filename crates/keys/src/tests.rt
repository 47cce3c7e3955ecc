// Elements that carry more than their key, two of them with the same one.
use crate::{Keyed, find};

#[derive(Clone, Copy, PartialEq, Eq)]
struct Letter(u8);

#[derive(Clone, Copy)]
struct Drawer {
    letter: Letter,
    sheets: u32,
}

impl Keyed for Drawer {
    type By = Letter;

    ghost bears = { λ drawer. drawer.letter };

    fn key(&self) -> &Letter {
        &self.letter
    }
}

#[test]
fn the_first_of_two_is_found(rt: HostRuntime) {
    let drawers = [
        Drawer {
            letter: Letter(b'a'),
            sheets: 3,
        },
        Drawer {
            letter: Letter(b'b'),
            sheets: 1,
        },
        Drawer {
            letter: Letter(b'b'),
            sheets: 7,
        },
    ];
    assert_eq!(rt; find(&drawers, &Letter(b'b')), Some(1));
    assert_eq!(rt; find(&drawers, &Letter(b'a')), Some(0));
    assert_eq!(rt; find(&drawers, &Letter(b'c')), None);
    assert_eq!(rt; drawers[1].sheets, 1);
}
