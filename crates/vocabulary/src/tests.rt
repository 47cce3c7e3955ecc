// The vocabularies at their limits, and their answers on examples.
ghost use Rattle.std.specs.Prelude.{false, refl};
ghost use Rattle.std.proofs.Common.{lit≤};

use crate::{Copied, Flags, Pair, Scale, Vocabulary, VocabularyFault};
use refusals::{Layer, Refusal};
use std::test::Fail;

// One situation, and 17 tests that do not hold in it.
#[derive(Clone, Copy)]
struct Lone;

impl Vocabulary for Lone {
    ghost meaning = { λ _. record { situations = 1; tests = 17; holds = λ _ _. false } };

    ghost lawful = { λ _. record { some = lit≤ tt; most = lit≤ tt; few = lit≤ tt; outside = λ _ _ _. refl } };

    fn situations(&self) -> u8 {
        1
    }

    fn tests(&self) -> u8 {
        17
    }

    fn holds(&self, _test: u8, _situation: u8) -> bool {
        false
    }
}

// Whether a vocabulary is refused, with the number, layer and place of one beyond the limits.
fn beyond<V: Drop>(made: Result<V, VocabularyFault>) -> bool {
    match made {
        Ok(_) => false,
        Err(fault) => Refusal::from(fault)
            == Refusal {
                layer: Layer::Vocabulary,
                number: 1,
                place: 0,
            },
    }
}

#[test]
fn flags_up_to_six(rt: HostRuntime) -> Result<(), Fail> {
    let six = Flags::new(6)?;
    assert_eq!(rt; six.situations(), 64);
    assert_eq!(rt; six.tests(), 6);
    assert!(rt; six.holds(5, 32) && !six.holds(5, 31) && six.holds(0, 63));
    assert!(rt; !six.holds(6, 63) && !six.holds(0, 65) && !six.holds(255, 255));
    assert!(rt; beyond(Flags::new(7)));
    Ok(())
}

#[test]
fn scale_from_one_to_thirty_three(rt: HostRuntime) -> Result<(), Fail> {
    let one = Scale::new(1)?;
    assert_eq!(rt; one.situations(), 1);
    assert_eq!(rt; one.tests(), 0);
    let most = Scale::new(33)?;
    assert_eq!(rt; most.tests(), 32);
    assert!(rt; most.holds(31, 32) && !most.holds(31, 31) && most.holds(0, 1));
    assert!(rt; !most.holds(0, 33) && !most.holds(32, 32) && !most.holds(255, 255));
    assert!(rt; beyond(Scale::new(0)) && beyond(Scale::new(34)));
    Ok(())
}

#[test]
fn pair_up_to_sixty_four_situations(rt: HostRuntime) -> Result<(), Fail> {
    let pair = Pair::new(Flags::new(3)?, Scale::new(8)?)?;
    assert_eq!(rt; pair.situations(), 64);
    assert_eq!(rt; pair.tests(), 10);
    assert!(rt; pair.holds(2, 4 * 8 + 3) && !pair.holds(1, 4 * 8 + 3));
    assert!(rt; pair.holds(3 + 2, 4 * 8 + 3) && !pair.holds(3 + 3, 4 * 8 + 3));
    assert!(rt; !pair.holds(0, 64 + 8) && !pair.holds(10, 63) && !pair.holds(255, 255));
    assert!(rt; beyond(Pair::new(Flags::new(3)?, Scale::new(9)?)));
    Ok(())
}

#[test]
fn pair_up_to_thirty_two_tests(rt: HostRuntime) -> Result<(), Fail> {
    let pair = Pair::new(Lone, Scale::new(16)?)?;
    assert_eq!(rt; pair.tests(), 32);
    assert!(rt; beyond(Pair::new(Lone, Lone)));
    Ok(())
}

#[test]
fn copy_answers_as_what_was_copied(rt: HostRuntime) -> Result<(), Fail> {
    let pair = Pair::new(Flags::new(2)?, Scale::new(3)?)?;
    let copy = Copied::of(&pair);
    assert_eq!(rt; copy.situations(), 12);
    assert_eq!(rt; copy.tests(), 4);
    for test in 0..5 {
        for situation in 0..13 {
            assert_eq!(rt; copy.holds(test, situation), pair.holds(test, situation));
        }
    }
    assert_eq!(rt; copy.mask(1), 0b1111_1100_0000);
    assert_eq!(rt; copy.mask(4), 0);
    assert_eq!(rt; copy.mask(255), 0);
    Ok(())
}
