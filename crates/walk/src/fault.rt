// Why a walk or a check is refused.
ghost use Rattle.std.specs.Prelude.{◌≡◌};
ghost use Rattle.walk.specs.Faults.{refusal_of};

use refusals::{Layer, Refusal};

// The refusals of judge and check.
#[derive(Clone, Copy, PartialEq, Eq, Debug)]
pub enum WalkFault {
    // The pair table, or the list to be checked, has more than 2,048 records.
    TableTooLarge,
    // There is a pair to put down, and the table is full.
    TableFull,
    // The flows have unlike numbers of situations or of actions.
    Unlike,
    // The run buffer is too short for a run of so many bytes.
    BufferTooShort(usize),
}

impl From<WalkFault> for Refusal {
    ghost from_gives = { λ fault r. r ≡ refusal_of fault };

    fn from(fault: WalkFault) -> Refusal {
        let (number, place) = match fault {
            WalkFault::TableTooLarge => (18, 0),
            WalkFault::TableFull => (19, 0),
            WalkFault::Unlike => (20, 0),
            WalkFault::BufferTooShort(wanted) => (21, wanted),
        };
        Refusal {
            layer: Layer::Walk,
            number,
            place,
        }
    }
}
