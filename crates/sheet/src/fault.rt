// Why a name is refused.
ghost use Rattle.std.specs.Prelude.{◌≡◌};
ghost use Rattle.sheet.specs.Faults.{refusal_of};

use refusals::{Layer, Refusal};

// The checks of naming, in their order.
#[derive(Clone, Copy, PartialEq, Eq, Debug)]
pub enum NameFault {
    // The bytes are no name.
    NotAName,
    // A test or an action has the name already.
    AlreadyNamed,
    // Every test, or every action that there can be, has its name.
    AllNamed,
}

impl From<NameFault> for Refusal {
    ghost from_gives = { λ fault r. r ≡ refusal_of fault };

    fn from(fault: NameFault) -> Refusal {
        let number = match fault {
            NameFault::NotAName => 2,
            NameFault::AlreadyNamed => 3,
            NameFault::AllNamed => 4,
        };
        Refusal {
            layer: Layer::Names,
            number,
            place: 0,
        }
    }
}
