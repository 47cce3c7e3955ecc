// Why a vocabulary is refused.
ghost use Rattle.std.specs.Prelude.{◌≡◌};
ghost use Rattle.vocabulary.specs.Faults.{refusal_of};

use refusals::{Layer, Refusal};

// A vocabulary that cannot be made.
#[derive(Clone, Copy, PartialEq, Eq, Debug)]
pub enum VocabularyFault {
    // There would be no situation, more than 64 situations, or more than 32 tests.
    BeyondLimits,
}

impl From<VocabularyFault> for Refusal {
    ghost from_gives = { λ fault r. r ≡ refusal_of fault };

    fn from(fault: VocabularyFault) -> Refusal {
        match fault {
            VocabularyFault::BeyondLimits => Refusal {
                layer: Layer::Vocabulary,
                number: 1,
                place: 0,
            },
        }
    }
}
