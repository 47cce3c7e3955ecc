// The vocabulary of stages in a row: a test for each mark between two of them.
ghost use Rattle.std.specs.Prelude.{◌≡◌, ◌≤◌, ◌&&◌, nat_le};
ghost use Rattle.vocabulary.specs.Answer.{meant, granted_if};
ghost use Rattle.vocabulary.specs.Scale.{scale, scale_lawful};

use crate::Vocabulary;
use crate::fault::VocabularyFault;

// How many stages there may be.
const MOST_STAGES: u8 = 33;

// From 1 to 33 stages in a row.
#[derive(Clone, Copy)]
pub struct Scale {
    // How many stages there are.
    stages: u8,
    // None is refused.
    ghost some: { 1 ≤ stages },
    // More are refused.
    ghost most: { stages ≤ 33 },
}

impl Scale {
    // The vocabulary of so many stages; none, or more than 33, are refused.
    pub fn new(stages: u64) -> Result<Scale, VocabularyFault>
        ensures meaning { meant (λ v. scale v.stages) result ≡ granted_if (nat_le 1 stages && nat_le stages 33) (scale stages) }
    {
        match u8::try_from(stages) {
            Ok(stages) if 1 <= stages && stages <= MOST_STAGES => Ok(Scale { stages }),
            _ => Err(VocabularyFault::BeyondLimits),
        }
    }
}

impl Vocabulary for Scale {
    ghost meaning = { λ x. scale x.stages };

    ghost lawful = { λ x. scale_lawful x.stages x.some x.most };

    fn situations(&self) -> u8 {
        self.stages
    }

    fn tests(&self) -> u8 {
        self.situations() - 1
    }

    fn holds(&self, test: u8, situation: u8) -> bool {
        test < self.tests() && situation < self.situations() && situation > test
    }
}
