// The vocabulary of independent facts: every way in which they can stand is a situation.
ghost use Rattle.std.specs.Prelude.{◌≡◌, ◌≤◌, nat_le};
ghost use Rattle.vocabulary.specs.Answer.{meant, granted_if};
ghost use Rattle.vocabulary.specs.Flags.{flags, flags_lawful};

use crate::Vocabulary;
use crate::fault::VocabularyFault;
use masks::has;

// How many facts there may be.
const MOST_FACTS: u8 = 6;

// Up to six facts, each true or false on its own.
#[derive(Clone, Copy)]
pub struct Flags {
    // How many facts there are.
    facts: u8,
    // More are refused.
    ghost few: { facts ≤ 6 },
}

impl Flags {
    // The vocabulary of so many facts; more than six are refused.
    pub fn new(facts: u64) -> Result<Flags, VocabularyFault>
        ensures meaning { meant (λ v. flags v.facts) result ≡ granted_if (nat_le facts 6) (flags facts) }
    {
        match u8::try_from(facts) {
            Ok(facts) if facts <= MOST_FACTS => Ok(Flags { facts }),
            _ => Err(VocabularyFault::BeyondLimits),
        }
    }
}

impl Vocabulary for Flags {
    ghost meaning = { λ x. flags x.facts };

    ghost lawful = { λ x. flags_lawful x.facts x.few };

    fn situations(&self) -> u8 {
        1 << self.facts
    }

    fn tests(&self) -> u8 {
        self.facts
    }

    fn holds(&self, test: u8, situation: u8) -> bool {
        test < self.facts && situation < self.situations() && has(u64::from(situation), test)
    }
}
