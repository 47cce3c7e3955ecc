// How a pair is made, and how it answers.
ghost use Rattle.std.specs.Prelude.{◌≡◌, IfOk};
ghost use Rattle.vocabulary.specs.Answer.{meant};
ghost use Rattle.vocabulary.specs.Pairs.{pair_meaning, pair_lawful, pair_of, said_of};
ghost use Rattle.vocabulary.specs.Joining.{JoinedTestHoldsInItsPart, EachSituationJoinsOneOfEach};

use crate::Vocabulary;
use crate::fault::VocabularyFault;
use crate::pair::Pair;
use crate::size::Size;

// How many situations there may be.
const MOST_SITUATIONS: u8 = 64;

// How many tests there may be.
const MOST_TESTS: u8 = 32;

impl<V: Vocabulary + Drop, W: Vocabulary + Drop> Pair<V, W> {
    // The two side by side; more than 64 situations or more than 32 tests are refused.
    pub fn new(first: V, second: W) -> Result<Pair<V, W>, VocabularyFault>
        ensures meaning { meant (pair_meaning V.Vocabulary.meaning W.Vocabulary.meaning) result ≡ pair_of (V.Vocabulary.meaning first) (W.Vocabulary.meaning second) }
        ensures joined_test_holds_in_its_part { IfOk result (said_of JoinedTestHoldsInItsPart V.Vocabulary.meaning W.Vocabulary.meaning first second) }
        ensures each_situation_joins_one_of_each { IfOk result (said_of EachSituationJoinsOneOfEach V.Vocabulary.meaning W.Vocabulary.meaning first second) }
    {
        let firsts = first.tests();
        let width = second.situations();
        let tests = firsts + second.tests();
        match first.situations().checked_mul(width) {
            Some(situations) if situations <= MOST_SITUATIONS && tests <= MOST_TESTS => Ok(Pair {
                first,
                second,
                size: Size { situations, tests },
                firsts,
                width,
            }),
            _ => Err(VocabularyFault::BeyondLimits),
        }
    }
}

impl<V: Vocabulary, W: Vocabulary> Vocabulary for Pair<V, W> {
    ghost meaning = { pair_meaning V.Vocabulary.meaning W.Vocabulary.meaning };

    ghost lawful = { pair_lawful V.Vocabulary.meaning W.Vocabulary.meaning };

    fn situations(&self) -> u8 {
        self.size.situations
    }

    fn tests(&self) -> u8 {
        self.size.tests
    }

    fn holds(&self, test: u8, situation: u8) -> bool {
        if test >= self.size.tests || situation >= self.size.situations {
            false
        } else if test < self.firsts {
            self.first.holds(test, situation / self.width)
        } else {
            self.second
                .holds(test - self.firsts, situation % self.width)
        }
    }
}
