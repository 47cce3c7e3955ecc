// How a copy is taken, and how it answers.
ghost use Rattle.std.specs.Prelude.{◌≡◌, ℕ};
ghost use Rattle.vocabulary.specs.Copies.{copied_meaning, copied_lawful};
ghost use Rattle.masks.specs.Bits.{bit};
ghost use Rattle.vocabulary.specs.Masks.{mask_of};

use crate::Vocabulary;
use crate::copied::{Copied, MASKS};
use crate::size::Size;
use masks::{has, mask_where};

// The situations of a vocabulary in which a test holds, a bit for each.
fn mask_of<V: Vocabulary>(v: &V, test: u8) -> u64
    ensures mask { result ≡ mask_of (V.Vocabulary.meaning v.now) test }
{
    mask_where(v.situations(), |s| v.holds(test, s))
}

impl Copied {
    // Asks a vocabulary every question, and writes the answers down.
    #[inline]
    pub fn of<V: Vocabulary>(v: &V) -> Copied
        ensures meaning { copied_meaning result ≡ V.Vocabulary.meaning v.now }
    {
        let situations = v.situations();
        let tests = v.tests();
        let mut masks = [0; MASKS];
        // A loop of one line, which a function that fills tables would not make plainer.
        for t in 0..tests {
            masks[usize::from(t)] = mask_of(v, t);
        }
        Copied {
            size: Size { situations, tests },
            masks,
        }
    }

    // The situations in which a test holds, a bit for each; 0 for a test out of range.
    pub fn mask(&self, test: u8) -> u64
        ensures mask { result ≡ mask_of (copied_meaning self.now) test }
        ensures each_bit_says_where_the_test_holds { (s : ℕ) → bit s result ≡ (copied_meaning self.now).holds test s }
    {
        if test < self.size.tests {
            self.masks[usize::from(test)]
        } else {
            0
        }
    }
}

impl Vocabulary for Copied {
    ghost meaning = { copied_meaning };

    ghost lawful = { copied_lawful };

    fn situations(&self) -> u8 {
        self.size.situations
    }

    fn tests(&self) -> u8 {
        self.size.tests
    }

    fn holds(&self, test: u8, situation: u8) -> bool {
        situation < self.size.situations && has(self.mask(test), situation)
    }
}
