// Vocabularies: numbered situations, numbered tests, and which test holds in which situation.
// The trait stands here; each make of vocabulary has a module of its own.

#![tactic(auto)]

ghost use Rattle.std.specs.Prelude.{◌≡◌};
ghost use Rattle.vocabulary.specs.Meaning.{VocabularyMeaning, Lawful};

mod copied;
mod fault;
mod flags;
mod pair;
mod scale;
mod size;

pub use copied::Copied;
pub use fault::VocabularyFault;
pub use flags::Flags;
pub use pair::Pair;
pub use scale::Scale;

#[cfg(test)]
mod tests;

// Some situations and some tests, each numbered from 0, and a yes or no for each of their pairs. Test and situation come as two
// numbers, since every pair of them is asked.
pub trait Vocabulary {
    // What the vocabulary means.
    ghost meaning: { Self → VocabularyMeaning };

    // There are 1 to 64 situations and at most 32 tests, and an index out of range is answered no.
    ghost lawful: { (x : Self) → Lawful (meaning x) };

    // How many situations there are.
    fn situations(&self) -> u8
        ensures as_meant { result ≡ (meaning self.now).situations };

    // How many tests there are.
    fn tests(&self) -> u8
        ensures as_meant { result ≡ (meaning self.now).tests };

    // Whether the test holds in the situation.
    fn holds(&self, test: u8, situation: u8) -> bool
        ensures as_meant { result ≡ (meaning self.now).holds test situation };
}
