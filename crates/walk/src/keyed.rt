// What pairs and records are found by, so that the one list that finds keys finds them.
use crate::pair::CodePair;
use crate::record::PairRecord;
use keys::Keyed;

// In a list of pairs each is its own key.
impl Keyed for CodePair {
    type By = CodePair;

    ghost bears = { λ pair. pair };

    fn key(&self) -> &CodePair {
        self
    }
}

// A record is found by its pair.
impl Keyed for PairRecord {
    type By = CodePair;

    ghost bears = { λ entry. entry.pair };

    fn key(&self) -> &CodePair {
        &self.pair
    }
}
