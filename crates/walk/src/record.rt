// What a pair table holds.
use crate::pair::CodePair;

// A pair that the walk put down, with the number of the pair that it was first met from and the situation and action
// that led to it. The start has zeros there.
// Records name each other by number, since the table is memory of the caller, who reads them afterwards.
#[derive(Clone, Copy, PartialEq, Eq, Default, Debug)]
pub struct PairRecord {
    pub pair: CodePair,
    pub from: usize,
    pub situation: u8,
    pub action: u8,
}
