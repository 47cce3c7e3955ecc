// Pairs of codes.

// A code of the left flow and a code of the right one.
#[derive(Clone, Copy, PartialEq, Eq, Default, Debug)]
pub struct CodePair {
    pub left: u64,
    pub right: u64,
}
