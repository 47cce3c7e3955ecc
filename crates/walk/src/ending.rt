// How a walk ends.

// The ending of a walk, before it is answered.
#[derive(Clone, Copy)]
pub(crate) enum Ending {
    // Each listed pair was followed; so many are listed.
    Equal(usize),
    // At the pair of this number the flows disagree.
    Different(usize),
}
