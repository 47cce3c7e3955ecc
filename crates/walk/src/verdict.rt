// What the walk and the check answer. No answer of theirs is a refusal, so none is an Err that `?` would pass on.

// A side of a comparison.
#[derive(Clone, Copy, PartialEq, Eq, Debug)]
pub enum Side {
    Left,
    Right,
}

// The answer of judge.
#[derive(Clone, Copy, PartialEq, Eq, Debug)]
pub enum Verdict {
    // The two flows allow the same runs; the walk put so many pairs down.
    Equal(usize),
    // They part on a run of so many actions, which this side alone allows.
    Different(usize, Side),
}

// The answer of check.
#[derive(Clone, Copy, PartialEq, Eq, Debug)]
pub enum Finding {
    // The list shows that the two flows allow the same runs.
    Passes,
    // The start pair is not in the list.
    StartMissing,
    // At the pair of this number the two flows accept different situations.
    MasksFail(usize),
    // From the pair of this number a move leads to a pair that is not in the list.
    StepFails(usize),
}
