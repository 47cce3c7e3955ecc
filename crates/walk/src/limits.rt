// Limits of the walk.

// A table, or a list to be checked, has at most so many pairs.
pub const MOST_PAIRS: usize = 2048;
