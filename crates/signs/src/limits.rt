// How long a text and a name may be.

// The most bytes that the text of a rule has.
pub const TEXT_BYTES: usize = 4096;

// The most bytes that a name has.
pub const NAME_BYTES: usize = 12;
