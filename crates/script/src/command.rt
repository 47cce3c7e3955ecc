// The calls that a script can make, as a line asks for them. A name or a text is the part of the
// line that it was read from.

// One part of a vocabulary, with the number that it is to be made of.
#[derive(Clone, Copy)]
pub enum Part {
    Flags(u64),
    Scale(u64),
}

// A call.
#[derive(Drop)]
pub enum Command<'a> {
    // Begin a sheet from these parts, joined to pairs from the left.
    Vocabulary(Vec<Part>),
    // Name the next test.
    Test(&'a [u8]),
    // Name the next action.
    Action(&'a [u8]),
    // Turn the sheet into a book.
    Open,
    // Read a rule's text.
    Read(&'a [u8]),
}

// A line of a script. A line that is passed over and one that is not understood are two answers, and neither is a failure, so
// they are cases here and no `Option` in a `Result`.
#[derive(Drop)]
pub enum Line<'a> {
    // Nothing is asked: the line has no words, or is a comment.
    PassedOver,
    // A call is asked for.
    Call(Command<'a>),
    // The line is none that a script can have.
    NotUnderstood,
}
