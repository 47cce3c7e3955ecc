// The nodes that a rule is laid out in.

// A node of a rule. Parts are named by their places in the rule's own nodes, and stand in front of what they are parts of.
// Places stand for parts, and `Empty` for no node, since a rule lies in a slice that the caller lends.
#[derive(Clone, Copy, PartialEq, Eq, Debug)]
pub enum Node {
    // No node yet.
    Empty,
    // The test with this number.
    Test(u8),
    // The action with this number, at this place among the rule's actions.
    Action(u8, u8),
    Skip,
    Stop,
    // The negation of the part.
    Not(u8),
    // Either of the two parts.
    Choice(u8, u8),
    // The one part and then the other.
    Chain(u8, u8),
    // The part, any number of times.
    Star(u8),
}
