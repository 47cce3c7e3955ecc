// A rule that was read.

// How large a rule is. Its root is the last of its nodes.
#[derive(Clone, Copy, PartialEq, Eq, Debug)]
pub struct Rule {
    // How many nodes it has.
    pub nodes: u8,
    // How many of them are actions.
    pub actions: u8,
}
