// What the reader wants and has counted between two signs.
ghost use Rattle.std.specs.Prelude.{◌≤◌};

// Whether a unit is wanted, or one has just been read.
#[derive(Clone, Copy)]
pub(crate) enum Wants {
    Wanting,
    Following,
}

// The state between two signs.
#[derive(Clone, Copy)]
pub(crate) struct Machine {
    pub(crate) wants: Wants,
    // The brackets that are open.
    pub(crate) brackets: u8,
    // The signs read that are no brackets.
    pub(crate) signs: u8,
    // The actions read.
    pub(crate) actions: u8,
    // The nodes of the rule so far, whether or not the slice that the caller lends had room for them.
    pub(crate) nodes: u8,
    ghost few_actions: { actions ≤ 63 },
    // Each node stands for a sign that was counted.
    ghost few_nodes: { nodes ≤ signs },
}
