// What a name names.

// The test or the action with this number.
#[derive(Clone, Copy, PartialEq, Eq, Debug)]
pub enum Named {
    Test(u8),
    Action(u8),
}
