// The parts of a rule that the builders hand on.
use signs::Sign;

// A unit that is complete.
#[derive(Clone, Copy)]
pub(crate) struct Built {
    // The place of its root among the nodes.
    pub(crate) root: u8,
    // Whether it is a test. It has a root either way, so this is no `Option` of it.
    pub(crate) is_test: bool,
}

// A step, chain or choice that is complete.
#[derive(Clone, Copy)]
pub(crate) struct Grown<'t> {
    pub(crate) part: Built,
    // The sign behind it, which has been judged; none at the end.
    pub(crate) next: Option<Sign<'t>>,
}
