// How many situations and tests a vocabulary has.
ghost use Rattle.std.specs.Prelude.{◌≤◌};

// The two counts, within the limits of every vocabulary.
#[derive(Clone, Copy)]
pub struct Size {
    // How many situations there are.
    pub(crate) situations: u8,
    // How many tests there are.
    pub(crate) tests: u8,
    ghost some: { 1 ≤ situations },
    ghost most: { situations ≤ 64 },
    ghost few: { tests ≤ 32 },
}
