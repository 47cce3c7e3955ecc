// A vocabulary's meaning written down, which is itself a vocabulary. How a copy is taken and how it answers stands in `taken`.
ghost use Rattle.std.specs.Prelude.{ℕ, ◌^◌, ◌<◌, slice_index};

use crate::size::Size;

pub mod taken;

// How many masks there is room for.
const MASKS: usize = 32;

// A mask of situations for each test.
#[derive(Clone, Copy)]
pub struct Copied {
    // How many situations and tests there are.
    size: Size,
    // Bit `s` of the mask at `t` says whether test `t` holds in situation `s`. There is room for all tests, since a copy is copied
    // by value and takes no memory of its own.
    masks: [u64; MASKS],
    // A test holds in situations alone, so its mask has no bit past them.
    ghost within: { (t : ℕ) → t < size.tests → slice_index masks t < 2 ^ size.situations },
}
