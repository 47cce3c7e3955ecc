// Two vocabularies side by side, of any makes. How a pair is made and how it answers stands in `joined`.
ghost use Rattle.std.specs.Prelude.{◌≤◌};

use crate::size::Size;

pub mod joined;

// Every situation of the first with every situation of the second; the first's tests, then the second's.
// The counts are asked for once, when the pair is made.
#[derive(Drop)]
pub struct Pair<V, W> {
    // Whose tests come first.
    first: V,
    // Whose tests follow.
    second: W,
    // How many situations and tests there are in all.
    size: Size,
    // How many tests the first has.
    firsts: u8,
    // How many situations the second has.
    width: u8,
    // The second has a situation.
    ghost wide: { 1 ≤ width },
}
