// The flow of a rule's places. How it is prepared stands in `preparing`, and how it answers in `answering`.

use flows::Counts;

// How many places there are room for. Place 0 is the start.
pub(crate) const PLACES: usize = 64;

// How many situations there are room for.
pub(crate) const SITUATIONS: usize = 64;

// How many actions there are room for.
pub(crate) const ACTIONS: usize = 16;

// Masks of places: a code marks places, and what comes next is read off the masks of the marked ones. The tables have room
// for all that there can be, since a flow takes no memory from a heap.
#[derive(Drop)]
pub struct RuleFlow {
    // How many situations and actions there are.
    pub(crate) counts: Counts,
    // For each situation, the places behind which a run may end there.
    pub(crate) ends: [u64; SITUATIONS],
    // For each situation and place, the places that may come next.
    pub(crate) follows: [[u64; PLACES]; SITUATIONS],
    // For each action, its places.
    pub(crate) owned: [u64; ACTIONS],
}
