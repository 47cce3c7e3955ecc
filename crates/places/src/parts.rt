// The masks of the nodes of a rule, and what is read off them.
ghost use Rattle.std.specs.Prelude.{◌≡◌, slice_index};
ghost use Rattle.tables.specs.Parts.{place_bit};

use arrayvec::ArrayVec;

// How many nodes are looked at: as many as a part can name.
pub(crate) const NODES: usize = 256;

// A mask for each node.
pub(crate) type Masks = ArrayVec<u64, NODES>;

// The mask of a part, among those of the nodes in front; one that does not stand there has no bit.
pub(crate) fn part(front: &[u64], place: u8) -> u64
    ensures { result ≡ slice_index front.now place }
{
    front.get(usize::from(place)).copied().unwrap_or(0)
}

// The mask of one place; those from 64 on have none.
pub(crate) fn place_bit(place: u8) -> u64
    ensures { result ≡ place_bit place }
{
    if place < 64 { 1 << place } else { 0 }
}
