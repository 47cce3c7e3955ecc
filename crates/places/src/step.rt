// A step up the nodes of a rule, in which a node's mask is told from those of the nodes in front of it.
ghost use Rattle.std.specs.Prelude.{◌≡◌, length, take, slice_index};

use crate::parts::{Masks, part};
use rules::Node;

// A node, with the masks of the nodes in front of it.
#[derive(Clone, Copy)]
pub(crate) struct Step<'a> {
    pub(crate) node: Node,
    pub(crate) front: &'a [u64],
}

impl Step<'_> {
    // The mask of a part.
    pub(crate) fn part(&self, place: u8) -> u64
        ensures { result ≡ slice_index self.now.front.now place }
    {
        part(self.front, place)
    }

    // The mask of a part in other masks, of which no more are looked at than stand in front of this node.
    pub(crate) fn part_in(&self, masks: &Masks, place: u8) -> u64
        ensures { result ≡ slice_index (take (length self.now.front.now) masks.now.items) place }
    {
        part(&masks[..self.front.len().min(masks.len())], place)
    }
}
