// The nodes of a rule, and the masks that are told of them from the first on.
ghost use Rattle.std.specs.Prelude.{◌≡◌, ◌≤◌, ◌-◌, length, take, slice_index};
ghost use Rattle.places.specs.Upward.{MadeUpward};

use crate::parts::{Masks, NODES};
use crate::step::Step;
use rules::Node;

// The nodes of a rule that are looked at; the last is its root.
#[derive(Clone, Copy)]
pub(crate) struct RuleNodes<'a> {
    pub(crate) nodes: &'a [Node],
    // A part can name each.
    ghost few: { length nodes.now ≤ 256 },
}

impl<'a> RuleNodes<'a> {
    // The first nodes, as many as a part can name.
    pub(crate) fn of(nodes: &'a [Node]) -> RuleNodes<'a>
        ensures first { result.nodes.now ≡ take 256 nodes.now }
    {
        RuleNodes {
            nodes: &nodes[..nodes.len().min(NODES)],
        }
    }

    // The mask of the root.
    pub(crate) fn at_root(&self, masks: &Masks) -> u64
        ensures of_last { result ≡ slice_index masks.now.items (length self.now.nodes.now - 1) }
    {
        masks
            .get(self.nodes.len().saturating_sub(1))
            .copied()
            .unwrap_or(0)
    }

    // A mask for each node, told step by step from the first on.
    pub(crate) fn masks<F: Fn(Step<'_>) -> u64>(&self, tell: F) -> Masks
        requires callable { (at : _) → F.pre tell at }
        ensures upward { MadeUpward (F.post tell) self.now.nodes.now result.items }
    {
        let mut masks = Masks::new();
        for node in self.nodes {
            let mask = tell(Step {
                node: *node,
                front: &masks,
            });
            masks.push(mask);
        }
        masks
    }
}
