// To which places each node may go on from a place in a situation.
ghost use Rattle.std.specs.Prelude.{◌≡◌, ◌<◌, length, take, slice_index, if◌then◌else◌};
ghost use Rattle.masks.specs.Bits.{bit};
ghost use Rattle.tables.specs.Masks.{Tells, WhereKnown, next_mask};
ghost use Rattle.tables.specs.Parts.{next_node};

use crate::nodes::RuleNodes;
use crate::parts::Masks;
use crate::step::Step;
use masks::has;
use rules::Node;

// The places that each node begins with in a situation, and those behind which it may end.
#[derive(Drop)]
pub(crate) struct Edges {
    pub(crate) first: Masks,
    pub(crate) last: Masks,
}

impl Edges {
    // The places behind part `a` of a node that its part `b` begins with, where the one may end behind place `p`.
    fn joint(&self, at: Step<'_>, p: u8, a: u8, b: u8) -> u64
        ensures joined { result ≡ (if bit p (slice_index (take (length at.entry.front.now) self.now.last.items) a) then slice_index (take (length at.entry.front.now) self.now.first.items) b else 0) }
    {
        if has(at.part_in(&self.last, a), p) {
            at.part_in(&self.first, b)
        } else {
            0
        }
    }
}

// The places to which a node may go on from place `p`, by those of the nodes in front of it.
fn next_node(at: Step<'_>, p: u8, edges: &Edges) -> u64
    ensures told { result ≡ next_node p (slice_index (take (length at.entry.front.now) edges.now.first.items)) (slice_index (take (length at.entry.front.now) edges.now.last.items)) (slice_index at.entry.front.now) at.entry.node }
{
    match at.node {
        Node::Choice(a, b) => at.part(a) | at.part(b),
        Node::Chain(a, b) => at.part(a) | edges.joint(at, p, a, b) | at.part(b),
        Node::Star(a) => at.part(a) | edges.joint(at, p, a, a),
        _ => 0,
    }
}

impl RuleNodes<'_> {
    // The places to which each node may go on from place `p`.
    pub(crate) fn next_masks(&self, edges: &Edges, p: u8) -> Masks
        requires of_place { p < 64 }
        ensures gone_on { WhereKnown self.now.nodes.now edges.now.first.items edges.now.last.items (λ holds s. Tells (next_mask holds s p) self.now.nodes.now result.items) }
    {
        self.masks(|at| next_node(at, p, edges))
    }
}
