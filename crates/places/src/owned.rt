// Which places each node has for an action.
ghost use Rattle.std.specs.Prelude.{◌≡◌, slice_index};
ghost use Rattle.tables.specs.Masks.{action_mask, term_of};
ghost use Rattle.tables.specs.Parts.{action_node};

use crate::nodes::RuleNodes;
use crate::parts::place_bit;
use crate::step::Step;
use rules::Node;

// The places of an action in a node, by those in the nodes in front of it.
fn action_node(at: Step<'_>, action: u8) -> u64
    ensures told { result ≡ action_node action (slice_index at.entry.front.now) at.entry.node }
{
    match at.node {
        Node::Action(a, p) => if a == action { place_bit(p) } else { 0 },
        Node::Choice(a, b) | Node::Chain(a, b) => at.part(a) | at.part(b),
        Node::Star(a) => at.part(a),
        _ => 0,
    }
}

impl RuleNodes<'_> {
    // The places of an action in the rule.
    pub(crate) fn places_of(&self, action: u8) -> u64
        ensures owned { result ≡ action_mask action (term_of self.now.nodes.now) }
    {
        self.at_root(&self.masks(|at| action_node(at, action)))
    }
}
