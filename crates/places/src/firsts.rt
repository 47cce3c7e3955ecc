// Which places each node begins with in a situation.
ghost use Rattle.std.specs.Prelude.{◌≡◌, length, take, slice_index};
ghost use Rattle.tables.specs.Masks.{Tells, WherePasses, first_mask};
ghost use Rattle.tables.specs.Parts.{first_node};

use crate::parts::{Masks, place_bit};
use crate::passing::Passing;
use crate::step::Step;
use masks::has;
use rules::Node;

// The places that a node begins with, by those of the nodes in front of it and by the situations in which these pass.
pub(crate) fn first_node(at: Step<'_>, s: u8, pass: &Masks) -> u64
    ensures told { result ≡ first_node s (slice_index (take (length at.entry.front.now) pass.now.items)) (slice_index at.entry.front.now) at.entry.node }
{
    match at.node {
        Node::Empty | Node::Test(_) | Node::Skip | Node::Stop | Node::Not(_) => 0,
        Node::Action(_, p) => place_bit(p),
        Node::Choice(a, b) => at.part(a) | at.part(b),
        Node::Chain(a, b) => {
            let second = if has(at.part_in(pass, a), s) {
                at.part(b)
            } else {
                0
            };
            at.part(a) | second
        }
        Node::Star(a) => at.part(a),
    }
}

impl Passing<'_> {
    // The places that each node begins with in a situation.
    pub(crate) fn first_masks(&self, s: u8) -> Masks
        ensures begun { WherePasses self.now.rule.nodes.now self.now.pass.items s (λ holds. Tells (first_mask holds s) self.now.rule.nodes.now result.items) }
    {
        self.rule.masks(|at| first_node(at, s, &self.pass))
    }
}
