// In which situations each node passes, all situations at once.
ghost use Rattle.std.specs.Prelude.{◌≡◌, ◌≤◌, true, slice_index};
ghost use Rattle.masks.specs.Bits.{bits_below};
ghost use Rattle.tables.specs.Masks.{Tells, pass_mask};
ghost use Rattle.tables.specs.Parts.{pass_node};
ghost use Rattle.vocabulary.specs.Copies.{copied_meaning};
ghost use Rattle.vocabulary.specs.Masks.{mask_of};

use crate::nodes::RuleNodes;
use crate::parts::Masks;
use crate::step::Step;
use rules::Node;
use vocabulary::{Copied, Vocabulary};

// The mask of so many situations.
fn all_of(situations: u8) -> u64
    requires some { 1 ≤ situations }
    requires most { situations ≤ 64 }
    ensures all { result ≡ bits_below (λ _. true) situations }
{
    u64::MAX >> (64 - situations)
}

// The situations in which a node passes, by those of the nodes in front of it.
fn pass_node(at: Step<'_>, vocabulary: &Copied, all: u64) -> u64
    ensures told { result ≡ pass_node all (mask_of (copied_meaning vocabulary.now)) (slice_index at.entry.front.now) at.entry.node }
{
    match at.node {
        Node::Empty | Node::Action(_, _) | Node::Stop => 0,
        Node::Test(t) => vocabulary.mask(t),
        Node::Skip | Node::Star(_) => all,
        Node::Not(a) => all & !at.part(a),
        Node::Choice(a, b) => at.part(a) | at.part(b),
        Node::Chain(a, b) => at.part(a) & at.part(b),
    }
}

// The nodes of a rule, with the situations in which each passes.
#[derive(Drop)]
pub(crate) struct Passing<'a> {
    pub(crate) rule: RuleNodes<'a>,
    pub(crate) pass: Masks,
}

impl<'a> Passing<'a> {
    // The nodes with the situations of a vocabulary.
    pub(crate) fn of(rule: RuleNodes<'a>, vocabulary: &Copied) -> Passing<'a>
        ensures same_nodes { result.rule.nodes.now ≡ rule.entry.nodes.now }
        ensures passing { Tells (pass_mask (copied_meaning vocabulary.now).situations (copied_meaning vocabulary.now).holds) result.rule.nodes.now result.pass.items }
    {
        let all = all_of(vocabulary.situations());
        Passing {
            rule,
            pass: rule.masks(|at| pass_node(at, vocabulary, all)),
        }
    }
}
