// Behind which places each node may end in a situation.
ghost use Rattle.std.specs.Prelude.{◌≡◌, ℕ};
ghost use Rattle.tables.specs.Masks.{Tells, WherePasses, last_mask};
ghost use Rattle.tables.specs.Parts.{first_node, last_node};

use crate::firsts::first_node;
use crate::parts::Masks;
use crate::passing::Passing;
use crate::step::Step;
use rules::Node;

// A chain with its parts the other way round, which begins as the chain ends; any other node ends as it begins.
fn turned(node: Node) -> Node
    ensures begins_as_it_ends { (s : ℕ) (pass edge : ℕ → ℕ) → first_node s pass edge result ≡ last_node s pass edge node }
{
    match node {
        Node::Chain(a, b) => Node::Chain(b, a),
        other => other,
    }
}

impl Passing<'_> {
    // The places behind which each node may end in a situation.
    pub(crate) fn last_masks(&self, s: u8) -> Masks
        ensures ended { WherePasses self.now.rule.nodes.now self.now.pass.items s (λ holds. Tells (last_mask holds s) self.now.rule.nodes.now result.items) }
    {
        self.rule.masks(|at| {
            let turned = Step {
                node: turned(at.node),
                front: at.front,
            };
            first_node(turned, s, &self.pass)
        })
    }
}
