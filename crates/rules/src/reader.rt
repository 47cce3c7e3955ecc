// The reader of one rule. It is itself the guard over the nodes that it was lent: unless what it read is kept, it clears
// them.
ghost use Rattle.std.specs.Prelude.{◌≡◌, ◌+◌, ◌<◌, ◌≤◌, length};
ghost use Rattle.grammar.specs.Reading.{pull};
ghost use Rattle.signs.specs.Reader.{mark_of};
ghost use Rattle.rules.specs.Builders.{leaf_shape, part_at};
ghost use Rattle.rules.specs.Machines.{machine_of};
ghost use Rattle.rules.specs.Nodes.{blank};
ghost use Rattle.rules.specs.Readers.{LooksUp, Moves, Stays, ahead_by, means_of, named_by, pulled_of, standing};

use crate::machine::Machine;
use crate::node::Node;
use crate::part::Built;
use grammar::RuleFault;
use sheet::{Named, Names};
use signs::{Sign, SignReader};

// Reads one rule.
pub(crate) struct Reader<'t, 'n> {
    // What the rule is laid out in.
    pub(crate) nodes: &'n mut [Node],
    // The signs ahead.
    pub(crate) signs: SignReader<'t>,
    // What names name.
    pub(crate) names: &'t Names,
    // The place of the text's end.
    pub(crate) end: usize,
    pub(crate) machine: Machine,
}

// A sign that was judged, with what it names if it is a name.
#[derive(Clone, Copy)]
pub(crate) struct Judged<'t> {
    pub(crate) sign: Sign<'t>,
    pub(crate) named: Option<Named>,
}

impl Drop for Reader<'_, '_> {
    // Clears the nodes.
    fn drop(self)
        ensures { self.exit.0.now ≡ blank (length self.entry.nodes.now) }
    {
        self.nodes.fill(Node::Empty);
        // Each field is named, since the language refuses `..` where a guard is taken apart in its own `drop`.
        let Reader {
            nodes: _,
            signs: _,
            names: _,
            end: _,
            machine: _,
        } = self;
    }
}

impl<'t> Reader<'t, '_> {
    // Ends the reading, and leaves the nodes as they are.
    pub(crate) fn keep(self)
        ensures { self.exit.0.now ≡ self.entry.nodes.now }
    {
        // Each field is named, since behind `..` it is not known that the nodes stay as they are.
        let Reader {
            nodes: _,
            signs: _,
            names: _,
            end: _,
            machine: _,
        } = self;
    }

    // Adds a node, the root of a part; where there is no room for it, it is only counted. That a sign was counted which has no
    // node yet, no field can say: only whoever has just read the sign knows it.
    pub(crate) fn put(&mut self, node: Node, is_test: bool) -> Built
        requires { self.old.machine.nodes < self.old.machine.signs }
        ensures stays { Stays self.old self.new }
        ensures as_defined { part_at result self.new ≡ leaf_shape node is_test (standing self.old) }
    {
        let root = self.machine.nodes;
        let at = usize::from(root);
        // The place is tested by hand, since behind `get_mut` the proof doesn't see that the other fields stay.
        if at < self.nodes.len() {
            self.nodes[at] = node;
        }
        self.machine.nodes += 1;
        Built { root, is_test }
    }

    // What a sign names, if it is a name.
    fn named(&self, sign: Sign<'_>) -> Option<Named>
        ensures { result ≡ named_by (means_of self.now.names.now) (mark_of sign.entry) }
    {
        match sign {
            Sign::Name(bytes, _) => self.names.meaning(bytes),
            _ => None,
        }
    }

    // Reads the next sign and judges it, with so many levels left to open; there is none at the end.
    pub(crate) fn pull(&mut self, levels: u8) -> Result<Option<Judged<'t>>, RuleFault>
        requires { self.old.machine.brackets + levels ≤ 32 }
        ensures stays { Stays self.old self.new }
        ensures as_defined { pulled_of result self.new ≡ pull (means_of self.old.names.now) levels (ahead_by self.old) (machine_of self.old.machine) }
        ensures looked_up { LooksUp (means_of self.old.names.now) result }
        ensures no_node { self.new.nodes.now ≡ self.old.nodes.now }
        ensures none_counted { self.new.machine.nodes ≡ self.old.machine.nodes }
        ensures moves { Moves levels result self.old self.new }
    {
        let Some(sign) = self.signs.next()? else {
            self.machine.end(self.end)?;
            return Ok(None);
        };
        let named = self.named(sign);
        self.machine.judge(sign, named, levels)?;
        Ok(Some(Judged { sign, named }))
    }
}
