// A rule read from its text into the nodes that the caller lends.
ghost use Rattle.std.specs.Prelude.{◌≡◌, length};
ghost use Rattle.rules.specs.Nodes.{LaidOutDecodes};
ghost use Rattle.rules.specs.Granted.{GrantedExactlyForRules};
ghost use Rattle.rules.specs.Readers.{means_of};
ghost use Rattle.rules.specs.Rules.{nodes_after, read_text, rule_of};

use crate::machine::Machine;
use crate::node::Node;
use crate::reader::Reader;
use crate::rule::Rule;
use grammar::RuleFault;
use sheet::Names;
use signs::SignReader;

// The most levels of `(` and `!` that are open at once.
const LEVELS: u8 = 32;

// Reads the text of a rule. The rule is laid out from the first node on, and the nodes behind it stay as they were; a text
// that is refused leaves all nodes empty. Only a text that is otherwise granted is refused for want of nodes.
#[tactic(auto, using(crate::proofs::GrantedTexts::granted_exactly, crate::proofs::Decoding::laid_out_decodes))]
pub fn read_rule<'t>(
    text: &'t [u8],
    names: &'t Names,
    nodes: &mut [Node],
) -> Result<Rule, RuleFault>
    ensures answer { result ≡ rule_of (length nodes.old) (read_text (means_of names.now) text.now) }
    ensures nodes_afterwards { nodes.new ≡ nodes_after nodes.old (read_text (means_of names.now) text.now) }
    ensures granted_exactly_for_rules { GrantedExactlyForRules (means_of names.now) text.now }
    ensures nodes_give_the_term_back { LaidOutDecodes }
{
    // The fault is wrapped by hand, since the reader that clears the nodes on its way out does not exist yet.
    let signs = match SignReader::new(text) {
        Ok(signs) => signs,
        Err(fault) => {
            nodes.fill(Node::Empty);
            return Err(RuleFault::Sign(fault));
        }
    };
    let mut reader = Reader {
        nodes,
        signs,
        names,
        end: text.len(),
        machine: Machine::new(),
    };
    reader.choice(LEVELS)?;
    if usize::from(reader.machine.nodes) > reader.nodes.len() {
        return Err(RuleFault::NoRoom);
    }
    let rule = Rule {
        nodes: reader.machine.nodes,
        actions: reader.machine.actions,
    };
    reader.keep();
    Ok(rule)
}
