// The flow of a rule made from its text.
ghost use Rattle.std.specs.Prelude.{◌≡◌, length, IfOk};
ghost use Rattle.rules.specs.Granted.{GrantedExactlyForRules};
ghost use Rattle.rules.specs.Rules.{nodes_after};
ghost use Rattle.sheet.specs.Laid.{sheet_of};
ghost use Rattle.places.specs.Meaning.{rule_meaning};
ghost use Rattle.places.specs.Reading.{AllowsTheRunsOf, flow_on, means_on, meant, text_on};

use crate::flow::RuleFlow;
use grammar::RuleFault;
use rules::{Node, read_rule};
use sheet::Sheet;

impl RuleFlow {
    // Reads the text of a rule by the names on a sheet, and prepares its flow. The nodes are what the rule is laid out in:
    // it stands there from the first on, and a text that is refused leaves all of them empty.
    pub fn read(text: &[u8], sheet: &Sheet, nodes: &mut [Node]) -> Result<RuleFlow, RuleFault>
        ensures answer { meant result ≡ flow_on (sheet_of sheet.now) (length nodes.old) text.now }
        ensures allows_exactly_the_runs_of_the_rule { IfOk result (λ flow. AllowsTheRunsOf (sheet_of sheet.now) text.now (rule_meaning flow)) }
        ensures nodes_afterwards { nodes.new ≡ nodes_after nodes.old (text_on (sheet_of sheet.now) text.now) }
        ensures granted_exactly_for_rules { GrantedExactlyForRules (means_on (sheet_of sheet.now)) text.now }
    {
        let rule = read_rule(text, sheet.names(), nodes)?;
        Ok(RuleFlow::over(&nodes[..usize::from(rule.nodes)], sheet))
    }
}
