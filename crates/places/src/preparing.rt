// How the flow of a rule is prepared.
ghost use Rattle.std.specs.Prelude.{◌≡◌, ◌<◌, take};
ghost use Rattle.sheet.specs.Laid.{sheet_of};
ghost use Rattle.tables.specs.Masks.{FollowsFrom, WhereKnown, WherePasses, end_mask, follow_mask, term_of};
ghost use Rattle.places.specs.Meaning.{IsThePlacesOf, rule_meaning};

use crate::filling::table_of;
use crate::flow::{PLACES, RuleFlow};
use crate::nexts::Edges;
use crate::nodes::RuleNodes;
use crate::passing::Passing;
use flows::Counts;
use masks::has;
use rules::Node;
use sheet::Sheet;
use vocabulary::Vocabulary;

impl RuleNodes<'_> {
    // The places that may come next behind place `p`; behind the start they are those that the rule begins with.
    fn following(&self, edges: &Edges, p: u8) -> u64
        requires of_place { p < 64 }
        ensures followed { WhereKnown self.now.nodes.now edges.now.first.items edges.now.last.items (λ holds s. result ≡ follow_mask holds s p (term_of self.now.nodes.now)) }
    {
        let begun = if p == 0 {
            self.at_root(&edges.first)
        } else {
            0
        };
        begun | self.at_root(&self.next_masks(edges, p))
    }
}

impl Passing<'_> {
    // The places behind which the rule may end in a situation; the start is one of them where the rule passes.
    fn ends_in(&self, s: u8) -> u64
        ensures ended { WherePasses self.now.rule.nodes.now self.now.pass.items s (λ holds. result ≡ end_mask holds s (term_of self.now.rule.nodes.now)) }
    {
        let start = u64::from(has(self.rule.at_root(&self.pass), s));
        start | self.rule.at_root(&self.last_masks(s))
    }

    // For each place, those that may come next in a situation.
    fn follows_in(&self, s: u8) -> [u64; PLACES]
        ensures followed { WherePasses self.now.rule.nodes.now self.now.pass.items s (λ holds. FollowsFrom holds s (term_of self.now.rule.nodes.now) result) }
    {
        let edges = Edges {
            first: self.first_masks(s),
            last: self.last_masks(s),
        };
        // The constant is a length elsewhere, and 64 fits a byte.
        table_of(PLACES as u8, 0, |p| self.rule.following(&edges, p))
    }
}

impl RuleFlow {
    // Prepares the flow of the rule that stands in nodes, over the situations of a sheet and the actions that are named on
    // it. The last node is the rule's root; nodes behind the first 256, which no part can name, are not looked at.
    pub fn over(nodes: &[Node], sheet: &Sheet) -> RuleFlow
        ensures as_its_places { IsThePlacesOf (sheet_of sheet.now) (term_of (take 256 nodes.now)) (rule_meaning result) }
    {
        let rule = RuleNodes::of(nodes);
        let vocabulary = sheet.vocabulary();
        let counts = Counts {
            situations: vocabulary.situations(),
            actions: sheet.names().actions(),
        };
        let passing = Passing::of(rule, vocabulary);
        // Of a closure that gives an array the check infers no clause, so this one has its own.
        let follows_in = |s: u8| -> [u64; PLACES]
            ensures followed { WherePasses passing.entry.rule.nodes.now passing.entry.pass.items s (λ holds. FollowsFrom holds s (term_of passing.entry.rule.nodes.now) result) }
        { passing.follows_in(s) };
        RuleFlow {
            counts,
            ends: table_of(counts.situations, 0, |s| passing.ends_in(s)),
            follows: table_of(counts.situations, [0; PLACES], follows_in),
            owned: table_of(counts.actions, 0, |action| rule.places_of(action)),
        }
    }
}
