// The flows of the texts that the calls of a book are asked about. Two texts come as two arguments, as a caller has them: a struct
// of both would be made for one call and taken apart in it.
ghost use Rattle.std.specs.Prelude.{◌≡◌, IfOk};
ghost use Rattle.places.specs.Meaning.{rule_meaning};
ghost use Rattle.places.specs.Reading.{AllowsTheRunsOf, flow_on, meant};
ghost use Rattle.book.specs.Books.{book_of};
ghost use Rattle.book.specs.Comparing.{flows_in, meant_both};
ghost use Rattle.book.specs.TextRuns.{FlowOfText};

use crate::compared::Compared;
use crate::fault::TextFault;
use crate::{Book, MOST_NODES};
use grammar::RuleFault;
use places::RuleFlow;
use rules::Node;

impl Book {
    // The flow of the rule that a text is by the names of the book.
    pub(crate) fn flow_of(&self, text: &[u8]) -> Result<RuleFlow, RuleFault>
        ensures answer { meant result ≡ flow_on (book_of self.now).sheet 255 text.now }
        ensures allows_exactly_the_runs_of_the_rule { IfOk result (λ flow. AllowsTheRunsOf (book_of self.now).sheet text.now (rule_meaning flow)) }
        ensures flow_of_the_text { IfOk result (λ flow. FlowOfText (book_of self.now) text.now (rule_meaning flow)) }
    {
        let mut nodes = [Node::Empty; MOST_NODES];
        RuleFlow::read(text, &self.sheet, &mut nodes)
    }

    // The flows of two texts. The text on the left is read first, and where it is refused the other is not read.
    pub(crate) fn flows_of(&self, left: &[u8], right: &[u8]) -> Result<Compared, TextFault>
        ensures answer { meant_both result ≡ flows_in (book_of self.now) left.now right.now }
        ensures flow_of_the_left { IfOk result (λ both. FlowOfText (book_of self.now) left.now (rule_meaning both.left)) }
        ensures flow_of_the_right { IfOk result (λ both. FlowOfText (book_of self.now) right.now (rule_meaning both.right)) }
    {
        let left = self.flow_of(left).map_err(TextFault::Left)?;
        let right = self.flow_of(right).map_err(TextFault::Right)?;
        Ok(Compared { left, right })
    }
}
