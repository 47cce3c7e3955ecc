// Whether a list of pairs shows that two flows allow the same runs. The list is only read. A list and a pair of it are two
// arguments: a struct of both would live for one call.
ghost use Rattle.std.specs.Prelude.{◌≡◌, map};
ghost use Rattle.runs.specs.Checks.{finding, leads_into};
ghost use Rattle.runs.specs.Pairs.{is_among};
ghost use Rattle.runs.specs.Walks.{moves_below, moves_in};
ghost use Rattle.walk.specs.Checked.{checked, told};
ghost use Rattle.walk.specs.Failing.{failing_at};
ghost use Rattle.walk.specs.Promises.{AListConvinces};
ghost use Rattle.walk.specs.Records.{pair_of};

use crate::fault::WalkFault;
use crate::limits::MOST_PAIRS;
use crate::pair::CodePair;
use crate::sides::Sides;
use crate::verdict::Finding;
use flows::Flow;
use keys::find;

// Whether the pair is in the list.
fn is_among(pair: CodePair, list: &[CodePair]) -> bool
    ensures found { result ≡ is_among (pair_of pair) (map pair_of list.now) }
{
    find(list, &pair).is_some()
}

impl<F: Flow, G: Flow> Sides<'_, F, G> {
    // Whether each action leads from the pair into the list, in one situation.
    fn leads_in(&self, list: &[CodePair], pair: CodePair, situation: u8) -> bool
        ensures leads { result ≡ leads_into (F.Flow.meaning self.now.left.now) (G.Flow.meaning self.now.right.now) (map pair_of list.now) (pair_of pair) (moves_in situation (F.Flow.meaning self.now.left.now).actions) }
    {
        (0..self.left.actions()).all(|action| {
            let next = self.next_pair(pair, situation, action);
            is_among(next, list)
        })
    }

    // Whether each move leads from the pair into the list.
    fn leads_into(&self, list: &[CodePair], pair: CodePair) -> bool
        ensures leads { result ≡ leads_into (F.Flow.meaning self.now.left.now) (G.Flow.meaning self.now.right.now) (map pair_of list.now) (pair_of pair) (moves_below (F.Flow.meaning self.now.left.now).situations (F.Flow.meaning self.now.left.now).actions) }
    {
        (0..self.left.situations()).all(|situation| self.leads_in(list, pair, situation))
    }

    // What fails at pair number `i` of the list, its masks first.
    fn failing_at(&self, list: &[CodePair], i: usize, pair: CodePair) -> Option<Finding>
        ensures fails { result ≡ failing_at (F.Flow.meaning self.now.left.now) (G.Flow.meaning self.now.right.now) (map pair_of list.now) i (pair_of pair) }
    {
        if self.disagree_at(pair) {
            return Some(Finding::MasksFail(i));
        }
        if !self.leads_into(list, pair) {
            return Some(Finding::StepFails(i));
        }
        None
    }

    // What is found of a list.
    fn examine(&self, list: &[CodePair]) -> Finding
        ensures found { result ≡ told (finding (F.Flow.meaning self.now.left.now).situations (F.Flow.meaning self.now.left.now).actions (F.Flow.meaning self.now.left.now) (G.Flow.meaning self.now.right.now) (map pair_of list.now)) }
    {
        if !is_among(self.start_pair(), list) {
            return Finding::StartMissing;
        }
        for (i, pair) in list.iter().enumerate() {
            if let Some(failing) = self.failing_at(list, i, *pair) {
                return failing;
            }
        }
        Finding::Passes
    }
}

// Whether the start pair is in the list, the flows agree at each pair of it, and every move leads from each pair to a pair
// of it; the first that fails is told.
pub fn check<F: Flow, G: Flow>(left: &F, right: &G, list: &[CodePair]) -> Result<Finding, WalkFault>
    ensures answer { result ≡ checked (F.Flow.meaning left.now) (G.Flow.meaning right.now) (map pair_of list.now) }
    ensures a_list_convinces_exactly_when_runs_agree { AListConvinces (F.Flow.meaning left.now) (G.Flow.meaning right.now) }
{
    if list.len() > MOST_PAIRS {
        return Err(WalkFault::TableTooLarge);
    }
    Ok(Sides::new(left, right)?.examine(list))
}
