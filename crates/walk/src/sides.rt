// Two flows side by side: where they stand together, and where a move leads them.
ghost use Rattle.std.specs.Prelude.{◌≡◌, is_ok, IfOk, IsOkUnless};
ghost use Rattle.runs.specs.Pairs.{disagree_at, next_pair, start_pair};
ghost use Rattle.walk.specs.Judged.{alike};
ghost use Rattle.walk.specs.Records.{move_of, pair_of};
ghost use Rattle.walk.specs.declared.fault.WalkFault.TheVariants.{Unlike};

use crate::disagreement::disagree;
use crate::fault::WalkFault;
use crate::pair::CodePair;
use flows::Flow;

// The two flows of a comparison.
#[derive_where(Clone, Copy)]
pub(crate) struct Sides<'a, F: Flow, G: Flow> {
    pub(crate) left: &'a F,
    pub(crate) right: &'a G,
}

impl<'a, F: Flow, G: Flow> Sides<'a, F, G> {
    // The two flows; refused where they have unlike numbers of situations or of actions.
    pub(crate) fn new(left: &'a F, right: &'a G) -> Result<Sides<'a, F, G>, WalkFault>
        ensures as_many { is_ok result ≡ alike (F.Flow.meaning left.now) (G.Flow.meaning right.now) }
        ensures these { IfOk result (λ sides. (sides.left.now ≡ left.now) × (sides.right.now ≡ right.now)) }
        ensures refused { IsOkUnless result Unlike }
    {
        if left.situations() == right.situations() && left.actions() == right.actions() {
            Ok(Sides { left, right })
        } else {
            Err(WalkFault::Unlike)
        }
    }

    // The pair that the flows start at.
    pub(crate) fn start_pair(&self) -> CodePair
        ensures starts { pair_of result ≡ start_pair (F.Flow.meaning self.now.left.now) (G.Flow.meaning self.now.right.now) }
    {
        CodePair {
            left: self.left.start(),
            right: self.right.start(),
        }
    }

    // The pair that an action leads to from a pair in a situation.
    pub(crate) fn next_pair(&self, pair: CodePair, situation: u8, action: u8) -> CodePair
        ensures led_to { pair_of result ≡ next_pair (F.Flow.meaning self.now.left.now) (G.Flow.meaning self.now.right.now) (pair_of pair) (move_of situation action) }
    {
        CodePair {
            left: self.left.next(pair.left, situation, action),
            right: self.right.next(pair.right, situation, action),
        }
    }

    // Whether the flows accept different situations at the pair.
    pub(crate) fn disagree_at(&self, pair: CodePair) -> bool
        ensures masks_differ { result ≡ disagree_at (F.Flow.meaning self.now.left.now) (G.Flow.meaning self.now.right.now) (pair_of pair) }
    {
        disagree(self.left.accept(pair.left), self.right.accept(pair.right))
    }
}
