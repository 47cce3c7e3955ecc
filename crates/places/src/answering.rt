// How the flow of a rule answers.
ghost use Rattle.std.specs.Prelude.{◌≡◌, ℕ, slice_index};
ghost use Rattle.masks.specs.Bits.{bit};
ghost use Rattle.tables.specs.Tables.{reaches};
ghost use Rattle.places.specs.Meaning.{rule_lawful, rule_meaning};

use crate::flow::{PLACES, RuleFlow};
use flows::Flow;
use masks::mask_where;

// The union of a row's masks at the places that a code marks.
fn union_of(row: &[u64; PLACES], code: u64) -> u64
    ensures { (q : ℕ) → bit q result ≡ reaches (λ p. slice_index row.now p) code q }
{
    // From marked place to marked place: a loop over the row up to the last of them took 57 ns with one at 40, and this 9 ns. The
    // place is at most 63, and `usize` has no `From` of 32 bits.
    let mut union = 0;
    let mut rest = code;
    while rest != 0 {
        union |= row[rest.trailing_zeros() as usize];
        rest &= rest - 1;
    }
    union
}

impl Flow for RuleFlow {
    ghost meaning = { rule_meaning };

    ghost lawful = { rule_lawful };

    fn situations(&self) -> u8 {
        self.counts.situations
    }

    fn actions(&self) -> u8 {
        self.counts.actions
    }

    fn start(&self) -> u64 {
        1
    }

    fn accept(&self, code: u64) -> u64 {
        mask_where(self.situations(), |s| code & self.ends[usize::from(s)] != 0)
    }

    fn next(&self, code: u64, situation: u8, action: u8) -> u64 {
        if situation < self.counts.situations && action < self.counts.actions {
            self.owned[usize::from(action)] & union_of(&self.follows[usize::from(situation)], code)
        } else {
            code
        }
    }
}
