// Why the signs of a text are no rule.
ghost use Rattle.std.specs.Prelude.{◌≡◌};
ghost use Rattle.grammar.specs.Faults.{refusal_of};
ghost use Rattle.grammar.specs.declared.fault.RuleFault.TheVariants.{Sign};

use refusals::{Layer, Refusal};
use signs::SignFault;

// A refusal of the rule reader, each with its place.
#[derive(Clone, Copy, PartialEq, Eq, Debug)]
pub enum RuleFault {
    // The text has no such sign.
    Sign(SignFault),
    // The 256th sign other than brackets, or the 64th action.
    TooMany(usize),
    // A sign, or the end, that cannot come here.
    Unfit(usize),
    // A name that names nothing.
    UnknownName(usize),
    // The 33rd open level of `(` and `!`.
    TooDeep(usize),
    // A `!` before a unit that is no test.
    NotATest(usize),
    // A rule with more signs than there are nodes for it.
    NoRoom,
}

// A fault of the sign reader is passed on as it is.
impl From<SignFault> for RuleFault {
    ghost from_gives = { λ fault r. r ≡ Sign fault };

    fn from(fault: SignFault) -> RuleFault {
        RuleFault::Sign(fault)
    }
}

// Each refusal as it is told.
impl From<RuleFault> for Refusal {
    ghost from_gives = { λ fault r. r ≡ refusal_of fault };

    fn from(fault: RuleFault) -> Refusal {
        let (layer, number, place) = match fault {
            RuleFault::Sign(sign) => return Refusal::from(sign),
            RuleFault::TooMany(place) => (Layer::Rule, 8, place),
            RuleFault::Unfit(place) => (Layer::Rule, 9, place),
            RuleFault::UnknownName(place) => (Layer::Rule, 10, place),
            RuleFault::TooDeep(place) => (Layer::Rule, 11, place),
            RuleFault::NotATest(place) => (Layer::Rule, 12, place),
            RuleFault::NoRoom => (Layer::Book, 17, 0),
        };
        Refusal {
            layer,
            number,
            place,
        }
    }
}
