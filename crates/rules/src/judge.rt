// How a sign is judged by what the reader wants and has counted.
ghost use Rattle.std.specs.Prelude.{◌≡◌, ◌+◌, ◌<◌, ◌≤◌};
ghost use Rattle.grammar.specs.Reading.{fresh, is_bracket, judge, take_name};
ghost use Rattle.signs.specs.Reader.{mark_of};
ghost use Rattle.rules.specs.Machines.{KeptIfRefused, end_outcome, machine_of, outcome};

use crate::machine::{Machine, Wants};
use grammar::RuleFault;
use sheet::Named;
use signs::Sign;

// The most signs other than brackets that a rule has.
const SIGNS: u8 = 255;

// The most actions that a rule has.
const ACTIONS: u8 = 63;

// Whether the sign is a bracket.
fn is_bracket(sign: Sign<'_>) -> bool
    ensures { result ≡ is_bracket (mark_of sign.entry) }
{
    matches!(sign, Sign::Open(_) | Sign::Close(_))
}

impl Machine {
    // As a text begins.
    pub(crate) fn new() -> Machine
        ensures as_defined { machine_of result ≡ fresh }
        ensures no_node { result.nodes ≡ 0 }
    {
        Machine {
            wants: Wants::Wanting,
            brackets: 0,
            signs: 0,
            actions: 0,
            nodes: 0,
        }
    }

    // Takes a name by what it names.
    fn take_name(&mut self, named: Option<Named>, place: usize) -> Result<(), RuleFault>
        requires { self.old.signs < 255 }
        ensures as_defined { outcome result self.new ≡ take_name named place (machine_of self.old) }
        ensures kept { KeptIfRefused result self.old self.new }
        ensures nodes_stay { self.new.nodes ≡ self.old.nodes }
    {
        match named {
            None => return Err(RuleFault::UnknownName(place)),
            Some(Named::Test(_)) => {}
            Some(Named::Action(_)) if self.actions == ACTIONS => {
                return Err(RuleFault::TooMany(place));
            }
            Some(Named::Action(_)) => self.actions += 1,
        }
        self.signs += 1;
        self.wants = Wants::Following;
        Ok(())
    }

    // Judges a sign, and what it names if it is a name, with so many levels left to open: the state behind it, or a
    // refusal that leaves the state as it was.
    pub(crate) fn judge(
        &mut self,
        sign: Sign<'_>,
        named: Option<Named>,
        levels: u8,
    ) -> Result<(), RuleFault>
        requires { self.old.brackets + levels ≤ 32 }
        ensures as_defined { outcome result self.new ≡ judge (λ _. named) levels (mark_of sign.entry) (machine_of self.old) }
        ensures kept { KeptIfRefused result self.old self.new }
        ensures nodes_stay { self.new.nodes ≡ self.old.nodes }
    {
        if !is_bracket(sign) && self.signs == SIGNS {
            return Err(RuleFault::TooMany(sign.place()));
        }
        match (self.wants, sign) {
            (Wants::Wanting, Sign::Open(place) | Sign::Not(place)) if levels == 0 => {
                return Err(RuleFault::TooDeep(place));
            }
            (Wants::Wanting, Sign::Open(_)) => self.brackets += 1,
            (Wants::Wanting, Sign::Not(_)) => self.signs += 1,
            (Wants::Wanting, Sign::Name(_, place)) => return self.take_name(named, place),
            (Wants::Wanting, Sign::Skip(_) | Sign::Stop(_)) => {
                self.signs += 1;
                self.wants = Wants::Following;
            }
            (Wants::Following, Sign::Star(_)) => self.signs += 1,
            (Wants::Following, Sign::Then(_) | Sign::Or(_)) => {
                self.signs += 1;
                self.wants = Wants::Wanting;
            }
            (Wants::Following, Sign::Close(_)) if self.brackets > 0 => self.brackets -= 1,
            _ => return Err(RuleFault::Unfit(sign.place())),
        }
        Ok(())
    }

    // Judges the end, which stands at a place.
    pub(crate) fn end(&self, place: usize) -> Result<(), RuleFault>
        ensures { result ≡ end_outcome place (machine_of self.now) }
    {
        match self.wants {
            Wants::Following if self.brackets == 0 => Ok(()),
            _ => Err(RuleFault::Unfit(place)),
        }
    }
}
