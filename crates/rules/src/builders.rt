// The four builders of a rule: a choice is of chains, a chain of steps, a step is a unit and the `*` behind it, and a
// unit is a name, a word, a choice in brackets or a negated unit. They call each other in a cycle. Choice and chain read
// alike and stay two, since each is a kind of part of its own. How many levels may still be opened is handed down, since only
// the builders know where a negated unit ends.
ghost use Rattle.std.specs.Prelude.{◌≡◌, ◌+◌, ◌<◌, ◌≤◌};
ghost use Rattle.rules.specs.Builders.{Adds, ChainRead, ChoiceRead, NamedRead, NegatedRead, NotBack, OneMore, Onward, OnwardUnit, StarsRead, StepRead, UnitRead, joined_shape, shape_at};
ghost use Rattle.rules.specs.Readers.{Stays};

use crate::node::Node;
use crate::part::{Built, Grown};
use crate::reader::{Judged, Reader};
use grammar::RuleFault;
use sheet::Named;
use signs::Sign;

impl<'t> Reader<'t, '_> {
    // The unit that a name is, by what it names.
    fn name(&mut self, named: Option<Named>, place: usize) -> Result<Built, RuleFault>
        requires { self.old.machine.nodes < self.old.machine.signs }
        ensures stays { Stays self.old self.new }
        ensures as_defined { NamedRead named place result self.old self.new }
        ensures adds { Adds result self.old self.new }
    {
        match named {
            None => Err(RuleFault::UnknownName(place)),
            Some(Named::Test(test)) => Ok(self.put(Node::Test(test), true)),
            Some(Named::Action(action)) => {
                Ok(self.put(Node::Action(action, self.machine.actions), false))
            }
        }
    }

    // The negation of a unit that is complete; the `!` stands at a place.
    fn negate(&mut self, unit: Built, place: usize) -> Result<Built, RuleFault>
        requires { self.old.machine.nodes < self.old.machine.signs }
        ensures stays { Stays self.old self.new }
        ensures as_defined { NegatedRead unit place result self.old self.new }
        ensures adds { Adds result self.old self.new }
    {
        if !unit.is_test {
            return Err(RuleFault::NotATest(place));
        }
        Ok(self.put(Node::Not(unit.root), true))
    }

    // A unit that is complete, with the `*` behind it.
    fn stars(&mut self, unit: Built, levels: u8) -> Result<Grown<'t>, RuleFault>
        requires { self.old.machine.brackets + levels ≤ 32 }
        ensures stays { Stays self.old self.new }
        ensures as_defined { StarsRead unit levels result self.old self.new }
        ensures onward { NotBack result self.old self.new }
    {
        let mut part = unit;
        loop {
            let next = self.pull(levels)?.map(|judged| judged.sign);
            if !matches!(next, Some(Sign::Star(_))) {
                return Ok(Grown { part, next });
            }
            part = self.put(Node::Star(part.root), false);
        }
    }

    // Two parts that a node joins, with the sign behind the second.
    fn join(&mut self, node: Node, left: Grown<'t>, right: Grown<'t>) -> Grown<'t>
        requires { self.old.machine.nodes < self.old.machine.signs }
        ensures stays { Stays self.old self.new }
        ensures joined { shape_at result self.new ≡ joined_shape node (shape_at left.entry self.old) (shape_at right.entry self.old) }
        ensures adds { OneMore self.old self.new }
    {
        Grown {
            part: self.put(node, left.part.is_test && right.part.is_test),
            next: right.next,
        }
    }

    // A choice: a chain, and behind a `|` another choice.
    #[cycle(chain_choice_step_unit)]
    pub(crate) fn choice(&mut self, levels: u8) -> Result<Grown<'t>, RuleFault>
        requires { self.old.machine.brackets + levels ≤ 32 }
        ensures stays { Stays self.old self.new }
        ensures as_defined { ChoiceRead levels result self.old self.new }
        ensures onward { Onward result self.old self.new }
    {
        let left = self.chain(levels)?;
        if !matches!(left.next, Some(Sign::Or(_))) {
            return Ok(left);
        }
        let right = self.choice(levels)?;
        Ok(self.join(Node::Choice(left.part.root, right.part.root), left, right))
    }

    // A chain: a step, and behind a `;` another chain.
    #[cycle(chain_choice_step_unit)]
    fn chain(&mut self, levels: u8) -> Result<Grown<'t>, RuleFault>
        requires { self.old.machine.brackets + levels ≤ 32 }
        ensures stays { Stays self.old self.new }
        ensures as_defined { ChainRead levels result self.old self.new }
        ensures onward { Onward result self.old self.new }
    {
        let left = self.step(levels)?;
        if !matches!(left.next, Some(Sign::Then(_))) {
            return Ok(left);
        }
        let right = self.chain(levels)?;
        Ok(self.join(Node::Chain(left.part.root, right.part.root), left, right))
    }

    // A step: a unit, and the `*` behind it.
    #[cycle(chain_choice_step_unit)]
    fn step(&mut self, levels: u8) -> Result<Grown<'t>, RuleFault>
        requires { self.old.machine.brackets + levels ≤ 32 }
        ensures stays { Stays self.old self.new }
        ensures as_defined { StepRead levels result self.old self.new }
        ensures onward { Onward result self.old self.new }
    {
        let unit = self.unit(levels)?;
        self.stars(unit, levels)
    }

    // A unit: a name, a word, a choice in brackets, or a `!` and the unit behind it.
    #[cycle(chain_choice_step_unit)]
    fn unit(&mut self, levels: u8) -> Result<Built, RuleFault>
        requires { self.old.machine.brackets + levels ≤ 32 }
        ensures stays { Stays self.old self.new }
        ensures as_defined { UnitRead levels result self.old self.new }
        ensures onward { OnwardUnit result self.old self.new }
    {
        let Some(Judged { sign, named }) = self.pull(levels)? else {
            return Err(RuleFault::Unfit(0));
        };
        match sign {
            Sign::Name(_, place) => self.name(named, place),
            Sign::Skip(_) => Ok(self.put(Node::Skip, true)),
            Sign::Stop(_) => Ok(self.put(Node::Stop, true)),
            Sign::Open(place) => {
                let inner = self.choice(levels - 1)?;
                if !matches!(inner.next, Some(Sign::Close(_))) {
                    return Err(RuleFault::Unfit(place));
                }
                Ok(inner.part)
            }
            Sign::Not(place) => {
                let inner = self.unit(levels - 1)?;
                self.negate(inner, place)
            }
            Sign::Close(place) | Sign::Star(place) | Sign::Then(place) | Sign::Or(place) => {
                Err(RuleFault::Unfit(place))
            }
        }
    }
}
