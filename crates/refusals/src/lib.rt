// How a refusal is told: which layer refuses, under which number, and at which place. Every layer's own faults turn
// into this, so that whoever asked is told in one form.

#![tactic(auto)]

ghost use Rattle.std.specs.Prelude.{Some};
ghost use Rattle.refusals.specs.Shown.{layer_word, refusal_text};

use std::fmt::{self, Display};

// The layer that refuses.
#[derive(Clone, Copy, PartialEq, Eq, Debug)]
pub enum Layer {
    Vocabulary,
    Names,
    Signs,
    Rule,
    Chart,
    Book,
    Walk,
}

// A layer is told by its word.
impl Display for Layer {
    ghost output = { λ layer. Some (layer_word layer) };

    fn fmt<W: fmt::Write>(&self, f: &mut fmt::Formatter<W>) -> fmt::Result {
        f.write_str(match self {
            Layer::Vocabulary => "vocabulary",
            Layer::Names => "names",
            Layer::Signs => "signs",
            Layer::Rule => "rule",
            Layer::Chart => "chart",
            Layer::Book => "book",
            Layer::Walk => "walk",
        })
    }
}

// A refusal with its number, which no other refusal has, and its place in what was given.
#[derive(Clone, Copy, PartialEq, Eq, Debug)]
pub struct Refusal {
    pub layer: Layer,
    // It is what a caller is told, and what is printed, so it is kept as a number.
    pub number: u8,
    pub place: usize,
}

// A refusal is told by its layer, its number and its place.
impl Display for Refusal {
    ghost output = { λ refusal. Some (refusal_text refusal) };

    fn fmt<W: fmt::Write>(&self, f: &mut fmt::Formatter<W>) -> fmt::Result {
        let Refusal {
            layer,
            number,
            place,
        } = *self;
        write!(f, "refused, {layer} {number} at {place}")
    }
}
