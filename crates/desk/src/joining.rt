// The vocabulary that the parts of a line make: several are joined to pairs from the left.
ghost use Rattle.std.specs.Prelude.{◌≡◌};
ghost use Rattle.vocabulary.specs.Answer.{meant};
ghost use Rattle.vocabulary.specs.Copies.{copied_meaning};
ghost use Rattle.vocabulary.specs.Pairs.{pair_of};
ghost use Rattle.desk.specs.Joining.{make_of, vocabulary_of};

use script::Part;
use vocabulary::{Copied, Flags, Pair, Scale, VocabularyFault};

// A vocabulary of one part, written down.
fn make(part: Part) -> Result<Copied, VocabularyFault>
    ensures { meant copied_meaning result ≡ make_of part }
{
    match part {
        Part::Flags(facts) => Ok(Copied::of(&Flags::new(facts)?)),
        Part::Scale(stages) => Ok(Copied::of(&Scale::new(stages)?)),
    }
}

// Two vocabularies side by side, written down.
fn join(first: Copied, second: Copied) -> Result<Copied, VocabularyFault>
    ensures { meant copied_meaning result ≡ pair_of (copied_meaning first) (copied_meaning second) }
{
    Ok(Copied::of(&Pair::new(first, second)?))
}

// The vocabulary of all parts, or the first refusal on the way.
#[tactic(auto, using(crate::proofs::FirstRefusal::refusal_stays))]
pub fn vocabulary_of(parts: &[Part]) -> Result<Copied, VocabularyFault>
    ensures { meant copied_meaning result ≡ vocabulary_of parts.now }
{
    let Some((first, rest)) = parts.split_first() else {
        return Err(VocabularyFault::BeyondLimits);
    };
    let mut all = make(*first)?;
    for part in rest {
        all = join(all, make(*part)?)?;
    }
    Ok(all)
}
