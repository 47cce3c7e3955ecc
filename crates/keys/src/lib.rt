// Keys and the one list that finds them again: what it is for an element to bear a key, and the earliest element of a list
// that bears a given one. When two keys are the same is what their `Eq` says.

#![tactic(auto)]

ghost use Rattle.std.specs.Prelude.{◌≡◌};
ghost use Rattle.std.specs.List.{position};
ghost use Rattle.keys.specs.Keys.{Earliest};

// What a list is searched for: an element that bears a key, and may carry more than it.
pub trait Keyed {
    type By: Eq;

    ghost bears: { Self → Self.By };

    // The key that the element bears.
    fn key(&self) -> &Self::By
        ensures { result.now ≡ bears self.now };
}

// The first place of an element whose key is the same as `key`. It stands apart, so that what `find` promises follows from this
// one clause at whichever return.
fn first_place<E: Keyed>(list: &[E], key: &E::By) -> Option<usize>
    ensures value { result ≡ position (λ x. E.By.eq (E.bears x) key.now) list.now }
{
    list.iter().position(|e| e.key() == key)
}

// The earliest place of an element whose key is the same as `key`; none where no element's is.
#[tactic(auto, using(crate::proofs::Firsts::earliest_of))]
pub fn find<E: Keyed>(list: &[E], key: &E::By) -> Option<usize>
    ensures value { result ≡ position (λ x. E.By.eq (E.bears x) key.now) list.now }
    ensures earliest { Earliest (λ x. E.By.eq (E.bears x) key.now) list.now result }
{
    first_place(list, key)
}

#[cfg(test)]
mod tests;
