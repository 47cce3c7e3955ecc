// Names under numbers: a list of names that has memory for all that there can be, seen in clauses as the bytes of its names.
ghost use Rattle.std.specs.Prelude.{◌≡◌, ℕ, ◌<◌, ◌≤◌, List, [], ◌∷◌, ◌++◌, map, length, Ok, IfSome, is_ok, IfOk, if◌then◌else◌, slice_index_or, vec_len, vec_capacity};
ghost use Rattle.sheet.specs.Naming.{next_of, number_in};
ghost use Rattle.sheet.specs.Spelling.{bytes_of};

use crate::fault::NameFault;
use crate::name::Name;
use keys::find;
use std::alloc::{AllocError, Global};
use std::marker::Model;

// The place of a name in a list of names. It stands apart, since in a method with a const parameter the proof sees nothing of
// what `find` promises.
fn place_in(names: &[Name], name: &Name) -> Option<usize>
    ensures value { result ≡ number_in (map bytes_of names.now) (bytes_of name.now) }
    ensures within { IfSome result (λ i. i < length names.now) }
{
    find(names, name)
}

// At most so many names, each under the number of its place. All memory for them is had at the beginning.
#[derive(Drop)]
pub(crate) struct Numbered<const MOST: usize> {
    names: Vec<Name>,
}

// Clauses see the bytes of each name.
impl<const MOST: usize> Model for Numbered<MOST> {
    ghost Value = { List (List ℕ) };

    ghost view = { λ all. map bytes_of all.names.items };

    ghost invariant = { λ all. (MOST ≤ vec_capacity all.names) × (vec_len all.names ≤ MOST) × (MOST ≤ 255) };
}

impl<const MOST: usize> Numbered<MOST> {
    // No names yet, with memory for all.
    pub(crate) fn none(heap: Global) -> Result<Numbered<MOST>, AllocError>
        requires numbers_fit { MOST ≤ 255 }
        ensures has_none { IfOk result (λ names. names ≡ []) }
    {
        let names = Vec::with_capacity(heap, MOST)?;
        Ok(Numbered { names })
    }

    // How many names there are.
    pub(crate) fn len(&self) -> u8
        ensures counted { result ≡ length self.now }
        ensures few { result ≤ MOST }
    {
        // Nothing is lost, as there are at most 255; a `try_from` would need an answer where there are more.
        self.names.len() as u8
    }

    // The name under a number, which has no bytes where none has the number.
    pub(crate) fn name(&self, number: u8) -> &[u8]
        ensures at_its_place { result.now ≡ slice_index_or self.now number [] }
    {
        let name = self.names.get(usize::from(number));
        name.map_or(b"".as_slice(), |name| name.as_bytes())
    }

    // The number of a name, if it is one of them.
    pub(crate) fn number(&self, name: &Name) -> Option<u8>
        ensures found { result ≡ number_in self.now (bytes_of name.now) }
    {
        // Nothing is lost, as in `len`.
        place_in(&self.names, name).map(|place| place as u8)
    }

    // Gives a name the next of so many numbers.
    pub(crate) fn add(&mut self, name: Name, all: u8) -> Result<u8, NameFault>
        requires within { all ≤ MOST }
        ensures answer { result ≡ next_of all self.old (Ok (bytes_of name)) }
        ensures after { self.new ≡ (if is_ok result then self.old ++ bytes_of name ∷ [] else self.old) }
    {
        let number = self.len();
        if number >= all {
            return Err(NameFault::AllNamed);
        }
        self.names.push_reserved(name);
        Ok(number)
    }
}
