// Beginning a sheet, and naming on it.
ghost use Rattle.std.specs.Prelude.{◌≡◌, is_ok, IfOk, if◌then◌else◌};
ghost use Rattle.sheet.specs.Held.{names_of};
ghost use Rattle.sheet.specs.Naming.{FoundUnderItsNumber};
ghost use Rattle.vocabulary.specs.Copies.{copied_meaning};
ghost use Rattle.sheet.specs.Laid.{begun, name_action_on, name_test_on, sheet_of, with_action_named, with_test_named};

use crate::fault::NameFault;
use crate::names::Names;
use crate::sheet::Sheet;
use std::alloc::{AllocError, Global};
use vocabulary::{Copied, Vocabulary};

impl Sheet {
    // Begins a sheet from a vocabulary, whose meaning it copies. The one call that wants memory.
    pub fn begin<V: Vocabulary>(heap: Global, vocabulary: &V) -> Result<Sheet, AllocError>
        ensures { IfOk result (λ s. sheet_of s ≡ begun (V.Vocabulary.meaning vocabulary.now)) }
    {
        let names = Names::none(heap)?;
        Ok(Sheet {
            vocabulary: Copied::of(vocabulary),
            names,
        })
    }

    // Names the next test, and answers its number. As on `Names`, the kind of name is told by the call.
    pub fn name_test(&mut self, name: &[u8]) -> Result<u8, NameFault>
        ensures answer { result ≡ name_test_on (sheet_of self.old) name.now }
        ensures after { sheet_of self.new ≡ (if is_ok result then with_test_named (sheet_of self.old) name.now else sheet_of self.old) }
        ensures each_name_is_found_under_its_number { FoundUnderItsNumber (sheet_of self.new).names }
    {
        let all = self.vocabulary.tests();
        self.names.add_test(name, all)
    }

    // Names the next action, and answers its number.
    pub fn name_action(&mut self, name: &[u8]) -> Result<u8, NameFault>
        ensures answer { result ≡ name_action_on (sheet_of self.old) name.now }
        ensures after { sheet_of self.new ≡ (if is_ok result then with_action_named (sheet_of self.old) name.now else sheet_of self.old) }
        ensures each_name_is_found_under_its_number { FoundUnderItsNumber (sheet_of self.new).names }
    {
        self.names.add_action(name)
    }

    // The names given so far.
    pub fn names(&self) -> &Names
        ensures { names_of result.now ≡ (sheet_of self.now).names }
    {
        &self.names
    }

    // The copy of the vocabulary that the sheet was begun from.
    pub fn vocabulary(&self) -> &Copied
        ensures { copied_meaning result.now ≡ (sheet_of self.now).meaning }
    {
        &self.vocabulary
    }
}
