// Finding a name again, and adding one.
ghost use Rattle.std.specs.Prelude.{◌≡◌, ◌≤◌, [], length, is_ok, IfOk, if◌then◌else◌, slice_index_or};
ghost use Rattle.sheet.specs.Held.{names_of};
ghost use Rattle.sheet.specs.Naming.{action_number, found, fresh, meaning_of, no_names, test_number, with_action, with_test};
ghost use Rattle.sheet.specs.Spelling.{bytes_of, spelling};

use crate::fault::NameFault;
use crate::name::Name;
use crate::named::Named;
use crate::names::Names;
use crate::numbered::Numbered;
use std::alloc::{AllocError, Global};

// How many actions there may be.
const MOST_ACTIONS: u8 = 16;

impl Names {
    // No names yet, with memory for all.
    pub fn none(heap: Global) -> Result<Names, AllocError>
        ensures { IfOk result (λ names. names_of names ≡ no_names) }
    {
        let tests = Numbered::none(heap)?;
        let actions = Numbered::none(heap)?;
        Ok(Names { tests, actions })
    }

    // How many tests are named.
    pub fn tests(&self) -> u8
        ensures counted { result ≡ length (names_of self.now).tests }
        ensures few { result ≤ 32 }
    {
        self.tests.len()
    }

    // How many actions are named.
    pub fn actions(&self) -> u8
        ensures counted { result ≡ length (names_of self.now).actions }
        ensures few { result ≤ 16 }
    {
        self.actions.len()
    }

    // The name of a test, which has no bytes where the test is not named.
    pub fn test_name(&self, test: u8) -> &[u8]
        ensures { result.now ≡ slice_index_or (names_of self.now).tests test [] }
    {
        self.tests.name(test)
    }

    // The name of an action, which has no bytes where the action is not named.
    pub fn action_name(&self, action: u8) -> &[u8]
        ensures { result.now ≡ slice_index_or (names_of self.now).actions action [] }
    {
        self.actions.name(action)
    }

    // What the name names, if anything.
    pub fn find(&self, name: &Name) -> Option<Named>
        ensures { result ≡ found (names_of self.now) (bytes_of name.now) }
    {
        let test = self.tests.number(name).map(Named::Test);
        test.or_else(|| self.actions.number(name).map(Named::Action))
    }

    // What the bytes name, if anything.
    pub fn meaning(&self, bytes: &[u8]) -> Option<Named>
        ensures { result ≡ meaning_of (names_of self.now) bytes.now }
    {
        let name = Name::new(bytes).ok()?;
        self.find(&name)
    }

    // The bytes as a name that names nothing yet.
    fn fresh(&self, bytes: &[u8]) -> Result<Name, NameFault>
        ensures { spelling result ≡ fresh (names_of self.now) bytes.now }
    {
        let name = Name::new(bytes)?;
        match self.find(&name) {
            Some(_) => Err(NameFault::AlreadyNamed),
            None => Ok(name),
        }
    }

    // Names the next of `all` tests, and answers its number.
    pub(crate) fn add_test(&mut self, bytes: &[u8], all: u8) -> Result<u8, NameFault>
        requires { all ≤ 32 }
        ensures answer { result ≡ test_number (names_of self.old) all bytes.now }
        ensures after { names_of self.new ≡ (if is_ok result then with_test (names_of self.old) bytes.now else names_of self.old) }
    {
        let name = self.fresh(bytes)?;
        self.tests.add(name, all)
    }

    // Names the next action, and answers its number.
    pub(crate) fn add_action(&mut self, bytes: &[u8]) -> Result<u8, NameFault>
        ensures answer { result ≡ action_number (names_of self.old) bytes.now }
        ensures after { names_of self.new ≡ (if is_ok result then with_action (names_of self.old) bytes.now else names_of self.old) }
    {
        let name = self.fresh(bytes)?;
        self.actions.add(name, MOST_ACTIONS)
    }
}
