// The names on a sheet.
ghost use Rattle.sheet.specs.Naming.{EachActionFound, EachTestFound};

use crate::numbered::Numbered;

// The names given so far, tests and actions each in the order of their numbers. The calls come in pairs, one for tests and one
// for actions: a caller names the kind by the call, and each is a line over the list of that kind. No two tests or actions share a name: each
// is found by its name under its number.
#[derive(Drop)]
pub struct Names {
    pub(crate) tests: Numbered<32>,
    pub(crate) actions: Numbered<16>,
    ghost each_test_found: { EachTestFound (record { tests = tests; actions = actions }) },
    ghost each_action_found: { EachActionFound (record { tests = tests; actions = actions }) },
}
