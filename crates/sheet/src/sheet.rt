// The sheet: a copy of a vocabulary's meaning, and the names given so far.
ghost use Rattle.std.specs.Prelude.{◌≤◌, length};
ghost use Rattle.sheet.specs.Held.{names_of};
ghost use Rattle.vocabulary.specs.Copies.{copied_meaning};

use crate::names::Names;
use vocabulary::Copied;

// A sheet that is being laid out. Opening it ends that: see the book.
#[derive(Drop)]
pub struct Sheet {
    pub(crate) vocabulary: Copied,
    pub(crate) names: Names,
    ghost few_tests: { length (names_of names).tests ≤ (copied_meaning vocabulary).tests },
}
