// Whether a list of pairs shows that the rules of two texts allow the same runs.
ghost use Rattle.std.specs.Prelude.{◌≡◌, map};
ghost use Rattle.walk.specs.Records.{pair_of};
ghost use Rattle.book.specs.Books.{book_of};
ghost use Rattle.book.specs.Checking.{PassingMeansSameRuns, checked_in};

use crate::Book;
use crate::fault::TextFault;
use walk::{CodePair, Finding};

impl Book {
    // Reads both texts, the left one first, and checks the list against the pairs of their flows.
    pub fn check(&self, left: &[u8], right: &[u8], list: &[CodePair]) -> Result<Finding, TextFault>
        ensures answer { result ≡ checked_in (book_of self.now) left.now right.now (map pair_of list.now) }
        ensures passing_means_same_runs { PassingMeansSameRuns (book_of self.now) left.now right.now result }
    {
        let both = self.flows_of(left, right)?;
        Ok(walk::check(&both.left, &both.right, list)?)
    }
}
