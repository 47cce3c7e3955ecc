// Whether the rules of two texts allow the same runs.
ghost use Rattle.std.specs.Prelude.{◌≡◌, length};
ghost use Rattle.book.specs.Books.{book_of};
ghost use Rattle.book.specs.Judging.{DifferentShowsAShortestRun, EqualMeansSameRuns, judged_in, run_in, table_in};

use crate::Book;
use crate::fault::TextFault;
use walk::{PairRecord, Verdict};

impl Book {
    // Reads both texts, the left one first, and walks over the pairs of their flows. Where the rules are equal the table
    // lists the pairs afterwards; where they are different the run buffer begins with a run that one of them alone allows.
    pub fn judge(
        &self,
        left: &[u8],
        right: &[u8],
        table: &mut [PairRecord],
        run: &mut [u8],
    ) -> Result<Verdict, TextFault>
        ensures answer { result ≡ judged_in (book_of self.now) left.now right.now (length table.old) (length run.old) }
        ensures table_afterwards { table.new ≡ table_in (book_of self.now) left.now right.now table.old }
        ensures run_afterwards { run.new ≡ run_in (book_of self.now) left.now right.now (length table.old) run.old }
        ensures equal_means_same_runs { EqualMeansSameRuns (book_of self.now) left.now right.now table.new result }
        ensures different_shows_a_shortest_run { DifferentShowsAShortestRun (book_of self.now) left.now right.now run.new result }
    {
        let both = self.flows_of(left, right)?;
        Ok(walk::judge(&both.left, &both.right, table, run)?)
    }
}
