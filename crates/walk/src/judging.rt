// Whether two flows allow the same runs. The flows, the table and the run buffer are each a thing of the caller's own, so
// they come one by one.
ghost use Rattle.std.specs.Prelude.{◌≡◌, length};
ghost use Rattle.walk.specs.Judged.{buffer_after, judged, table_after};
ghost use Rattle.walk.specs.Promises.{AListConvinces, IfDifferent, IfEqual, IfFull};

use crate::clearing::clear;
use crate::ending::Ending;
use crate::fault::WalkFault;
use crate::limits::MOST_PAIRS;
use crate::record::PairRecord;
use crate::showing::show;
use crate::sides::Sides;
use crate::verdict::Verdict;
use crate::walking::walk;
use flows::Flow;

// The work of `judge`: its checks in their order, the walk, and the answer that the walk's ending gets. It stands apart, since
// what `judge` says of runs follows from these three clauses together, at whichever return.
fn compare<F: Flow, G: Flow>(
    left: &F,
    right: &G,
    table: &mut [PairRecord],
    run: &mut [u8],
) -> Result<Verdict, WalkFault>
    ensures answer { result ≡ judged (F.Flow.meaning left.now) (G.Flow.meaning right.now) (length table.old) (length run.old) }
    ensures table_afterwards { table.new ≡ table_after (F.Flow.meaning left.now) (G.Flow.meaning right.now) table.old }
    ensures run_afterwards { run.new ≡ buffer_after (F.Flow.meaning left.now) (G.Flow.meaning right.now) (length table.old) run.old }
{
    if table.len() > MOST_PAIRS {
        return Err(WalkFault::TableTooLarge);
    }
    clear(table);
    let sides = Sides::new(left, right)?;
    // A refusal is passed on by hand, since the table is cleared behind it.
    let answer = match walk(&sides, table) {
        Ok(Ending::Equal(count)) => return Ok(Verdict::Equal(count)),
        Ok(Ending::Different(i)) => show(&sides, table, i, run),
        Err(fault) => Err(fault),
    };
    clear(table);
    answer
}

// Walks over the pairs of two flows. Where they are equal the table lists the pairs afterwards, and else it holds zeros;
// where they are different the run buffer begins with a run that one of them alone allows.
pub fn judge<F: Flow, G: Flow>(
    left: &F,
    right: &G,
    table: &mut [PairRecord],
    run: &mut [u8],
) -> Result<Verdict, WalkFault>
    ensures answer { result ≡ judged (F.Flow.meaning left.now) (G.Flow.meaning right.now) (length table.old) (length run.old) }
    ensures table_afterwards { table.new ≡ table_after (F.Flow.meaning left.now) (G.Flow.meaning right.now) table.old }
    ensures run_afterwards { run.new ≡ buffer_after (F.Flow.meaning left.now) (G.Flow.meaning right.now) (length table.old) run.old }
    ensures equal_means_same_runs { IfEqual (F.Flow.meaning left.now) (G.Flow.meaning right.now) table.new result }
    ensures different_shows_a_shortest_run { IfDifferent (F.Flow.meaning left.now) (G.Flow.meaning right.now) run.new result }
    ensures full_means_more_meeting_pairs { IfFull (F.Flow.meaning left.now) (G.Flow.meaning right.now) (length table.new) result }
    ensures a_list_convinces_exactly_when_runs_agree { AListConvinces (F.Flow.meaning left.now) (G.Flow.meaning right.now) }
{
    compare(left, right, table, run)
}
