// The run that tells two flows apart, where the walk ended at a pair at which they disagree.
ghost use Rattle.std.specs.Prelude.{◌≡◌, ◌≤◌, true, length};
ghost use Rattle.runs.specs.Walks.{different};
ghost use Rattle.walk.specs.Judged.{alike, answer_of, buffer_by};
ghost use Rattle.walk.specs.Shown.{EndedAt};

use crate::fault::WalkFault;
use crate::record::PairRecord;
use crate::sides::Sides;
use crate::trail::Trail;
use crate::verdict::{Side, Verdict};
use flows::Flow;

// Writes the run that led to pair number `i` into the buffer, and tells how many actions it has and which side allows it.
pub(crate) fn show<F: Flow, G: Flow>(
    sides: &Sides<'_, F, G>,
    table: &[PairRecord],
    i: usize,
    run: &mut [u8],
) -> Result<Verdict, WalkFault>
    requires compared { alike (F.Flow.meaning sides.now.left.now) (G.Flow.meaning sides.now.right.now) ≡ true }
    requires ended { EndedAt (F.Flow.meaning sides.now.left.now) (G.Flow.meaning sides.now.right.now) table.now i }
    requires few { length table.now ≤ 2048 }
    ensures answer { result ≡ answer_of (F.Flow.meaning sides.now.left.now) (G.Flow.meaning sides.now.right.now) (length run.old) (different i) }
    ensures run_afterwards { run.new ≡ buffer_by (F.Flow.meaning sides.now.left.now) (G.Flow.meaning sides.now.right.now) run.old (different i) }
{
    let trail = Trail { table, at: i };
    let actions = trail.actions();
    let wanted = 2 * actions + 1;
    if run.len() < wanted {
        return Err(WalkFault::BufferTooShort(wanted));
    }
    let pair = table[i].pair;
    let mask = sides.left.accept(pair.left);
    // The lowest situation that only one of the masks has. It is at most 64, so a byte holds it, and a `try_from` would need an
    // answer where it does not.
    let last = (mask ^ sides.right.accept(pair.right)).trailing_zeros() as u8;
    trail.write_run(actions, last, run);
    let side = if masks::has(mask, last) {
        Side::Left
    } else {
        Side::Right
    };
    Ok(Verdict::Different(actions, side))
}
