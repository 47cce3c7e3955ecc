// The walk: the start is put down, and the pairs are followed in the order in which they were put down, until the flows
// disagree at one or all have been followed.
ghost use Rattle.std.specs.Prelude.{◌≡◌, length};
ghost use Rattle.walk.specs.Ended.{Walked};
ghost use Rattle.walk.specs.Records.{zero_table};

use crate::ending::Ending;
use crate::fault::WalkFault;
use crate::listing::Listing;
use crate::record::PairRecord;
use crate::sides::Sides;
use flows::Flow;

// Walks over the pairs of two flows in a table that holds zeros; refused where the table is too small for them.
pub(crate) fn walk<F: Flow, G: Flow>(
    sides: &Sides<'_, F, G>,
    table: &mut [PairRecord],
) -> Result<Ending, WalkFault>
    requires is_clear { table.old ≡ zero_table (length table.old) }
    ensures walked { Walked (F.Flow.meaning sides.now.left.now) (G.Flow.meaning sides.now.right.now) (length table.old) table.new result }
{
    let mut listing = Listing { table, used: 0 };
    listing.put_down(PairRecord {
        pair: sides.start_pair(),
        ..PairRecord::default()
    })?;
    // The list grows while it is walked, so its pairs are asked for by their numbers, and no iterator can lend them.
    let mut i = 0;
    while let Some(pair) = listing.pair(i) {
        if sides.disagree_at(pair) {
            return Ok(Ending::Different(i));
        }
        listing.follow(sides, i, pair)?;
        i += 1;
    }
    Ok(Ending::Equal(i))
}
