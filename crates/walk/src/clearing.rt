// Tables that hold nothing.
ghost use Rattle.std.specs.Prelude.{◌≡◌, length};
ghost use Rattle.walk.specs.Records.{zero_table};

use crate::record::PairRecord;

// Writes zeros over the whole table.
pub(crate) fn clear(table: &mut [PairRecord])
    ensures zeros { table.new ≡ zero_table (length table.old) }
{
    table.fill(PairRecord::default());
}
