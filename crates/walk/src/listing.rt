// The pairs that a walk lists, at the front of a table that else holds zeros.
ghost use Rattle.std.specs.Prelude.{◌≡◌, ◌-◌, ◌≤◌, drop, length};
ghost use Rattle.walk.specs.Records.{zero_table};

use crate::record::PairRecord;

// A table in which the first records are used and the others hold zeros.
// The table is lent by the caller, so the count of used records stands beside it.
#[derive(Drop)]
pub(crate) struct Listing<'t> {
    pub(crate) table: &'t mut [PairRecord],
    pub(crate) used: usize,
    ghost fit: { used ≤ length table.now },
    ghost blank: { drop used table.now ≡ zero_table (length table.now - used) },
}
