// The way back through a table, from a record to the start.
ghost use Rattle.std.specs.Iterator.{YieldsFirstBy, at_most};
ghost use Rattle.walk.specs.Traced.{MetEarlier, move_to, moves_back};

use crate::record::PairRecord;

// The records from one on back to the start, which is left out.
#[derive(Clone, Copy)]
pub(crate) struct Trail<'a> {
    pub(crate) table: &'a [PairRecord],
    // The record that is next.
    pub(crate) at: usize,
    ghost met_earlier: { MetEarlier table.now at },
}

impl Iterator for Trail<'_> {
    type Item = PairRecord;

    ghost next_gives = { YieldsFirstBy move_to (λ trail. moves_back trail.table.now trail.at) };

    ghost remaining = { λ trail. at_most trail.at };

    // The next record; what follows it is the record that it was met from.
    fn next(&mut self) -> Option<PairRecord> {
        if self.at == 0 {
            return None;
        }
        let met = self.table[self.at];
        self.at = met.from;
        Some(met)
    }
}
