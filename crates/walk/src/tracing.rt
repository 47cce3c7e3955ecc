// Reading the run off the way back through a table: how many actions it has, and its bytes.
ghost use Rattle.std.specs.Prelude.{◌≡◌, ◌<◌, ◌≤◌, ◌++◌, length, drop};
ghost use Rattle.runs.specs.Tracing.{written_before};
ghost use Rattle.walk.specs.Judged.{bytes_of};
ghost use Rattle.walk.specs.Traced.{moves_to};

use crate::trail::Trail;

impl Trail<'_> {
    // How many actions led to the record.
    pub(crate) fn actions(self) -> usize
        ensures counted { result ≡ length (moves_to self.entry.table.now self.entry.at) }
        ensures fewer { result < length self.entry.table.now }
    {
        self.count()
    }

    // Writes the moves that led to the record, so many actions, and the last situation to the front of the buffer, from the
    // run's end to its start.
    pub(crate) fn write_run(self, actions: usize, last: u8, run: &mut [u8])
        requires counted { actions ≡ length (moves_to self.table.now self.at) }
        requires fits { bytes_of actions ≤ length run.old }
        ensures writes { run.new ≡ written_before (moves_to self.entry.table.now self.entry.at) last ++ drop (bytes_of actions) run.old }
    {
        run[2 * actions] = last;
        // Each byte is written by its place: of chunks that the buffer lends, proofs know nothing once they are given back.
        for (turn, met) in (0..actions).rev().zip(self) {
            run[2 * turn] = met.situation;
            run[2 * turn + 1] = met.action;
        }
    }
}
