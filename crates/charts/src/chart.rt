// A chart, prepared to answer as a flow. How it is drawn stands in `drawing`, and how it answers in `flowing`.
ghost use Rattle.std.specs.Prelude.{ℕ, ◌^◌, ◌<◌, ◌≤◌, length, slice_index};

use crate::arrow::Arrow;
use arrayvec::ArrayVec;
use flows::Counts;

mod drawing;
pub mod flowing;

// How many states there may be.
const MOST_STATES: usize = 255;

// How many lines there may be.
const MOST_LINES: usize = 256;

// The lines of a chart: its move lines in their order, and its end lines joined state by state.
#[derive(Drop)]
pub struct ChartFlow {
    // How many situations and actions there are.
    counts: Counts,
    // For each state, the situations in which a run may end there, a bit for each.
    ends: ArrayVec<u64, MOST_STATES>,
    // The move lines.
    arrows: ArrayVec<Arrow, MOST_LINES>,
    // A state fits a byte.
    ghost few: { length ends.items ≤ 255 },
    // A run ends in situations alone, so no mask has a bit past them.
    ghost within: { (state : ℕ) → slice_index ends.items state < 2 ^ counts.situations },
}
