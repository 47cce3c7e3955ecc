// The lines that a chart is drawn with.
ghost use Rattle.std.specs.Prelude.{◌≡◌, ◌^◌, nat_lt};
ghost use Rattle.charts.specs.Limits.{line_within};

use flows::Counts;

// How many bits a mask has.
const MASK_BITS: u8 = 64;

// A line of a chart, with its numbers as they were read: what is out of range is refused where the chart is made.
#[derive(Clone, Copy, PartialEq, Eq, Debug)]
pub enum Line {
    // In the situations of the mask, the action leads from a state to a state.
    Move {
        from: u64,
        mask: u64,
        action: u64,
        to: u64,
    },
    // In the situations of the mask, a run may end at the state.
    End {
        at: u64,
        mask: u64,
    },
}

impl Line {
    // Whether the states of the line are among so many, and its action and situations among the counts.
    pub(crate) fn is_within(self, counts: Counts, states: u64) -> bool
        ensures within { result ≡ line_within counts.situations counts.actions states self }
    {
        match self {
            Line::Move {
                from,
                mask,
                action,
                to,
            } => from < states
                && to < states
                && action < u64::from(counts.actions)
                && is_of_situations(mask, counts),
            Line::End { at, mask } => at < states && is_of_situations(mask, counts),
        }
    }
}

// Whether a mask has situations alone.
fn is_of_situations(mask: u64, counts: Counts) -> bool
    ensures below { result ≡ nat_lt mask (2 ^ counts.situations) }
{
    counts.situations == MASK_BITS || mask < 1 << counts.situations
}
