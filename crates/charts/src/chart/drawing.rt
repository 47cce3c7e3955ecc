// How a chart is drawn from its lines.
ghost use Rattle.std.specs.Prelude.{◌≡◌, ◌<◌, true, length};
ghost use Rattle.charts.specs.Answer.{meant};
ghost use Rattle.charts.specs.Drawn.{Grew};
ghost use Rattle.charts.specs.Limits.{chart_of, line_within};
ghost use Rattle.charts.specs.Paths.{AllowsRunsAlong};

use crate::arrow::Arrow;
use crate::chart::{ChartFlow, MOST_LINES, MOST_STATES};
use crate::fault::ChartFault;
use crate::line::Line;
use arrayvec::ArrayVec;
use flows::Counts;

impl ChartFlow {
    // The chart of so many states and these lines. It is refused where there is no state, or are more than 255, or more
    // than 256 lines, and then at the first line with a state, an action or a situation that there is not.
    pub fn new(counts: Counts, states: u64, lines: &[Line]) -> Result<ChartFlow, ChartFault>
        ensures meaning { meant result ≡ chart_of counts.situations counts.actions states lines.now }
        ensures allows_exactly_the_runs_of_its_lines { AllowsRunsAlong counts.situations counts.actions lines.now (meant result) }
    {
        // Numbers of states are made alike by `as`: 255 fits every type here, and a `try_from` would need an answer where it does not.
        if states < 1 || states > MOST_STATES as u64 || lines.len() > MOST_LINES {
            return Err(ChartFault::BeyondLimits);
        }
        let mut ends = ArrayVec::from([0; MOST_STATES]);
        ends.truncate(states as usize);
        let mut chart = ChartFlow {
            counts,
            ends,
            arrows: ArrayVec::new(),
        };
        for (place, line) in lines.iter().enumerate() {
            if !line.is_within(counts, states) {
                return Err(ChartFault::LineBeyond(place));
            }
            chart.add(*line);
        }
        Ok(chart)
    }

    // Adds a line that is within to those drawn so far.
    fn add(&mut self, line: Line)
        requires within { line_within self.old.counts.situations self.old.counts.actions (length self.old.ends.items) line ≡ true }
        requires room { length self.old.arrows.items < 256 }
        ensures grew { Grew self.old self.new line }
    {
        // The numbers of a line that is within fit a byte, so a `try_from` would add a refusal that never comes.
        match line {
            Line::Move {
                from,
                mask,
                action,
                to,
            } => self.arrows.push(Arrow {
                from: from as u8,
                mask,
                action: action as u8,
                to: to as u8,
            }),
            Line::End { at, mask } => self.ends[at as usize] |= mask,
        }
    }
}
