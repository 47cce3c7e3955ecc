// How a chart answers as a flow: its codes are its states, and 255 is the code past its lines.
ghost use Rattle.std.specs.Prelude.{◌≡◌};
ghost use Rattle.charts.specs.Kept.{along, kept_lawful, kept_meaning};

use crate::arrow::Arrow;
use crate::chart::ChartFlow;
use flows::Flow;

// The state that every run begins at.
const START: u64 = 0;

// The code that every move leads to where no line fits.
const NOWHERE: u64 = 255;

// The state that the first fitting arrow leads to.
fn first_fitting(arrows: &[Arrow], state: u64, situation: u8, action: u8) -> u64
    ensures leads { result ≡ along arrows.now 255 state situation action }
{
    arrows
        .iter()
        .find(|arrow| arrow.fits(state, situation, action))
        .map_or(NOWHERE, |arrow| u64::from(arrow.to))
}

impl Flow for ChartFlow {
    ghost meaning = { kept_meaning };

    ghost lawful = { kept_lawful };

    fn situations(&self) -> u8 {
        self.counts.situations
    }

    fn actions(&self) -> u8 {
        self.counts.actions
    }

    fn start(&self) -> u64 {
        START
    }

    // Here and in `next` a code becomes an index by `as`: `usize` has no `From` of 64 bits, and a `try_from` would need an answer
    // where the code is larger.
    fn accept(&self, code: u64) -> u64 {
        self.ends.get(code as usize).copied().unwrap_or(0)
    }

    fn next(&self, code: u64, situation: u8, action: u8) -> u64 {
        if situation < self.counts.situations && action < self.counts.actions {
            if (code as usize) < self.ends.len() {
                first_fitting(&self.arrows, code, situation, action)
            } else {
                NOWHERE
            }
        } else {
            code
        }
    }
}
