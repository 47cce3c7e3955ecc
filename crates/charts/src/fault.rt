// Why a chart is refused.
ghost use Rattle.std.specs.Prelude.{◌≡◌};
ghost use Rattle.charts.specs.Faults.{refusal_of};

use refusals::{Layer, Refusal};

// A chart that cannot be made.
#[derive(Clone, Copy, PartialEq, Eq, Debug)]
pub enum ChartFault {
    // There are no states, more than 255 states, or more than 256 lines.
    BeyondLimits,
    // The line at this place from 0 is the first with a state, an action or a situation that there is not.
    LineBeyond(usize),
}

impl From<ChartFault> for Refusal {
    ghost from_gives = { λ fault r. r ≡ refusal_of fault };

    fn from(fault: ChartFault) -> Refusal {
        match fault {
            ChartFault::BeyondLimits => Refusal {
                layer: Layer::Chart,
                number: 13,
                place: 0,
            },
            ChartFault::LineBeyond(place) => Refusal {
                layer: Layer::Chart,
                number: 14,
                place,
            },
        }
    }
}
