// The walk over pairs of codes of two flows: whether they allow the same runs, and whether a list of pairs shows it.
// Nothing here knows what a flow is made of.

#![tactic(auto)]

mod checking;
mod clearing;
mod disagreement;
mod ending;
mod fault;
mod following;
mod judging;
mod keyed;
mod limits;
mod listing;
mod pair;
mod record;
mod showing;
mod sides;
mod tracing;
mod trail;
mod verdict;
mod walking;

pub use checking::check;
pub use disagreement::disagree;
pub use fault::WalkFault;
pub use judging::judge;
pub use limits::MOST_PAIRS;
pub use pair::CodePair;
pub use record::PairRecord;
pub use verdict::{Finding, Side, Verdict};
