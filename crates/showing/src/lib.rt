// What judge found, shown line by line: the pairs that it put down, or the run on which two flows part.

#![tactic(auto)]

mod pairs;
mod told_runs;

pub use pairs::put_pairs;
pub use told_runs::put_run;
