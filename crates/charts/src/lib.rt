// Charts: flows drawn by hand, line by line.

#![tactic(auto)]

mod arrow;
mod chart;
mod fault;
mod line;

pub use chart::ChartFlow;
pub use fault::ChartFault;
pub use line::Line;
