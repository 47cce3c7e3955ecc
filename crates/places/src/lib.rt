// The flow of a rule's places: prepared once from the nodes of a rule, and then asked code by code.

#![tactic(auto)]

mod answering;
mod filling;
mod firsts;
mod flow;
mod lasts;
mod nexts;
mod nodes;
mod owned;
mod parts;
mod passing;
mod preparing;
mod reading;
mod step;

pub use flow::RuleFlow;
