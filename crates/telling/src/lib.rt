// Runs told in words: situations by their numbers, actions by their names.

#![tactic(auto)]

mod reading;

pub use reading::read_run;
