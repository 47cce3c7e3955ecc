// Runs and what flows mean: definitions, and theorems on them as the contracts of functions.

#![tactic(auto)]

mod theorems;

pub use theorems::{
    a_list_convinces, different_shows_a_shortest_run, equal_means_same_runs, full_means_more_pairs,
    passing_shows_same_runs, same_runs_are_found, written_is_read_back,
};
