// What a book holds, what each of its calls does, and what its groups mean: definitions, and theorems on them as the
// contracts of functions.

#![tactic(auto)]

mod theorems;

pub use theorems::{filing_keeps_groups, groups_mean_same_runs};
