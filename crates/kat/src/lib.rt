// Kleene algebra with tests: terms, the runs that they allow, and their places. Definitions, and theorems on them as the
// contracts of functions.

#![tactic(auto)]

pub mod laws;
pub mod theorems;
