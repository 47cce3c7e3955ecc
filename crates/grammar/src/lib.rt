// The grammar of rules: the relation between signs and terms, and the reading of signs one by one.

#![tactic(auto)]

mod fault;
pub mod theorems;

pub use fault::RuleFault;
