// The rule reader: it reads the text of a rule sign by sign, judges each sign fully before the next is read, and lays
// the rule out in nodes that the caller lends.

#![tactic(auto)]

mod builders;
mod faulty;
mod judge;
mod machine;
mod node;
mod part;
mod read;
mod reader;
mod rule;

pub use faulty::faulty_sign;
pub use node::Node;
pub use read::read_rule;
pub use rule::Rule;

#[cfg(test)]
mod tests;
