// The text of a rule, read sign by sign: what a name is, what the signs are, and where a text is refused. Nothing here
// knows a vocabulary.

#![tactic(auto)]

mod fault;
mod limits;
mod names;
mod reader;
mod runs;
mod sign;

pub use fault::{SignFault, faulty};
pub use limits::{NAME_BYTES, TEXT_BYTES};
pub use names::is_name;
pub use reader::SignReader;
pub use sign::Sign;
