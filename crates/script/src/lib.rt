// What a line of a script asks for.

#![tactic(auto)]

mod command;
mod keyword;
mod reading;

pub use command::{Command, Line, Part};
pub use reading::read_line;
