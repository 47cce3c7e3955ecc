// A script at work: what has been laid out so far, the calls on it, and the answers as text.

#![tactic(auto)]

mod answering;
mod desk;
mod joining;
mod performing;
mod reply;
mod text;

pub use desk::Desk;
pub use reply::{Refused, Reply};

#[cfg(test)]
mod tests;
