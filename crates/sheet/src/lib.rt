// The sheet on which an office lays out its vocabulary: names for tests and for actions.

#![tactic(auto)]

mod fault;
mod laying;
mod name;
mod named;
mod names;
mod naming;
mod numbered;
mod sheet;
mod spelling;

pub use fault::NameFault;
pub use name::Name;
pub use named::Named;
pub use names::Names;
pub use sheet::Sheet;

#[cfg(test)]
mod tests;
