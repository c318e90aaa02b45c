//! The names of labels, and the name list of a rule.
#![tactic(auto)]

mod faults;
mod name;
mod names;

pub use faults::NamesFault;
pub use name::Name;
pub use names::Names;
