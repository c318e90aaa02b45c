//! From a text to the parts of its rule, by a name list: the levels of the grammar.
#![tactic(auto)]

mod faults;
mod levels;
mod part;
mod parts;
mod whole;

pub use faults::{GrammarFault, RuleFault};
pub use part::Part;
pub use parts::Parts;
pub use whole::read_parts;
