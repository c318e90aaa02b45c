//! A house rule: read from text, kept as a tree of parts, and written again.
#![tactic(auto)]

mod operands;
mod rule;
mod sign;

pub use fixed_vec::{FixedVec, Full};
pub use names::NamesFault;
pub use operands::Operands;
pub use reading::{GrammarFault, Part, RuleFault};
pub use rule::{LINE, Rule};
pub use sign::Sign;
pub use words::{Binding, Kind, WordFault};
