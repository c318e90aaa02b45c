//! The words of a rule text: the kinds of parts, the words, and a reader that finds one after the other.
#![tactic(auto)]

mod faults;
mod kinds;
mod scan;
mod word;
mod words;

pub use faults::WordFault;
pub use kinds::{Binding, Kind};
pub use scan::{equal, is_letter, past_run, spelling};
pub use word::{Seen, Word};
pub use words::Words;
