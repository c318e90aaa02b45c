//! Flows: the charts of what a listing can become, and two kinds of them.
#![tactic(auto)]

ghost use Rattle.std.specs.Prelude.{◌≡◌, length, slice_index};
ghost use Rattle.flow.specs.Meaning.{Meaning, Limits};

mod faults;
mod seat;
mod seat_row;
mod seats;
mod table_flow;

pub use faults::{FillFault, RowFault};
pub use seat_row::SeatRow;
pub use table_flow::TableFlow;

/// A flow: a Kripke structure of at most 1,024 states, numbered from 0.
///
/// Its meaning says how many states there are, the list of next states of each, the starts, and for each label, 0 to 31,
/// the states that carry it. Five questions answer by the meaning: 0 or no beyond the range of a state, a place in its
/// list or a label. The limits hold of every flow, so that code over any flow may lean on them.
pub trait Flow {
    ghost meaning: { Self → Meaning };

    // Each kind of flow proves it, and code over any flow may lean on it. It stands above the questions, and so is no law:
    // a law reaches no clause, and no caller of a `&dyn Flow`.
    ghost limits: { (x : Self) → Limits (meaning x) };

    /// How many states there are.
    fn count(&self) -> u16
        ensures { result ≡ (meaning self.now).count };

    /// How many next states `s` has.
    fn degree(&self, s: u16) -> u16
        ensures { result ≡ length ((meaning self.now).nexts s) };

    /// The `k`-th next state of `s`, from 0.
    fn next(&self, s: u16, k: u16) -> u16
        ensures { result ≡ slice_index ((meaning self.now).nexts s) k };

    /// Whether a listing may begin in `s`.
    fn is_start(&self, s: u16) -> bool
        ensures { result ≡ (meaning self.now).start s };

    /// Whether `s` carries the label `l`.
    fn carries(&self, s: u16, l: u8) -> bool
        ensures { result ≡ (meaning self.now).label l s };
}
