//! The counts of flows, their sums, and a line that says them.
ghost use Rattle.std.specs.Prelude.{◌≡◌, IfOk, Some, string_bytes};
ghost use Rattle.chart.specs.Counts.{both_of, count_line, count_words};

use std::alloc::{AllocError, Global};
use std::fmt;

/// The counts of a flow, or of several together.
///
/// It shows as `{flows} flows, {states} states, {starts} starts, {moves} moves`.
#[derive(Clone, Copy, Debug, PartialEq, Eq, Hash)]
pub struct Tally {
    pub flows: u32,
    pub states: u32,
    pub starts: u32,
    pub moves: u32,
}

impl Tally {
    /// The counts of both together; each sum stops at the largest `u32`, so it is no `+`.
    pub fn plus(self, other: Tally) -> Tally
        ensures { result ≡ both_of self other }
    {
        Tally {
            flows: self.flows.saturating_add(other.flows),
            states: self.states.saturating_add(other.states),
            starts: self.starts.saturating_add(other.starts),
            moves: self.moves.saturating_add(other.moves),
        }
    }
}

impl fmt::Display for Tally {
    ghost output = { λ t. Some (count_words t) };

    fn fmt<W: fmt::Write>(&self, f: &mut fmt::Formatter<W>) -> fmt::Result {
        let Tally {
            flows,
            states,
            starts,
            moves,
        } = self;
        write!(
            f,
            "{flows} flows, {states} states, {starts} starts, {moves} moves"
        )
    }
}

/// The line of the counts, with its end. An error stands for want of memory.
pub fn count_line(heap: Global, tally: Tally) -> Result<String, AllocError>
    ensures { IfOk result (λ line. string_bytes line ≡ count_line tally) }
{
    format!(in heap; "{tally}\n")
}
