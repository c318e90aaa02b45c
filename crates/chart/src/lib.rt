//! The chart of any flow, as text: a line for each state, and a line of counts.
#![tactic(auto)]

ghost use Rattle.std.specs.Prelude.{◌≡◌, map, IfOk, Some, string_bytes};
ghost use Rattle.std.specs.Fmt.{WritesOnOk};
ghost use Rattle.chart.specs.Chart.{texts, start_word, label_word, label_words, next_words, state_line, chart_of};

mod counts;
mod sums;

pub use counts::{Tally, count_line};
use flow::Flow;
use std::alloc::{AllocError, Global};
use std::fmt;
pub use sums::tally;

// A flow and the names of its labels: entry `l` names label `l`. It shows as its chart. Each method promises the bytes that
// it writes itself, in std's word for that: no invariant of the struct could say it for them.
#[derive(Drop)]
struct NamedFlow<'a, F> {
    flow: &'a F,
    names: &'a [&'a str],
}

impl<F: Flow> NamedFlow<'_, F> {
    // A space and the name of the label `l`, or its number where it has no name; nothing where `s` does not carry it.
    fn write_label<W: fmt::Write>(&self, f: &mut fmt::Formatter<W>, s: u16, l: u8) -> fmt::Result
        ensures { WritesOnOk W.write_str_gives f.old result (label_word (F.Flow.meaning self.now.flow.now) (texts self.now.names.now) s l) f.new }
    {
        if !self.flow.carries(s, l) {
            return Ok(());
        }
        // A match: each case writes something else.
        match self.names.get(l as usize) {
            Some(name) => write!(f, " {name}"),
            None => write!(f, " {l}"),
        }
    }

    // The labels that `s` carries.
    fn write_labels<W: fmt::Write>(&self, f: &mut fmt::Formatter<W>, s: u16) -> fmt::Result
        ensures { WritesOnOk W.write_str_gives f.old result (label_words (F.Flow.meaning self.now.flow.now) (texts self.now.names.now) s 0 32) f.new }
    {
        // Here and below a number is what the flow is asked for: it hands out no list.
        for l in 0..32 {
            self.write_label(f, s, l)?;
        }
        Ok(())
    }

    // A space and the number of each next state.
    fn write_nexts<W: fmt::Write>(&self, f: &mut fmt::Formatter<W>, s: u16) -> fmt::Result
        ensures { WritesOnOk W.write_str_gives f.old result (next_words ((F.Flow.meaning self.now.flow.now).nexts s)) f.new }
    {
        for k in 0..self.flow.degree(s) {
            let t = self.flow.next(s, k);
            write!(f, " {t}")?;
        }
        Ok(())
    }

    // The line of the state `s`.
    fn write_line<W: fmt::Write>(&self, f: &mut fmt::Formatter<W>, s: u16) -> fmt::Result
        ensures { WritesOnOk W.write_str_gives f.old result (state_line (F.Flow.meaning self.now.flow.now) (texts self.now.names.now) s) f.new }
    {
        let mark = start_mark(self.flow.is_start(s));
        write!(f, "{s}{mark}")?;
        self.write_labels(f, s)?;
        f.write_str(" ->")?;
        self.write_nexts(f, s)?;
        writeln!(f)
    }
}

impl<F: Flow> fmt::Display for NamedFlow<'_, F> {
    ghost output = { λ c. Some (chart_of (F.Flow.meaning c.flow.now) (texts c.names.now)) };

    fn fmt<W: fmt::Write>(&self, f: &mut fmt::Formatter<W>) -> fmt::Result {
        for s in 0..self.flow.count() {
            self.write_line(f, s)?;
        }
        Ok(())
    }
}

// A word that is there or not: a type of its own would be no plainer.
fn start_mark(start: bool) -> &'static str
    ensures { result.now ≡ start_word start }
{
    if start { " start" } else { "" }
}

/// The chart of a flow: a line for each state, as `1 start held -> 0 2`.
///
/// The line has the state's number, ` start` where it is one, the labels that it carries, and its next states. Entry `l`
/// of `names` names label `l`; a label without a name is shown by its number. An error stands for want of memory.
pub fn chart<F: Flow>(heap: Global, flow: &F, names: &[&str]) -> Result<String, AllocError>
    ensures { IfOk result (λ t. string_bytes t ≡ chart_of (F.Flow.meaning flow.now) (map (λ x. x.now) names.now)) }
{
    NamedFlow { flow, names }.to_string(heap)
}
