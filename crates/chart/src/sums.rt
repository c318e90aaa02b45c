//! The sums over a flow's states that its counts are.
ghost use Rattle.std.specs.Prelude.{◌≡◌};
ghost use Rattle.chart.specs.Counts.{sum_from, start_at, moves_at, tally_of};

use crate::counts::Tally;
use flow::Flow;

fn starts<F: Flow>(flow: &F) -> u32
    ensures { result ≡ sum_from (start_at (F.Flow.meaning flow.now)) 0 (F.Flow.meaning flow.now).count }
{
    (0..flow.count()).map(|s| u32::from(flow.is_start(s))).sum()
}

fn moves<F: Flow>(flow: &F) -> u32
    ensures { result ≡ sum_from (moves_at (F.Flow.meaning flow.now)) 0 (F.Flow.meaning flow.now).count }
{
    (0..flow.count()).map(|s| u32::from(flow.degree(s))).sum()
}

/// The counts of one flow.
pub fn tally<F: Flow>(flow: &F) -> Tally
    ensures { result ≡ tally_of (F.Flow.meaning flow.now) }
{
    Tally {
        flows: 1,
        states: u32::from(flow.count()),
        starts: starts(flow),
        moves: moves(flow),
    }
}
