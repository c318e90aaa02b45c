//! The tables of a flow, and the checks before they are taken: each over its whole table, in order.
ghost use Rattle.std.specs.Prelude.{◌≡◌, ◌+◌, true, ◌&&◌, length, Ok, Err, OnOk, IfOk, IfErr, nat_le};
ghost use Rattle.flow.specs.Lowest.{lowest};
ghost use Rattle.flow.specs.Tables.{tables_of, some_marked, Sized, Stepped, Moving, Aimed};
ghost use Rattle.flow.specs.Filling.{sizes, bad_step, bounded, still, moving, astray, aimed, begun};

use crate::FillFault;

// The most states that a flow may have.
const MOST_STATES: usize = 1024;

// The most moves that a state may have.
const MOST_MOVES: u32 = 64;

// The four tables, as the caller hands them over: four, and not one of rows. Their sizes fit together. No `Model` as four
// lists: it would forget where the tables lie, and with it that a refusal keeps the very tables that a flow has.
#[derive(Debug, Drop)]
pub(super) struct Tables<'a> {
    pub(super) labels: &'a [u32],
    pub(super) starts: &'a [u8],
    pub(super) moves: &'a [u16],
    pub(super) bounds: &'a [u32],
    ghost sized: { Sized (tables_of labels.now starts.now moves.now bounds.now) },
}

impl<'a> Tables<'a> {
    ghost use Rattle.flow.specs.Borrowed.{lists_in};

    // Four parameters, as the public calls have them: a struct for this call alone would be no plainer.
    pub(super) fn new(
        labels: &'a [u32],
        starts: &'a [u8],
        moves: &'a [u16],
        bounds: &'a [u32],
    ) -> Result<Tables<'a>, FillFault>
        ensures accepted { OnOk result (sizes (tables_of labels.now starts.now moves.now bounds.now) ≡ Ok tt) }
        ensures refused { IfErr result (λ e. sizes (tables_of labels.now starts.now moves.now bounds.now) ≡ Err e) }
        ensures tables { IfOk result (λ t. lists_in t ≡ tables_of labels.now starts.now moves.now bounds.now) }
    {
        let n = labels.len();
        if n < 1 || n > MOST_STATES || starts.len() != n || bounds.len() != n + 1 {
            return Err(FillFault::Sizes);
        }
        Ok(Tables {
            labels,
            starts,
            moves,
            bounds,
        })
    }

    pub(super) fn check_bounds(&self) -> Result<(), FillFault>
        ensures value { result ≡ bounded (lists_in self.now) }
        ensures sound { OnOk result (Stepped (lists_in self.now)) }
    {
        let n = self.labels.len();
        if self.bounds[0] != 0 {
            return Err(FillFault::Bounds(0));
        }
        if let Some(s) = self.bad_step() {
            return Err(FillFault::Bounds(s));
        }
        if self.bounds[n] as usize != self.moves.len() {
            return Err(FillFault::Bounds(n));
        }
        Ok(())
    }

    pub(super) fn check_moves(&self) -> Result<(), FillFault>
        ensures value { result ≡ moving (lists_in self.now) }
        ensures sound { OnOk result (Moving (lists_in self.now)) }
    {
        self.still_state()
            .map_or(Ok(()), |s| Err(FillFault::NoMove(s)))
    }

    pub(super) fn check_targets(&self) -> Result<(), FillFault>
        ensures value { result ≡ aimed (lists_in self.now) }
        ensures sound { OnOk result (Aimed (lists_in self.now)) }
    {
        self.stray_move()
            .map_or(Ok(()), |i| Err(FillFault::Target(i)))
    }

    pub(super) fn check_starts(&self) -> Result<(), FillFault>
        ensures value { result ≡ begun (lists_in self.now) }
        ensures sound { OnOk result (some_marked (lists_in self.now) ≡ true) }
    {
        if self.has_start() {
            Ok(())
        } else {
            Err(FillFault::NoStart)
        }
    }

    // The lowest state whose bounds fall or lie too far apart.
    fn bad_step(&self) -> Option<usize>
        ensures { result ≡ lowest (bad_step (lists_in self.now)) (length self.now.labels.now) }
    {
        self.bounds.windows(2).position(|w| !is_step(w[0], w[1]))
    }

    // The lowest state without a move.
    fn still_state(&self) -> Option<usize>
        ensures { result ≡ lowest (still (lists_in self.now)) (length self.now.labels.now) }
    {
        self.bounds.windows(2).position(|w| w[0] == w[1])
    }

    // The lowest index of a move to a number that is no state.
    fn stray_move(&self) -> Option<usize>
        ensures { result ≡ lowest (astray (lists_in self.now)) (length self.now.moves.now) }
    {
        self.moves
            .iter()
            .position(|&t| t as usize >= self.labels.len())
    }

    fn has_start(&self) -> bool
        ensures { result ≡ some_marked (lists_in self.now) }
    {
        self.starts.iter().any(|&b| b != 0)
    }
}

// Whether a state's moves may lie between these bounds.
fn is_step(from: u32, to: u32) -> bool
    ensures { result ≡ (nat_le from to && nat_le to (from + 64)) }
{
    from <= to && to - from <= MOST_MOVES
}
