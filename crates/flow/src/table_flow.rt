//! A flow read from four tables of the caller.
ghost use Rattle.std.specs.Prelude.{◌≡◌, true, [], ◌∷◌, length, slice_index, Ok, Err, OnOk, OnErr, IfOk, IfErr};
ghost use Rattle.flow.specs.Meaning.{Alone};
ghost use Rattle.flow.specs.Tables.{tables_of, table_meaning, some_marked, Stepped, Moving, Aimed};
ghost use Rattle.flow.specs.Borrowed.{lists_in};
ghost use Rattle.flow.specs.TableLimits.{table_limits};
ghost use Rattle.flow.specs.Filling.{fill_answer};

mod tables;

use crate::{FillFault, Flow};
use tables::Tables;

/// A flow over four tables, which it borrows: 32 label bits a state, a start byte a state, the moves of all states one
/// after the other, and the bounds. State `s` has the moves from `bounds[s]` up to but not including `bounds[s + 1]`.
// No `Clone` and no `==`: nothing asks for them.
#[derive(Debug, Drop)]
pub struct TableFlow<'a> {
    tables: Tables<'a>,
    ghost stepped: { Stepped (lists_in tables) },
    ghost moving: { Moving (lists_in tables) },
    ghost aimed: { Aimed (lists_in tables) },
    ghost begun: { some_marked (lists_in tables) ≡ true },
}

impl<'a> TableFlow<'a> {
    /// One state, which is a start and its own next state, without labels.
    pub fn fresh() -> TableFlow<'a>
        ensures labels { result.tables.labels.now ≡ 0 ∷ [] }
        ensures starts { result.tables.starts.now ≡ 1 ∷ [] }
        ensures moves { result.tables.moves.now ≡ 0 ∷ [] }
        ensures bounds { result.tables.bounds.now ≡ 0 ∷ 1 ∷ [] }
        ensures meaning { Alone (table_meaning (lists_in result.tables)) }
    {
        TableFlow {
            tables: Tables {
                labels: &[0],
                starts: &[1],
                moves: &[0],
                bounds: &[0, 1],
            },
        }
    }

    /// A flow of these tables, or why they make none.
    pub fn new(
        labels: &'a [u32],
        starts: &'a [u8],
        moves: &'a [u16],
        bounds: &'a [u32],
    ) -> Result<TableFlow<'a>, FillFault>
        ensures accepted { OnOk result (fill_answer (tables_of labels.now starts.now moves.now bounds.now) ≡ Ok tt) }
        ensures refused { IfErr result (λ e. fill_answer (tables_of labels.now starts.now moves.now bounds.now) ≡ Err e) }
        ensures tables { IfOk result (λ t. lists_in t.tables ≡ tables_of labels.now starts.now moves.now bounds.now) }
    {
        let tables = Tables::new(labels, starts, moves, bounds)?;
        tables.check_bounds()?;
        tables.check_moves()?;
        tables.check_targets()?;
        tables.check_starts()?;
        Ok(TableFlow { tables })
    }

    /// Takes the tables in place of its own, or refuses and stays as it is.
    pub fn fill(
        &mut self,
        labels: &'a [u32],
        starts: &'a [u8],
        moves: &'a [u16],
        bounds: &'a [u32],
    ) -> Result<(), FillFault>
        ensures value { result ≡ fill_answer (tables_of labels.now starts.now moves.now bounds.now) }
        ensures ok { OnOk result (lists_in self.new.tables ≡ tables_of labels.now starts.now moves.now bounds.now) }
        ensures err { OnErr result (self.new ≡ self.old) }
    {
        *self = TableFlow::new(labels, starts, moves, bounds)?;
        Ok(())
    }

    // The moves of `s`; none where it is no state.
    fn moves_of(&self, s: u16) -> &[u16]
        ensures { result.now ≡ (table_meaning (lists_in self.now.tables)).nexts s }
    {
        let s = s as usize;
        if s >= self.tables.labels.len() {
            return &[];
        }
        let from = self.tables.bounds[s] as usize;
        let to = self.tables.bounds[s + 1] as usize;
        &self.tables.moves[from..to]
    }
}

impl Flow for TableFlow<'_> {
    ghost meaning = { λ t. table_meaning (lists_in t.tables) };

    ghost limits = { λ t. table_limits (lists_in t.tables) t.tables.sized t.stepped t.moving t.aimed t.begun };

    fn count(&self) -> u16
        ensures { result ≡ (table_meaning (lists_in self.now.tables)).count }
    {
        self.tables.labels.len() as u16
    }

    fn degree(&self, s: u16) -> u16
        ensures { result ≡ length ((table_meaning (lists_in self.now.tables)).nexts s) }
    {
        let s = s as usize;
        // 0 beyond the range is the documented answer.
        if s >= self.tables.labels.len() {
            return 0;
        }
        // Not by `moves_of`: a walk of so many steps by `next` would then ask for the range anew at each.
        (self.tables.bounds[s + 1] - self.tables.bounds[s]) as u16
    }

    fn next(&self, s: u16, k: u16) -> u16
        ensures { result ≡ slice_index ((table_meaning (lists_in self.now.tables)).nexts s) k }
    {
        // 0 beyond the range is the documented answer.
        if k >= self.degree(s) {
            return 0;
        }
        self.moves_of(s)[k as usize]
    }

    fn is_start(&self, s: u16) -> bool
        ensures { result ≡ (table_meaning (lists_in self.now.tables)).start s }
    {
        self.tables.starts.get(s as usize).is_some_and(|&b| b != 0)
    }

    fn carries(&self, s: u16, l: u8) -> bool
        ensures { result ≡ (table_meaning (lists_in self.now.tables)).label l s }
    {
        l < 32
            && self
                .tables
                .labels
                .get(s as usize)
                .is_some_and(|&word| (word >> l) % 2 == 1)
    }
}
