//! Why a flow is refused.
ghost use Rattle.std.specs.Prelude.{◌≡◌};
ghost use Rattle.flow.specs.Faults.{fill_number, fill_place, row_number};

/// Why filling a table flow is refused. A place is a state or, for a target, an index into the moves.
#[derive(Clone, Copy, Debug, PartialEq, Eq, Hash)]
pub enum FillFault {
    /// Not 1 to 1,024 label words, or another number of start bytes, or not one bound more.
    Sizes,
    /// The bounds begin above 0, fall, lie over 64 apart, or do not end at the count of moves.
    Bounds(usize),
    /// A state without a move.
    NoMove(usize),
    /// A move to a number that is no state.
    Target(usize),
    /// No state is a start.
    NoStart,
}

// Numbers and places stay beside the cases, by a rule of the project: they are how the documents and other programs name a
// refusal.
impl FillFault {
    /// The number under which the refusal is documented.
    pub fn number(self) -> u16
        ensures { result ≡ fill_number self }
    {
        match self {
            FillFault::Sizes => 11,
            FillFault::Bounds(_) => 12,
            FillFault::NoMove(_) => 13,
            FillFault::Target(_) => 14,
            FillFault::NoStart => 15,
        }
    }

    /// Where the fault stands; 0 where it is one of the tables as a whole.
    pub fn place(self) -> usize
        ensures { result ≡ fill_place self }
    {
        match self {
            FillFault::Bounds(s) => s,
            FillFault::NoMove(s) => s,
            FillFault::Target(i) => i,
            FillFault::Sizes | FillFault::NoStart => 0,
        }
    }
}

// Two enums with the same question and no trait over them: nothing takes a fault of any kind, and their numbers are the
// documented ones, which no order of cases gives.

/// Why a row of seats is refused.
#[derive(Clone, Copy, Debug, PartialEq, Eq, Hash)]
pub enum RowFault {
    /// Not 1 to 6 seats.
    Seats,
}

impl RowFault {
    /// The number under which the refusal is documented.
    pub fn number(self) -> u16
        ensures { result ≡ row_number self }
    {
        match self {
            RowFault::Seats => 16,
        }
    }
}
