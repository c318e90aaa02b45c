//! One seat of a row: free, held or sold.
ghost use Rattle.std.specs.Prelude.{◌≡◌, length, slice_index_or};
ghost use Rattle.flow.specs.Seats.{seat_of, digit_of, becomes};

/// A seat, as a buyer finds it.
#[derive(Clone, Copy, Debug, PartialEq, Eq, Hash)]
pub enum Seat {
    Free,
    Held,
    Sold,
}

impl Seat {
    /// The seat of a base-3 digit. Every number has one, so it is no `TryFrom`.
    pub(crate) fn of_digit(digit: u16) -> Seat
        ensures { result ≡ seat_of digit }
    {
        match digit {
            0 => Seat::Free,
            1 => Seat::Held,
            _ => Seat::Sold,
        }
    }

    /// Its base-3 digit in the number of a state: the documented one, said case by case and not by the order of the cases.
    pub(crate) fn digit(self) -> u16
        ensures { result ≡ digit_of self }
    {
        match self {
            Seat::Free => 0,
            Seat::Held => 1,
            Seat::Sold => 2,
        }
    }

    // What it can become, in order.
    fn changes(self) -> &'static [Seat]
        ensures { result.now ≡ becomes self }
    {
        match self {
            Seat::Free => &[Seat::Held],
            Seat::Held => &[Seat::Free, Seat::Sold],
            Seat::Sold => &[],
        }
    }

    /// In how many ways it can change.
    pub(crate) fn ways(self) -> u16
        ensures { result ≡ length (becomes self) }
    {
        self.changes().len() as u16
    }

    /// What it becomes by its `j`-th way, from 0; past the last it stays.
    pub(crate) fn nth_change(self, j: u16) -> Seat
        ensures { result ≡ slice_index_or (becomes self) j self }
    {
        self.changes().get(j as usize).copied().unwrap_or(self)
    }
}
