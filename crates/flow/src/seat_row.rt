//! A flow whose states are the rows of some seats.
ghost use Rattle.std.specs.Prelude.{◌≡◌, ◌+◌, ◌*◌, ◌/◌, ◌%◌, ◌^◌, ◌<◌, ◌≤◌, true, false, length, IfOk, IfErr, slice_index};
ghost use Rattle.flow.specs.declared.faults.RowFault.{RowFault};
ghost use Rattle.flow.specs.Seats.{seats_of, changed, some_seat, all_seats, row_size, row_meaning};
ghost use Rattle.flow.specs.SeatLimits.{row_limits};

use crate::Flow;
use crate::faults::RowFault;
use crate::seat::Seat;
use crate::seats::Seats;

// 3 to the power of `i` is how many states a row of `i` seats has. A table and no `pow`: nearly every question asks for
// the count.
const POWERS: [u16; 7] = [1, 3, 9, 27, 81, 243, 729];

/// A row of 1 to 6 seats.
#[derive(Clone, Copy, Debug, PartialEq, Eq, Hash, Drop)]
pub struct SeatRow {
    seats: u8,
    ghost some: { 1 ≤ seats },
    ghost few: { seats ≤ 6 },
}

impl SeatRow {
    /// A row of `seats` seats, all free at the start.
    pub fn new(seats: u8) -> Result<SeatRow, RowFault>
        ensures ok { IfOk result (λ row. (row_size seats ≡ true) × (row.seats ≡ seats)) }
        ensures err { IfErr result (λ e. (row_size seats ≡ false) × (e ≡ RowFault.Seats)) }
    {
        if seats < 1 || seats > 6 {
            return Err(RowFault::Seats);
        }
        Ok(SeatRow { seats })
    }

    // The seats of the state `s`.
    fn seats_of(&self, s: u16) -> Seats
        ensures { result ≡ record { left = self.now.seats; state = s } }
    {
        Seats {
            left: self.seats,
            state: s,
        }
    }

    // Whether some seat of the state `s` is as `seat`.
    fn some_seat(&self, s: u16, seat: Seat) -> bool
        ensures { result ≡ some_seat seat (seats_of self.now.seats s) }
    {
        self.seats_of(s).any(|x| x == seat)
    }

    // Whether all are.
    fn all_seats(&self, s: u16, seat: Seat) -> bool
        ensures { result ≡ all_seats seat (seats_of self.now.seats s) }
    {
        self.seats_of(s).all(|x| x == seat)
    }

    // In how many ways a seat of the state `s` can change.
    fn ways(&self, s: u16) -> u16
        ensures { result ≡ length (changed (seats_of self.now.seats s)) }
    {
        self.seats_of(s).map(|x| x.ways()).sum()
    }
}

impl Flow for SeatRow {
    ghost meaning = { λ t. row_meaning t.seats };

    ghost limits = { λ t. row_limits t.seats t.some t.few };

    fn count(&self) -> u16
        ensures { result ≡ (row_meaning self.now.seats).count }
    {
        POWERS[self.seats as usize]
    }

    fn degree(&self, s: u16) -> u16
        ensures { result ≡ length ((row_meaning self.now.seats).nexts s) }
    {
        // Each question has its own documented answer beyond the range, here 0, so it asks for the range itself, here and below.
        if s >= self.count() {
            return 0;
        }
        // All sold: the state is its own next state.
        self.ways(s).max(1)
    }

    fn next(&self, s: u16, k: u16) -> u16
        ensures { result ≡ slice_index ((row_meaning self.now.seats).nexts s) k }
    {
        if s >= self.count() {
            return 0;
        }
        let mut left = k;
        // How much the seat at hand counts in the state.
        let mut weight = 1;
        for seat in self.seats_of(s) {
            let ways = seat.ways();
            if left < ways {
                return s - weight * seat.digit() + weight * seat.nth_change(left).digit();
            }
            left -= ways;
            weight *= 3;
        }
        if k == 0 { s } else { 0 }
    }

    fn is_start(&self, s: u16) -> bool
        ensures { result ≡ (row_meaning self.now.seats).start s }
    {
        s == 0
    }

    fn carries(&self, s: u16, l: u8) -> bool
        ensures { result ≡ (row_meaning self.now.seats).label l s }
    {
        if s >= self.count() {
            return false;
        }
        // Labels are numbers that the caller passes: the seats that each asks for stand here once.
        match l {
            0 => self.some_seat(s, Seat::Free),
            1 => self.some_seat(s, Seat::Held),
            2 => self.all_seats(s, Seat::Sold),
            _ => false,
        }
    }
}
