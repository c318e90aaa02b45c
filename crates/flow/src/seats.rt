//! The seats of a state, one after the other.
ghost use Rattle.std.specs.Prelude.{⊤};
ghost use Rattle.std.specs.Iterator.{MakesProgress, YieldsFirst, item_count};
ghost use Rattle.flow.specs.Seats.{seats_of};

use crate::seat::Seat;

// The seats of a state yet to come, from its lowest base-3 digit up: how many, and the state that they make.
#[derive(Drop)]
pub(crate) struct Seats {
    pub(crate) left: u8,
    pub(crate) state: u16,
}

impl Iterator for Seats {
    type Item = Seat;

    ghost next_gives = { YieldsFirst (λ x. seats_of x.left x.state) };

    ghost remaining = { item_count (λ x. seats_of x.left x.state) };

    fn next(&mut self) -> Option<Seat>
        ensures steps { YieldsFirst (λ x. seats_of x.left x.state) self.old result self.new }
        ensures goes { MakesProgress (λ _. ⊤) (item_count (λ x. seats_of x.left x.state)) self.old result self.new }
    {
        self.left = self.left.checked_sub(1)?;
        let digit = self.state % 3;
        self.state /= 3;
        Some(Seat::of_digit(digit))
    }
}
