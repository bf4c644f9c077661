//! How many frames are in flight.
ghost use Rattle.std.specs.Prelude.{◌≡◌, ◌<◌, ◌≤◌, ◌+◌, ◌^◌, ◌==◌, ℕ, [], cond};
ghost use Rattle.grid_tallies.specs.Flights.{AreFlightsOf, number_with};

use crate::tallies::more;

/// In how many cycles so many frames were in flight as the cycle began, from 0 to 8. Each number is exact while it
/// has room in 64 bits.
#[derive(Clone, Copy, Debug)]
pub struct Flights {
    pub cycles: [u64; 9],
}

impl Flights {
    /// No cycle has been made.
    pub fn none() -> Flights
        ensures { AreFlightsOf [] result }
    {
        Flights { cycles: [0; 9] }
    }

    /// A cycle begins with so many frames in flight.
    pub fn begin(&mut self, frames: usize)
        requires { frames < 9 }
        ensures more { (n : ℕ) → number_with n self.old + cond (n == frames) 1 0 < 2 ^ 64
            → number_with n self.new ≡ number_with n self.old + cond (n == frames) 1 0 }
        ensures few { frames < 9 }
    {
        self.cycles[frames] = more(self.cycles[frames], 1);
    }
}
