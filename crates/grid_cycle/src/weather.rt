//! The weather of a run, as its conditions want it.
ghost use Rattle.std.specs.Prelude.{◌≡◌};

use crate::conditions::Holds;
use operand_net::{PcgWeather, Weather};

/// One of three weathers: the holds that a seed draws, none, or 3 cycles for each parcel. One type for the three, so
/// that the grid stands in the program once.
#[derive(Debug, Drop)]
pub struct AnyWeather {
    /// which of them
    pub holds: Holds,
    /// the holds of the seed
    pub drawn: PcgWeather,
}

impl Weather for AnyWeather {
    ghost use Rattle.grid_cycle.specs.Conditions.{IsAfter, next_hold};
    ghost use Rattle.grid_cycle.specs.inside.Weathers.{any_within};

    ghost next = { λ w. next_hold w };

    ghost follows = { λ v w. IsAfter v w };

    ghost bounded = { λ w. any_within w.holds w.drawn };

    fn hold(&mut self) -> u8 {
        match self.holds {
            Holds::Seeded => self.drawn.hold(),
            Holds::Calm => 0,
            Holds::Worst => 3,
        }
    }
}
