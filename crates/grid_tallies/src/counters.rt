//! All that is counted.
ghost use Rattle.std.specs.Prelude.{[]};
ghost use Rattle.grid_tallies.specs.Counters.{AreCountersOf};

use crate::guess_table::Guesses;
use crate::tallies::Tallies;

/// All that is counted of a run.
#[derive(Clone, Copy, Debug)]
pub struct Counters {
    /// a number for each statistic for which a note counts by itself
    pub tallies: Tallies,
    /// the right predictions
    pub guesses: Guesses,
}

impl Counters {
    /// Nothing has been counted.
    pub fn none() -> Counters
        ensures { AreCountersOf [] result }
    {
        Counters {
            tallies: Tallies::none(),
            guesses: Guesses::none(),
        }
    }
}
