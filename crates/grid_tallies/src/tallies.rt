//! The numbers that are counted.
ghost use Rattle.std.specs.Prelude.{◌≡◌, ◌<◌, ◌+◌, ◌^◌, []};
ghost use Rattle.grid_tallies.specs.Statistics.{AreOf, number_of, place, stations_of};
ghost use Rattle.grid_tallies.specs.inside.Adding.{Adds};

use crate::statistic::{Statistic, place};

/// A number for each statistic. Each is exact while it has room in 64 bits.
#[derive(Clone, Copy, Debug)]
pub struct Tallies {
    pub numbers: [u64; 28],
}

/// So many more.
pub fn more(number: u64, by: u64) -> u64
    ensures { number + by < 2 ^ 64 → result ≡ number + by }
{
    number.wrapping_add(by)
}

impl Tallies {
    /// Nothing has been counted.
    pub fn none() -> Tallies
        ensures { AreOf [] result }
    {
        Tallies { numbers: [0; 28] }
    }

    /// The number of a statistic.
    pub fn get(&self, statistic: Statistic) -> u64
        requires { place statistic < 28 }
        ensures { result ≡ number_of statistic self.now }
    {
        self.numbers[place(statistic) as usize]
    }

    /// In how many cycles the unit of each tile was busy, from tile 0.
    pub fn stations(&self) -> [u64; 16]
        ensures { result ≡ stations_of self.now }
    {
        let mut cycles = [0u64; 16];
        cycles.copy_from_slice(&self.numbers[12..]);
        cycles
    }

    /// So many more of a statistic.
    pub fn add(&mut self, statistic: Statistic, by: u64)
        requires { place statistic < 28 }
        ensures { Adds statistic by self.old self.new }
    {
        let place = place(statistic) as usize;
        self.numbers[place] = more(self.numbers[place], by);
    }
}
