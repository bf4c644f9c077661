//! What was counted of a run.

ghost use Rattle.std.specs.Prelude.{◌≡◌};
ghost use Rattle.trips_report.specs.Runs.{no_statistics, uncounted};

use base::Items;
use std::alloc::Global;
use trips_isa::Counts;

/// The statistics of a run. Each number is exact while it has room in 64 bits.
#[derive(Clone, Copy, Debug, PartialEq, Eq)]
pub struct Statistics {
    /// operations fired: `mov`
    pub movs: u64,
    /// operations fired: `null`
    pub nulls: u64,
    /// operations fired: all others
    pub useful: u64,
    /// loads answered
    pub loads: u64,
    /// stores resolved
    pub stores: u64,
    /// frames flushed by a load that was answered too early
    pub violations: u64,
    /// frames flushed by an exit that names another block
    pub wrong_exits: u64,
    /// frames flushed at the end of the run
    pub ends: u64,
    /// next blocks predicted
    pub predictions: u64,
    /// predictions that were right
    pub right: u64,
    /// parcels of the operand network
    pub parcels: u64,
    /// links that parcels passed
    pub links: u64,
    /// cycles that parcels waited for a link
    pub waits: u64,
    /// cycles that began with so many frames in flight, from 0 to 8
    pub in_flight: [u64; 9],
    /// cycles in which the unit of each tile was busy, row by row
    pub stations: [u64; 16],
}

impl Statistics {
    /// Nothing was counted.
    pub fn none() -> Statistics
        ensures { result ≡ no_statistics }
    {
        Statistics {
            movs: 0,
            nulls: 0,
            useful: 0,
            loads: 0,
            stores: 0,
            violations: 0,
            wrong_exits: 0,
            ends: 0,
            predictions: 0,
            right: 0,
            parcels: 0,
            links: 0,
            waits: 0,
            in_flight: [0; 9],
            stations: [0; 16],
        }
    }
}

/// What was counted of a run and is told of it: what it took, and its statistics and the lines of its events, which are
/// none where they are not shown.
#[derive(Debug, Drop)]
pub struct Measured {
    pub counts: Counts,
    pub statistics: Statistics,
    pub events: Items<u8>,
}

impl Measured {
    /// What a run took, whose statistics were not counted, and of whose events nothing is told. It takes no memory.
    pub fn uncounted(alloc: Global, counts: Counts) -> Measured
        ensures { result ≡ uncounted counts }
    {
        Measured {
            counts,
            statistics: Statistics::none(),
            events: Items::new(alloc),
        }
    }
}
