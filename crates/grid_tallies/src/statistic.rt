//! What is counted.
ghost use Rattle.std.specs.Prelude.{◌≡◌, ◌<◌};
ghost use Rattle.grid_tallies.specs.Statistics as spec;

use trips_isa::Op;

/// A statistic of a run.
#[derive(Clone, Copy, Debug, PartialEq, Eq)]
pub enum Statistic {
    /// operations fired: `mov`
    Movs,
    /// operations fired: `null`
    Nulls,
    /// operations fired: all others
    Useful,
    /// loads answered
    Loads,
    /// stores resolved
    Stores,
    /// frames flushed by a load that was answered too early
    Violations,
    /// frames flushed by an exit that names another block
    WrongExits,
    /// frames flushed at the end of the run, by a trap or in any other way
    Ends,
    /// next blocks predicted
    Predictions,
    /// parcels of the operand network
    Parcels,
    /// links that parcels pass
    Links,
    /// cycles that parcels wait for a link
    Waits,
    /// cycles in which the unit of this tile was busy
    Station(u8),
}

/// Where the number of a statistic stands. There are sixteen tiles.
pub fn place(statistic: Statistic) -> u8
    requires { spec.place statistic < 28 }
    ensures value { result ≡ spec.place statistic }
    ensures within { result < 28 }
{
    match statistic {
        Statistic::Movs => 0,
        Statistic::Nulls => 1,
        Statistic::Useful => 2,
        Statistic::Loads => 3,
        Statistic::Stores => 4,
        Statistic::Violations => 5,
        Statistic::WrongExits => 6,
        Statistic::Ends => 7,
        Statistic::Predictions => 8,
        Statistic::Parcels => 9,
        Statistic::Links => 10,
        Statistic::Waits => 11,
        Statistic::Station(tile) => 12 + tile,
    }
}

/// What an operation that fires counts for.
pub fn kind_of(op: Option<Op>) -> Statistic
    ensures { result ≡ spec.kind_of op }
{
    match op {
        Some(Op::Mov) => Statistic::Movs,
        Some(Op::Null) => Statistic::Nulls,
        _ => Statistic::Useful,
    }
}
