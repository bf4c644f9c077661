//! Runs that are counted.
ghost use Rattle.std.specs.Prelude.{◌≡◌, ◌<◌, ◌≤◌, ◌+◌, ◌^◌, true};
ghost use Rattle.grid_cycle_spec.specs.Cycles as spec;
ghost use Rattle.grid_events.specs.Cycles.{closing};
ghost use Rattle.grid_machine.specs.Endings.{is_going};
ghost use Rattle.grid_machine.specs.Going.{goes};
ghost use Rattle.grid_machine.specs.inside.Counted.{IsCounted as HasRoom};
ghost use Rattle.grid_parts.specs.Seen.{seen};
ghost use Rattle.grid_tallies.specs.Counters.{Hears};
ghost use Rattle.grid_tallies.specs.Runs.{AreCounted};

use crate::counters::Counters;
use crate::cycling::cycle;
use crate::flights::Flights;
use crate::leading::Leading;
use crate::statistic::Statistic;
use grid_parts::{Grid, Windows};
use operand_net::Weather;
use trips_isa::Stepped;

// Whether a last step lets the run go on.
fn goes(over: Stepped) -> bool
    ensures { result ≡ goes over }
{
    match over {
        Stepped::Went => true,
        _ => false,
    }
}

// Whether a run goes on.
fn is_going<V: Windows>(window: &V, budget: u32) -> bool
    ensures { result ≡ is_going budget (V.held window.now) }
{
    if goes(window.over()) {
        window.committed() < budget as u64
    } else {
        false
    }
}

/// Cycles while the run goes on, at most so many, which are counted: how many have been made. It wants the budget of
/// the window.
pub fn cycles<V: Leading, W: Weather>(
    grid: &mut Grid<V, W>,
    told: &mut Counters,
    flights: &mut Flights,
    budget: u32,
    most: u64,
) -> u64
    requires budget { V.budget grid.old.window ≡ budget }
    requires counted { HasRoom (seen (V.held grid.old.window) grid.old.state) }
    requires cycles { grid.old.state.counts.cycles + most ≤ 2 ^ 63 }
    ensures run { AreCounted W.next W.follows (V.blocks grid.old.window) budget result
        (seen (V.held grid.old.window) grid.old.state) (seen (V.held grid.new.window) grid.new.state)
        told.old told.new flights.old flights.new }
    ensures full { is_going budget (V.held grid.new.window) ≡ true → result ≡ most }
    ensures few { result ≤ most }
    ensures counted { HasRoom (seen (V.held grid.new.window) grid.new.state) }
    ensures cycles { grid.new.state.counts.cycles ≡ grid.old.state.counts.cycles + result }
    ensures image { V.blocks grid.new.window ≡ V.blocks grid.old.window }
    ensures budget { V.budget grid.new.window ≡ V.budget grid.old.window }
{
    let mut made: u64 = 0;
    while made < most {
        if is_going(&grid.window, budget) {
            flights.begin(grid.window.numbers().len());
            cycle(grid, told);
            made += 1;
        } else {
            return made;
        }
    }
    made
}

/// The end of a run: the frames in flight are flushed, and counted.
pub fn close<V: Windows, W>(grid: &mut Grid<V, W>, told: &mut Counters)
    requires counted { HasRoom (seen (V.held grid.old.window) grid.old.state) }
    requires cycles { grid.old.state.counts.cycles ≤ 2 ^ 63 }
    ensures change { seen (V.held grid.new.window) grid.new.state
        ≡ spec.closed (seen (V.held grid.old.window) grid.old.state) }
    ensures heard { Hears told.old (closing (seen (V.held grid.old.window) grid.old.state)) told.new }
    ensures image { V.blocks grid.new.window ≡ V.blocks grid.old.window }
    ensures budget { V.budget grid.new.window ≡ V.budget grid.old.window }
{
    let frames = grid.window.numbers().len();
    grid_machine::close(grid);
    told.tallies.add(Statistic::Ends, frames as u64);
}
