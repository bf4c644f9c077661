//! A run to its end, counted.
ghost use Rattle.std.specs.Prelude.{◌≡◌, ◌<◌, ◌≤◌, ◌-◌, ◌^◌, length, Some, true};
ghost use Rattle.grid_cycle.specs.Engines.{blocks_of, grid_of};
ghost use Rattle.grid_cycle.specs.inside.Engines.{IsEngine};
ghost use Rattle.grid_machine.specs.Answered.{ComesTo, HasCome};
ghost use Rattle.grid_machine.specs.Endings.{ended, is_going};
ghost use Rattle.grid_machine.specs.Tallies.{CountsCommits};
ghost use Rattle.grid_machine.specs.WholeRuns.{at_end, most_cycles};
ghost use Rattle.grid_machine.specs.inside.Counted.{IsCounted as HasRoom};
ghost use Rattle.grid_machine.specs.inside.WholeRuns.{IsKept};
ghost use Rattle.grid_tallies.specs.Counters.{Hears};
ghost use Rattle.grid_counted.specs.Runs.{IsCountedRun, end_notes};

use commit_flush::Window;
use grid_machine::GridWindow;
use grid_parts::Grid;
use grid_tallies::{Counters, Flights, close, cycles};
use operand_net::Weather;
use trips_isa::{Ending, Stepped};

// Whether a run goes on.
fn is_going(window: &Window) -> bool
    ensures { result ≡ is_going window.now.budget window.now.window }
{
    match window.over() {
        Stepped::Went => window.arch().trace().len() < window.budget() as usize,
        Stepped::Ended => false,
        Stepped::StackFull => false,
        Stepped::Trap(_) => false,
    }
}

// Whether the run of a grid does.
fn goes<W>(grid: &Grid<GridWindow, W>) -> bool
    ensures { result ≡ is_going grid.now.window.budget grid.now.window.window }
{
    is_going(grid.window.window())
}

// The greatest number of cycles of a run.
fn most_cycles(budget: u32) -> u64
    ensures value { result ≡ most_cycles budget }
    ensures bound { result ≤ 2 ^ 63 }
{
    41472 * budget as u64
}

// Flushes the frames in flight where the run has ended, which is counted, and tells how it has.
fn finish<W: Weather>(grid: &mut Grid<GridWindow, W>, told: &mut Counters) -> Option<Ending>
    requires counted { HasRoom (grid_of grid.old) }
    requires cycles { grid.old.state.counts.cycles ≤ 2 ^ 63 }
    ensures change { grid_of grid.new ≡ at_end grid.old.window.budget (grid_of grid.old) }
    ensures value { result ≡ ended grid.old.window.budget grid.new.window.window }
    ensures heard { Hears told.old (end_notes grid.old.window.budget (grid_of grid.old)) told.new }
    ensures kept { IsKept grid.old.window.budget (grid_of grid.new) }
    ensures cycles { grid.new.state.counts.cycles ≡ grid.old.state.counts.cycles }
    ensures image { blocks_of grid.new ≡ blocks_of grid.old }
    ensures budget { grid.new.window.budget ≡ grid.old.window.budget }
{
    if goes(grid) {
        return None;
    }
    close(grid, told);
    // the run has ended, so nothing changes
    grid_machine::run(grid)
}

// Cycles until the run has ended or as many have been made as a run may make, and how it has ended.
fn run_out<W: Weather>(
    grid: &mut Grid<GridWindow, W>,
    told: &mut Counters,
    flights: &mut Flights,
) -> Option<Ending>
    requires kept { IsKept grid.old.window.budget (grid_of grid.old) }
    requires none { grid.old.state.counts.cycles ≡ 0 }
    requires goes { is_going grid.old.window.budget grid.old.window.window ≡ true }
    ensures counted { IsCountedRun W.next W.follows (blocks_of grid.old) grid.old.window.budget
        grid.new.state.counts.cycles (grid_of grid.old) (grid_of grid.new) told.old told.new
        flights.old flights.new }
    ensures value { result ≡ ended grid.old.window.budget grid.new.window.window }
    ensures comes { HasCome (blocks_of grid.old) grid.old.window.window.state
        (grid.old.window.budget - length grid.old.window.window.state.trace) grid.old.window.budget
        (most_cycles grid.old.window.budget) result (grid_of grid.new) }
    ensures commits { CountsCommits (grid_of grid.old) (grid_of grid.new) }
    ensures few { grid.new.state.counts.cycles ≤ most_cycles grid.old.window.budget }
    ensures kept { IsKept grid.old.window.budget (grid_of grid.new) }
    ensures image { blocks_of grid.new ≡ blocks_of grid.old }
    ensures budget { grid.new.window.budget ≡ grid.old.window.budget }
{
    grid.window.keeps_invariant();
    let budget = grid.window.window().budget();
    let most = most_cycles(budget);
    let _ = cycles(grid, told, flights, budget, most);
    finish(grid, told)
}

/// Counted cycles until the run has ended, and how: as the machine's run ends within what is left of the budget. At
/// its end the frames in flight are flushed, which is counted too. It wants a grid at the start of its run.
pub fn run<W: Weather>(
    grid: &mut Grid<GridWindow, W>,
    told: &mut Counters,
    flights: &mut Flights,
) -> Ending
    requires engine { IsEngine W.next W.follows (blocks_of grid.old) grid.old.window.budget (grid_of grid.old) }
    requires none { grid.old.state.counts.cycles ≡ 0 }
    requires goes { is_going grid.old.window.budget grid.old.window.window ≡ true }
    ensures counted { IsCountedRun W.next W.follows (blocks_of grid.old) grid.old.window.budget
        grid.new.state.counts.cycles (grid_of grid.old) (grid_of grid.new) told.old told.new
        flights.old flights.new }
    ensures value { Some result ≡ ended grid.old.window.budget grid.new.window.window }
    ensures comes { ComesTo (blocks_of grid.old) grid.old.window.window.state
        (grid.old.window.budget - length grid.old.window.window.state.trace) result (grid_of grid.new) }
    ensures commits { CountsCommits (grid_of grid.old) (grid_of grid.new) }
    ensures few { grid.new.state.counts.cycles ≤ most_cycles grid.old.window.budget }
    ensures image { blocks_of grid.new ≡ blocks_of grid.old }
    ensures budget { grid.new.window.budget ≡ grid.old.window.budget }
{
    let ended = run_out(grid, told, flights);
    match ended {
        Some(ending) => ending,
        None => unreachable!(),
    }
}
