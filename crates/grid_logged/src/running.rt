//! A run to its end, of which the events of some cycles are logged.
ghost use Rattle.std.specs.Prelude.{◌≡◌, ◌<◌, ◌≤◌, ◌+◌, ◌-◌, ◌^◌, length, Some, true};
ghost use Rattle.grid_cycle.specs.Engines.{blocks_of, grid_of};
ghost use Rattle.grid_cycle.specs.inside.Engines.{IsEngine};
ghost use Rattle.grid_cycle_spec.specs.Cycles.{closed};
ghost use Rattle.grid_events.specs.Cycles.{closing};
ghost use Rattle.grid_machine.specs.Answered.{ComesTo, HasCome};
ghost use Rattle.grid_machine.specs.Endings.{ended, is_going};
ghost use Rattle.grid_machine.specs.Tallies.{CountsCommits};
ghost use Rattle.grid_machine.specs.WholeRuns.{at_end, most_cycles};
ghost use Rattle.grid_machine.specs.inside.Counted.{IsCounted as HasRoom};
ghost use Rattle.grid_machine.specs.inside.WholeRuns.{IsKept};
ghost use Rattle.grid_counted.specs.Runs.{end_notes};
ghost use Rattle.grid_log.specs.Events.{entries_of};
ghost use Rattle.grid_log.specs.Logs.{Keeps};
ghost use Rattle.grid_logged.specs.Runs.{IsLoggedRun, entries_between, is_between};
ghost use Rattle.grid_logged.specs.inside.Going.{AreNext, IsNext};

use commit_flush::Window;
use grid_log::{Log, close, cycle};
use grid_machine::{GridWindow, eager_cycle};
use grid_parts::Grid;
use operand_net::Weather;
use trips_isa::{Ending, Stepped};

// Whether a run goes on.
fn is_going(window: &Window) -> bool
    ensures { result ≡ is_going window.now.budget window.now.window }
{
    match window.over() {
        Stepped::Went => window.arch().trace().len() < window.budget() as usize,
        Stepped::Ended => false,
        Stepped::StackFull => false,
        Stepped::Trap(_) => false,
    }
}

// Whether the run of a grid does.
fn goes<W>(grid: &Grid<GridWindow, W>) -> bool
    ensures { result ≡ is_going grid.now.window.budget grid.now.window.window }
{
    is_going(grid.window.window())
}

// The greatest number of cycles of a run.
fn most_cycles(budget: u32) -> u64
    ensures value { result ≡ most_cycles budget }
    ensures bound { result ≤ 2 ^ 63 }
{
    41472 * budget as u64
}

// Whether a cycle is one of those from the first to the last.
fn is_between(first: u64, last: u64, cycle: u64) -> bool
    ensures { result ≡ is_between first last cycle }
{
    first <= cycle && cycle <= last
}

// One cycle more, whose events are logged where it is one of those from the first to the last.
fn next_cycle<W: Weather>(grid: &mut Grid<GridWindow, W>, log: &mut Log, first: u64, last: u64)
    requires counted { HasRoom (grid_of grid.old) }
    requires cycles { grid.old.state.counts.cycles < 2 ^ 63 }
    ensures next { IsNext W.next W.follows (blocks_of grid.old) grid.old.window.budget first last
        (grid_of grid.old) (grid_of grid.new) log.old log.new }
    ensures counted { HasRoom (grid_of grid.new) }
    ensures cycles { grid.new.state.counts.cycles ≡ grid.old.state.counts.cycles + 1 }
    ensures image { blocks_of grid.new ≡ blocks_of grid.old }
    ensures budget { grid.new.window.budget ≡ grid.old.window.budget }
{
    if is_between(first, last, grid.state.counts.cycles + 1) {
        cycle(grid, log);
    } else {
        eager_cycle(grid);
    }
}

// Cycles while the run goes on, at most so many: how many have been made.
fn cycles<W: Weather>(
    grid: &mut Grid<GridWindow, W>,
    log: &mut Log,
    first: u64,
    last: u64,
    most: u64,
) -> u64
    requires counted { HasRoom (grid_of grid.old) }
    requires cycles { grid.old.state.counts.cycles + most ≤ 2 ^ 63 }
    ensures run { AreNext W.next W.follows (blocks_of grid.old) grid.old.window.budget result first last
        (grid_of grid.old) (grid_of grid.new) log.old log.new }
    ensures full { is_going grid.new.window.budget grid.new.window.window ≡ true → result ≡ most }
    ensures few { result ≤ most }
    ensures counted { HasRoom (grid_of grid.new) }
    ensures cycles { grid.new.state.counts.cycles ≡ grid.old.state.counts.cycles + result }
    ensures image { blocks_of grid.new ≡ blocks_of grid.old }
    ensures budget { grid.new.window.budget ≡ grid.old.window.budget }
{
    let mut made: u64 = 0;
    while made < most {
        if goes(grid) {
            next_cycle(grid, log, first, last);
            made += 1;
        } else {
            return made;
        }
    }
    made
}

// Flushes the frames in flight, which is logged where the last cycle is one of those from the first to the last.
fn close_run<W>(grid: &mut Grid<GridWindow, W>, log: &mut Log, first: u64, last: u64)
    requires counted { HasRoom (grid_of grid.old) }
    requires cycles { grid.old.state.counts.cycles ≤ 2 ^ 63 }
    ensures change { grid_of grid.new ≡ closed (grid_of grid.old) }
    ensures keeps { Keeps log.old (entries_between first last
        (entries_of grid.old.state.counts.cycles (closing (grid_of grid.old)))) log.new }
    ensures image { blocks_of grid.new ≡ blocks_of grid.old }
    ensures budget { grid.new.window.budget ≡ grid.old.window.budget }
{
    if is_between(first, last, grid.state.counts.cycles) {
        close(grid, log);
    } else {
        grid_machine::close(grid);
    }
}

// Flushes the frames in flight where the run has ended, and tells how it has.
fn finish<W: Weather>(
    grid: &mut Grid<GridWindow, W>,
    log: &mut Log,
    first: u64,
    last: u64,
) -> Option<Ending>
    requires counted { HasRoom (grid_of grid.old) }
    requires cycles { grid.old.state.counts.cycles ≤ 2 ^ 63 }
    ensures change { grid_of grid.new ≡ at_end grid.old.window.budget (grid_of grid.old) }
    ensures value { result ≡ ended grid.old.window.budget grid.new.window.window }
    ensures keeps { Keeps log.old (entries_between first last (entries_of grid.old.state.counts.cycles
        (end_notes grid.old.window.budget (grid_of grid.old)))) log.new }
    ensures kept { IsKept grid.old.window.budget (grid_of grid.new) }
    ensures cycles { grid.new.state.counts.cycles ≡ grid.old.state.counts.cycles }
    ensures image { blocks_of grid.new ≡ blocks_of grid.old }
    ensures budget { grid.new.window.budget ≡ grid.old.window.budget }
{
    if goes(grid) {
        return None;
    }
    close_run(grid, log, first, last);
    // the run has ended, so nothing changes
    grid_machine::run(grid)
}

// Cycles until the run has ended or as many have been made as a run may make, and how it has ended.
fn run_out<W: Weather>(
    grid: &mut Grid<GridWindow, W>,
    log: &mut Log,
    first: u64,
    last: u64,
) -> Option<Ending>
    requires kept { IsKept grid.old.window.budget (grid_of grid.old) }
    requires none { grid.old.state.counts.cycles ≡ 0 }
    requires goes { is_going grid.old.window.budget grid.old.window.window ≡ true }
    ensures logged { IsLoggedRun W.next W.follows (blocks_of grid.old) grid.old.window.budget
        grid.new.state.counts.cycles first last (grid_of grid.old) (grid_of grid.new) log.old log.new }
    ensures value { result ≡ ended grid.old.window.budget grid.new.window.window }
    ensures comes { HasCome (blocks_of grid.old) grid.old.window.window.state
        (grid.old.window.budget - length grid.old.window.window.state.trace) grid.old.window.budget
        (most_cycles grid.old.window.budget) result (grid_of grid.new) }
    ensures commits { CountsCommits (grid_of grid.old) (grid_of grid.new) }
    ensures few { grid.new.state.counts.cycles ≤ most_cycles grid.old.window.budget }
    ensures kept { IsKept grid.old.window.budget (grid_of grid.new) }
    ensures image { blocks_of grid.new ≡ blocks_of grid.old }
    ensures budget { grid.new.window.budget ≡ grid.old.window.budget }
{
    grid.window.keeps_invariant();
    let budget = grid.window.window().budget();
    let most = most_cycles(budget);
    let _ = cycles(grid, log, first, last, most);
    finish(grid, log, first, last)
}

/// Cycles until the run has ended, and how: as the machine's run ends within what is left of the budget. The events of
/// its cycles from the first to the last are logged, and at its end the flush of the frames in flight, as one of the
/// last cycle. It wants a grid at the start of its run.
pub fn run<W: Weather>(
    grid: &mut Grid<GridWindow, W>,
    log: &mut Log,
    first: u64,
    last: u64,
) -> Ending
    requires engine { IsEngine W.next W.follows (blocks_of grid.old) grid.old.window.budget (grid_of grid.old) }
    requires none { grid.old.state.counts.cycles ≡ 0 }
    requires goes { is_going grid.old.window.budget grid.old.window.window ≡ true }
    ensures logged { IsLoggedRun W.next W.follows (blocks_of grid.old) grid.old.window.budget
        grid.new.state.counts.cycles first last (grid_of grid.old) (grid_of grid.new) log.old log.new }
    ensures value { Some result ≡ ended grid.old.window.budget grid.new.window.window }
    ensures comes { ComesTo (blocks_of grid.old) grid.old.window.window.state
        (grid.old.window.budget - length grid.old.window.window.state.trace) result (grid_of grid.new) }
    ensures commits { CountsCommits (grid_of grid.old) (grid_of grid.new) }
    ensures few { grid.new.state.counts.cycles ≤ most_cycles grid.old.window.budget }
    ensures image { blocks_of grid.new ≡ blocks_of grid.old }
    ensures budget { grid.new.window.budget ≡ grid.old.window.budget }
{
    let ended = run_out(grid, log, first, last);
    match ended {
        Some(ending) => ending,
        None => unreachable!(),
    }
}
