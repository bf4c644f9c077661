//! Runs that are logged.
ghost use Rattle.std.specs.Prelude.{◌≡◌, ◌<◌, ◌≤◌, ◌+◌, ◌^◌, true};
ghost use Rattle.grid_cycle_spec.specs.Cycles as spec;
ghost use Rattle.grid_events.specs.Cycles.{closing};
ghost use Rattle.grid_machine.specs.Endings.{is_going};
ghost use Rattle.grid_machine.specs.Going.{goes};
ghost use Rattle.grid_machine.specs.WholeRuns.{GoesFor};
ghost use Rattle.grid_machine.specs.inside.Counted.{IsCounted as HasRoom};
ghost use Rattle.grid_parts.specs.Seen.{seen};
ghost use Rattle.grid_log.specs.Logs.{Logged, at_cycle};
ghost use Rattle.grid_log.specs.Runs.{AreLogged, IsWindow};

use crate::cycling::cycle;
use crate::event::Cause;
use crate::flushes::{fetch_of, tell_flushes, tell_given_up};
use crate::log::Log;
use crate::watched::Watched;
use grid_machine::eager_cycle;
use grid_parts::{Grid, Windows};
use operand_net::Weather;
use trips_isa::Stepped;

// Whether a last step lets the run go on.
fn goes(over: Stepped) -> bool
    ensures { result ≡ goes over }
{
    match over {
        Stepped::Went => true,
        _ => false,
    }
}

// Whether a run goes on.
fn is_going<V: Windows>(window: &V, budget: u32) -> bool
    ensures { result ≡ is_going budget (V.held window.now) }
{
    if goes(window.over()) {
        window.committed() < budget as u64
    } else {
        false
    }
}

/// Cycles while the run goes on, at most so many, which are logged: how many have been made. It wants the budget of
/// the window.
pub fn cycles<V: Watched, W: Weather>(
    grid: &mut Grid<V, W>,
    log: &mut Log,
    budget: u32,
    most: u64,
) -> u64
    requires budget { V.budget grid.old.window ≡ budget }
    requires counted { HasRoom (seen (V.held grid.old.window) grid.old.state) }
    requires cycles { grid.old.state.counts.cycles + most ≤ 2 ^ 63 }
    ensures run { AreLogged W.next W.follows (V.blocks grid.old.window) budget result
        (seen (V.held grid.old.window) grid.old.state) (seen (V.held grid.new.window) grid.new.state)
        log.old log.new }
    ensures full { is_going budget (V.held grid.new.window) ≡ true → result ≡ most }
    ensures few { result ≤ most }
    ensures counted { HasRoom (seen (V.held grid.new.window) grid.new.state) }
    ensures cycles { grid.new.state.counts.cycles ≡ grid.old.state.counts.cycles + result }
    ensures image { V.blocks grid.new.window ≡ V.blocks grid.old.window }
    ensures budget { V.budget grid.new.window ≡ V.budget grid.old.window }
{
    let mut made: u64 = 0;
    while made < most {
        if is_going(&grid.window, budget) {
            cycle(grid, log);
            made += 1;
        } else {
            return made;
        }
    }
    made
}

/// Cycles while the run goes on, at most so many, of which nothing is logged: how many have been made. It wants the
/// budget of the window.
pub fn pass<V: Windows, W: Weather>(grid: &mut Grid<V, W>, budget: u32, most: u64) -> u64
    requires budget { V.budget grid.old.window ≡ budget }
    requires counted { HasRoom (seen (V.held grid.old.window) grid.old.state) }
    requires cycles { grid.old.state.counts.cycles + most ≤ 2 ^ 63 }
    ensures run { GoesFor W.next W.follows (V.blocks grid.old.window) budget result
        (seen (V.held grid.old.window) grid.old.state) (seen (V.held grid.new.window) grid.new.state) }
    ensures full { is_going budget (V.held grid.new.window) ≡ true → result ≡ most }
    ensures few { result ≤ most }
    ensures counted { HasRoom (seen (V.held grid.new.window) grid.new.state) }
    ensures cycles { grid.new.state.counts.cycles ≡ grid.old.state.counts.cycles + result }
    ensures image { V.blocks grid.new.window ≡ V.blocks grid.old.window }
    ensures budget { V.budget grid.new.window ≡ V.budget grid.old.window }
{
    let mut made: u64 = 0;
    while made < most {
        if is_going(&grid.window, budget) {
            eager_cycle(grid);
            made += 1;
        } else {
            return made;
        }
    }
    made
}

/// Cycles while the run goes on, of which the first ones are not logged, at most `before`, and then at most `most`
/// are: how many have been logged. It wants the budget of the window.
pub fn cycles_behind<V: Watched, W: Weather>(
    grid: &mut Grid<V, W>,
    log: &mut Log,
    budget: u32,
    before: u64,
    most: u64,
) -> u64
    requires budget { V.budget grid.old.window ≡ budget }
    requires counted { HasRoom (seen (V.held grid.old.window) grid.old.state) }
    requires cycles { grid.old.state.counts.cycles + before + most ≤ 2 ^ 63 }
    ensures run { IsWindow W.next W.follows (V.blocks grid.old.window) budget before result
        (seen (V.held grid.old.window) grid.old.state) (seen (V.held grid.new.window) grid.new.state)
        log.old log.new }
    ensures full { is_going budget (V.held grid.new.window) ≡ true → result ≡ most }
    ensures few { result ≤ most }
    ensures counted { HasRoom (seen (V.held grid.new.window) grid.new.state) }
    ensures image { V.blocks grid.new.window ≡ V.blocks grid.old.window }
    ensures budget { V.budget grid.new.window ≡ V.budget grid.old.window }
{
    pass(grid, budget, before);
    cycles(grid, log, budget, most)
}

/// The end of a run: the frames in flight are flushed, which is told of the last cycle.
pub fn close<V: Windows, W>(grid: &mut Grid<V, W>, log: &mut Log)
    requires counted { HasRoom (seen (V.held grid.old.window) grid.old.state) }
    requires cycles { grid.old.state.counts.cycles ≤ 2 ^ 63 }
    ensures change { seen (V.held grid.new.window) grid.new.state
        ≡ spec.closed (seen (V.held grid.old.window) grid.old.state) }
    ensures told { Logged (at_cycle grid.old.state.counts.cycles log.old)
        (closing (seen (V.held grid.old.window) grid.old.state)) log.new }
    ensures image { V.blocks grid.new.window ≡ V.blocks grid.old.window }
    ensures budget { V.budget grid.new.window ≡ V.budget grid.old.window }
{
    log.begin(grid.state.counts.cycles);
    let frames = grid.window.numbers();
    let fetch = fetch_of(&grid.state);
    grid_machine::close(grid);
    tell_flushes(log, frames.as_slice(), 0, Cause::End);
    tell_given_up(log, fetch, fetch_of(&grid.state));
}
