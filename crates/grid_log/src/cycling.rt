//! A cycle, logged: each part does all that it may.
ghost use Rattle.std.specs.Prelude.{◌≡◌, ◌<◌, ◌≤◌, ◌+◌, ◌^◌};
ghost use Rattle.grid_machine.specs.inside.Counted.{IsCounted as HasRoom};
ghost use Rattle.grid_parts.specs.Seen.{seen};
ghost use Rattle.grid_log.specs.Cycles.{GoesLogged, IsLogged};
ghost use Rattle.grid_log.specs.inside.Moving.{MovesLogged};

use crate::arriving::arrivals;
use crate::banks::reads_answered;
use crate::data_tiles::answers;
use crate::ends::ends;
use crate::fetches::fetches;
use crate::log::Log;
use crate::units::works_on;
use crate::watched::Watched;
use grid_parts::Grid;
use operand_net::Weather;
use trips_isa::Stepped;

// Part (6): the mesh ticks, what has arrived is delivered, and one cycle more has been made.
fn moves<V: Watched, W: Weather>(grid: &mut Grid<V, W>, log: &mut Log)
    requires cycles { grid.old.state.counts.cycles + 1 < 2 ^ 64 }
    requires flushed { grid.old.state.counts.flushed + 20480 < 2 ^ 64 }
    ensures told { MovesLogged W.next W.follows (V.blocks grid.old.window) (V.budget grid.old.window)
        (seen (V.held grid.old.window) grid.old.state) (seen (V.held grid.new.window) grid.new.state)
        log.old log.new }
    ensures image { V.blocks grid.new.window ≡ V.blocks grid.old.window }
    ensures budget { V.budget grid.new.window ≡ V.budget grid.old.window }
{
    let frames = grid.window.numbers();
    grid.state.tick(frames.as_slice());
    arrivals(grid, log, frames.as_slice());
    grid.state.count_cycle();
}

// Parts (2) to (6).
fn goes_on<V: Watched, W: Weather>(grid: &mut Grid<V, W>, log: &mut Log)
    requires counted { HasRoom (seen (V.held grid.old.window) grid.old.state) }
    requires cycles { grid.old.state.counts.cycles < 2 ^ 63 }
    ensures goes { GoesLogged W.next W.follows (V.blocks grid.old.window) (V.budget grid.old.window)
        (seen (V.held grid.old.window) grid.old.state) (seen (V.held grid.new.window) grid.new.state)
        log.old log.new }
    ensures image { V.blocks grid.new.window ≡ V.blocks grid.old.window }
    ensures budget { V.budget grid.new.window ≡ V.budget grid.old.window }
{
    fetches(grid, log);
    reads_answered(grid, log);
    answers(grid, log);
    works_on(grid, log);
    moves(grid, log);
}

/// A cycle that is logged: the grid does what it does in any cycle, and the log keeps its notes. It wants that fewer
/// than 2^63 cycles have been made, and that no more frames have been fetched than cycles made, which it keeps.
pub fn cycle<V: Watched, W: Weather>(grid: &mut Grid<V, W>, log: &mut Log)
    requires counted { HasRoom (seen (V.held grid.old.window) grid.old.state) }
    requires cycles { grid.old.state.counts.cycles < 2 ^ 63 }
    ensures eager { IsLogged W.next W.follows (V.blocks grid.old.window) (V.budget grid.old.window)
        (seen (V.held grid.old.window) grid.old.state) (seen (V.held grid.new.window) grid.new.state)
        log.old log.new }
    ensures counted { HasRoom (seen (V.held grid.new.window) grid.new.state) }
    ensures cycles { grid.new.state.counts.cycles ≡ grid.old.state.counts.cycles + 1 }
    ensures image { V.blocks grid.new.window ≡ V.blocks grid.old.window }
    ensures budget { V.budget grid.new.window ≡ V.budget grid.old.window }
{
    log.begin(grid.state.counts.cycles + 1);
    ends(grid, log);
    match grid.window.over() {
        Stepped::Went => goes_on(grid, log),
        Stepped::Ended => grid.state.count_cycle(),
        Stepped::StackFull => grid.state.count_cycle(),
        Stepped::Trap(_) => grid.state.count_cycle(),
    }
}
