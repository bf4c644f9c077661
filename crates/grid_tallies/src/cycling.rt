//! A cycle, counted: each part does all that it may.
ghost use Rattle.std.specs.Prelude.{◌≡◌, ◌<◌, ◌≤◌, ◌+◌, ◌^◌};
ghost use Rattle.grid_cycle_spec.specs.Cycles.{acts};
ghost use Rattle.grid_machine.specs.inside.Counted.{IsCounted as HasRoom};
ghost use Rattle.grid_parts.specs.Seen.{seen};
ghost use Rattle.grid_tallies.specs.Cycles.{GoesCounted, IsCounted};
ghost use Rattle.grid_tallies.specs.inside.Moving.{MovesCounted};

use crate::arriving::arrivals;
use crate::banks::reads_answered;
use crate::counters::Counters;
use crate::data_tiles::answers;
use crate::ends::ends;
use crate::fetches::fetches;
use crate::leading::Leading;
use crate::statistic::Statistic;
use crate::travelling;
use crate::units::works_on;
use grid_parts::Grid;
use operand_net::Weather;
use trips_isa::Stepped;

// Part (6): the mesh ticks, what has arrived is delivered, and one cycle more has been made.
fn moves<V: Leading, W: Weather>(grid: &mut Grid<V, W>, told: &mut Counters)
    requires cycles { grid.old.state.counts.cycles + 1 < 2 ^ 64 }
    requires flushed { grid.old.state.counts.flushed + 20480 < 2 ^ 64 }
    ensures counted { MovesCounted W.next W.follows (V.blocks grid.old.window) (V.budget grid.old.window)
        (seen (V.held grid.old.window) grid.old.state) (seen (V.held grid.new.window) grid.new.state)
        told.old told.new }
    ensures image { V.blocks grid.new.window ≡ V.blocks grid.old.window }
    ensures budget { V.budget grid.new.window ≡ V.budget grid.old.window }
{
    let frames = grid.window.numbers();
    travelling::moves(&grid.state.mesh, &mut told.tallies, frames.as_slice());
    grid.state.tick(frames.as_slice());
    let before = grid.state.counts.flushed;
    arrivals(grid, &mut told.guesses, frames.as_slice());
    let flushed = grid.state.counts.flushed.saturating_sub(before);
    told.tallies.add(Statistic::WrongExits, flushed);
    grid.state.count_cycle();
}

// Parts (2) to (6).
fn goes_on<V: Leading, W: Weather>(grid: &mut Grid<V, W>, told: &mut Counters)
    requires counted { HasRoom (seen (V.held grid.old.window) grid.old.state) }
    requires cycles { grid.old.state.counts.cycles < 2 ^ 63 }
    ensures goes { GoesCounted W.next W.follows (V.blocks grid.old.window) (V.budget grid.old.window)
        (seen (V.held grid.old.window) grid.old.state) (seen (V.held grid.new.window) grid.new.state)
        told.old told.new }
    ensures image { V.blocks grid.new.window ≡ V.blocks grid.old.window }
    ensures budget { V.budget grid.new.window ≡ V.budget grid.old.window }
{
    fetches(grid, told);
    reads_answered(grid, &mut told.tallies);
    answers(grid, &mut told.tallies);
    works_on(grid, &mut told.tallies);
    moves(grid, told);
}

/// A cycle that is counted: the grid does what it does in any cycle, and the counters hear its notes. It wants that
/// fewer than 2^63 cycles have been made, and that no more frames have been fetched than cycles made, which it keeps.
pub fn cycle<V: Leading, W: Weather>(grid: &mut Grid<V, W>, told: &mut Counters)
    requires counted { HasRoom (seen (V.held grid.old.window) grid.old.state) }
    requires cycles { grid.old.state.counts.cycles < 2 ^ 63 }
    ensures eager { IsCounted W.next W.follows (V.blocks grid.old.window) (V.budget grid.old.window)
        (seen (V.held grid.old.window) grid.old.state) (seen (V.held grid.new.window) grid.new.state)
        told.old told.new }
    ensures counted { HasRoom (seen (V.held grid.new.window) grid.new.state) }
    ensures cycles { grid.new.state.counts.cycles ≡ grid.old.state.counts.cycles + 1 }
    ensures image { V.blocks grid.new.window ≡ V.blocks grid.old.window }
    ensures budget { V.budget grid.new.window ≡ V.budget grid.old.window }
{
    ends(grid, &mut told.tallies);
    match grid.window.over() {
        Stepped::Went => goes_on(grid, told),
        Stepped::Ended => grid.state.count_cycle(),
        Stepped::StackFull => grid.state.count_cycle(),
        Stepped::Trap(_) => grid.state.count_cycle(),
    }
}
