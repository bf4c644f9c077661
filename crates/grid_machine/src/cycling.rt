//! A cycle: each part does all that it may.
ghost use Rattle.std.specs.Prelude.{◌≡◌, ◌<◌, ◌≤◌, ◌+◌, ◌^◌};
ghost use Rattle.grid_cycle_spec.specs.Cycles.{Eager, Moves, acts, closed};
ghost use Rattle.grid_parts.specs.Seen.{seen};
ghost use Rattle.grid_machine.specs.inside.Counted.{IsCounted};

use grid_parts::{Grid, Windows, arrivals};
use operand_net::Weather;
use trips_isa::Stepped;

// Part (6): the mesh ticks, what has arrived is delivered, and one cycle more has been made.
fn moves<V: Windows, W: Weather>(grid: &mut Grid<V, W>)
    requires cycles { grid.old.state.counts.cycles + 1 < 2 ^ 64 }
    requires flushed { grid.old.state.counts.flushed + 20480 < 2 ^ 64 }
    ensures change { Moves W.next W.follows (V.blocks grid.old.window) (V.budget grid.old.window)
        (seen (V.held grid.old.window) grid.old.state) (seen (V.held grid.new.window) grid.new.state) }
    ensures image { V.blocks grid.new.window ≡ V.blocks grid.old.window }
    ensures budget { V.budget grid.new.window ≡ V.budget grid.old.window }
{
    let frames = grid.window.numbers();
    grid.state.tick(frames.as_slice());
    arrivals(grid, frames.as_slice());
    grid.state.count_cycle();
}

// Parts (2) to (6).
fn goes_on<V: Windows, W: Weather>(grid: &mut Grid<V, W>)
    requires counted { IsCounted (seen (V.held grid.old.window) grid.old.state) }
    requires cycles { grid.old.state.counts.cycles < 2 ^ 63 }
    ensures change { Moves W.next W.follows (V.blocks grid.old.window) (V.budget grid.old.window)
        (acts (V.blocks grid.old.window) (V.budget grid.old.window) (seen (V.held grid.old.window) grid.old.state))
        (seen (V.held grid.new.window) grid.new.state) }
    ensures counted { IsCounted (seen (V.held grid.new.window) grid.new.state) }
    ensures cycles { grid.new.state.counts.cycles ≡ grid.old.state.counts.cycles + 1 }
    ensures image { V.blocks grid.new.window ≡ V.blocks grid.old.window }
    ensures budget { V.budget grid.new.window ≡ V.budget grid.old.window }
{
    grid.fetches();
    grid.reads_answered();
    grid.answers();
    grid.works_on();
    moves(grid);
}

/// A cycle: each part does all that it may, and nothing follows part (1) where the run has ended. It wants that fewer
/// than 2^63 cycles have been made, and that no more frames have been fetched than cycles made, which it keeps.
pub fn cycle<V: Windows, W: Weather>(grid: &mut Grid<V, W>)
    requires counted { IsCounted (seen (V.held grid.old.window) grid.old.state) }
    requires cycles { grid.old.state.counts.cycles < 2 ^ 63 }
    ensures eager { Eager W.next W.follows (V.blocks grid.old.window) (V.budget grid.old.window)
        (seen (V.held grid.old.window) grid.old.state) (seen (V.held grid.new.window) grid.new.state) }
    ensures counted { IsCounted (seen (V.held grid.new.window) grid.new.state) }
    ensures cycles { grid.new.state.counts.cycles ≡ grid.old.state.counts.cycles + 1 }
    ensures image { V.blocks grid.new.window ≡ V.blocks grid.old.window }
    ensures budget { V.budget grid.new.window ≡ V.budget grid.old.window }
{
    grid.ends();
    match grid.window.over() {
        Stepped::Went => goes_on(grid),
        Stepped::Ended => grid.state.count_cycle(),
        Stepped::StackFull => grid.state.count_cycle(),
        Stepped::Trap(_) => grid.state.count_cycle(),
    }
}

/// The end of a run: the frames in flight are flushed.
pub fn close<V: Windows, W>(grid: &mut Grid<V, W>)
    requires counted { IsCounted (seen (V.held grid.old.window) grid.old.state) }
    requires cycles { grid.old.state.counts.cycles ≤ 2 ^ 63 }
    ensures change { seen (V.held grid.new.window) grid.new.state
        ≡ closed (seen (V.held grid.old.window) grid.old.state) }
    ensures image { V.blocks grid.new.window ≡ V.blocks grid.old.window }
    ensures budget { V.budget grid.new.window ≡ V.budget grid.old.window }
{
    let frames = grid.window.numbers();
    grid.window.empty();
    grid.state.flush(frames.as_slice());
}
