//! A run of the grid to its end, and what it comes to.

ghost use Rattle.std.specs.Prelude.{◌≡◌};
ghost use Rattle.grid_parts.specs.Seen.{seen};
ghost use Rattle.grid_machine.specs.inside.Counted.{IsCounted};

use crate::making::grid;
use grid_machine::{GridWindow, cost, eager_run as run};
use grid_parts::Grid;
use operand_net::{Calm, Weather, Worst};
use std::alloc::Global;
use std::process::Abort;
use std::test::Fail;
use trips_isa::Stepped;

/// What a run comes to that has ended: register 3, the cycles, and the frames fetched, committed and flushed.
#[derive(Clone, Copy, Debug, PartialEq, Eq)]
pub struct Came {
    pub answer: u64,
    pub cycles: u64,
    pub fetched: u64,
    pub committed: u64,
    pub flushed: u64,
}

/// A text, the exit that its predictor names for every block, and what it comes to in calm weather and in the worst.
#[derive(Clone, Copy)]
pub struct Row {
    pub name: &'static str,
    pub text: &'static str,
    pub exit: u8,
    pub calm: Came,
    pub worst: Came,
}

// A run of at most so many cycles, which ends.
fn driven<W: Weather>(rt: &impl Abort, grid: &mut Grid<GridWindow, W>, most: u32) -> Came
    requires counted { IsCounted (seen grid.old.window.window grid.old.state) }
    requires cycles { grid.old.state.counts.cycles ≡ 0 }
{
    let _ = run(grid, most as u64);
    assert!(rt;
        grid.window.window().over() == Stepped::Ended,
        "the run ends"
    );
    let counts = grid.state.counts;
    let trace = grid.window.arch().trace();
    assert!(rt; trace.len() < 4_294_967_296, "a short trace");
    assert!(rt;
        counts.cycles <= cost(grid.window.window().image(), trace),
        "within the cost"
    );
    Came {
        answer: grid.window.arch().register(3),
        cycles: counts.cycles,
        fetched: counts.fetched,
        committed: counts.committed,
        flushed: counts.flushed,
    }
}

// What a text comes to in some weather.
fn outcome<W: Weather + Copy>(
    rt: &impl Abort,
    alloc: Global,
    row: &Row,
    weather: W,
) -> Result<Came, Fail> {
    let mut grid = grid(alloc, row.text, row.exit, weather, 1000)?;
    let came = driven(rt, &mut grid, 100_000);
    let Grid {
        window: _window,
        state: _state,
    } = grid;
    Ok(came)
}

// A row comes to what it says.
fn assert_row(rt: &impl Abort, alloc: Global, row: &Row) -> Result<(), Fail> {
    let calm = outcome(rt, alloc, row, Calm)?;
    assert!(rt; calm == row.calm, "{}: calm {calm:?}", row.name);
    let worst = outcome(rt, alloc, row, Worst)?;
    assert!(rt; worst == row.worst, "{}: worst {worst:?}", row.name);
    Ok(())
}

/// Some rows come to what they say.
pub fn assert_rows(rt: &impl Abort, alloc: Global, rows: &[Row]) -> Result<(), Fail> {
    for row in rows {
        assert_row(rt, alloc, row)?;
    }
    Ok(())
}
