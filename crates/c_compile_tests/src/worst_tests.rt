//! Runs in which every parcel is held for three cycles, and every guess is of exit 7, or every one of exit 0.
ghost use Rattle.std.specs.Prelude.{◌≡◌, [], IfOk};
ghost use Rattle.grid_machine.specs.inside.WholeRuns.{IsKept};
ghost use Rattle.grid_parts.specs.Seen.{seen};

use crate::predictors::predictor;
use block_check::CheckedImage;
use c_compile::compile;
use grid_machine::{GridWindow, cost, make, run};
use grid_parts::Grid;
use grid_place::Placing;
use operand_net::Worst;
use std::alloc::{AllocError, Global};
use std::process::Abort;
use std::test::Fail;
use trips_isa::Ending;

const POWERS: &str = "long a[9]; int main(void) { int i; a[0] = 1;
for (i = 1; i < 9; i++) a[i] = a[i - 1] * 2; return (int) a[8]; }";

const SEVEN: &str = "int main(void) { return 7; }";

// How many blocks a run may commit.
const BUDGET: u32 = 1000;

// The image of a text.
fn image(rt: &impl Abort, alloc: Global, text: &str) -> Result<CheckedImage, Fail> {
    let bytes = text.as_bytes();
    assert!(rt; bytes.len() < 4_294_967_295, "a short text");
    match compile(alloc, bytes, Placing::Greedy) {
        Ok(image) => Ok(image),
        Err(_) => Err(Fail::from(AllocError)),
    }
}

// The grid of a text at its start.
fn begun(
    rt: &impl Abort,
    alloc: Global,
    text: &str,
    exit: u8,
) -> Result<Grid<GridWindow, Worst>, Fail>
    ensures kept { IfOk result (λ g. IsKept g.window.budget (seen g.window.window g.state)) }
{
    let image = image(rt, alloc, text)?;
    let predictor = predictor(alloc, exit)?;
    match make(alloc, image, Vec::new(alloc), predictor, Worst, BUDGET) {
        Ok(grid) => Ok(grid),
        Err(memory) => Err(Fail::from(memory)),
    }
}

/// A text, the exit that each guess is of, and the word of register 3 at the end of its run.
type Row = (&'static str, u8, u64);

// The programs of one block after another, and of a loop over an array.
const ROWS: &[Row] = &[
    (SEVEN, 7, 7),
    (SEVEN, 0, 7),
    (POWERS, 7, 256),
    (POWERS, 0, 256),
];

fn assert_row(rt: &impl Abort, alloc: Global, row: &Row) -> Result<(), Fail> {
    let (text, exit, result) = *row;
    let mut grid = begun(rt, alloc, text, exit)?;
    assert!(rt; grid.state.counts.cycles == 0, "no cycle was made");
    let ending = run(&mut grid);
    assert!(rt; ending == Some(Ending::Ended), "{result}: {ending:?}");
    assert_eq!(rt; grid.window.arch().register(3), result, "register 3");
    let trace = grid.window.arch().trace();
    assert!(rt; trace.len() < 4_294_967_296, "a short trace");
    let bound = cost(grid.window.window().image(), trace);
    assert!(rt;
        grid.state.counts.cycles <= bound,
        "{result}: within the cost"
    );
    let Grid {
        window: _window,
        state: _state,
    } = grid;
    Ok(())
}

fn assert_rows(rt: &impl Abort, alloc: Global, rows: &[Row]) -> Result<(), Fail> {
    for row in rows {
        assert_row(rt, alloc, row)?;
    }
    Ok(())
}

#[test]
fn the_worst_weather_keeps_the_bound(rt: HostRuntime) -> Result<(), Fail> {
    assert_rows(&rt, rt.alloc(), ROWS)
}
