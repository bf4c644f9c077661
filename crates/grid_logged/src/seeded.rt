//! Logged runs of the grid under conditions, from the start and from a state.
ghost use Rattle.std.specs.Prelude.{◌≡◌, ◌<◌, ◌≤◌, ℕ, IfOk, [], false, length};
ghost use Rattle.trips_isa.specs.Machine.{State, start};
ghost use Rattle.grid_cycle.specs.Conditions.{started_on};
ghost use Rattle.grid_cycle.specs.declared.conditions.Conditions.{Conditions};
ghost use Rattle.grid_cycle.specs.Engines.{blocks_of, grid_of};
ghost use Rattle.grid_machine.specs.inside.WholeRuns.{IsKept};
ghost use Rattle.grid_counted.specs.inside.Started.{IsStarted};
ghost use Rattle.grid_logged.specs.Seeds.{HasLogged};

use crate::logged::Logged;
use crate::running::run;
use base::Memory;
use block_atomic::Arch;
use block_check::CheckedImage;
use grid_cycle::{AnyWeather, Conditions, predictor_for, weather_for};
use grid_log::Log;
use grid_machine::GridWindow;
use grid_parts::Grid;
use std::alloc::Global;

// Runs a grid from the stated start to its end.
fn run_out(
    alloc: Global,
    mut grid: Grid<GridWindow, AnyWeather>,
    first: u64,
    last: u64,
    limit: usize,
) -> Logged
    requires started { IsStarted (grid_of grid) }
    requires some { 0 < grid.window.budget }
    requires kept { IsKept grid.window.budget (grid_of grid) }
    ensures ran { (s : State) (c : Conditions) → s.trace ≡ [] → grid_of grid ≡ started_on s c
        → HasLogged (blocks_of grid) s grid.window.budget c first last limit result.ending (grid_of result.grid)
        result.log }
    ensures image { blocks_of result.grid ≡ blocks_of grid }
{
    grid.window.keeps_invariant();
    let _ = grid.window.window().budget();
    let mut log = Log::make(alloc, limit);
    let ending = run(&mut grid, &mut log, first, last);
    Logged { ending, log, grid }
}

// A run whose log has found memory for all its events.
fn kept(run: Logged) -> Result<Logged, Memory>
    ensures same { IfOk result (λ of. of ≡ run) }
    ensures kept { IfOk result (λ of. of.log.lost ≡ false) }
{
    if run.log.lost {
        return Err(Memory);
    }
    Ok(run)
}

/// Runs an image on an input, for at most so many blocks, on the grid whose predictor and weather are those of
/// the conditions, and logs the events of its cycles from the first to the last, at most `limit` events. Want of memory
/// is the only error.
pub fn run_image(
    alloc: Global,
    image: CheckedImage,
    input: Vec<u8>,
    conditions: Conditions,
    budget: u32,
    first: u64,
    last: u64,
    limit: usize,
) -> Result<Logged, Memory>
    requires some { 0 < budget }
    ensures ran { IfOk result (λ run. HasLogged image.blocks (start image.bytes input.items) budget conditions first
        last
        limit run.ending (grid_of run.grid) run.log) }
    ensures image { IfOk result (λ run. blocks_of run.grid ≡ image.blocks) }
    ensures kept { IfOk result (λ run. run.log.lost ≡ false) }
{
    let predictor = predictor_for(alloc, conditions)?;
    let grid = grid_machine::make(
        alloc,
        image,
        input,
        predictor,
        weather_for(conditions),
        budget,
    )?;
    kept(run_out(alloc, grid, first, last, limit))
}

/// Goes on from a machine's state with an empty trace, for at most so many blocks, on the grid whose predictor and
/// weather are those of the conditions, and logs the events of its cycles from the first to the last, at most `limit`
/// events. Want of memory is the only error.
pub fn resume_image(
    alloc: Global,
    image: CheckedImage,
    arch: Arch,
    conditions: Conditions,
    budget: u32,
    first: u64,
    last: u64,
    limit: usize,
) -> Result<Logged, Memory>
    requires some { 0 < budget }
    requires next { arch.state.next < length image.blocks }
    requires room { budget ≤ arch.budget }
    requires fresh { arch.state.trace ≡ [] }
    ensures ran { IfOk result (λ run. HasLogged image.blocks arch.state budget conditions first last limit run.ending
        (grid_of run.grid) run.log) }
    ensures image { IfOk result (λ run. blocks_of run.grid ≡ image.blocks) }
    ensures kept { IfOk result (λ run. run.log.lost ≡ false) }
{
    let predictor = predictor_for(alloc, conditions)?;
    let grid = grid_machine::make_at(
        alloc,
        image,
        arch,
        predictor,
        weather_for(conditions),
        budget,
    )?;
    kept(run_out(alloc, grid, first, last, limit))
}
