//! Counted runs of the grid under conditions, from the start and from a state.
ghost use Rattle.std.specs.Prelude.{◌≡◌, ◌<◌, ◌≤◌, ℕ, IfOk, [], length};
ghost use Rattle.trips_isa.specs.Machine.{State, start};
ghost use Rattle.grid_cycle.specs.Conditions.{started_on};
ghost use Rattle.grid_cycle.specs.declared.conditions.Conditions.{Conditions};
ghost use Rattle.grid_cycle.specs.Engines.{blocks_of, grid_of};
ghost use Rattle.grid_machine.specs.inside.WholeRuns.{IsKept};
ghost use Rattle.grid_counted.specs.Seeds.{HasCounted};
ghost use Rattle.grid_counted.specs.inside.Started.{IsStarted};

use crate::counted::Counted;
use crate::running::run;
use base::Memory;
use block_atomic::Arch;
use block_check::CheckedImage;
use grid_cycle::{AnyWeather, Conditions, predictor_for, weather_for};
use grid_machine::GridWindow;
use grid_parts::Grid;
use grid_tallies::{Counters, Flights};
use std::alloc::Global;

// Runs a grid from the stated start to its end.
fn run_out(mut grid: Grid<GridWindow, AnyWeather>) -> Counted
    requires started { IsStarted (grid_of grid) }
    requires some { 0 < grid.window.budget }
    requires kept { IsKept grid.window.budget (grid_of grid) }
    ensures ran { (s : State) (c : Conditions) → s.trace ≡ [] → grid_of grid ≡ started_on s c
        → HasCounted (blocks_of grid) s grid.window.budget c result.ending (grid_of result.grid) result.told
        result.flights }
    ensures image { blocks_of result.grid ≡ blocks_of grid }
{
    grid.window.keeps_invariant();
    let _ = grid.window.window().budget();
    let mut told = Counters::none();
    let mut flights = Flights::none();
    let ending = run(&mut grid, &mut told, &mut flights);
    Counted {
        ending,
        told,
        flights,
        grid,
    }
}

/// Runs an image on an input, for at most so many blocks, on the grid whose predictor and weather are those of
/// the conditions, and counts its statistics. Want of memory is the only error.
pub fn run_image(
    alloc: Global,
    image: CheckedImage,
    input: Vec<u8>,
    conditions: Conditions,
    budget: u32,
) -> Result<Counted, Memory>
    requires some { 0 < budget }
    ensures ran { IfOk result (λ run. HasCounted image.blocks (start image.bytes input.items) budget conditions
        run.ending
        (grid_of run.grid) run.told run.flights) }
    ensures image { IfOk result (λ run. blocks_of run.grid ≡ image.blocks) }
{
    let predictor = predictor_for(alloc, conditions)?;
    let grid = grid_machine::make(
        alloc,
        image,
        input,
        predictor,
        weather_for(conditions),
        budget,
    )?;
    Ok(run_out(grid))
}

/// Goes on from a machine's state with an empty trace, for at most so many blocks, on the grid whose predictor and
/// weather are those of the conditions, and counts its statistics. Want of memory is the only error.
pub fn resume_image(
    alloc: Global,
    image: CheckedImage,
    arch: Arch,
    conditions: Conditions,
    budget: u32,
) -> Result<Counted, Memory>
    requires some { 0 < budget }
    requires next { arch.state.next < length image.blocks }
    requires room { budget ≤ arch.budget }
    requires fresh { arch.state.trace ≡ [] }
    ensures ran { IfOk result (λ run. HasCounted image.blocks arch.state budget conditions run.ending (grid_of run.grid)
        run.told run.flights) }
    ensures image { IfOk result (λ run. blocks_of run.grid ≡ image.blocks) }
{
    let predictor = predictor_for(alloc, conditions)?;
    let grid = grid_machine::make_at(
        alloc,
        image,
        arch,
        predictor,
        weather_for(conditions),
        budget,
    )?;
    Ok(run_out(grid))
}
