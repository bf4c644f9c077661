//! Runs of the grid under conditions, from the start and from a state.
ghost use Rattle.std.specs.Prelude.{◌≡◌, ◌<◌, ◌≤◌, ℕ, IfOk, [], Some, length, true};
ghost use Rattle.trips_isa.specs.Machine.{State};
ghost use Rattle.grid_machine.specs.Endings.{is_going};
ghost use Rattle.grid_cycle.specs.Conditions.{IsRan, IsRanFrom, started_on};
ghost use Rattle.grid_cycle.specs.declared.conditions.Conditions.{Conditions};
ghost use Rattle.grid_cycle.specs.Engines.{blocks_of, grid_of};

use crate::conditions::{Conditions, predictor_for, weather_for};
use crate::grid::Grid;
use crate::outcome::Ran;
use crate::weather::AnyWeather;
use base::Memory;
use block_atomic::Arch;
use block_check::CheckedImage;
use std::alloc::Global;

// Runs a grid from the stated start to its end.
fn run_out(mut grid: Grid<AnyWeather>) -> Ran
    requires goes { is_going grid.window.budget grid.window.window ≡ true }
    ensures ran { (s : State) (c : Conditions) → s.trace ≡ [] → grid_of grid ≡ started_on s c
        → IsRanFrom (blocks_of grid) s grid.window.budget c (Some result.ending) (grid_of result.grid) }
    ensures image { blocks_of result.grid ≡ blocks_of grid }
{
    let ending = grid.run();
    Ran { ending, grid }
}

/// Runs an image on an input, for at most so many blocks, on the grid whose predictor and weather are those of
/// the conditions. Want of memory is the only error.
pub fn run_image(
    alloc: Global,
    image: CheckedImage,
    input: Vec<u8>,
    conditions: Conditions,
    budget: u32,
) -> Result<Ran, Memory>
    requires some { 0 < budget }
    ensures ran { IfOk result (λ ran. IsRan image.blocks image.bytes input.items budget conditions
        (Some ran.ending) (grid_of ran.grid)) }
    ensures image { IfOk result (λ ran. blocks_of ran.grid ≡ image.blocks) }
{
    let predictor = predictor_for(alloc, conditions)?;
    let grid = Grid::make(
        alloc,
        image,
        input,
        predictor,
        weather_for(conditions),
        budget,
    )?;
    Ok(run_out(grid))
}

/// Goes on from a machine's state with an empty trace, for at most so many blocks, on the grid whose predictor and
/// weather are those of the conditions. Want of memory is the only error.
pub fn resume_image(
    alloc: Global,
    image: CheckedImage,
    arch: Arch,
    conditions: Conditions,
    budget: u32,
) -> Result<Ran, Memory>
    requires some { 0 < budget }
    requires next { arch.state.next < length image.blocks }
    requires room { budget ≤ arch.budget }
    requires fresh { arch.state.trace ≡ [] }
    ensures ran { IfOk result (λ ran. IsRanFrom image.blocks arch.state budget conditions (Some ran.ending)
        (grid_of ran.grid)) }
    ensures image { IfOk result (λ ran. blocks_of ran.grid ≡ image.blocks) }
{
    let predictor = predictor_for(alloc, conditions)?;
    let grid = Grid::make_at(
        alloc,
        image,
        arch,
        predictor,
        weather_for(conditions),
        budget,
    )?;
    Ok(run_out(grid))
}
