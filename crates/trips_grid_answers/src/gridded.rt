//! Runs of checked images on the grid, from the start and from a state.

ghost use Rattle.std.specs.Prelude.{◌≡◌, ◌<◌, ◌≤◌, IfOk, None, Some, [], length, true, false};
ghost use Rattle.trips_isa.specs.Machine.{start};
ghost use Rattle.grid_cycle.specs.Conditions.{IsRan, IsRanFrom};
ghost use Rattle.grid_cycle.specs.Engines.{blocks_of, grid_of};
ghost use Rattle.grid_counted.specs.Seeds.{HasCounted};
ghost use Rattle.trips_report.specs.Runs.{uncounted};
ghost use Rattle.trips_grid_answers.specs.Runs.{IsRunFrom};
ghost use Rattle.trips_grid_answers.specs.inside.Measured.{measured_of, statistics_of};
ghost use Rattle.trips_grid_answers.specs.inside.Told.{TellsGrid};

use crate::logging::{logged_run, logged_run_from};
use crate::report::run_text;
use base::Items;
use block_atomic::Arch;
use block_check::CheckedImage;
use grid_counted::Counted;
use grid_cycle::{Conditions, Ran, runs_from_a_state_end, runs_from_the_start_end};
use grid_tallies::{Counters, Flights, Statistic};
use std::alloc::{AllocError, Global};
use trips_report::{Measured, Show, Statistics, status_for};
use trips_requests::Answer;

// The answer of a run that has ended, of which no statistics and no events are shown.
fn ended_answer(alloc: Global, ran: &Ran, show: Show) -> Result<Answer, AllocError>
    ensures { IfOk result (λ answer. TellsGrid ran.now.ending (blocks_of ran.now.grid) (grid_of ran.now.grid)
        (uncounted (grid_of ran.now.grid).counts) show answer.status answer.report.items) }
{
    let ending = ran.ending;
    let arch = ran.grid.window().arch();
    let measured = Measured::uncounted(alloc, ran.grid.counts());
    let cost = ran.grid.cost();
    let report = run_text(alloc, ending, arch, measured, cost, show)?;
    Ok(Answer {
        status: status_for(ending, arch.register(3)),
        report,
    })
}

// The statistics that are shown of counters.
fn statistics_of(told: &Counters, flights: &Flights) -> Statistics
    ensures { result ≡ statistics_of told.now flights.now }
{
    let tallies = &told.tallies;
    Statistics {
        movs: tallies.get(Statistic::Movs),
        nulls: tallies.get(Statistic::Nulls),
        useful: tallies.get(Statistic::Useful),
        loads: tallies.get(Statistic::Loads),
        stores: tallies.get(Statistic::Stores),
        violations: tallies.get(Statistic::Violations),
        wrong_exits: tallies.get(Statistic::WrongExits),
        ends: tallies.get(Statistic::Ends),
        predictions: tallies.get(Statistic::Predictions),
        right: told.guesses.right,
        parcels: tallies.get(Statistic::Parcels),
        links: tallies.get(Statistic::Links),
        waits: tallies.get(Statistic::Waits),
        in_flight: flights.cycles,
        stations: tallies.stations(),
    }
}

// The answer of a run that has ended and was counted.
fn counted_answer(alloc: Global, run: &Counted, show: Show) -> Result<Answer, AllocError>
    ensures { IfOk result (λ answer. TellsGrid run.now.ending (blocks_of run.now.grid) (grid_of run.now.grid)
        (measured_of (grid_of run.now.grid).counts run.now.told run.now.flights) show answer.status
        answer.report.items) }
{
    let ending = run.ending;
    let arch = run.window().arch();
    let measured = Measured {
        counts: run.counts(),
        statistics: statistics_of(&run.told, &run.flights),
        events: Items::new(alloc),
    };
    let cost = run.cost();
    let report = run_text(alloc, ending, arch, measured, cost, show)?;
    Ok(Answer {
        status: status_for(ending, arch.register(3)),
        report,
    })
}

// FROM THE START

/// Runs an image on an input, on the grid under these conditions and for at most so many blocks.
pub fn ran_image(
    alloc: Global,
    image: CheckedImage,
    input: Items<u8>,
    conditions: Conditions,
    most: u32,
) -> Result<Ran, AllocError>
    requires some { 0 < most }
    ensures ran { IfOk result (λ ran. IsRan image.blocks image.bytes input most conditions
        (Some ran.ending) (grid_of ran.grid)) }
    ensures image { IfOk result (λ ran. blocks_of ran.grid ≡ image.blocks) }
{
    match grid_cycle::run_image(alloc, image, input.into_vec(), conditions, most) {
        Ok(ran) => Ok(ran),
        Err(_) => Err(AllocError),
    }
}

// The same, and counts its statistics.
fn counted_image(
    alloc: Global,
    image: CheckedImage,
    input: Items<u8>,
    conditions: Conditions,
    most: u32,
) -> Result<Counted, AllocError>
    requires some { 0 < most }
    ensures ran { IfOk result (λ run. HasCounted image.blocks (start image.bytes input) most conditions run.ending
        (grid_of run.grid) run.told run.flights) }
    ensures image { IfOk result (λ run. blocks_of run.grid ≡ image.blocks) }
{
    match grid_counted::run_image(alloc, image, input.into_vec(), conditions, most) {
        Ok(run) => Ok(run),
        Err(_) => Err(AllocError),
    }
}

// The answer of the run of an image of which no statistics and no events are shown.
fn plain_run(
    alloc: Global,
    image: CheckedImage,
    input: Items<u8>,
    conditions: Conditions,
    most: u32,
    show: Show,
) -> Result<Answer, AllocError>
    requires some { 0 < most }
    requires plain { show.stats ≡ false }
    requires untold { show.events ≡ None }
    ensures { IfOk result (λ answer. IsRunFrom image.blocks (start image.bytes input) conditions most show
        answer.status answer.report.items) }
{
    let _ = image.count();
    runs_from_the_start_end();
    let ran = ran_image(alloc, image, input, conditions, most)?;
    ended_answer(alloc, &ran, show)
}

// The answer of the run of an image whose statistics are counted.
fn counted_run(
    alloc: Global,
    image: CheckedImage,
    input: Items<u8>,
    conditions: Conditions,
    most: u32,
    show: Show,
) -> Result<Answer, AllocError>
    requires some { 0 < most }
    requires counted { show.stats ≡ true }
    ensures { IfOk result (λ answer. IsRunFrom image.blocks (start image.bytes input) conditions most show
        answer.status answer.report.items) }
{
    let _ = image.count();
    runs_from_the_start_end();
    let counted = counted_image(alloc, image, input, conditions, most)?;
    counted_answer(alloc, &counted, show)
}

/// Runs an image on an input, on the grid under these conditions and for as many blocks as are allowed, and tells how
/// its run ended and what is shown. Want of memory is the only error: each run ends within its cost. Its statistics are
/// counted where they are shown, and else events are logged where those of some cycles are.
pub fn run_image(
    alloc: Global,
    image: CheckedImage,
    input: Items<u8>,
    conditions: Conditions,
    most: u32,
    show: Show,
) -> Result<Answer, AllocError>
    requires some { 0 < most }
    ensures { IfOk result (λ answer. IsRunFrom image.blocks (start image.bytes input) conditions most show
        answer.status answer.report.items) }
{
    if show.stats {
        return counted_run(alloc, image, input, conditions, most, show);
    }
    match show.events {
        Some(cycles) => logged_run(alloc, image, input, conditions, most, show, cycles),
        None => plain_run(alloc, image, input, conditions, most, show),
    }
}

// FROM A STATE

// Goes on from a state on the grid under these conditions, for at most so many blocks.
fn ran_from(
    alloc: Global,
    image: CheckedImage,
    arch: Arch,
    conditions: Conditions,
    most: u32,
) -> Result<Ran, AllocError>
    requires some { 0 < most }
    requires next { arch.state.next < length image.blocks }
    requires room { most ≤ arch.budget }
    requires fresh { arch.state.trace ≡ [] }
    ensures ran { IfOk result (λ ran. IsRanFrom image.blocks arch.state most conditions
        (Some ran.ending) (grid_of ran.grid)) }
    ensures image { IfOk result (λ ran. blocks_of ran.grid ≡ image.blocks) }
{
    match grid_cycle::resume_image(alloc, image, arch, conditions, most) {
        Ok(ran) => Ok(ran),
        Err(_) => Err(AllocError),
    }
}

// The same, and counts its statistics.
fn counted_from(
    alloc: Global,
    image: CheckedImage,
    arch: Arch,
    conditions: Conditions,
    most: u32,
) -> Result<Counted, AllocError>
    requires some { 0 < most }
    requires next { arch.state.next < length image.blocks }
    requires room { most ≤ arch.budget }
    requires fresh { arch.state.trace ≡ [] }
    ensures ran { IfOk result (λ run. HasCounted image.blocks arch.state most conditions run.ending (grid_of run.grid)
        run.told run.flights) }
    ensures image { IfOk result (λ run. blocks_of run.grid ≡ image.blocks) }
{
    match grid_counted::resume_image(alloc, image, arch, conditions, most) {
        Ok(run) => Ok(run),
        Err(_) => Err(AllocError),
    }
}

// The answer of the run from a state of which no statistics and no events are shown.
fn plain_from(
    alloc: Global,
    image: CheckedImage,
    arch: Arch,
    conditions: Conditions,
    most: u32,
    show: Show,
) -> Result<Answer, AllocError>
    requires some { 0 < most }
    requires next { arch.state.next < length image.blocks }
    requires room { most ≤ arch.budget }
    requires fresh { arch.state.trace ≡ [] }
    requires plain { show.stats ≡ false }
    requires untold { show.events ≡ None }
    ensures { IfOk result
        (λ answer. IsRunFrom image.blocks arch.state conditions most show answer.status answer.report.items) }
{
    let _ = image.count();
    let _ = arch.memory();
    let _ = arch.register(0);
    runs_from_a_state_end();
    let ran = ran_from(alloc, image, arch, conditions, most)?;
    ended_answer(alloc, &ran, show)
}

// The answer of the run from a state whose statistics are counted.
fn counted_run_from(
    alloc: Global,
    image: CheckedImage,
    arch: Arch,
    conditions: Conditions,
    most: u32,
    show: Show,
) -> Result<Answer, AllocError>
    requires some { 0 < most }
    requires next { arch.state.next < length image.blocks }
    requires room { most ≤ arch.budget }
    requires fresh { arch.state.trace ≡ [] }
    requires counted { show.stats ≡ true }
    ensures { IfOk result
        (λ answer. IsRunFrom image.blocks arch.state conditions most show answer.status answer.report.items) }
{
    let _ = image.count();
    let _ = arch.memory();
    let _ = arch.register(0);
    runs_from_a_state_end();
    let counted = counted_from(alloc, image, arch, conditions, most)?;
    counted_answer(alloc, &counted, show)
}

/// Goes on with a machine of an image whose trace is empty, on the grid under these conditions and for as many blocks
/// as are allowed, and tells how its run ended and what is shown. Want of memory is the only error. Its statistics are
/// counted where they are shown, and else events are logged where those of some cycles are.
pub fn run_from(
    alloc: Global,
    image: CheckedImage,
    arch: Arch,
    conditions: Conditions,
    most: u32,
    show: Show,
) -> Result<Answer, AllocError>
    requires some { 0 < most }
    requires next { arch.state.next < length image.blocks }
    requires room { most ≤ arch.budget }
    requires fresh { arch.state.trace ≡ [] }
    ensures { IfOk result
        (λ answer. IsRunFrom image.blocks arch.state conditions most show answer.status answer.report.items) }
{
    if show.stats {
        return counted_run_from(alloc, image, arch, conditions, most, show);
    }
    match show.events {
        Some(cycles) => logged_run_from(alloc, image, arch, conditions, most, show, cycles),
        None => plain_from(alloc, image, arch, conditions, most, show),
    }
}
