//! Runs of checked images on the grid of which the events of some cycles are shown, from the start and from a state.

ghost use Rattle.std.specs.Prelude.{◌≡◌, ◌<◌, ◌≤◌, ◌++◌, IfOk, OnOk, Some, [], if◌then◌else◌, length, false};
ghost use Rattle.trips_isa.specs.Machine.{start};
ghost use Rattle.grid_cycle.specs.Engines.{blocks_of, grid_of};
ghost use Rattle.grid_logged.specs.Seeds.{HasLogged};
ghost use Rattle.trips_grid_answers.specs.Events.{more_line, most_events};
ghost use Rattle.trips_grid_answers.specs.Runs.{IsRunFrom};
ghost use Rattle.trips_grid_answers.specs.inside.Logged.{lines_of, logged_of};
ghost use Rattle.trips_grid_answers.specs.inside.Told.{TellsGrid};

use crate::report::run_text;
use base::Items;
use block_atomic::Arch;
use block_check::CheckedImage;
use grid_cycle::{Conditions, runs_from_a_state_end, runs_from_the_start_end};
use grid_log::Log;
use grid_logged::Logged;
use std::alloc::{AllocError, Global};
use trips_event_lines::put_lines;
use trips_report::{Measured, Show, Statistics, status_for};
use trips_requests::{Answer, Cycles};

// The most events that are told of a run.
const MOST_EVENTS: usize = 1_000_000;

// That number.
#[tactic(auto, unfolding(crate::specs::Events::most_events))]
fn most_events() -> usize
    ensures { result ≡ most_events }
{
    MOST_EVENTS
}

// Writes the last line, where there are more events.
#[tactic(auto, unfolding(crate::specs::Events::more_line))]
fn put_more(out: &mut Vec<u8>, more: bool) -> Result<(), AllocError>
    ensures { OnOk result (out.new.items ≡ out.old.items ++ (if more then more_line else [])) }
{
    if more {
        out.extend_from_slice(b"more\n")
    } else {
        Ok(())
    }
}

// The lines of the events that a log holds, and that there are more.
fn lines_of(alloc: Global, log: &Log) -> Result<Items<u8>, AllocError>
    ensures { IfOk result (λ text. text ≡ lines_of log.now) }
{
    let mut text = Vec::new(alloc);
    put_lines(&mut text, log.entries.as_slice())?;
    put_more(&mut text, log.more)?;
    Ok(Items::from_vec(text))
}

// What was counted and is told of a run whose events were logged.
fn logged_of(alloc: Global, run: &Logged) -> Result<Measured, AllocError>
    ensures { IfOk result (λ measured. measured ≡ logged_of (grid_of run.now.grid).counts run.now.log) }
{
    let events = lines_of(alloc, &run.log)?;
    Ok(Measured {
        counts: run.counts(),
        statistics: Statistics::none(),
        events,
    })
}

// The answer of a run that has ended, whose events were logged.
fn logged_answer(alloc: Global, run: &Logged, show: Show) -> Result<Answer, AllocError>
    ensures { IfOk result (λ answer. TellsGrid run.now.ending (blocks_of run.now.grid) (grid_of run.now.grid)
        (logged_of (grid_of run.now.grid).counts run.now.log) show answer.status answer.report.items) }
{
    let ending = run.ending;
    let arch = run.window().arch();
    let measured = logged_of(alloc, run)?;
    let cost = run.cost();
    let report = run_text(alloc, ending, arch, measured, cost, show)?;
    Ok(Answer {
        status: status_for(ending, arch.register(3)),
        report,
    })
}

// FROM THE START

// Runs an image on an input, on the grid under these conditions and for at most so many blocks, and logs the events of
// some cycles.
fn logged_image(
    alloc: Global,
    image: CheckedImage,
    input: Items<u8>,
    conditions: Conditions,
    most: u32,
    cycles: Cycles,
) -> Result<Logged, AllocError>
    requires some { 0 < most }
    ensures ran { IfOk result (λ run. HasLogged image.blocks (start image.bytes input) most conditions cycles.first
        cycles.last most_events run.ending (grid_of run.grid) run.log) }
    ensures image { IfOk result (λ run. blocks_of run.grid ≡ image.blocks) }
    ensures kept { IfOk result (λ run. run.log.lost ≡ false) }
{
    let limit = most_events();
    match grid_logged::run_image(
        alloc,
        image,
        input.into_vec(),
        conditions,
        most,
        cycles.first,
        cycles.last,
        limit,
    ) {
        Ok(run) => Ok(run),
        Err(_) => Err(AllocError),
    }
}

/// The answer of the run of an image whose events are logged, those of some cycles.
pub fn logged_run(
    alloc: Global,
    image: CheckedImage,
    input: Items<u8>,
    conditions: Conditions,
    most: u32,
    show: Show,
    cycles: Cycles,
) -> Result<Answer, AllocError>
    requires some { 0 < most }
    requires plain { show.stats ≡ false }
    requires told { show.events ≡ Some cycles }
    ensures { IfOk result (λ answer. IsRunFrom image.blocks (start image.bytes input) conditions most show
        answer.status answer.report.items) }
{
    let _ = image.count();
    runs_from_the_start_end();
    let run = logged_image(alloc, image, input, conditions, most, cycles)?;
    logged_answer(alloc, &run, show)
}

// FROM A STATE

// Goes on from a state on the grid under these conditions, for at most so many blocks, and logs the events of some
// cycles.
fn logged_from(
    alloc: Global,
    image: CheckedImage,
    arch: Arch,
    conditions: Conditions,
    most: u32,
    cycles: Cycles,
) -> Result<Logged, AllocError>
    requires some { 0 < most }
    requires next { arch.state.next < length image.blocks }
    requires room { most ≤ arch.budget }
    requires fresh { arch.state.trace ≡ [] }
    ensures ran { IfOk result (λ run. HasLogged image.blocks arch.state most conditions cycles.first cycles.last
        most_events run.ending (grid_of run.grid) run.log) }
    ensures image { IfOk result (λ run. blocks_of run.grid ≡ image.blocks) }
    ensures kept { IfOk result (λ run. run.log.lost ≡ false) }
{
    let limit = most_events();
    match grid_logged::resume_image(
        alloc,
        image,
        arch,
        conditions,
        most,
        cycles.first,
        cycles.last,
        limit,
    ) {
        Ok(run) => Ok(run),
        Err(_) => Err(AllocError),
    }
}

/// The answer of the run from a state whose events are logged, those of some cycles.
pub fn logged_run_from(
    alloc: Global,
    image: CheckedImage,
    arch: Arch,
    conditions: Conditions,
    most: u32,
    show: Show,
    cycles: Cycles,
) -> Result<Answer, AllocError>
    requires some { 0 < most }
    requires next { arch.state.next < length image.blocks }
    requires room { most ≤ arch.budget }
    requires fresh { arch.state.trace ≡ [] }
    requires plain { show.stats ≡ false }
    requires told { show.events ≡ Some cycles }
    ensures { IfOk result
        (λ answer. IsRunFrom image.blocks arch.state conditions most show answer.status answer.report.items) }
{
    let _ = image.count();
    let _ = arch.memory();
    let _ = arch.register(0);
    runs_from_a_state_end();
    let run = logged_from(alloc, image, arch, conditions, most, cycles)?;
    logged_answer(alloc, &run, show)
}
