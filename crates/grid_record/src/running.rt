//! Runs that are recorded.
ghost use Rattle.std.specs.Prelude.{◌≡◌, ◌<◌, ◌≤◌, ◌+◌, ◌^◌, ℕ, IfOk, List, true};
ghost use Rattle.operand_net.specs.declared.weather.PcgWeather.{PcgWeather};
ghost use Rattle.grid_cycle_spec.specs.Grid.{Grid as Whole};
ghost use Rattle.grid_machine.specs.Endings.{is_going};
ghost use Rattle.grid_machine.specs.Seeds.{IsAfter, next_hold, started};
ghost use Rattle.grid_machine.specs.WholeRuns.{IsRun};
ghost use Rattle.grid_machine.specs.inside.WholeRuns.{IsKept};
ghost use Rattle.grid_parts.specs.Seen.{seen};
ghost use Rattle.grid_record.specs.Records.{IsMemory, IsReached, IsRecord, part};
ghost use Rattle.grid_record.specs.inside.Recording.{Recording};

use crate::moment::{is_going, put_moment};
use crate::numbers::put_behind;
use base::Memory;
use block_check::CheckedImage;
use block_predict::Predictor;
use grid_machine::GridWindow;
use grid_parts::Grid;
use operand_net::PcgWeather;
use std::alloc::{AllocError, Global};

// A grid that is let go with all that it holds.
struct Kept {
    grid: Grid<GridWindow, PcgWeather>,
}

impl Drop for Kept {
    fn drop(self) {
        let Kept { grid } = self;
        let Grid {
            window: _window,
            state: _state,
        } = grid;
    }
}

// The grid of a seed at the stated start.
fn begun(
    alloc: Global,
    image: CheckedImage,
    input: Vec<u8>,
    budget: u32,
    seed: u64,
) -> Result<Kept, Memory>
    requires some { 0 < budget }
    ensures begun { IfOk result (λ k. seen k.grid.window.window k.grid.state ≡ started image.bytes input.items seed) }
    ensures image { IfOk result (λ k. k.grid.window.image ≡ image) }
    ensures budget { IfOk result (λ k. k.grid.window.budget ≡ budget) }
    ensures kept { IfOk result (λ k. IsKept budget (seen k.grid.window.window k.grid.state)) }
{
    let predictor = Predictor::make(alloc, seed)?;
    let grid = grid_machine::make(
        alloc,
        image,
        input,
        predictor,
        PcgWeather::make(seed),
        budget,
    )?;
    Ok(Kept { grid })
}

// Whether the run goes on.
fn goes(grid: &Grid<GridWindow, PcgWeather>) -> bool
    ensures { result ≡ is_going grid.now.window.budget grid.now.window.window }
{
    is_going(grid.window.window())
}

// Cycles while the run goes on, at most so many: how many have been made.
fn pass(grid: &mut Grid<GridWindow, PcgWeather>, count: u32) -> u32
    requires kept { IsKept grid.old.window.budget (seen grid.old.window.window grid.old.state) }
    requires cycles { grid.old.state.counts.cycles + count ≤ 2 ^ 63 }
    ensures run { (n : ℕ) (f : Whole PcgWeather)
        → IsRun next_hold IsAfter grid.old.window.image.blocks grid.old.window.budget n f
        (seen grid.old.window.window grid.old.state)
        → IsRun next_hold IsAfter grid.old.window.image.blocks grid.old.window.budget (n + result) f
        (seen grid.new.window.window grid.new.state) }
    ensures few { result ≤ count }
    ensures full { is_going grid.new.window.budget grid.new.window.window ≡ true → result ≡ count }
    ensures kept { IsKept grid.old.window.budget (seen grid.new.window.window grid.new.state) }
    ensures cycles { grid.new.state.counts.cycles ≡ grid.old.state.counts.cycles + result }
    ensures image { grid.new.window.image.blocks ≡ grid.old.window.image.blocks }
    ensures budget { grid.new.window.budget ≡ grid.old.window.budget }
{
    let mut made = 0;
    while made < count {
        if goes(grid) {
            let _ = grid_machine::cycle(grid);
            made += 1;
        } else {
            return made;
        }
    }
    made
}

// Writes the grid and makes a cycle, while the run goes on, at most so often: how often.
fn put_moments(
    out: &mut Vec<u8>,
    grid: &mut Grid<GridWindow, PcgWeather>,
    count: u32,
) -> Result<u32, AllocError>
    requires kept { IsKept grid.old.window.budget (seen grid.old.window.window grid.old.state) }
    requires cycles { grid.old.state.counts.cycles + count ≤ 2 ^ 63 }
    ensures recorded { (bytes input : List ℕ) (seed cycle : ℕ)
        → IsReached grid.old.window.image.blocks bytes input grid.old.window.budget seed cycle
        (seen grid.old.window.window grid.old.state)
        → IfOk result (λ made. Recording grid.old.window.image.blocks bytes input grid.old.window.budget seed cycle
        made out.old.items out.new.items (seen grid.new.window.window grid.new.state)) }
    ensures few { IfOk result (λ made. made ≤ count) }
    ensures all { IfOk result (λ made. is_going grid.new.window.budget grid.new.window.window ≡ true
        → made ≡ count) }
    ensures began { is_going grid.new.window.budget grid.new.window.window ≡ true
        → is_going grid.old.window.budget grid.old.window.window ≡ true }
    ensures image { grid.new.window.image.blocks ≡ grid.old.window.image.blocks }
    ensures budget { grid.new.window.budget ≡ grid.old.window.budget }
{
    let mut made = 0;
    while made < count {
        if goes(grid) {
            put_moment(out, grid)?;
            let _ = grid_machine::cycle(grid);
            made += 1;
        } else {
            return Ok(made);
        }
    }
    Ok(made)
}

/// The record of an image's run on an input, for at most so many blocks, on the grid of a seed: the grid after
/// `first` cycles, and after each of `count` more, or fewer where the run ends before. Want of memory is the only
/// error.
pub fn record_image(
    alloc: Global,
    image: CheckedImage,
    input: Vec<u8>,
    budget: u32,
    seed: u64,
    first: u32,
    count: u32,
) -> Result<Vec<u8>, Memory>
    requires some { 0 < budget }
    ensures { IfOk result (λ told. IsRecord image.blocks image.bytes input.items budget seed first count told.items) }
{
    let mut kept = begun(alloc, image, input, budget, seed)?;
    let _passed = pass(&mut kept.grid, first);
    let mut told = Vec::new(alloc);
    let _made = put_moments(&mut told, &mut kept.grid, count)?;
    put_moment(&mut told, &kept.grid)?;
    put_behind(&mut told, 0, kept.grid.window.arch().output())?;
    Ok(told)
}

// So many bytes from a place on, or fewer where they end before.
#[tactic(auto, using(crate::proofs::PieceFacts::part_of))]
fn part(bytes: &[u8], from: u32, count: u32) -> &[u8]
    ensures { result.now ≡ part from count bytes.now }
{
    let from = (from as usize).min(bytes.len());
    let rest = &bytes[from..];
    let count = (count as usize).min(rest.len());
    &rest[..count]
}

/// A part of the committed memory after so many cycles of the same run, or at its end, behind a byte 1. Want of
/// memory is the only error.
pub fn memory_of(
    alloc: Global,
    image: CheckedImage,
    input: Vec<u8>,
    budget: u32,
    seed: u64,
    cycle: u32,
    from: u32,
    count: u32,
) -> Result<Vec<u8>, Memory>
    requires some { 0 < budget }
    ensures { IfOk result (λ told. IsMemory image.blocks image.bytes input.items budget seed cycle from count
        told.items) }
{
    let mut kept = begun(alloc, image, input, budget, seed)?;
    let _passed = pass(&mut kept.grid, cycle);
    let memory = kept.grid.window.arch().memory();
    let mut told = Vec::new(alloc);
    put_behind(&mut told, 1, part(memory, from, count))?;
    Ok(told)
}
