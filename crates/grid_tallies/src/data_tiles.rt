//! Part (4) of a cycle, counted: data tiles answer loads and stores.
ghost use Rattle.std.specs.Prelude.{◌≡◌, ◌<◌, ◌≤◌, ◌+◌, ◌^◌, ℕ, Some, true, false};
ghost use Rattle.grid_cycle_spec.specs.DataTiles as spec;
ghost use Rattle.grid_events.specs.StationNotes as noted;
ghost use Rattle.grid_parts.specs.Seen.{seen};
ghost use Rattle.trips_isa.specs.Forms as forms;
ghost use Rattle.grid_tallies.specs.Statistics.{Heard};
ghost use Rattle.grid_tallies.specs.inside.Adding.{AnswersHeard, TokensHeard};

use crate::entering::tokens_at;
use crate::statistic::Statistic;
use crate::tallies::Tallies;
use grid_parts::{Grid, Windows, answerable, any_asked};
use trips_isa::{Form, Op, form_of};

// Whether an operation is a store.
fn is_store(op: Op) -> bool
    ensures { result ≡ forms.is_store (forms.form_of op) }
{
    match form_of(op) {
        Form::Store => true,
        _ => false,
    }
}

// A store is counted, with the frames that it has flushed.
fn count_store(told: &mut Tallies, flushed: u64)
    ensures { AnswersHeard true flushed told.old told.new }
{
    told.add(Statistic::Stores, 1);
    told.add(Statistic::Violations, flushed);
}

// A load is counted.
fn count_load(told: &mut Tallies)
    ensures { (flushed : ℕ) → AnswersHeard false flushed told.old told.new }
{
    told.add(Statistic::Loads, 1);
}

// A load or a store is counted.
fn count(told: &mut Tallies, store: bool, flushed: u64)
    ensures { AnswersHeard store flushed told.old told.new }
{
    if store {
        count_store(told, flushed);
    } else {
        count_load(told);
    }
}

// The tokens of a load that was answered enter the mesh; a store has none.
fn count_entering<V: Windows>(window: &V, told: &mut Tallies, store: bool, frame: u8, slot: u8)
    requires frame { frame < 8 }
    requires slot { slot < 128 }
    ensures { TokensHeard store frame slot (V.held window.now).frames told.old told.new }
{
    if !store {
        let entered = tokens_at(window, frame, 2 * slot as u16);
        told.add(Statistic::Parcels, entered);
    }
}

// The answer to what waits with a number in a frame, where anything does.
fn answered<V: Windows, W>(
    grid: &mut Grid<V, W>,
    told: &mut Tallies,
    tile: u8,
    frame: u8,
    number: u8,
)
    requires tile { tile < 4 }
    requires frame { frame < 8 }
    requires number { number < 32 }
    requires room { grid.old.state.counts.flushed + 8 < 2 ^ 64 }
    ensures change { seen (V.held grid.new.window) grid.new.state
        ≡ spec.answer_chosen (V.blocks grid.old.window) (V.budget grid.old.window) tile (Some (frame, number))
        (seen (V.held grid.old.window) grid.old.state) }
    ensures heard { Heard told.old (noted.answer_notes (V.blocks grid.old.window) (V.budget grid.old.window) tile
        (Some (frame, number)) (seen (V.held grid.old.window) grid.old.state)) told.new }
    ensures few { grid.new.state.counts.flushed ≤ grid.old.state.counts.flushed + 8 }
    ensures image { V.blocks grid.new.window ≡ V.blocks grid.old.window }
    ensures budget { V.budget grid.new.window ≡ V.budget grid.old.window }
{
    let request = grid.window.request_of(frame, number);
    let before = grid.state.counts.flushed;
    grid.answer(tile, frame, number);
    match request {
        Some(request) => {
            let flushed = grid.state.counts.flushed.saturating_sub(before);
            let store = is_store(request.inst.op);
            count(told, store, flushed);
            count_entering(&grid.window, told, store, frame, request.slot);
        }
        None => {}
    }
}

// A data tile answers its eldest answerable request.
fn data_turn<V: Windows, W>(grid: &mut Grid<V, W>, told: &mut Tallies, tile: u8)
    requires tile { tile < 4 }
    requires room { grid.old.state.counts.flushed + 8 < 2 ^ 64 }
    ensures change { seen (V.held grid.new.window) grid.new.state
        ≡ spec.data_turn (V.blocks grid.old.window) (V.budget grid.old.window) tile
        (seen (V.held grid.old.window) grid.old.state) }
    ensures heard { Heard told.old (noted.data_notes (V.blocks grid.old.window) (V.budget grid.old.window) tile
        (seen (V.held grid.old.window) grid.old.state)) told.new }
    ensures few { grid.new.state.counts.flushed ≤ grid.old.state.counts.flushed + 8 }
    ensures image { V.blocks grid.new.window ≡ V.blocks grid.old.window }
    ensures budget { V.budget grid.new.window ≡ V.budget grid.old.window }
{
    let frames = grid.window.numbers();
    match answerable(&grid.window, &grid.state, tile, frames.as_slice()) {
        Some(chosen) => answered(grid, told, tile, chosen.0, chosen.1),
        None => {}
    }
}

// Each data tile answers.
fn answer_tiles<V: Windows, W>(grid: &mut Grid<V, W>, told: &mut Tallies)
    requires { grid.old.state.counts.flushed + 32 < 2 ^ 64 }
    ensures change { seen (V.held grid.new.window) grid.new.state
        ≡ spec.answers (V.blocks grid.old.window) (V.budget grid.old.window)
        (seen (V.held grid.old.window) grid.old.state) }
    ensures heard { Heard told.old (noted.answers_notes (V.blocks grid.old.window) (V.budget grid.old.window)
        (seen (V.held grid.old.window) grid.old.state)) told.new }
    ensures image { V.blocks grid.new.window ≡ V.blocks grid.old.window }
    ensures budget { V.budget grid.new.window ≡ V.budget grid.old.window }
{
    for tile in 0..4u8 {
        data_turn(grid, told, tile);
    }
}

/// Part (4). Where no request stands at its data tile none has its turn.
pub fn answers<V: Windows, W>(grid: &mut Grid<V, W>, told: &mut Tallies)
    requires { grid.old.state.counts.flushed + 32 < 2 ^ 64 }
    ensures change { seen (V.held grid.new.window) grid.new.state
        ≡ spec.answers (V.blocks grid.old.window) (V.budget grid.old.window)
        (seen (V.held grid.old.window) grid.old.state) }
    ensures heard { Heard told.old (noted.answers_notes (V.blocks grid.old.window) (V.budget grid.old.window)
        (seen (V.held grid.old.window) grid.old.state)) told.new }
    ensures image { V.blocks grid.new.window ≡ V.blocks grid.old.window }
    ensures budget { V.budget grid.new.window ≡ V.budget grid.old.window }
{
    let frames = grid.window.numbers();
    if any_asked(&grid.state, frames.as_slice()) {
        answer_tiles(grid, told);
    }
}
