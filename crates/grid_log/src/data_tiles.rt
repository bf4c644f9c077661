//! Part (4) of a cycle, logged: data tiles answer loads and stores.
ghost use Rattle.std.specs.Prelude.{◌≡◌, ◌<◌, ◌≤◌, ◌+◌, ◌^◌, ◌∷◌, ◌++◌, Some};
ghost use Rattle.trips_isa.specs.Forms as forms;
ghost use Rattle.grid_cycle_spec.specs.DataTiles as spec;
ghost use Rattle.grid_events.specs.StationNotes as noted;
ghost use Rattle.grid_parts.specs.Seen.{seen};
ghost use Rattle.grid_log.specs.Logs.{Logged};

use crate::event::{Cause, Event};
use crate::flushes::{fetch_of, tell_gone};
use crate::log::Log;
use crate::watched::Watched;
use grid_parts::{Grid, answerable};
use trips_isa::{Form, Op, form_of};

// Whether an operation is a store.
fn is_store(op: Op) -> bool
    ensures { result ≡ forms.is_store (forms.form_of op) }
{
    match form_of(op) {
        Form::Store => true,
        _ => false,
    }
}

// The answer to what waits with a number in a frame, where anything does.
fn answered<V: Watched, W>(grid: &mut Grid<V, W>, log: &mut Log, tile: u8, frame: u8, number: u8)
    requires tile { tile < 4 }
    requires frame { frame < 8 }
    requires number { number < 32 }
    requires room { grid.old.state.counts.flushed + 8 < 2 ^ 64 }
    ensures change { seen (V.held grid.new.window) grid.new.state
        ≡ spec.answer_chosen (V.blocks grid.old.window) (V.budget grid.old.window) tile (Some (frame, number))
        (seen (V.held grid.old.window) grid.old.state) }
    ensures told { Logged log.old (noted.answer_notes (V.blocks grid.old.window) (V.budget grid.old.window) tile
        (Some (frame, number)) (seen (V.held grid.old.window) grid.old.state)) log.new }
    ensures few { grid.new.state.counts.flushed ≤ grid.old.state.counts.flushed + 8 }
    ensures image { V.blocks grid.new.window ≡ V.blocks grid.old.window }
    ensures budget { V.budget grid.new.window ≡ V.budget grid.old.window }
{
    let request = grid.window.request_of(frame, number);
    let null = grid.window.is_null_store(frame, number);
    let before = grid.window.numbers();
    let fetch = fetch_of(&grid.state);
    grid.answer(tile, frame, number);
    match request {
        Some(request) => {
            if is_store(request.inst.op) {
                log.keep(Event::Stores {
                    tile,
                    frame,
                    number,
                    null,
                });
                tell_gone(grid, log, before.as_slice(), fetch, Cause::Violation);
            } else {
                log.keep(Event::Loads {
                    tile,
                    frame,
                    number,
                });
            }
        }
        None => {}
    }
}

// A data tile answers its eldest answerable request.
fn data_turn<V: Watched, W>(grid: &mut Grid<V, W>, log: &mut Log, tile: u8)
    requires tile { tile < 4 }
    requires room { grid.old.state.counts.flushed + 8 < 2 ^ 64 }
    ensures change { seen (V.held grid.new.window) grid.new.state
        ≡ spec.data_turn (V.blocks grid.old.window) (V.budget grid.old.window) tile
        (seen (V.held grid.old.window) grid.old.state) }
    ensures told { Logged log.old (noted.data_notes (V.blocks grid.old.window) (V.budget grid.old.window) tile
        (seen (V.held grid.old.window) grid.old.state)) log.new }
    ensures few { grid.new.state.counts.flushed ≤ grid.old.state.counts.flushed + 8 }
    ensures image { V.blocks grid.new.window ≡ V.blocks grid.old.window }
    ensures budget { V.budget grid.new.window ≡ V.budget grid.old.window }
{
    let frames = grid.window.numbers();
    match answerable(&grid.window, &grid.state, tile, frames.as_slice()) {
        Some(chosen) => answered(grid, log, tile, chosen.0, chosen.1),
        None => {}
    }
}

/// Part (4).
pub fn answers<V: Watched, W>(grid: &mut Grid<V, W>, log: &mut Log)
    requires { grid.old.state.counts.flushed + 32 < 2 ^ 64 }
    ensures change { seen (V.held grid.new.window) grid.new.state
        ≡ spec.answers (V.blocks grid.old.window) (V.budget grid.old.window)
        (seen (V.held grid.old.window) grid.old.state) }
    ensures told { Logged log.old (noted.answers_notes (V.blocks grid.old.window) (V.budget grid.old.window)
        (seen (V.held grid.old.window) grid.old.state)) log.new }
    ensures image { V.blocks grid.new.window ≡ V.blocks grid.old.window }
    ensures budget { V.budget grid.new.window ≡ V.budget grid.old.window }
{
    for tile in 0..4u8 {
        data_turn(grid, log, tile);
    }
}
