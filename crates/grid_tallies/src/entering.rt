//! How many parcels enter the mesh.
ghost use Rattle.std.specs.Prelude.{◌≡◌, ◌<◌, ◌*◌, slice_index_or};
ghost use Rattle.grid_events.specs.Counts.{one_if};
ghost use Rattle.grid_parts.specs.Seen.{seen};
ghost use Rattle.grid_parts.specs.inside.Asked.{frame_of, has_token};
ghost use Rattle.grid_tallies.specs.inside.Entering as spec;
ghost use Rattle.trips_isa.specs.Forms as forms;

use grid_parts::{Grid, Windows};
use trips_isa::{Form, Inst, form_of};

// One where a frame has a token in a place.
fn token_at<V: Windows>(window: &V, frame: u8, place: u16) -> u64
    requires frame { frame < 8 }
    requires place { place < 320 }
    ensures value { result ≡ one_if (has_token frame place (V.held window.now).frames) }
    ensures few { result < 2 }
{
    if window.has_token(frame, place) { 1 } else { 0 }
}

/// How many tokens a frame has in a place and the next.
pub fn tokens_at<V: Windows>(window: &V, frame: u8, place: u16) -> u64
    requires frame { frame < 8 }
    requires place { place < 319 }
    ensures { result ≡ spec.tokens_in place (frame_of frame (V.held window.now).frames) }
{
    token_at(window, frame, place) + token_at(window, frame, place + 1)
}

// How many parcels the result of an instruction is.
fn results_of<V: Windows>(window: &V, frame: u8, slot: u8, inst: Inst) -> u64
    requires frame { frame < 8 }
    requires slot { slot < 128 }
    ensures { result ≡ spec.results_of (forms.form_of inst.op) slot (frame_of frame (V.held window.now).frames) }
{
    match form_of(inst.op) {
        Form::Load => 1,
        Form::Store => 1,
        Form::Branch => 1,
        Form::General => tokens_at(window, frame, 2 * slot as u16),
        Form::Immediate => tokens_at(window, frame, 2 * slot as u16),
        Form::Constant => tokens_at(window, frame, 2 * slot as u16),
    }
}

// How many parcels the result of a slot of a frame is.
fn results_in<V: Windows>(window: &V, frame: u8, slot: u8) -> u64
    requires frame { frame < 8 }
    requires slot { slot < 128 }
    ensures { result ≡ spec.finished (Some (frame, slot)) (V.held window.now).frames }
{
    match window.inst_of(frame, slot) {
        Some(inst) => results_of(window, frame, slot, inst),
        None => 0,
    }
}

// How many parcels the eldest result in the unit of a tile is.
fn finished<V: Windows, W>(grid: &Grid<V, W>, tile: u8) -> u64
    requires { tile < 16 }
    ensures { result ≡ spec.given tile 1 (seen (V.held grid.now.window) grid.now.state) }
{
    let frames = grid.window.numbers();
    match grid.state.result_of(tile, frames.as_slice()) {
        Some(chosen) => results_in(&grid.window, chosen.0, chosen.1),
        None => 0,
    }
}

/// How many parcels the unit of a tile gives in this cycle.
pub fn given<V: Windows, W>(grid: &Grid<V, W>, tile: u8) -> u64
    requires { tile < 16 }
    ensures { result ≡ spec.given tile (slice_index_or grid.now.state.units tile 0)
        (seen (V.held grid.now.window) grid.now.state) }
{
    if grid.state.busy(tile) == 1 {
        finished(grid, tile)
    } else {
        0
    }
}
