//! The firing that a tile would make next.
ghost use Rattle.std.specs.Prelude.{◌≡◌, ◌<◌, ◌||◌, is_none};
ghost use Rattle.grid_cycle_spec.specs.Choosing.{eldest, slots};
ghost use Rattle.grid_cycle.specs.Nexts.{fire_of, is_busy, next_firing, ready_entry};
ghost use Rattle.grid_parts.specs.Seen.{seen};
ghost use Rattle.grid_parts.specs.inside.Choices.{fires};

use frame_state::Event;
use grid_parts::{Grid, Windows, ready_slot};

// The firing of the eldest entry that may fire on a tile, whether or not its unit is free.
fn ready_firing<V: Windows>(window: &V, tile: u8) -> Option<Event>
    requires tile { tile < 16 }
    ensures { result ≡ fire_of (eldest (fires (V.blocks window.now) (V.budget window.now) (V.held window.now) tile)
        slots (V.held window.now).frames) }
{
    let frames = window.numbers();
    match ready_slot(window, tile, frames.as_slice()) {
        Some((frame, slot)) => Some(Event::Fire { frame, slot }),
        None => None,
    }
}

/// The firing of the eldest entry that may fire on a tile; none exactly where the tile's unit is busy or no entry may
/// fire.
pub fn next_firing<V: Windows, W>(grid: &Grid<V, W>, tile: u8) -> Option<Event>
    requires tile { tile < 16 }
    ensures value { result ≡ next_firing (V.blocks grid.now.window) (V.budget grid.now.window) tile
        (seen (V.held grid.now.window) grid.now.state) }
    ensures none { is_none result ≡ (is_busy tile (seen (V.held grid.now.window) grid.now.state)
        || is_none (ready_entry (V.blocks grid.now.window) (V.budget grid.now.window) tile
        (seen (V.held grid.now.window) grid.now.state))) }
{
    if grid.state.busy(tile) == 0 {
        ready_firing(&grid.window, tile)
    } else {
        None
    }
}
