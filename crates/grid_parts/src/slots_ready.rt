//! Which slot a free unit issues.
ghost use Rattle.std.specs.Prelude.{◌≡◌, ◌<◌, All, IfSome};
ghost use Rattle.grid_cycle_spec.specs.Choosing.{eldest, slots};
ghost use Rattle.grid_cycle_spec.specs.Grid.{numbers_of};
ghost use Rattle.grid_parts.specs.inside.Choices.{fires, lowest_ready};
ghost use Rattle.grid_parts.specs.inside.Marked.{SlotsMarked};

use crate::slots::lowest_on;
use crate::windows::Windows;

// The lowest slot of a frame that may fire on a tile.
fn ready_in<V: Windows>(window: &V, tile: u8, frame: u8) -> Option<u8>
    requires tile { tile < 16 }
    requires frame { frame < 8 }
    ensures value { result
        ≡ lowest_ready (V.blocks window.now) (V.budget window.now) (V.held window.now) tile frame }
    ensures within { IfSome result (λ s. s < 128) }
{
    lowest_on(window.ready(frame), tile)
}

/// The eldest entry that may fire on a tile: the frame, and the slot. `order` names the frames in flight, the oldest
/// first.
pub fn ready_slot<V: Windows>(window: &V, tile: u8, order: &[u8]) -> Option<(u8, u8)>
    requires tile { tile < 16 }
    requires order { order.now ≡ numbers_of (V.held window.now).frames }
    requires within { All (λ n. n < 8) order.now }
    ensures value { result
        ≡ eldest (fires (V.blocks window.now) (V.budget window.now) (V.held window.now) tile) slots
        (V.held window.now).frames }
    ensures within { IfSome result (λ q. (q.0 < 8) × (q.1 < 128)) }
{
    for i in 0..order.len() {
        let frame = order[i];
        match ready_in(window, tile, frame) {
            Some(slot) => return Some((frame, slot)),
            None => {}
        }
    }
    None
}

/// Marks of slots, of which each that may fire in some frame has one. `order` names the frames in flight, the oldest
/// first.
pub fn marked_slots<V: Windows>(window: &V, order: &[u8]) -> u128
    requires order { order.now ≡ numbers_of (V.held window.now).frames }
    requires within { All (λ n. n < 8) order.now }
    ensures { SlotsMarked (V.blocks window.now) (V.budget window.now) (V.held window.now) result }
{
    let mut marks: u128 = 0;
    for i in 0..order.len() {
        let frame = order[i];
        let word = window.ready(frame);
        marks |= word;
    }
    marks
}
