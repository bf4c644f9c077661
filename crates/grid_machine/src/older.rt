//! Whether older stores are resolved.
ghost use Rattle.std.specs.Prelude.{◌≡◌, ◌<◌, ◌≤◌, ◌||◌, Some, is_some, not, slice_get};
ghost use Rattle.trips_isa.specs.Places.{in_mask};
ghost use Rattle.commit_flush_spec.specs.Ends.{all_below, store_came};
ghost use Rattle.commit_flush_spec.specs.Frames.{Frame, at};
ghost use Rattle.grid_cycle_spec.specs.DataTiles.{all_resolved};
ghost use Rattle.grid_machine.specs.inside.Named.{is_named};

use commit_flush::Window;
use frame_state::Body;
use trips_isa::in_mask;

// Whether a number has its store, or wants none.
fn store_came(held: &Body, mask: u32, number: u8) -> bool
    ensures { result ≡ (not (in_mask mask number) || is_some (at held.now.stores number)) }
{
    !in_mask(mask, number) || held.stored(number).is_some()
}

// Whether each number below one has its store, or wants none.
fn stores_came(held: &Body, mask: u32, below: u8) -> bool
    ensures { result ≡ all_below (λ n. not (in_mask mask n) || is_some (at held.now.stores n)) below }
{
    for number in 0..below {
        if !store_came(held, mask, number) {
            return false;
        }
    }
    true
}

// The same of the frame of an age.
fn came_at(window: &Window, age: u8, below: u8) -> bool
    ensures { (f : Frame) → slice_get window.now.window.frames age ≡ Some f
        → result ≡ all_below (store_came f) below }
{
    match window.flying_at(age) {
        None => false,
        Some((held, block)) => stores_came(held, block.mask, below),
    }
}

// Whether this frame was found.
fn is_named(found: Option<u8>, frame: u8) -> bool
    ensures { result ≡ is_named found frame }
{
    match found {
        None => false,
        Some(number) => number == frame,
    }
}

/// Whether all stores before a number of a frame are resolved: those of older frames, and its own of lower numbers.
pub fn settled(window: &Window, frame: u8, number: u8) -> bool
    ensures { result ≡ all_resolved frame number window.now.window.frames }
{
    let count = window.in_flight();
    for age in 0..count {
        if is_named(window.frame_at(age), frame) {
            return came_at(window, age, number);
        }
        if !came_at(window, age, 32) {
            return false;
        }
    }
    false
}
