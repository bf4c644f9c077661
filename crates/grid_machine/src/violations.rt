//! Which frame a store would flush first, and which load of it is wrong.
ghost use Rattle.std.specs.Prelude.{◌≡◌, ◌<◌, ◌≤◌, ℕ, suc, Bool, IfSome, None, Some, drop, length, slice_get};
ghost use Rattle.trips_isa.specs.declared.block.Block.{Block};
ghost use Rattle.commit_flush_spec.specs.Frames.{Frame, at, numbers};
ghost use Rattle.commit_flush_spec.specs.Memory.{request, with_store};
ghost use Rattle.commit_flush_spec.specs.Older.{passes, took_touched};
ghost use Rattle.frame_state.specs.inside.Held.{as_frame};
ghost use Rattle.grid_cycle_spec.specs.Choosing.{found_in, least};
ghost use Rattle.grid_cycle_spec.specs.DataTiles.{stored_by, wrong_behind, wrong_from, wrong_in, wrong_load};
ghost use Rattle.lsq_order.specs.inside.Reached.{reached};

use crate::events::may;
use commit_flush::Window;
use frame_state::{Body, Event};
use lsq_order::Reach;
use trips_isa::{Inst, Stored};

// A load of a frame.
fn load_of(held: &Body, load: Option<u8>) -> Option<(u8, u8)>
    ensures { (b : Block) (sealed : Bool) → result ≡ found_in (as_frame sealed b held.now) load None }
{
    match load {
        None => None,
        Some(number) => Some((held.number(), number)),
    }
}

// The lowest load of the frame of an age that took a byte which is reached.
fn wrong_at(window: &Window, age: u8, reach: &mut Reach) -> Option<(u8, u8)>
    ensures found { (f : Frame) → slice_get window.now.window.frames age ≡ Some f → result ≡ found_in f
        (least (λ n. took_touched (passes (at f.stores) n (reached reach.old)) (at f.loads n)) numbers 0) None }
    ensures left { (f : Frame) → slice_get window.now.window.frames age ≡ Some f → result ≡ None → (a : ℕ)
        → reached reach.new a ≡ passes (at f.stores) numbers (reached reach.old) a }
{
    match window.flying_at(age) {
        None => None,
        Some((held, _)) => load_of(held, reach.first_wrong(held.stores(), held.loads(), 0)),
    }
}

// The first of the frames from an age on with a load that took a byte which is reached, and its lowest such load.
fn wrong_on(window: &Window, reach: &mut Reach, from: u8) -> Option<(u8, u8)>
    requires { from ≤ length window.now.window.frames }
    ensures { result ≡ wrong_behind (reached reach.old) (drop from window.now.window.frames) }
{
    let count = window.in_flight();
    for age in from..count {
        match wrong_at(window, age, reach) {
            Some(found) => return Some(found),
            None => {}
        }
    }
    None
}

// The store of what waits.
fn stored_by(held: &Body, request: Option<(u8, Inst)>) -> Option<Stored>
    ensures { (b : Block) (sealed : Bool) → result ≡ stored_by (as_frame sealed b held.now) request }
{
    match request {
        None => None,
        Some((slot, inst)) => held.would_store(inst, slot),
    }
}

// The first frame with a load that a store of the frame of an age makes wrong, and its lowest such load.
fn wrong_by(window: &Window, age: u8, number: u8) -> Option<(u8, u8)>
    requires age { age < 8 }
    requires number { number < 32 }
    ensures { (f : Frame) → slice_get window.now.window.frames age ≡ Some f
        → result ≡ wrong_from number (with_store number (stored_by f (request f number)) 0 f)
        (drop (suc age) window.now.window.frames) }
{
    window.keeps_invariant();
    match window.flying_at(age) {
        None => None,
        Some((held, block)) => {
            let stored = stored_by(held, held.request(block, number));
            let mut reach = Reach::of(stored);
            match reach.first_wrong(held.stores(), held.loads(), number + 1) {
                None => wrong_on(window, &mut reach, age + 1),
                Some(load) => Some((held.number(), load)),
            }
        }
    }
}

// The same of what waits with a number in a frame, where it is resolved as a store.
fn wrong_in(window: &Window, frame: u8, number: u8) -> Option<(u8, u8)>
    requires { number < 32 }
    ensures { result ≡ wrong_in frame number window.now.window.frames }
{
    match window.age_of(frame) {
        None => None,
        Some(age) => wrong_by(window, age, number),
    }
}

/// The frame that the store with a number of a frame would flush first, and its lowest wrong load; none where it
/// would flush none, or would not be done.
pub fn wrong_load(window: &Window, frame: u8, number: u8) -> Option<(u8, u8)>
    requires { number < 32 }
    ensures value { result
        ≡ wrong_load window.now.image.blocks window.now.budget frame number window.now.window }
    ensures within { IfSome result (λ c. c.0 < 8) }
{
    window.keeps_invariant();
    if may(window, Event::Store { frame, number }) {
        wrong_in(window, frame, number)
    } else {
        None
    }
}
