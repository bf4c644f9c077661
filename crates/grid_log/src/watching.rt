//! The window in code tells what is asked for a log.
ghost use Rattle.std.specs.Prelude.{◌≡◌, ◌<◌, Bool, length};
ghost use Rattle.trips_isa.specs.declared.block.Block.{Block};
ghost use Rattle.commit_flush_spec.specs.Ends.{exit_by};
ghost use Rattle.commit_flush_spec.specs.Older.{successor_of};
ghost use Rattle.frame_state.specs.inside.Held.{as_frame};
ghost use Rattle.grid_cycle_spec.specs.DataTiles.{stored_by};
ghost use Rattle.grid_events.specs.StationNotes.{is_null};
ghost use Rattle.grid_log.specs.inside.Telling.{leads_at, null_at};

use crate::watched::Watched;
use block_check::CheckedImage;
use commit_flush::Window;
use frame_state::{Body, departure};
use grid_machine::GridWindow;
use trips_isa::{Inst, Stored, Token};

// The store of what waits.
fn stored_by(held: &Body, request: Option<(u8, Inst)>) -> Option<Stored>
    ensures { (b : Block) (sealed : Bool) → result ≡ stored_by (as_frame sealed b held.now) request }
{
    match request {
        None => None,
        Some((slot, inst)) => held.would_store(inst, slot),
    }
}

// Whether a store is a null one.
fn is_null(stored: Option<Stored>) -> bool
    ensures { result ≡ is_null stored }
{
    match stored {
        None => false,
        Some(stored) => stored.value.is_none(),
    }
}

// Whether the store that waits with a number in a frame is a null one.
fn null_in(window: &Window, frame: u8, number: u8) -> bool
    ensures { result ≡ null_at frame number window.now.window.frames }
{
    match window.flying(frame) {
        None => false,
        Some((held, block)) => is_null(stored_by(held, held.request(block, number))),
    }
}

// The block that a branch of a block makes known.
fn successor_by(image: &CheckedImage, number: u32, leaving: Option<(Inst, Token)>) -> Option<u32>
    requires { number < length image.now.blocks }
    ensures { result ≡ successor_of (exit_by image.now.blocks number leaving) }
{
    match departure(image, number, leaving) {
        None => None,
        Some(exit) => Some(exit.successor),
    }
}

// The block to which the branch that waits in a frame leads.
fn leads_in(window: &Window, frame: u8) -> Option<u32>
    ensures { result ≡ leads_at window.now.image.blocks frame window.now.window.frames }
{
    window.keeps_invariant();
    match window.flying(frame) {
        None => None,
        Some((held, block)) => successor_by(window.image(), held.block(), held.branch(block)),
    }
}

impl Watched for GridWindow {
    fn is_null_store(&self, frame: u8, number: u8) -> bool {
        null_in(self.window(), frame, number)
    }

    fn leads_to(&self, frame: u8) -> Option<u32> {
        leads_in(self.window(), frame)
    }
}
