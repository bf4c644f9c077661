//! What is asked of a window for right predictions, beside what the grid asks of it.
ghost use Rattle.std.specs.Prelude.{◌≡◌, ◌<◌, length};
ghost use Rattle.commit_flush_spec.specs.Ends.{exit_by};
ghost use Rattle.commit_flush_spec.specs.Older.{successor_of};
ghost use Rattle.grid_tallies.specs.inside.Leaving.{leads_at};

use block_check::CheckedImage;
use commit_flush::Window;
use frame_state::departure;
use grid_machine::GridWindow;
use grid_parts::Windows;
use trips_isa::{Inst, Token};

/// A window that tells where the branches lead that wait in its frames.
pub trait Leading: Windows {
    /// The block to which the branch that waits in a frame leads; none where the frame is not in flight.
    fn names(&self, frame: u8) -> Option<u32>
        requires { frame < 8 }
        ensures { result ≡ leads_at (Self.blocks self.now) frame (Self.held self.now).frames };
}

// The block that a branch of a block makes known.
fn successor_by(image: &CheckedImage, number: u32, leaving: Option<(Inst, Token)>) -> Option<u32>
    requires { number < length image.now.blocks }
    ensures { result ≡ successor_of (exit_by image.now.blocks number leaving) }
{
    match departure(image, number, leaving) {
        None => None,
        Some(exit) => Some(exit.successor),
    }
}

/// The block to which the branch that waits in a frame leads.
pub fn leads_in(window: &Window, frame: u8) -> Option<u32>
    ensures { result ≡ leads_at window.now.image.blocks frame window.now.window.frames }
{
    window.keeps_invariant();
    match window.flying(frame) {
        None => None,
        Some((held, block)) => successor_by(window.image(), held.block(), held.branch(block)),
    }
}

impl Leading for GridWindow {
    fn names(&self, frame: u8) -> Option<u32> {
        leads_in(self.window(), frame)
    }
}
