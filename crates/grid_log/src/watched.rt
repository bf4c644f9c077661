//! What is asked of a window for a log, beside what the grid asks of it.
ghost use Rattle.std.specs.Prelude.{◌≡◌, ◌<◌};
ghost use Rattle.grid_log.specs.inside.Telling.{leads_at, null_at};

use grid_parts::Windows;

/// A window that tells of what waits in its frames. What is asked of a frame that is not in flight is answered by
/// none or by false.
pub trait Watched: Windows {
    /// Whether the store that waits with a number in a frame is a null one.
    fn is_null_store(&self, frame: u8, number: u8) -> bool
        requires { frame < 8 }
        ensures { result ≡ null_at frame number (Self.held self.now).frames };

    /// The block to which the branch that waits in a frame leads.
    fn leads_to(&self, frame: u8) -> Option<u32>
        requires { frame < 8 }
        ensures { result ≡ leads_at (Self.blocks self.now) frame (Self.held self.now).frames };
}
