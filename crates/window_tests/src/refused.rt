//! A refused event, said by a clause of its own: the window is as it was.

ghost use Rattle.std.specs.Prelude.{◌≡◌, ◌≢◌};
ghost use Rattle.commit_flush_spec.specs.Causes.{Done};
ghost use Rattle.frame_state.specs.Events.{as_happened};

use commit_flush::Window;
use frame_state::{Event, Happened};

/// Lets an event happen in any window, as `Window::event` does. Where a cause holds against it the window is as it
/// was: image, budget, frames, committed state and all.
pub fn refused_events_leave(window: &mut Window, e: Event) -> Happened
    ensures left { as_happened result ≢ Done → window.new ≡ window.old }
{
    window.event(e)
}
