//! What events would be answered.
ghost use Rattle.std.specs.Prelude.{◌≡◌};
ghost use Rattle.commit_flush_spec.specs.Window.{can};
ghost use Rattle.frame_state.specs.Events.{as_event};
ghost use Rattle.grid_cycle_spec.specs.Acting.{is_done};

use commit_flush::Window;
use frame_state::Event;

/// Whether an event would be done.
#[inline(always)]
pub fn may(window: &Window, e: Event) -> bool
    ensures { result ≡ is_done (can window.now.image.blocks window.now.budget (as_event e) window.now.window) }
{
    window.can(e).is_done()
}
