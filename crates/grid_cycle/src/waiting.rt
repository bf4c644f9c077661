//! Which output the oldest frame lacks.
ghost use Rattle.std.specs.Prelude.{◌≡◌, is_none, slice_get};
ghost use Rattle.commit_flush.specs.Observed.{is_whole_in};
ghost use Rattle.grid_cycle.specs.Lacks.{oldest_lacks};

use commit_flush::Window;
use frame_state::Lack;

/// The least output that the oldest frame lacks; none exactly where no frame is in flight, or the oldest has all
/// outputs.
pub fn waiting_on(window: &Window) -> Option<Lack>
    ensures value { result ≡ oldest_lacks window.now.window.frames }
    ensures whole { is_none result ≡ is_whole_in (slice_get window.now.window.frames 0) }
{
    match window.frame_at(0) {
        None => None,
        Some(frame) => window.lacks(frame),
    }
}
