//! A run of a window, and how it ends.
ghost use Rattle.std.specs.Prelude.{◌≡◌, ◌-◌, ◌<◌, ◌^◌, length, slice_index};
ghost use Rattle.trips_isa.specs.declared.run.Stepped.TheVariants.{Went};
ghost use Rattle.trips_isa.specs.Machine.{runs};
ghost use Rattle.commit_flush_spec.specs.inside.Driving.{driven};
ghost use Rattle.commit_flush_spec.specs.inside.DrivingLaws.{HasGenerations};
ghost use Rattle.commit_flush.specs.inside.Endings.{ended, ending_of};

use crate::driving::drive;
use crate::window::Window;
use trips_isa::{Ending, Stepped};

// How a run has ended, where the last step came to this and this block is next.
fn ending_of(over: Stepped, next: u32) -> Ending
    ensures { result ≡ ending_of over next }
{
    match over {
        Stepped::Went => Ending::Budget,
        Stepped::Ended => Ending::Ended,
        Stepped::StackFull => Ending::StackFull,
        Stepped::Trap(cause) => Ending::Trap { block: next, cause },
    }
}

// Driving wants room in frame 0's generation for all its events: there is, since these are at most 1,638 for each
// block of a budget that is below 2^32, and for the oldest frame. It does nothing.
fn has_generations(window: &Window)
    requires { slice_index window.now.window.generations 0 < 2 ^ 62 }
    ensures { HasGenerations window.now.budget window.now.window }
{
    window.keeps_invariant();
    let _budget = window.budget();
}

/// Drives a window to its end, and tells how its run has ended: as the machine's run within what is left of the
/// budget ends. Frame 0 was filled fewer than 2^62 times before.
pub fn run(window: &mut Window) -> Ending
    requires generations { slice_index window.old.window.generations 0 < 2 ^ 62 }
    ensures driven { window.new ≡ record window.old {
      window = driven window.old.image.blocks window.old.budget window.old.window;
    } }
    ensures ending { result ≡ ending_of window.new.window.over window.new.window.state.next }
    ensures runs { window.old.window.over ≡ Went → (window.new.window.state, result)
        ≡ ended (runs window.old.image.blocks window.old.window.state
        (window.old.budget - length window.old.window.state.trace)) }
{
    has_generations(window);
    let over = drive(window);
    ending_of(over, window.arch().next())
}
