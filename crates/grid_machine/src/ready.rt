//! The slots of a frame that may fire, and the reads that have not been answered, as bits.
ghost use Rattle.std.specs.Prelude.{◌≡◌, ◌<◌, ℕ, false};
ghost use Rattle.trips_isa.specs.declared.block.Block.{Block};
ghost use Rattle.trips_isa.specs.declared.run.Stepped.TheVariants.{Went};
ghost use Rattle.operand_net.specs.Marks.{has_bit};
ghost use Rattle.commit_flush_spec.specs.Causes.{NoFrame, NotNow};
ghost use Rattle.commit_flush_spec.specs.Dataflow.{can_fire};
ghost use Rattle.commit_flush_spec.specs.InFlight.{on_frame};
ghost use Rattle.commit_flush_spec.specs.Older.{committed};
ghost use Rattle.commit_flush_spec.specs.Window as event;
ghost use Rattle.commit_flush_spec.specs.Window.{can};
ghost use Rattle.commit_flush.specs.inside.Places.{frame_of};
ghost use Rattle.commit_flush.specs.inside.Observed.{unread_in};
ghost use Rattle.frame_state.specs.inside.Held.{running};
ghost use Rattle.frame_state.specs.inside.Shapes.{IsShape, is_ready};
ghost use Rattle.grid_cycle_spec.specs.Acting.{is_done};
ghost use Rattle.grid_machine.specs.inside.Shaped.{AreShapes};

use crate::bits::joined;
use crate::shapes::Shapes;
use commit_flush::Window;
use frame_state::{Body, Shape};
use trips_isa::Stepped;

// The slots of a frame that runs which fire now.
fn ready_in(held: &Body, shape: &Shape) -> u128
    ensures { (b : Block) → IsShape b shape.now → (s : ℕ) → s < 128
        → has_bit result s ≡ is_ready (running b held.now) s }
{
    joined(held.ready(shape, 0), held.ready(shape, 1))
}

// The slots of a frame that may fire while the run goes on.
fn ready_going(window: &Window, shapes: &Shapes, frame: u8) -> u128
    requires { AreShapes window.now.image.blocks shapes.now.shapes.items }
    ensures { (s : ℕ) → s < 128 → has_bit result s ≡ is_done (on_frame (NotNow NoFrame) (can_fire s)
        (committed window.now.window.state) window.now.window.frames frame) }
{
    window.keeps_invariant();
    match window.running(frame) {
        None => 0,
        Some((held, _)) => ready_in(held, shapes.at(held.block())),
    }
}

/// The slots of a frame that may fire.
pub fn ready(window: &Window, shapes: &Shapes, frame: u8) -> u128
    requires { AreShapes window.now.image.blocks shapes.now.shapes.items }
    ensures { (s : ℕ) → s < 128 → has_bit result s ≡ is_done (can window.now.image.blocks window.now.budget
        (event.Fire frame s) window.now.window) }
{
    match window.over() {
        Stepped::Went => ready_going(window, shapes, frame),
        Stepped::Ended => 0,
        Stepped::StackFull => 0,
        Stepped::Trap(_) => 0,
    }
}

/// The reads of a frame that have not been answered.
pub fn unread(window: &Window, frame: u8) -> u32
    ensures value { (r : ℕ) → r < 32
        → has_bit result r ≡ unread_in r (frame_of frame window.now.window.frames) }
    ensures closed { (r : ℕ) → r < 32 → has_bit result r ≡ false → is_done (can window.now.image.blocks
        window.now.budget (event.Read frame r) window.now.window) ≡ false }
{
    window.unread(frame)
}
