//! Which event of a window is next.
ghost use Rattle.std.specs.Prelude.{◌≡◌, ◌<◌, IfSome, Some, slice_get};
ghost use Rattle.trips_isa.specs.Machine.{State};
ghost use Rattle.trips_isa.specs.Tables.{or_else};
ghost use Rattle.trips_isa.specs.declared.block.Block.{Block};
ghost use Rattle.trips_isa.specs.declared.run.Stepped.TheVariants.{Went};
ghost use Rattle.commit_flush_spec.specs.Older.{Older, committed};
ghost use Rattle.commit_flush.specs.Places.{numbers_of};
ghost use Rattle.frame_state.specs.inside.Held.{running};
ghost use Rattle.frame_state.specs.inside.Shapes.{IsShape};
ghost use Rattle.commit_flush_spec.specs.inside.NextEvent as spec;
ghost use Rattle.commit_flush.specs.inside.Known.{IsKnown};
ghost use Rattle.commit_flush.specs.inside.Steps.{as_next, next_at};

use crate::known::{Known, shape_of};
use crate::searching::lowest;
use crate::step::Step;
use crate::window::Window;
use frame_state::{Body, Event, Shape};
use trips_isa::{Block, Stepped};

// The event of the lowest number of a step of the oldest frame that may be taken.
fn next_at(held: &Body, block: &Block, shape: Option<&Shape>, step: Step) -> Option<Event>
    requires number { held.now.number < 8 }
    requires shape { IfSome shape (λ x. IsShape block.now x.now) }
    ensures { (s : State) → as_next result ≡ next_at step (committed s) (running block.now held.now) }
{
    let frame = held.number();
    match lowest(held, block, shape, step) {
        None => None,
        Some(number) => Some(step.event(frame, number)),
    }
}

// The exit of the branch that waits.
fn next_exit(held: &Body) -> Option<Event>
    ensures { (b : Block) (o : Older) → as_next result ≡ spec.next_exit o (running b held.now) }
{
    let frame = held.number();
    match held.leaving() {
        None => None,
        Some(_) => Some(Event::Exit { frame }),
    }
}

// The loads and stores of the oldest frame, and its exit.
fn next_request(held: &Body, block: &Block, shape: Option<&Shape>) -> Option<Event>
    requires number { held.now.number < 8 }
    requires shape { IfSome shape (λ x. IsShape block.now x.now) }
    ensures { (s : State) → as_next result
        ≡ or_else (spec.next_store (committed s) (running block.now held.now))
        (or_else (spec.next_load (committed s) (running block.now held.now))
        (spec.next_exit (committed s) (running block.now held.now))) }
{
    if let Some(e) = next_at(held, block, shape, Step::Store) {
        return Some(e);
    }
    if let Some(e) = next_at(held, block, shape, Step::Load) {
        return Some(e);
    }
    next_exit(held)
}

// The step of the oldest frame that is next.
fn next_step(held: &Body, block: &Block, shape: Option<&Shape>) -> Option<Event>
    requires number { held.now.number < 8 }
    requires shape { IfSome shape (λ x. IsShape block.now x.now) }
    ensures { (s : State) → as_next result ≡ spec.next_step (committed s) (running block.now held.now) }
{
    if let Some(e) = next_at(held, block, shape, Step::Token) {
        return Some(e);
    }
    if let Some(e) = next_at(held, block, shape, Step::Firing) {
        return Some(e);
    }
    if let Some(e) = next_at(held, block, shape, Step::Read) {
        return Some(e);
    }
    next_request(held, block, shape)
}

// The event of the oldest frame that is next, where it runs.
fn next_of_running(held: &Body, block: &Block, shape: Option<&Shape>) -> Option<Event>
    requires number { held.now.number < 8 }
    requires shape { IfSome shape (λ x. IsShape block.now x.now) }
    ensures { (s : State) → as_next result ≡ spec.next_of_frame (committed s) (running block.now held.now) }
{
    let frame = held.number();
    if held.is_complete(block) {
        Some(Event::Seal { frame })
    } else {
        next_step(held, block, shape)
    }
}

// The event of the oldest frame that is next: one that does not run is sealed, and is committed.
fn next_of_frame(window: &Window, known: &Option<Known>, frame: u8) -> Option<Event>
    requires known { IsKnown window.now.image.blocks known.now }
    requires oldest { slice_get (numbers_of window.now.window.frames) 0 ≡ Some frame }
    ensures { as_next result ≡ spec.next_in window.now.window.frames window.now.window.state }
{
    window.keeps_invariant();
    match window.running(frame) {
        None => Some(Event::Commit),
        Some((held, block)) => {
            let shape = shape_of(known, held.block());
            next_of_running(held, block, shape)
        }
    }
}

// The next event while the run goes on.
fn next_while_going(window: &Window, known: &Option<Known>) -> Option<Event>
    requires known { IsKnown window.now.image.blocks known.now }
    requires goes_on { window.now.window.over ≡ Went }
    ensures { as_next result ≡ spec.next_event window.now.budget window.now.window }
{
    window.keeps_invariant();
    if window.arch().trace().len() >= window.budget() as usize {
        return None;
    }
    match window.frame_at(0) {
        None => Some(Event::Fetch {
            block: window.arch().next(),
        }),
        Some(frame) => next_of_frame(window, known, frame),
    }
}

/// The next event, where this is known of a block of the image.
pub fn next_with(window: &Window, known: &Option<Known>) -> Option<Event>
    requires known { IsKnown window.now.image.blocks known.now }
    ensures value { as_next result ≡ spec.next_event window.now.budget window.now.window }
{
    match window.over() {
        Stepped::Went => next_while_going(window, known),
        Stepped::Ended | Stepped::StackFull | Stepped::Trap(_) => None,
    }
}

/// The event that is next: Fetch of the committed next block where no frame is in flight, else one of the oldest
/// frame. There is none exactly where the run has ended or the budget's commits were made.
pub fn next_event(window: &Window) -> Option<Event>
    ensures value { as_next result ≡ spec.next_event window.now.budget window.now.window }
{
    next_with(window, &None)
}
