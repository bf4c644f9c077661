//! Part (6) of a cycle, logged: what has arrived is delivered.
ghost use Rattle.std.specs.Prelude.{◌≡◌, ◌<◌, ◌≤◌, ◌+◌, ◌++◌, ◌^◌, All, Some, drop, length};
ghost use Rattle.trips_isa.specs.Forms as forms;
ghost use Rattle.commit_flush_spec.specs.Frames.{Frame};
ghost use Rattle.grid_cycle_spec.specs.inside.Arrivals as spec;
ghost use Rattle.operand_net.specs.Places as positions;
ghost use Rattle.grid_cycle_spec.specs.Choosing.{each, with_frame};
ghost use Rattle.grid_cycle_spec.specs.inside.Choosing.{places};
ghost use Rattle.grid_events.specs.ArrivalNotes as noted;
ghost use Rattle.grid_events.specs.Plays.{block_of};
ghost use Rattle.grid_events.specs.Turns.{of_each, of_frame};
ghost use Rattle.grid_parts.specs.Seen.{seen};
ghost use Rattle.grid_parts.specs.inside.Asked.{frame_of};
ghost use Rattle.grid_parts.specs.inside.EmptyPlaces.{AreQuiet};
ghost use Rattle.grid_log.specs.declared.log.Log as logs;
ghost use Rattle.grid_log.specs.Events.{why_of};
ghost use Rattle.grid_log.specs.Logs.{Logged};
ghost use Rattle.grid_log.specs.inside.Telling.{arrived_notes, event_at, given_up, load_event, slot_event, with_gone};

use crate::event::{Cause, Event};
use crate::flushes::{fetch_of, tell_gone};
use crate::log::Log;
use crate::watched::Watched;
use grid_parts::Grid;
use trips_isa::{Form, Inst, form_of};

// Whether a load waits with its number for the given slot.
fn is_waiting(waiting: Option<u8>, slot: u16) -> bool
    ensures { result ≡ spec.is_waiting waiting slot }
{
    match waiting {
        Some(k) => k as u16 == slot,
        None => false,
    }
}

// The event where a parcel of a load's slot has arrived.
fn load_event(waiting: Option<u8>, frame: u8, place: u16) -> Option<Event>
    ensures { result ≡ load_event waiting frame place }
{
    if is_waiting(waiting, place / 2) {
        None
    } else {
        Some(Event::Delivers { frame, place })
    }
}

// The event where a parcel of a slot has arrived.
fn slot_event<V: Watched>(window: &V, frame: u8, place: u16, inst: Inst) -> Option<Event>
    requires frame { frame < 8 }
    ensures { (f : Frame) → frame_of frame (V.held window.now).frames ≡ Some f
        → result ≡ slot_event (V.blocks window.now) (forms.form_of inst.op) inst place f }
{
    match form_of(inst.op) {
        Form::Load => load_event(window.waits_at(frame, inst.number), frame, place),
        Form::Store => None,
        Form::Branch => Some(Event::Leaves {
            frame,
            block: window.leads_to(frame),
        }),
        Form::General => Some(Event::Delivers { frame, place }),
        Form::Immediate => Some(Event::Delivers { frame, place }),
        Form::Constant => Some(Event::Delivers { frame, place }),
    }
}

// The event where a parcel has arrived in a place of a frame.
fn event_at<V: Watched>(window: &V, frame: u8, place: u16) -> Option<Event>
    requires frame { frame < 8 }
    requires place { place < 320 }
    ensures { result ≡ event_at (V.blocks window.now) frame place (V.held window.now).frames }
{
    if window.block_of(frame).is_some() {
        if place < 256 {
            match window.inst_of(frame, (place / 2) as u8) {
                Some(inst) => slot_event(window, frame, place, inst),
                None => None,
            }
        } else {
            Some(Event::Delivers { frame, place })
        }
    } else {
        None
    }
}

// An event, and what an exit has taken along.
fn tell_event<V: Watched, W>(
    grid: &Grid<V, W>,
    log: &mut Log,
    event: Event,
    before: &[u8],
    fetch: Option<(u32, bool)>,
)
    ensures { Logged log.old (with_gone event (drop (length (V.held grid.now.window).frames) before.now)
        (given_up fetch (block_of grid.now.state.fetching))) log.new }
{
    log.keep(event);
    match event {
        Event::Leaves { .. } => tell_gone(grid, log, before, fetch, Cause::WrongExit),
        _ => {}
    }
}

// The same of an event, where there is one.
fn tell_arrival<V: Watched, W>(
    grid: &Grid<V, W>,
    log: &mut Log,
    event: Option<Event>,
    before: &[u8],
    fetch: Option<(u32, bool)>,
)
    ensures { Logged log.old (arrived_notes event (drop (length (V.held grid.now.window).frames) before.now)
        (given_up fetch (block_of grid.now.state.fetching))) log.new }
{
    match event {
        Some(event) => tell_event(grid, log, event, before, fetch),
        None => {}
    }
}

// A parcel has arrived in a place of a frame; nothing happens where the frame is not in flight any more.
fn place_arrives<V: Watched, W>(grid: &mut Grid<V, W>, log: &mut Log, frame: u8, place: u16)
    requires frame { frame < 8 }
    requires place { place < 320 }
    requires room { grid.old.state.counts.flushed + 8 < 2 ^ 64 }
    ensures change { seen (V.held grid.new.window) grid.new.state
        ≡ with_frame frame (spec.place_arrives (V.blocks grid.old.window) (V.budget grid.old.window) place)
        (V.held grid.old.window).frames (seen (V.held grid.old.window) grid.old.state) }
    ensures told { Logged log.old (of_frame frame (λ f. noted.place_notes (V.blocks grid.old.window)
        (V.budget grid.old.window) place f (seen (V.held grid.old.window) grid.old.state))
        (V.held grid.old.window).frames) log.new }
    ensures few { grid.new.state.counts.flushed ≤ grid.old.state.counts.flushed + 8 }
    ensures image { V.blocks grid.new.window ≡ V.blocks grid.old.window }
    ensures budget { V.budget grid.new.window ≡ V.budget grid.old.window }
{
    let before = grid.window.numbers();
    let fetch = fetch_of(&grid.state);
    let event = event_at(&grid.window, frame, place);
    grid_parts::place_arrives(grid, frame, place);
    tell_arrival(grid, log, event, before.as_slice(), fetch);
}

// The next parcel of a frame that has arrived is taken from the mesh, and delivered; nothing has come in the places
// before `from`, and nothing has come any more in those before the result.
fn next_arrives<V: Watched, W>(grid: &mut Grid<V, W>, log: &mut Log, frame: u8, from: u16) -> u16
    requires frame { frame < 8 }
    requires from { from < 320 }
    requires quiet { AreQuiet (positions.at grid.old.state.mesh) frame from }
    requires room { grid.old.state.counts.flushed + 8 < 2 ^ 64 }
    ensures change { each (spec.arrival (V.blocks grid.old.window) (V.budget grid.old.window) frame) places
        (seen (V.held grid.new.window) grid.new.state)
        ≡ each (spec.arrival (V.blocks grid.old.window) (V.budget grid.old.window) frame) places
        (seen (V.held grid.old.window) grid.old.state) }
    ensures told { (c : logs.Log) → Logged log.new
        (of_each (spec.arrival (V.blocks grid.old.window) (V.budget grid.old.window) frame)
        (noted.arrival_notes (V.blocks grid.old.window) (V.budget grid.old.window) frame) places
        (seen (V.held grid.new.window) grid.new.state)) c
        → Logged log.old (of_each (spec.arrival (V.blocks grid.old.window) (V.budget grid.old.window) frame)
        (noted.arrival_notes (V.blocks grid.old.window) (V.budget grid.old.window) frame) places
        (seen (V.held grid.old.window) grid.old.state)) c }
    ensures quiet { AreQuiet (positions.at grid.new.state.mesh) frame result }
    ensures more { from < result }
    ensures within { result ≤ 320 }
    ensures few { grid.new.state.counts.flushed ≤ grid.old.state.counts.flushed + 8 }
    ensures image { V.blocks grid.new.window ≡ V.blocks grid.old.window }
    ensures budget { V.budget grid.new.window ≡ V.budget grid.old.window }
{
    match grid.state.arrived(&[frame]) {
        Some(parcel) => {
            place_arrives(grid, log, frame, parcel.place);
            parcel.place + 1
        }
        None => 320,
    }
}

// The parcels of one frame that have arrived, from the lowest place.
fn frame_arrives<V: Watched, W>(grid: &mut Grid<V, W>, log: &mut Log, frame: u8)
    requires frame { frame < 8 }
    requires room { grid.old.state.counts.flushed + 2560 < 2 ^ 64 }
    ensures change { seen (V.held grid.new.window) grid.new.state
        ≡ each (spec.arrival (V.blocks grid.old.window) (V.budget grid.old.window) frame) places
        (seen (V.held grid.old.window) grid.old.state) }
    ensures told { Logged log.old (of_each (spec.arrival (V.blocks grid.old.window) (V.budget grid.old.window) frame)
        (noted.arrival_notes (V.blocks grid.old.window) (V.budget grid.old.window) frame) places
        (seen (V.held grid.old.window) grid.old.state)) log.new }
    ensures few { grid.new.state.counts.flushed ≤ grid.old.state.counts.flushed + 2560 }
    ensures image { V.blocks grid.new.window ≡ V.blocks grid.old.window }
    ensures budget { V.budget grid.new.window ≡ V.budget grid.old.window }
{
    let mut from: u16 = 0;
    while from < 320 {
        from = next_arrives(grid, log, frame, from);
    }
}

/// Part (6), behind the tick of the mesh: the parcels of some frames that have arrived are delivered, the eldest
/// first. It wants room for 20,480 flushed frames in the count, eight for each place.
pub fn arrivals<V: Watched, W>(grid: &mut Grid<V, W>, log: &mut Log, order: &[u8])
    requires within { All (λ n. n < 8) order.now }
    requires few { length order.now ≤ 8 }
    requires room { grid.old.state.counts.flushed + 20480 < 2 ^ 64 }
    ensures change { seen (V.held grid.new.window) grid.new.state
        ≡ spec.arrivals (V.blocks grid.old.window) (V.budget grid.old.window) order.now
        (seen (V.held grid.old.window) grid.old.state) }
    ensures told { Logged log.old (noted.arrivals_notes (V.blocks grid.old.window) (V.budget grid.old.window)
        order.now (seen (V.held grid.old.window) grid.old.state)) log.new }
    ensures image { V.blocks grid.new.window ≡ V.blocks grid.old.window }
    ensures budget { V.budget grid.new.window ≡ V.budget grid.old.window }
{
    for n in 0..order.len() {
        frame_arrives(grid, log, order[n]);
    }
}
