//! Part (6) of a cycle: what has arrived is delivered.
ghost use Rattle.std.specs.Prelude.{◌≡◌, ◌<◌, ◌≤◌, ◌+◌, ◌/◌, ◌^◌, All, Some, length};
ghost use Rattle.trips_isa.specs.Forms as forms;
ghost use Rattle.commit_flush_spec.specs.Frames.{Frame};
ghost use Rattle.commit_flush_spec.specs.Window as event;
ghost use Rattle.grid_cycle_spec.specs.Acting as acting;
ghost use Rattle.grid_cycle_spec.specs.inside.Arrivals as spec;
ghost use Rattle.operand_net.specs.Places.{at};
ghost use Rattle.grid_cycle_spec.specs.Choosing.{each, with_frame};
ghost use Rattle.grid_cycle_spec.specs.inside.Choosing.{places};
ghost use Rattle.grid_parts.specs.Seen.{seen};
ghost use Rattle.grid_parts.specs.inside.Asked.{frame_of};
ghost use Rattle.grid_parts.specs.inside.EmptyPlaces.{AreQuiet};

use crate::grid::Grid;
use crate::windows::Windows;
use trips_isa::{Form, Inst, form_of};

// Whether a load waits with its number for the given slot.
fn is_waiting(waiting: Option<u8>, slot: u16) -> bool
    ensures { result ≡ spec.is_waiting waiting slot }
{
    match waiting {
        Some(k) => k as u16 == slot,
        None => false,
    }
}

// The token in a place of a frame goes to where it is used.
fn delivers<V: Windows, W>(grid: &mut Grid<V, W>, frame: u8, place: u16)
    requires frame { frame < 8 }
    requires place { place < 320 }
    ensures change { seen (V.held grid.new.window) grid.new.state
        ≡ spec.delivers (V.blocks grid.old.window) (V.budget grid.old.window) frame place
        (seen (V.held grid.old.window) grid.old.state) }
    ensures counts { grid.new.state.counts ≡ grid.old.state.counts }
    ensures image { V.blocks grid.new.window ≡ V.blocks grid.old.window }
    ensures budget { V.budget grid.new.window ≡ V.budget grid.old.window }
{
    grid.window.deliver(frame, place);
}

// A parcel of a load's slot is its request while that waits, and else its token.
fn load_arrives<V: Windows, W>(grid: &mut Grid<V, W>, frame: u8, place: u16, inst: Inst)
    requires frame { frame < 8 }
    requires place { place < 256 }
    requires number { inst.number < 32 }
    ensures change { (f : Frame) → frame_of frame (V.held grid.old.window).frames ≡ Some f
        → seen (V.held grid.new.window) grid.new.state
        ≡ spec.load_arrives (V.blocks grid.old.window) (V.budget grid.old.window) inst place f
        (seen (V.held grid.old.window) grid.old.state) }
    ensures counts { grid.new.state.counts ≡ grid.old.state.counts }
    ensures image { V.blocks grid.new.window ≡ V.blocks grid.old.window }
    ensures budget { V.budget grid.new.window ≡ V.budget grid.old.window }
{
    if is_waiting(grid.window.waits_at(frame, inst.number), place / 2) {
        grid.state.ask(frame, inst.number);
    } else {
        delivers(grid, frame, place);
    }
}

// A branch arrives at control.
fn branch_arrives<V: Windows, W>(grid: &mut Grid<V, W>, frame: u8)
    requires frame { frame < 8 }
    requires room { grid.old.state.counts.flushed + 8 < 2 ^ 64 }
    ensures change { seen (V.held grid.new.window) grid.new.state
        ≡ acting.act (V.blocks grid.old.window) (V.budget grid.old.window) (event.Exit frame)
        (seen (V.held grid.old.window) grid.old.state) }
    ensures few { grid.new.state.counts.flushed ≤ grid.old.state.counts.flushed + 8 }
    ensures image { V.blocks grid.new.window ≡ V.blocks grid.old.window }
    ensures budget { V.budget grid.new.window ≡ V.budget grid.old.window }
{
    let frames = grid.window.numbers();
    grid.window.exit(frame);
    grid.acted(frames.as_slice());
}

// The parcel of a slot has arrived.
fn slot_arrives<V: Windows, W>(grid: &mut Grid<V, W>, frame: u8, place: u16, inst: Inst)
    requires frame { frame < 8 }
    requires place { place < 256 }
    requires number { inst.number < 32 }
    requires room { grid.old.state.counts.flushed + 8 < 2 ^ 64 }
    ensures change { (f : Frame) → frame_of frame (V.held grid.old.window).frames ≡ Some f
        → seen (V.held grid.new.window) grid.new.state
        ≡ spec.slot_arrives (V.blocks grid.old.window) (V.budget grid.old.window) (forms.form_of inst.op) inst place f
        (seen (V.held grid.old.window) grid.old.state) }
    ensures few { grid.new.state.counts.flushed ≤ grid.old.state.counts.flushed + 8 }
    ensures image { V.blocks grid.new.window ≡ V.blocks grid.old.window }
    ensures budget { V.budget grid.new.window ≡ V.budget grid.old.window }
{
    match form_of(inst.op) {
        Form::Load => load_arrives(grid, frame, place, inst),
        Form::Store => grid.state.ask(frame, inst.number),
        Form::Branch => branch_arrives(grid, frame),
        Form::General => delivers(grid, frame, place),
        Form::Immediate => delivers(grid, frame, place),
        Form::Constant => delivers(grid, frame, place),
    }
}

/// A parcel has arrived in a place of a frame; nothing happens where the frame is not in flight any more.
pub fn place_arrives<V: Windows, W>(grid: &mut Grid<V, W>, frame: u8, place: u16)
    requires frame { frame < 8 }
    requires place { place < 320 }
    requires room { grid.old.state.counts.flushed + 8 < 2 ^ 64 }
    ensures change { seen (V.held grid.new.window) grid.new.state
        ≡ with_frame frame (spec.place_arrives (V.blocks grid.old.window) (V.budget grid.old.window) place)
        (V.held grid.old.window).frames (seen (V.held grid.old.window) grid.old.state) }
    ensures few { grid.new.state.counts.flushed ≤ grid.old.state.counts.flushed + 8 }
    ensures image { V.blocks grid.new.window ≡ V.blocks grid.old.window }
    ensures budget { V.budget grid.new.window ≡ V.budget grid.old.window }
{
    if grid.window.block_of(frame).is_some() {
        if place < 256 {
            match grid.window.inst_of(frame, (place / 2) as u8) {
                Some(inst) => slot_arrives(grid, frame, place, inst),
                None => {}
            }
        } else {
            delivers(grid, frame, place);
        }
    }
}

// The next parcel of a frame that has arrived is taken from the mesh, and delivered; nothing has come in the places
// before `from`, and nothing has come any more in those before the result.
fn next_arrives<V: Windows, W>(grid: &mut Grid<V, W>, frame: u8, from: u16) -> u16
    requires frame { frame < 8 }
    requires from { from < 320 }
    requires quiet { AreQuiet (at grid.old.state.mesh) frame from }
    requires room { grid.old.state.counts.flushed + 8 < 2 ^ 64 }
    ensures change { each (spec.arrival (V.blocks grid.old.window) (V.budget grid.old.window) frame) places
        (seen (V.held grid.new.window) grid.new.state)
        ≡ each (spec.arrival (V.blocks grid.old.window) (V.budget grid.old.window) frame) places
        (seen (V.held grid.old.window) grid.old.state) }
    ensures quiet { AreQuiet (at grid.new.state.mesh) frame result }
    ensures more { from < result }
    ensures within { result ≤ 320 }
    ensures few { grid.new.state.counts.flushed ≤ grid.old.state.counts.flushed + 8 }
    ensures image { V.blocks grid.new.window ≡ V.blocks grid.old.window }
    ensures budget { V.budget grid.new.window ≡ V.budget grid.old.window }
{
    match grid.state.arrived(&[frame]) {
        Some(parcel) => {
            place_arrives(grid, frame, parcel.place);
            parcel.place + 1
        }
        None => 320,
    }
}

// The parcels of one frame that have arrived, from the lowest place.
fn frame_arrives<V: Windows, W>(grid: &mut Grid<V, W>, frame: u8)
    requires frame { frame < 8 }
    requires room { grid.old.state.counts.flushed + 2560 < 2 ^ 64 }
    ensures change { seen (V.held grid.new.window) grid.new.state
        ≡ each (spec.arrival (V.blocks grid.old.window) (V.budget grid.old.window) frame) places
        (seen (V.held grid.old.window) grid.old.state) }
    ensures few { grid.new.state.counts.flushed ≤ grid.old.state.counts.flushed + 2560 }
    ensures image { V.blocks grid.new.window ≡ V.blocks grid.old.window }
    ensures budget { V.budget grid.new.window ≡ V.budget grid.old.window }
{
    let mut from: u16 = 0;
    while from < 320 {
        from = next_arrives(grid, frame, from);
    }
}

/// Part (6), behind the tick of the mesh: the parcels of some frames that have arrived are delivered, the eldest
/// first. It wants room for 20,480 flushed frames in the count, eight for each place.
pub fn arrivals<V: Windows, W>(grid: &mut Grid<V, W>, order: &[u8])
    requires within { All (λ n. n < 8) order.now }
    requires few { length order.now ≤ 8 }
    requires room { grid.old.state.counts.flushed + 20480 < 2 ^ 64 }
    ensures change { seen (V.held grid.new.window) grid.new.state
        ≡ spec.arrivals (V.blocks grid.old.window) (V.budget grid.old.window) order.now
        (seen (V.held grid.old.window) grid.old.state) }
    ensures image { V.blocks grid.new.window ≡ V.blocks grid.old.window }
    ensures budget { V.budget grid.new.window ≡ V.budget grid.old.window }
{
    for n in 0..order.len() {
        frame_arrives(grid, order[n]);
    }
}
