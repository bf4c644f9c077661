//! Part (6) of a cycle, counted: what has arrived is delivered, and exits tell which predictions are right.
ghost use Rattle.std.specs.Prelude.{◌≡◌, ◌<◌, ◌≤◌, ◌+◌, ◌^◌, All, Some, length};
ghost use Rattle.trips_isa.specs.Forms as forms;
ghost use Rattle.commit_flush_spec.specs.Frames.{Frame};
ghost use Rattle.grid_cycle_spec.specs.inside.Arrivals as spec;
ghost use Rattle.operand_net.specs.Places as positions;
ghost use Rattle.grid_cycle_spec.specs.Choosing.{each, with_frame};
ghost use Rattle.grid_cycle_spec.specs.inside.Choosing.{places};
ghost use Rattle.grid_events.specs.ArrivalNotes as noted;
ghost use Rattle.grid_events.specs.Turns.{of_each, of_frame};
ghost use Rattle.grid_parts.specs.Seen.{seen};
ghost use Rattle.grid_parts.specs.inside.Asked.{frame_of};
ghost use Rattle.grid_parts.specs.inside.EmptyPlaces.{AreQuiet};
ghost use Rattle.grid_tallies.specs.declared.guess_table.Guesses as kept;
ghost use Rattle.grid_tallies.specs.Predictions.{Guessed};
ghost use Rattle.grid_tallies.specs.inside.Leaving.{branch_names, exit_at, is_branch, left_notes};

use crate::guess_table::Guesses;
use crate::leading::Leading;
use grid_parts::Grid;
use trips_isa::{Form, Inst, Op, form_of};

// Whether an operation is a branch.
fn is_branch(op: Op) -> bool
    ensures { result ≡ is_branch (forms.form_of op) }
{
    match form_of(op) {
        Form::Branch => true,
        _ => false,
    }
}

// What the branch of a frame names, where this is a branch.
fn branch_names<V: Leading>(window: &V, frame: u8, inst: Inst) -> Option<Option<u32>>
    requires { frame < 8 }
    ensures { (f : Frame) → frame_of frame (V.held window.now).frames ≡ Some f
        → result ≡ branch_names (V.blocks window.now) (forms.form_of inst.op) f }
{
    if is_branch(inst.op) {
        Some(window.names(frame))
    } else {
        None
    }
}

// The same of the parcel in a place of a frame.
fn exit_at<V: Leading>(window: &V, frame: u8, place: u16) -> Option<Option<u32>>
    requires frame { frame < 8 }
    requires place { place < 320 }
    ensures { result ≡ exit_at (V.blocks window.now) frame place (V.held window.now).frames }
{
    if place < 256 {
        match window.inst_of(frame, (place / 2) as u8) {
            Some(inst) => branch_names(window, frame, inst),
            None => None,
        }
    } else {
        None
    }
}

// The branch of a frame leaves, where one does.
fn hear_exit(told: &mut Guesses, frame: u8, exit: Option<Option<u32>>)
    requires { frame < 8 }
    ensures { Guessed told.old (left_notes frame exit) told.new }
{
    match exit {
        Some(block) => told.leave(frame, block),
        None => {}
    }
}

// A parcel has arrived in a place of a frame; nothing happens where the frame is not in flight any more.
fn place_arrives<V: Leading, W>(grid: &mut Grid<V, W>, told: &mut Guesses, frame: u8, place: u16)
    requires frame { frame < 8 }
    requires place { place < 320 }
    requires room { grid.old.state.counts.flushed + 8 < 2 ^ 64 }
    ensures change { seen (V.held grid.new.window) grid.new.state
        ≡ with_frame frame (spec.place_arrives (V.blocks grid.old.window) (V.budget grid.old.window) place)
        (V.held grid.old.window).frames (seen (V.held grid.old.window) grid.old.state) }
    ensures heard { Guessed told.old (of_frame frame (λ f. noted.place_notes (V.blocks grid.old.window)
        (V.budget grid.old.window) place f (seen (V.held grid.old.window) grid.old.state))
        (V.held grid.old.window).frames) told.new }
    ensures few { grid.new.state.counts.flushed ≤ grid.old.state.counts.flushed + 8 }
    ensures image { V.blocks grid.new.window ≡ V.blocks grid.old.window }
    ensures budget { V.budget grid.new.window ≡ V.budget grid.old.window }
{
    let exit = exit_at(&grid.window, frame, place);
    grid_parts::place_arrives(grid, frame, place);
    hear_exit(told, frame, exit);
}

// The next parcel of a frame that has arrived is taken from the mesh, and delivered; nothing has come in the places
// before `from`, and nothing has come any more in those before the result.
fn next_arrives<V: Leading, W>(
    grid: &mut Grid<V, W>,
    told: &mut Guesses,
    frame: u8,
    from: u16,
) -> u16
    requires frame { frame < 8 }
    requires from { from < 320 }
    requires quiet { AreQuiet (positions.at grid.old.state.mesh) frame from }
    requires room { grid.old.state.counts.flushed + 8 < 2 ^ 64 }
    ensures change { each (spec.arrival (V.blocks grid.old.window) (V.budget grid.old.window) frame) places
        (seen (V.held grid.new.window) grid.new.state)
        ≡ each (spec.arrival (V.blocks grid.old.window) (V.budget grid.old.window) frame) places
        (seen (V.held grid.old.window) grid.old.state) }
    ensures heard { (c : kept.Guesses) → Guessed told.new
        (of_each (spec.arrival (V.blocks grid.old.window) (V.budget grid.old.window) frame)
        (noted.arrival_notes (V.blocks grid.old.window) (V.budget grid.old.window) frame) places
        (seen (V.held grid.new.window) grid.new.state)) c
        → Guessed told.old (of_each (spec.arrival (V.blocks grid.old.window) (V.budget grid.old.window) frame)
        (noted.arrival_notes (V.blocks grid.old.window) (V.budget grid.old.window) frame) places
        (seen (V.held grid.old.window) grid.old.state)) c }
    ensures quiet { AreQuiet (positions.at grid.new.state.mesh) frame result }
    ensures more { from < result }
    ensures within { result ≤ 320 }
    ensures few { grid.new.state.counts.flushed ≤ grid.old.state.counts.flushed + 8 }
    ensures image { V.blocks grid.new.window ≡ V.blocks grid.old.window }
    ensures budget { V.budget grid.new.window ≡ V.budget grid.old.window }
{
    match grid.state.arrived(&[frame]) {
        Some(parcel) => {
            place_arrives(grid, told, frame, parcel.place);
            parcel.place + 1
        }
        None => 320,
    }
}

// The parcels of one frame that have arrived, from the lowest place.
fn frame_arrives<V: Leading, W>(grid: &mut Grid<V, W>, told: &mut Guesses, frame: u8)
    requires frame { frame < 8 }
    requires room { grid.old.state.counts.flushed + 2560 < 2 ^ 64 }
    ensures change { seen (V.held grid.new.window) grid.new.state
        ≡ each (spec.arrival (V.blocks grid.old.window) (V.budget grid.old.window) frame) places
        (seen (V.held grid.old.window) grid.old.state) }
    ensures heard { Guessed told.old (of_each (spec.arrival (V.blocks grid.old.window) (V.budget grid.old.window) frame)
        (noted.arrival_notes (V.blocks grid.old.window) (V.budget grid.old.window) frame) places
        (seen (V.held grid.old.window) grid.old.state)) told.new }
    ensures few { grid.new.state.counts.flushed ≤ grid.old.state.counts.flushed + 2560 }
    ensures image { V.blocks grid.new.window ≡ V.blocks grid.old.window }
    ensures budget { V.budget grid.new.window ≡ V.budget grid.old.window }
{
    let mut from: u16 = 0;
    while from < 320 {
        from = next_arrives(grid, told, frame, from);
    }
}

/// Part (6), behind the tick of the mesh: the parcels of some frames that have arrived are delivered, the eldest
/// first. It wants room for 20,480 flushed frames in the count, eight for each place.
pub fn arrivals<V: Leading, W>(grid: &mut Grid<V, W>, told: &mut Guesses, order: &[u8])
    requires within { All (λ n. n < 8) order.now }
    requires few { length order.now ≤ 8 }
    requires room { grid.old.state.counts.flushed + 20480 < 2 ^ 64 }
    ensures change { seen (V.held grid.new.window) grid.new.state
        ≡ spec.arrivals (V.blocks grid.old.window) (V.budget grid.old.window) order.now
        (seen (V.held grid.old.window) grid.old.state) }
    ensures heard { Guessed told.old (noted.arrivals_notes (V.blocks grid.old.window) (V.budget grid.old.window)
        order.now (seen (V.held grid.old.window) grid.old.state)) told.new }
    ensures image { V.blocks grid.new.window ≡ V.blocks grid.old.window }
    ensures budget { V.budget grid.new.window ≡ V.budget grid.old.window }
{
    for n in 0..order.len() {
        frame_arrives(grid, told, order[n]);
    }
}
