//! Part (5) of a cycle: units give their results to the mesh, and issue what is ready.
ghost use Rattle.std.specs.Prelude.{◌≡◌, ◌<◌, ◌*◌, Some, is_some, slice_index_or};
ghost use Rattle.trips_isa.specs.declared.block.Inst as instruction;
ghost use Rattle.trips_isa.specs.declared.form.Form.TheVariants as form;
ghost use Rattle.trips_isa.specs.Forms.{form_of};
ghost use Rattle.block_cases.specs.Orders.{slot_of};
ghost use Rattle.commit_flush_spec.specs.Frames.{Frame};
ghost use Rattle.grid_cycle_spec.specs.Choosing.{eldest, slots};
ghost use Rattle.grid_cycle_spec.specs.Costs as costs;
ghost use Rattle.grid_cycle_spec.specs.Sending as sending;
ghost use Rattle.grid_cycle_spec.specs.Stations as stations;
ghost use Rattle.grid_cycle_spec.specs.Units as spec;
ghost use Rattle.grid_parts.specs.inside.EldestChoices.{lowest_slot};
ghost use Rattle.grid_parts.specs.Seen.{seen};
ghost use Rattle.grid_parts.specs.inside.Asked.{frame_of};
ghost use Rattle.grid_parts.specs.inside.Marked.{SlotsMarked};

use crate::grid::Grid;
use crate::sending::{enter_both, enter_request};
use crate::slots::lowest_on;
use crate::slots_ready::{marked_slots, ready_slot};
use crate::windows::Windows;
use trips_isa::{Form, Inst, Op, form_of, row_of};

// The node of the tile on which a slot lies.
fn tile_node(slot: u8) -> u8
    ensures value { result ≡ stations.tile_node (stations.tile_of slot) }
    ensures within { result < 25 }
{
    let tile = slot % 16;
    5 * (1 + tile / 4) + (1 + tile % 4)
}

// The node of a data tile.
fn data_node(tile: u8) -> u8
    requires { tile < 4 }
    ensures value { result ≡ stations.data_node tile }
    ensures within { result < 25 }
{
    5 * (1 + tile)
}

// The cycles from the issue of an operation to its result.
fn latency(op: Op) -> u8
    ensures { result ≡ costs.latency op }
{
    row_of(op).latency
}

// How long what a slot holds takes.
fn takes(inst: Option<Inst>) -> u8
    ensures { result ≡ spec.takes inst }
{
    match inst {
        Some(inst) => latency(inst.op),
        None => 0,
    }
}

// Whether a slot of a tile is marked.
fn is_marked(marks: u128, tile: u8) -> bool
    requires { tile < 16 }
    ensures { result ≡ is_some (lowest_slot marks tile) }
{
    lowest_on(marks, tile).is_some()
}

impl<V: Windows, W> Grid<V, W> {
    // The request of a load or a store enters the mesh at its tile, and travels to its data tile.
    fn request_enters(&mut self, frame: u8, slot: u8)
        requires frame { frame < 8 }
        requires slot { slot < 128 }
        ensures change { (f : Frame) (i : instruction.Inst) → frame_of frame (V.held self.old.window).frames ≡ Some f
            → slot_of f.code slot ≡ Some i → seen (V.held self.new.window) self.new.state
            ≡ spec.result_enters form.Load i slot f (seen (V.held self.old.window) self.old.state) }
        ensures same { self.new.window ≡ self.old.window }
    {
        let from = tile_node(slot);
        let to = data_node(self.window.tile_at(frame, slot));
        enter_request(
            &self.window,
            &mut self.state,
            frame,
            2 * slot as u16,
            from,
            to,
        );
    }

    // The tokens of an instruction enter the mesh at its tile.
    fn tokens_enter(&mut self, frame: u8, slot: u8)
        requires frame { frame < 8 }
        requires slot { slot < 128 }
        ensures change { (f : Frame) → frame_of frame (V.held self.old.window).frames ≡ Some f
            → seen (V.held self.new.window) self.new.state
            ≡ sending.enter_both (stations.tile_node (stations.tile_of slot)) f (2 * slot)
            (seen (V.held self.old.window) self.old.state) }
        ensures same { self.new.window ≡ self.old.window }
    {
        let from = tile_node(slot);
        enter_both(&self.window, &mut self.state, from, frame, 2 * slot as u16);
    }

    // A branch enters the mesh at its tile, and travels to control.
    fn branch_enters(&mut self, frame: u8, slot: u8)
        requires frame { frame < 8 }
        requires slot { slot < 128 }
        ensures change { (f : Frame) (i : instruction.Inst) → frame_of frame (V.held self.old.window).frames ≡ Some f
            → seen (V.held self.new.window) self.new.state
            ≡ spec.result_enters form.Branch i slot f (seen (V.held self.old.window) self.old.state) }
        ensures same { self.new.window ≡ self.old.window }
    {
        let from = tile_node(slot);
        enter_request(
            &self.window,
            &mut self.state,
            frame,
            2 * slot as u16,
            from,
            0,
        );
    }

    // What an instruction has enters the mesh at its tile.
    fn result_enters(&mut self, frame: u8, slot: u8, inst: Inst)
        requires frame { frame < 8 }
        requires slot { slot < 128 }
        ensures change { (f : Frame) → frame_of frame (V.held self.old.window).frames ≡ Some f
            → slot_of f.code slot ≡ Some inst → seen (V.held self.new.window) self.new.state
            ≡ spec.result_enters (form_of inst.op) inst slot f (seen (V.held self.old.window) self.old.state) }
        ensures same { self.new.window ≡ self.old.window }
    {
        match form_of(inst.op) {
            Form::Load => self.request_enters(frame, slot),
            Form::Store => self.request_enters(frame, slot),
            Form::Branch => self.branch_enters(frame, slot),
            Form::General => self.tokens_enter(frame, slot),
            Form::Immediate => self.tokens_enter(frame, slot),
            Form::Constant => self.tokens_enter(frame, slot),
        }
    }

    // The result of a slot of a frame is in no unit any more, and enters the mesh.
    fn give(&mut self, frame: u8, slot: u8)
        requires frame { frame < 8 }
        requires slot { slot < 128 }
        ensures change { seen (V.held self.new.window) self.new.state
            ≡ spec.result_chosen (Some (frame, slot)) (seen (V.held self.old.window) self.old.state) }
        ensures same { self.new.window ≡ self.old.window }
    {
        if self.window.block_of(frame).is_some() {
            self.state.rest(frame, slot);
            match self.window.inst_of(frame, slot) {
                Some(inst) => self.result_enters(frame, slot, inst),
                None => {}
            }
        }
    }

    /// The result that was in a unit enters the mesh; none where its frame is there no longer.
    pub fn gives(&mut self, tile: u8)
        requires { tile < 16 }
        ensures change { seen (V.held self.new.window) self.new.state
            ≡ spec.result_chosen (eldest (spec.in_unit (seen (V.held self.old.window) self.old.state) tile) slots
            (V.held self.old.window).frames) (seen (V.held self.old.window) self.old.state) }
        ensures same { self.new.window ≡ self.old.window }
    {
        let frames = self.window.numbers();
        match self.state.result_of(tile, frames.as_slice()) {
            Some(chosen) => self.give(chosen.0, chosen.1),
            None => {}
        }
    }

    /// A unit is busy for one cycle less, and gives its result where its time is over.
    pub fn unit_on(&mut self, tile: u8)
        requires { tile < 16 }
        ensures change { seen (V.held self.new.window) self.new.state
            ≡ spec.unit_on tile (slice_index_or self.old.state.units tile 0)
            (seen (V.held self.old.window) self.old.state) }
        ensures same { self.new.window ≡ self.old.window }
    {
        let left = self.state.busy(tile);
        self.state.pass(tile);
        if left == 1 {
            self.gives(tile);
        }
    }

    /// A unit issues a slot of a frame, and is busy until its result is there.
    pub fn issue(&mut self, tile: u8, frame: u8, slot: u8)
        requires tile { tile < 16 }
        requires frame { frame < 8 }
        requires slot { slot < 128 }
        ensures change { seen (V.held self.new.window) self.new.state
            ≡ spec.issue_chosen (V.blocks self.old.window) (V.budget self.old.window) tile (Some (frame, slot))
            (seen (V.held self.old.window) self.old.state) }
        ensures image { V.blocks self.new.window ≡ V.blocks self.old.window }
        ensures budget { V.budget self.new.window ≡ V.budget self.old.window }
    {
        if self.window.block_of(frame).is_some() {
            let time = takes(self.window.inst_of(frame, slot));
            self.window.fire(frame, slot);
            self.state.take_up(tile, frame, slot, time);
        }
    }

    /// A free unit issues the eldest ready entry of its tile.
    pub fn issues(&mut self, tile: u8)
        requires { tile < 16 }
        ensures change { seen (V.held self.new.window) self.new.state
            ≡ spec.issues (V.blocks self.old.window) (V.budget self.old.window) tile
            (seen (V.held self.old.window) self.old.state) }
        ensures image { V.blocks self.new.window ≡ V.blocks self.old.window }
        ensures budget { V.budget self.new.window ≡ V.budget self.old.window }
    {
        if self.state.busy(tile) == 0 {
            let frames = self.window.numbers();
            match ready_slot(&self.window, tile, frames.as_slice()) {
                Some(chosen) => self.issue(tile, chosen.0, chosen.1),
                None => {}
            }
        }
    }

    // The same where each slot that may fire is marked, so that a tile without a marked slot issues nothing.
    fn issues_marked(&mut self, tile: u8, marks: u128)
        requires tile { tile < 16 }
        requires marked { SlotsMarked (V.blocks self.old.window) (V.budget self.old.window)
            (V.held self.old.window) marks }
        ensures change { seen (V.held self.new.window) self.new.state
            ≡ spec.issues (V.blocks self.old.window) (V.budget self.old.window) tile
            (seen (V.held self.old.window) self.old.state) }
        ensures image { V.blocks self.new.window ≡ V.blocks self.old.window }
        ensures budget { V.budget self.new.window ≡ V.budget self.old.window }
    {
        if is_marked(marks, tile) {
            self.issues(tile);
        }
    }

    /// Part (5).
    pub fn works_on(&mut self)
        ensures change { seen (V.held self.new.window) self.new.state
            ≡ spec.works_on (V.blocks self.old.window) (V.budget self.old.window)
            (seen (V.held self.old.window) self.old.state) }
        ensures image { V.blocks self.new.window ≡ V.blocks self.old.window }
        ensures budget { V.budget self.new.window ≡ V.budget self.old.window }
    {
        let frames = self.window.numbers();
        let marks = marked_slots(&self.window, frames.as_slice());
        for tile in 0..16u8 {
            self.unit_on(tile);
            self.issues_marked(tile, marks);
        }
    }
}
