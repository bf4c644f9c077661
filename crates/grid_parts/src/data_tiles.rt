//! Part (4) of a cycle: data tiles answer loads and stores.
ghost use Rattle.std.specs.Prelude.{◌≡◌, ◌<◌, ◌≤◌, ◌+◌, ◌^◌, Some};
ghost use Rattle.trips_isa.specs.Forms as forms;
ghost use Rattle.commit_flush_spec.specs.Window as event;
ghost use Rattle.grid_cycle_spec.specs.Acting as acting;
ghost use Rattle.grid_cycle_spec.specs.DataTiles as spec;
ghost use Rattle.grid_parts.specs.Seen.{seen};

use crate::grid::Grid;
use crate::requests_waiting::{answerable, any_asked};
use crate::sending::enter_both;
use crate::windows::Windows;
use trips_isa::{Form, Op, form_of};

// Whether an operation is a store.
fn is_store(op: Op) -> bool
    ensures { result ≡ forms.is_store (forms.form_of op) }
{
    match form_of(op) {
        Form::Store => true,
        _ => false,
    }
}

impl<V: Windows, W> Grid<V, W> {
    // A load is answered, and its token enters the mesh.
    fn load_answered(&mut self, tile: u8, frame: u8, number: u8, slot: u8)
        requires tile { tile < 4 }
        requires frame { frame < 8 }
        requires number { number < 32 }
        requires slot { slot < 128 }
        ensures change { seen (V.held self.new.window) self.new.state
            ≡ spec.load_answered (V.blocks self.old.window) (V.budget self.old.window) tile frame number slot
            (seen (V.held self.old.window) self.old.state) }
        ensures few { self.new.state.counts ≡ self.old.state.counts }
        ensures image { V.blocks self.new.window ≡ V.blocks self.old.window }
        ensures budget { V.budget self.new.window ≡ V.budget self.old.window }
    {
        self.window.load(frame, number);
        self.state.unask(frame, number);
        enter_both(
            &self.window,
            &mut self.state,
            5 * (1 + tile),
            frame,
            2 * slot as u16,
        );
    }

    // A store is resolved, and what it flushes goes.
    fn store_acts(&mut self, frame: u8, number: u8)
        requires frame { frame < 8 }
        requires number { number < 32 }
        requires room { self.old.state.counts.flushed + 8 < 2 ^ 64 }
        ensures change { seen (V.held self.new.window) self.new.state
            ≡ acting.act (V.blocks self.old.window) (V.budget self.old.window) (event.Store frame number)
            (spec.unasked frame number (seen (V.held self.old.window) self.old.state)) }
        ensures few { self.new.state.counts.flushed ≤ self.old.state.counts.flushed + 8 }
        ensures image { V.blocks self.new.window ≡ V.blocks self.old.window }
        ensures budget { V.budget self.new.window ≡ V.budget self.old.window }
    {
        let frames = self.window.numbers();
        self.state.unask(frame, number);
        self.window.store(frame, number);
        self.acted(frames.as_slice());
    }

    // The lowest wrong load of the frame that the store would flush first, by its block.
    fn wrong_block(&self, frame: u8, number: u8) -> Option<(u32, u8)>
        requires frame { frame < 8 }
        requires number { number < 32 }
        ensures { result ≡ spec.by_block (V.held self.now.window).frames
            (spec.wrong_load (V.blocks self.now.window) (V.budget self.now.window) frame number
            (V.held self.now.window)) }
    {
        match self.window.wrong_load(frame, number) {
            None => None,
            Some((wrong, load)) => match self.window.block_of(wrong) {
                None => None,
                Some(block) => Some((block, load)),
            },
        }
    }

    // The lowest load that the store makes wrong waits from now on.
    fn store_resolved(&mut self, frame: u8, number: u8)
        requires frame { frame < 8 }
        requires number { number < 32 }
        requires room { self.old.state.counts.flushed + 8 < 2 ^ 64 }
        ensures change { seen (V.held self.new.window) self.new.state
            ≡ spec.store_resolved (V.blocks self.old.window) (V.budget self.old.window) frame number
            (seen (V.held self.old.window) self.old.state) }
        ensures few { self.new.state.counts.flushed ≤ self.old.state.counts.flushed + 8 }
        ensures image { V.blocks self.new.window ≡ V.blocks self.old.window }
        ensures budget { V.budget self.new.window ≡ V.budget self.old.window }
    {
        let wrong = self.wrong_block(frame, number);
        self.store_acts(frame, number);
        match wrong {
            Some(load) => self.state.wait_from_now(load.0, load.1),
            None => {}
        }
    }

    /// The answer to what waits with a number in a frame, where anything does.
    pub fn answer(&mut self, tile: u8, frame: u8, number: u8)
        requires tile { tile < 4 }
        requires frame { frame < 8 }
        requires number { number < 32 }
        requires room { self.old.state.counts.flushed + 8 < 2 ^ 64 }
        ensures change { seen (V.held self.new.window) self.new.state
            ≡ spec.answer_chosen (V.blocks self.old.window) (V.budget self.old.window) tile (Some (frame, number))
            (seen (V.held self.old.window) self.old.state) }
        ensures few { self.new.state.counts.flushed ≤ self.old.state.counts.flushed + 8 }
        ensures image { V.blocks self.new.window ≡ V.blocks self.old.window }
        ensures budget { V.budget self.new.window ≡ V.budget self.old.window }
    {
        match self.window.request_of(frame, number) {
            Some(request) => {
                if is_store(request.inst.op) {
                    self.store_resolved(frame, number);
                } else {
                    self.load_answered(tile, frame, number, request.slot);
                }
            }
            None => {}
        }
    }

    /// A data tile answers its eldest answerable request.
    pub fn data_turn(&mut self, tile: u8)
        requires tile { tile < 4 }
        requires room { self.old.state.counts.flushed + 8 < 2 ^ 64 }
        ensures change { seen (V.held self.new.window) self.new.state
            ≡ spec.data_turn (V.blocks self.old.window) (V.budget self.old.window) tile
            (seen (V.held self.old.window) self.old.state) }
        ensures few { self.new.state.counts.flushed ≤ self.old.state.counts.flushed + 8 }
        ensures image { V.blocks self.new.window ≡ V.blocks self.old.window }
        ensures budget { V.budget self.new.window ≡ V.budget self.old.window }
    {
        let frames = self.window.numbers();
        match answerable(&self.window, &self.state, tile, frames.as_slice()) {
            Some(chosen) => self.answer(tile, chosen.0, chosen.1),
            None => {}
        }
    }

    // Each data tile answers.
    fn answer_tiles(&mut self)
        requires { self.old.state.counts.flushed + 32 < 2 ^ 64 }
        ensures change { seen (V.held self.new.window) self.new.state
            ≡ spec.answers (V.blocks self.old.window) (V.budget self.old.window)
            (seen (V.held self.old.window) self.old.state) }
        ensures few { self.new.state.counts.flushed ≤ self.old.state.counts.flushed + 32 }
        ensures image { V.blocks self.new.window ≡ V.blocks self.old.window }
        ensures budget { V.budget self.new.window ≡ V.budget self.old.window }
    {
        for tile in 0..4u8 {
            self.data_turn(tile);
        }
    }

    /// Part (4).
    pub fn answers(&mut self)
        requires { self.old.state.counts.flushed + 32 < 2 ^ 64 }
        ensures change { seen (V.held self.new.window) self.new.state
            ≡ spec.answers (V.blocks self.old.window) (V.budget self.old.window)
            (seen (V.held self.old.window) self.old.state) }
        ensures few { self.new.state.counts.flushed ≤ self.old.state.counts.flushed + 32 }
        ensures image { V.blocks self.new.window ≡ V.blocks self.old.window }
        ensures budget { V.budget self.new.window ≡ V.budget self.old.window }
    {
        let frames = self.window.numbers();
        if any_asked(&self.state, frames.as_slice()) {
            self.answer_tiles();
        }
    }
}
