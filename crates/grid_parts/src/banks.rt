//! Part (3) of a cycle: banks answer reads.
ghost use Rattle.std.specs.Prelude.{◌≡◌, ◌<◌, Some};
ghost use Rattle.grid_cycle_spec.specs.Banks as spec;
ghost use Rattle.grid_parts.specs.Seen.{seen};
ghost use Rattle.grid_parts.specs.inside.Marked.{ReadsMarked};

use crate::grid::Grid;
use crate::read_marks::{ReadMarks, any_marked, marked_reads, readable_among};
use crate::sending::enter_both;
use crate::windows::Windows;

impl<V: Windows, W> Grid<V, W> {
    /// A bank answers a read of a frame, and its tokens enter the mesh.
    pub fn answer_read(&mut self, bank: u8, frame: u8, read: u8)
        requires bank { bank < 4 }
        requires frame { frame < 8 }
        requires read { read < 32 }
        ensures change { seen (V.held self.new.window) self.new.state
            ≡ spec.read_chosen (V.blocks self.old.window) (V.budget self.old.window) bank (Some (frame, read))
            (seen (V.held self.old.window) self.old.state) }
        ensures image { V.blocks self.new.window ≡ V.blocks self.old.window }
        ensures budget { V.budget self.new.window ≡ V.budget self.old.window }
    {
        self.window.read(frame, read);
        enter_both(
            &self.window,
            &mut self.state,
            1 + bank,
            frame,
            256 + 2 * read as u16,
        );
    }

    /// A bank answers its eldest answerable read; each answerable one is marked.
    pub fn bank_turn(&mut self, bank: u8, marks: &ReadMarks)
        requires bank { bank < 4 }
        requires marked { ReadsMarked (V.blocks self.old.window) (V.budget self.old.window)
            (V.held self.old.window) marks.now.words }
        ensures change { seen (V.held self.new.window) self.new.state
            ≡ spec.bank_turn (V.blocks self.old.window) (V.budget self.old.window) bank
            (seen (V.held self.old.window) self.old.state) }
        ensures image { V.blocks self.new.window ≡ V.blocks self.old.window }
        ensures budget { V.budget self.new.window ≡ V.budget self.old.window }
    {
        let frames = self.window.numbers();
        match readable_among(&self.window, bank, frames.as_slice(), marks) {
            Some(chosen) => self.answer_read(bank, chosen.0, chosen.1),
            None => {}
        }
    }

    // Each bank answers, where each answerable read is marked.
    fn answer_banks(&mut self, marks: &ReadMarks)
        requires marked { ReadsMarked (V.blocks self.old.window) (V.budget self.old.window)
            (V.held self.old.window) marks.now.words }
        ensures change { seen (V.held self.new.window) self.new.state
            ≡ spec.reads_answered (V.blocks self.old.window) (V.budget self.old.window)
            (seen (V.held self.old.window) self.old.state) }
        ensures image { V.blocks self.new.window ≡ V.blocks self.old.window }
        ensures budget { V.budget self.new.window ≡ V.budget self.old.window }
    {
        for bank in 0..4u8 {
            self.bank_turn(bank, marks);
        }
    }

    /// Part (3). Where no read is marked no bank has its turn.
    pub fn reads_answered(&mut self)
        ensures change { seen (V.held self.new.window) self.new.state
            ≡ spec.reads_answered (V.blocks self.old.window) (V.budget self.old.window)
            (seen (V.held self.old.window) self.old.state) }
        ensures image { V.blocks self.new.window ≡ V.blocks self.old.window }
        ensures budget { V.budget self.new.window ≡ V.budget self.old.window }
    {
        let marks = marked_reads(&self.window);
        let frames = self.window.numbers();
        if any_marked(&marks, frames.as_slice()) {
            self.answer_banks(&marks);
        }
    }
}
