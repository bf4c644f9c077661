//! Part (3) of a cycle, logged: banks answer reads.
ghost use Rattle.std.specs.Prelude.{◌≡◌, ◌<◌, Some};
ghost use Rattle.grid_cycle_spec.specs.Banks as spec;
ghost use Rattle.grid_events.specs.StationNotes as noted;
ghost use Rattle.grid_parts.specs.Seen.{seen};
ghost use Rattle.grid_parts.specs.inside.Marked.{ReadsMarked};
ghost use Rattle.grid_log.specs.Logs.{Logged};

use crate::event::Event;
use crate::log::Log;
use grid_parts::{Grid, ReadMarks, Windows, marked_reads, readable_among};

// A bank answers a read of a frame.
fn answered<V: Windows, W>(grid: &mut Grid<V, W>, log: &mut Log, bank: u8, frame: u8, read: u8)
    requires bank { bank < 4 }
    requires frame { frame < 8 }
    requires read { read < 32 }
    ensures change { seen (V.held grid.new.window) grid.new.state
        ≡ spec.read_chosen (V.blocks grid.old.window) (V.budget grid.old.window) bank (Some (frame, read))
        (seen (V.held grid.old.window) grid.old.state) }
    ensures told { Logged log.old (noted.read_notes (V.blocks grid.old.window) (V.budget grid.old.window) bank
        (Some (frame, read)) (seen (V.held grid.old.window) grid.old.state)) log.new }
    ensures image { V.blocks grid.new.window ≡ V.blocks grid.old.window }
    ensures budget { V.budget grid.new.window ≡ V.budget grid.old.window }
{
    log.keep(Event::Reads { bank, frame, read });
    grid.answer_read(bank, frame, read);
}

// A bank answers its eldest answerable read; each answerable one is marked.
fn bank_turn<V: Windows, W>(grid: &mut Grid<V, W>, log: &mut Log, bank: u8, marks: &ReadMarks)
    requires bank { bank < 4 }
    requires marked { ReadsMarked (V.blocks grid.old.window) (V.budget grid.old.window)
        (V.held grid.old.window) marks.now.words }
    ensures change { seen (V.held grid.new.window) grid.new.state
        ≡ spec.bank_turn (V.blocks grid.old.window) (V.budget grid.old.window) bank
        (seen (V.held grid.old.window) grid.old.state) }
    ensures told { Logged log.old (noted.bank_notes (V.blocks grid.old.window) (V.budget grid.old.window) bank
        (seen (V.held grid.old.window) grid.old.state)) log.new }
    ensures image { V.blocks grid.new.window ≡ V.blocks grid.old.window }
    ensures budget { V.budget grid.new.window ≡ V.budget grid.old.window }
{
    let frames = grid.window.numbers();
    match readable_among(&grid.window, bank, frames.as_slice(), marks) {
        Some(chosen) => answered(grid, log, bank, chosen.0, chosen.1),
        None => {}
    }
}

/// Part (3).
pub fn reads_answered<V: Windows, W>(grid: &mut Grid<V, W>, log: &mut Log)
    ensures change { seen (V.held grid.new.window) grid.new.state
        ≡ spec.reads_answered (V.blocks grid.old.window) (V.budget grid.old.window)
        (seen (V.held grid.old.window) grid.old.state) }
    ensures told { Logged log.old (noted.reads_notes (V.blocks grid.old.window) (V.budget grid.old.window)
        (seen (V.held grid.old.window) grid.old.state)) log.new }
    ensures image { V.blocks grid.new.window ≡ V.blocks grid.old.window }
    ensures budget { V.budget grid.new.window ≡ V.budget grid.old.window }
{
    let marks = marked_reads(&grid.window);
    for bank in 0..4u8 {
        bank_turn(grid, log, bank, &marks);
    }
}
