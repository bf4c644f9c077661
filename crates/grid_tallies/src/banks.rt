//! Part (3) of a cycle, counted: banks answer reads.
ghost use Rattle.std.specs.Prelude.{◌≡◌, ◌<◌, ℕ, Some, false, All, length, slice_index_or};
ghost use Rattle.grid_cycle_spec.specs.Banks as spec;
ghost use Rattle.grid_events.specs.StationNotes as noted;
ghost use Rattle.grid_parts.specs.Bits.{frame_bit};
ghost use Rattle.grid_parts.specs.Seen.{seen};
ghost use Rattle.grid_parts.specs.inside.Marked.{ReadsMarked};
ghost use Rattle.grid_tallies.specs.Statistics.{Heard};

use crate::entering::tokens_at;
use crate::statistic::Statistic;
use crate::tallies::Tallies;
use grid_parts::{Grid, ReadMarks, Windows, marked_reads, readable_among};

// A bank answers a read of a frame.
fn answered<V: Windows, W>(grid: &mut Grid<V, W>, told: &mut Tallies, bank: u8, frame: u8, read: u8)
    requires bank { bank < 4 }
    requires frame { frame < 8 }
    requires read { read < 32 }
    ensures change { seen (V.held grid.new.window) grid.new.state
        ≡ spec.read_chosen (V.blocks grid.old.window) (V.budget grid.old.window) bank (Some (frame, read))
        (seen (V.held grid.old.window) grid.old.state) }
    ensures heard { Heard told.old (noted.read_notes (V.blocks grid.old.window) (V.budget grid.old.window) bank
        (Some (frame, read)) (seen (V.held grid.old.window) grid.old.state)) told.new }
    ensures image { V.blocks grid.new.window ≡ V.blocks grid.old.window }
    ensures budget { V.budget grid.new.window ≡ V.budget grid.old.window }
{
    grid.answer_read(bank, frame, read);
    let entered = tokens_at(&grid.window, frame, 256 + 2 * read as u16);
    told.add(Statistic::Parcels, entered);
}

// A bank answers its eldest answerable read; each answerable one is marked.
fn bank_turn<V: Windows, W>(grid: &mut Grid<V, W>, told: &mut Tallies, bank: u8, marks: &ReadMarks)
    requires bank { bank < 4 }
    requires marked { ReadsMarked (V.blocks grid.old.window) (V.budget grid.old.window)
        (V.held grid.old.window) marks.now.words }
    ensures change { seen (V.held grid.new.window) grid.new.state
        ≡ spec.bank_turn (V.blocks grid.old.window) (V.budget grid.old.window) bank
        (seen (V.held grid.old.window) grid.old.state) }
    ensures heard { Heard told.old (noted.bank_notes (V.blocks grid.old.window) (V.budget grid.old.window) bank
        (seen (V.held grid.old.window) grid.old.state)) told.new }
    ensures image { V.blocks grid.new.window ≡ V.blocks grid.old.window }
    ensures budget { V.budget grid.new.window ≡ V.budget grid.old.window }
{
    let frames = grid.window.numbers();
    match readable_among(&grid.window, bank, frames.as_slice(), marks) {
        Some(chosen) => answered(grid, told, bank, chosen.0, chosen.1),
        None => {}
    }
}

// The marks of a frame.
fn word_of(marks: &ReadMarks, frame: u8) -> u64
    requires { frame < 8 }
    ensures { result ≡ slice_index_or marks.now.words frame 0 }
{
    marks.words[frame as usize]
}

// Whether a read of one of some frames is marked.
fn any_marked(marks: &ReadMarks, order: &[u8]) -> bool
    requires { All (λ n. n < 8) order.now }
    ensures { result ≡ false → (j r : ℕ) → j < length order.now
        → frame_bit marks.now.words (slice_index_or order.now j 0) r ≡ false }
{
    let mut all: u64 = 0;
    for i in 0..order.len() {
        let frame = order[i];
        let word = word_of(marks, frame);
        all |= word;
    }
    if all == 0 { false } else { true }
}

// Each bank answers, where each answerable read is marked.
fn answer_banks<V: Windows, W>(grid: &mut Grid<V, W>, told: &mut Tallies, marks: &ReadMarks)
    requires marked { ReadsMarked (V.blocks grid.old.window) (V.budget grid.old.window)
        (V.held grid.old.window) marks.now.words }
    ensures change { seen (V.held grid.new.window) grid.new.state
        ≡ spec.reads_answered (V.blocks grid.old.window) (V.budget grid.old.window)
        (seen (V.held grid.old.window) grid.old.state) }
    ensures heard { Heard told.old (noted.reads_notes (V.blocks grid.old.window) (V.budget grid.old.window)
        (seen (V.held grid.old.window) grid.old.state)) told.new }
    ensures image { V.blocks grid.new.window ≡ V.blocks grid.old.window }
    ensures budget { V.budget grid.new.window ≡ V.budget grid.old.window }
{
    for bank in 0..4u8 {
        bank_turn(grid, told, bank, marks);
    }
}

/// Part (3). Where no read is marked no bank has its turn.
pub fn reads_answered<V: Windows, W>(grid: &mut Grid<V, W>, told: &mut Tallies)
    ensures change { seen (V.held grid.new.window) grid.new.state
        ≡ spec.reads_answered (V.blocks grid.old.window) (V.budget grid.old.window)
        (seen (V.held grid.old.window) grid.old.state) }
    ensures heard { Heard told.old (noted.reads_notes (V.blocks grid.old.window) (V.budget grid.old.window)
        (seen (V.held grid.old.window) grid.old.state)) told.new }
    ensures image { V.blocks grid.new.window ≡ V.blocks grid.old.window }
    ensures budget { V.budget grid.new.window ≡ V.budget grid.old.window }
{
    let marks = marked_reads(&grid.window);
    let frames = grid.window.numbers();
    if any_marked(&marks, frames.as_slice()) {
        answer_banks(grid, told, &marks);
    }
}
