//! Laws of the notes of cycles; each function's clause is the law.
ghost use Rattle.std.specs.Prelude.{◌≡◌, ◌≤◌, ◌+◌, ◌++◌, ℕ, List, [], length};
ghost use Rattle.trips_isa.specs.declared.block.Block.{Block};
ghost use Rattle.grid_cycle_spec.specs.Grid.{Grid};
ghost use Rattle.grid_cycle_spec.specs.Cycles.{Eager, uncounted};
ghost use Rattle.grid_events.specs.Notes.{Note};
ghost use Rattle.grid_events.specs.Parts.{reads_notes, answers_notes};
ghost use Rattle.grid_events.specs.Cycles.{Noted, NotedCycles, NotedRun, told};
ghost use Rattle.grid_events.specs.Counts.{tally, flushed, flushed_for, by_violation, by_exit, by_end};
ghost use Rattle.grid_events.specs.Counts.{fired, fired_by, is_mov, is_null_op, is_useful, stores, null_stores};
ghost use Rattle.grid_events.specs.Counts.{predicted, reads_at, answers_at};
ghost use Rattle.grid_events.specs.Guesses.{right};
ghost use Rattle.grid_events.specs.Laws.{HasNotes, Tells, AreSure, InFlightAddsUp, AllTold};

use operand_net::Weather;

/// Each eager cycle has notes, and what has notes is an eager cycle: notes neither allow nor forbid a cycle.
pub fn cycles_have_notes<W: Weather>()
    ensures noted { (blocks : List Block) (budget : ℕ) (g h : Grid W) → Eager W.next W.follows blocks budget g h
        → HasNotes W.next W.follows blocks budget g h }
    ensures eager { (blocks : List Block) (budget : ℕ) (g h : Grid W) (es : List Note)
        → Noted W.next W.follows blocks budget g es h → Eager W.next W.follows blocks budget g h }
{}

/// The notes of a cycle tell what becomes of the window, of the fetch unit, of the units of the tiles, and of the
/// counts.
pub fn notes_tell_of_cycles<W: Weather>()
    ensures { (blocks : List Block) (budget : ℕ) (g h : Grid W) (es : List Note)
        → Noted W.next W.follows blocks budget g es h → Tells blocks budget g es h }
{}

/// So do the notes of any number of cycles.
pub fn notes_tell_of_runs<W: Weather>()
    ensures { (blocks : List Block) (budget : ℕ) (g h : Grid W) (ess : List (List Note))
        → NotedCycles W.next W.follows blocks budget g ess h → Tells blocks budget g (told ess) h }
{}

/// A note that a frame is filled, sealed or committed, that a read is answered or that a slot fires is of an event
/// that is Done where it is played, and names what stands there.
pub fn notes_are_sure<W: Weather>()
    ensures { (blocks : List Block) (budget : ℕ) (g h : Grid W) (es : List Note)
        → Noted W.next W.follows blocks budget g es h → AreSure blocks budget es g.window }
{}

/// From no frame and no count, the notes of any number of cycles tell how many frames are in flight.
pub fn notes_tell_frames_in_flight<W: Weather>()
    ensures { (blocks : List Block) (budget : ℕ) (g h : Grid W) (ess : List (List Note))
        → g.counts ≡ uncounted → g.window.frames ≡ []
        → NotedCycles W.next W.follows blocks budget g ess h → InFlightAddsUp (told ess) h }
{}

/// Of a run from no frame and no count, each count is the number of its notes.
pub fn notes_count_runs<W: Weather>()
    ensures { (blocks : List Block) (budget n : ℕ) (g h : Grid W) (ess : List (List Note)) (es : List Note)
        → g.counts ≡ uncounted → g.window.frames ≡ []
        → NotedRun W.next W.follows blocks budget n g ess es h → AllTold n es h }
{}

/// Frames are flushed for one of three causes; what is fired is a mov, a null or something useful; null stores are
/// stores; and what is counted of notes is the sum of what is counted of their parts.
pub fn counts_by_kind_add_up()
    ensures flushed { (es : List Note) → tally flushed es ≡ tally (flushed_for by_violation) es
        + tally (flushed_for by_exit) es + tally (flushed_for by_end) es }
    ensures fired { (es : List Note) → tally fired es ≡ tally (fired_by is_mov) es + tally (fired_by is_null_op) es
        + tally (fired_by is_useful) es }
    ensures nulls { (es : List Note) → tally null_stores es ≤ tally stores es }
    ensures joined { (one : Note → ℕ) (es fs : List Note) → tally one (es ++ fs) ≡ tally one es + tally one fs }
{}

/// No more predictions are right than were made.
pub fn right_predictions_were_made()
    ensures { (es : List Note) → right es ≤ tally predicted es }
{}

/// Among the notes of part (3) each bank answers at most one read, and among those of part (4) each data tile at
/// most one request: so both are counts of cycles in which the station is busy.
pub fn stations_answer_once<W: Weather>()
    ensures banks { (blocks : List Block) (budget bank : ℕ) (g : Grid W)
        → tally (reads_at bank) (reads_notes blocks budget g) ≤ 1 }
    ensures tiles { (blocks : List Block) (budget tile : ℕ) (g : Grid W)
        → tally (answers_at tile) (answers_notes blocks budget g) ≤ 1 }
{}
