//! Laws of what is logged; each function's clause is the law.
ghost use Rattle.std.specs.Prelude.{◌≡◌, ℕ, List, Some};
ghost use Rattle.trips_isa.specs.declared.block.Block.{Block};
ghost use Rattle.grid_cycle_spec.specs.Cycles.{Eager};
ghost use Rattle.grid_cycle_spec.specs.Grid.{Grid};
ghost use Rattle.grid_events.specs.Notes.{Note};
ghost use Rattle.grid_log.specs.declared.event.Event as events;
ghost use Rattle.grid_log.specs.declared.log.Log as logs;
ghost use Rattle.grid_log.specs.Cycles.{IsLogged};
ghost use Rattle.grid_log.specs.Events.{entries_of, event_of, kept_of, note_of, notes_of};

use operand_net::Weather;

/// The entries of some notes stand for those that are kept of them, and no two events stand for one note.
pub fn entries_stand_for_notes()
    ensures kept { (c : ℕ) (es : List Note) → notes_of (entries_of c es) ≡ kept_of es }
    ensures one { (e : events.Event) → event_of (note_of e) ≡ Some e }
{}

/// A cycle that is logged is an eager cycle as any other.
pub fn logged_cycles_are_eager<W: Weather>()
    ensures { (blocks : List Block) (budget : ℕ) (g h : Grid W) (a b : logs.Log)
        → IsLogged W.next W.follows blocks budget g h a b → Eager W.next W.follows blocks budget g h }
{}
