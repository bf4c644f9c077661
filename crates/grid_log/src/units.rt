//! Part (5) of a cycle, logged: units give their results to the mesh, and issue what is ready.
ghost use Rattle.std.specs.Prelude.{◌≡◌, ◌<◌, ℕ, ◌∷◌, [], Some};
ghost use Rattle.grid_cycle_spec.specs.Units as spec;
ghost use Rattle.block_cases.specs.Orders.{slot_of};
ghost use Rattle.grid_events.specs.Notes.{Fires};
ghost use Rattle.grid_events.specs.Turns.{of_frame};
ghost use Rattle.grid_events.specs.UnitNotes as noted;
ghost use Rattle.grid_parts.specs.Seen.{seen};
ghost use Rattle.grid_log.specs.Logs.{Logged};

use crate::event::Event;
use crate::log::Log;
use grid_parts::{Grid, Windows, ready_slot};
use trips_isa::{Inst, Op};

// The operation of what a slot holds.
fn operation(inst: Option<Inst>) -> Option<Op>
    ensures { result ≡ noted.operation inst }
{
    match inst {
        Some(inst) => Some(inst.op),
        None => None,
    }
}

// A slot of a frame fires, where the frame is in flight.
fn tell_firing<V: Windows>(window: &V, log: &mut Log, tile: u8, frame: u8, slot: u8)
    requires frame { frame < 8 }
    requires slot { slot < 128 }
    ensures { Logged log.old (of_frame frame
        (λ f. Fires tile frame slot (noted.operation (slot_of f.code slot)) ∷ []) (V.held window.now).frames)
        log.new }
{
    if window.block_of(frame).is_some() {
        let op = operation(window.inst_of(frame, slot));
        log.keep(Event::Fires {
            tile,
            frame,
            slot,
            op,
        });
    }
}

// A unit issues a slot of a frame.
fn issued<V: Windows, W>(grid: &mut Grid<V, W>, log: &mut Log, tile: u8, frame: u8, slot: u8)
    requires tile { tile < 16 }
    requires frame { frame < 8 }
    requires slot { slot < 128 }
    ensures change { seen (V.held grid.new.window) grid.new.state
        ≡ spec.issue_chosen (V.blocks grid.old.window) (V.budget grid.old.window) tile (Some (frame, slot))
        (seen (V.held grid.old.window) grid.old.state) }
    ensures told { Logged log.old (noted.issue_notes tile (Some (frame, slot))
        (seen (V.held grid.old.window) grid.old.state)) log.new }
    ensures image { V.blocks grid.new.window ≡ V.blocks grid.old.window }
    ensures budget { V.budget grid.new.window ≡ V.budget grid.old.window }
{
    tell_firing(&grid.window, log, tile, frame, slot);
    grid.issue(tile, frame, slot);
}

// A free unit issues the eldest ready entry of its tile.
fn issues<V: Windows, W>(grid: &mut Grid<V, W>, log: &mut Log, tile: u8)
    requires { tile < 16 }
    ensures change { seen (V.held grid.new.window) grid.new.state
        ≡ spec.issues (V.blocks grid.old.window) (V.budget grid.old.window) tile
        (seen (V.held grid.old.window) grid.old.state) }
    ensures told { Logged log.old (noted.issues_notes (V.blocks grid.old.window) (V.budget grid.old.window) tile
        (seen (V.held grid.old.window) grid.old.state)) log.new }
    ensures image { V.blocks grid.new.window ≡ V.blocks grid.old.window }
    ensures budget { V.budget grid.new.window ≡ V.budget grid.old.window }
{
    if grid.state.busy(tile) == 0 {
        let frames = grid.window.numbers();
        match ready_slot(&grid.window, tile, frames.as_slice()) {
            Some(chosen) => issued(grid, log, tile, chosen.0, chosen.1),
            None => {}
        }
    }
}

// A tile gives its finished result to the mesh, then issues.
fn unit_turn<V: Windows, W>(grid: &mut Grid<V, W>, log: &mut Log, tile: u8)
    requires { tile < 16 }
    ensures change { seen (V.held grid.new.window) grid.new.state
        ≡ spec.unit_turn (V.blocks grid.old.window) (V.budget grid.old.window) tile
        (seen (V.held grid.old.window) grid.old.state) }
    ensures told { Logged log.old (noted.turn_notes (V.blocks grid.old.window) (V.budget grid.old.window) tile
        (seen (V.held grid.old.window) grid.old.state)) log.new }
    ensures image { V.blocks grid.new.window ≡ V.blocks grid.old.window }
    ensures budget { V.budget grid.new.window ≡ V.budget grid.old.window }
{
    grid.unit_on(tile);
    issues(grid, log, tile);
}

/// Part (5).
pub fn works_on<V: Windows, W>(grid: &mut Grid<V, W>, log: &mut Log)
    ensures change { seen (V.held grid.new.window) grid.new.state
        ≡ spec.works_on (V.blocks grid.old.window) (V.budget grid.old.window)
        (seen (V.held grid.old.window) grid.old.state) }
    ensures told { Logged log.old (noted.works_notes (V.blocks grid.old.window) (V.budget grid.old.window)
        (seen (V.held grid.old.window) grid.old.state)) log.new }
    ensures image { V.blocks grid.new.window ≡ V.blocks grid.old.window }
    ensures budget { V.budget grid.new.window ≡ V.budget grid.old.window }
{
    for tile in 0..16u8 {
        unit_turn(grid, log, tile);
    }
}
