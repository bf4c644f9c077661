//! Part (5) of a cycle, counted: units give their results to the mesh, and issue what is ready.
ghost use Rattle.std.specs.Prelude.{◌≡◌, ◌<◌, ◌==◌, ℕ, ◌∷◌, [], Some, cond, is_some};
ghost use Rattle.grid_cycle_spec.specs.Units as spec;
ghost use Rattle.block_cases.specs.Orders.{slot_of};
ghost use Rattle.grid_events.specs.Notes.{Fires};
ghost use Rattle.grid_events.specs.Turns.{of_frame};
ghost use Rattle.grid_events.specs.UnitNotes as noted;
ghost use Rattle.grid_parts.specs.Seen.{seen};
ghost use Rattle.grid_parts.specs.inside.EldestChoices.{lowest_slot};
ghost use Rattle.grid_parts.specs.inside.Marked.{SlotsMarked};
ghost use Rattle.grid_tallies.specs.declared.statistic.Statistic.TheVariants as statistic;
ghost use Rattle.grid_tallies.specs.Statistics.{Heard};
ghost use Rattle.grid_tallies.specs.inside.Adding.{Adds};

use crate::entering::given;
use crate::statistic::{Statistic, kind_of};
use crate::tallies::Tallies;
use grid_parts::{Grid, Windows, lowest_on, marked_slots, ready_slot};
use trips_isa::{Inst, Op};

// The operation of what a slot holds.
fn operation(inst: Option<Inst>) -> Option<Op>
    ensures { result ≡ noted.operation inst }
{
    match inst {
        Some(inst) => Some(inst.op),
        None => None,
    }
}

// What a slot of a frame in flight holds is counted as fired.
fn count<V: Windows>(window: &V, told: &mut Tallies, frame: u8, slot: u8)
    requires frame { frame < 8 }
    requires slot { slot < 128 }
    ensures { (tile : ℕ) → Heard told.old (of_frame frame
        (λ f. Fires tile frame slot (noted.operation (slot_of f.code slot)) ∷ []) (V.held window.now).frames) told.new }
{
    if window.block_of(frame).is_some() {
        let operation = operation(window.inst_of(frame, slot));
        told.add(kind_of(operation), 1);
    }
}

// A unit issues a slot of a frame.
fn issued<V: Windows, W>(grid: &mut Grid<V, W>, told: &mut Tallies, tile: u8, frame: u8, slot: u8)
    requires tile { tile < 16 }
    requires frame { frame < 8 }
    requires slot { slot < 128 }
    ensures change { seen (V.held grid.new.window) grid.new.state
        ≡ spec.issue_chosen (V.blocks grid.old.window) (V.budget grid.old.window) tile (Some (frame, slot))
        (seen (V.held grid.old.window) grid.old.state) }
    ensures heard { Heard told.old (noted.issue_notes tile (Some (frame, slot))
        (seen (V.held grid.old.window) grid.old.state)) told.new }
    ensures image { V.blocks grid.new.window ≡ V.blocks grid.old.window }
    ensures budget { V.budget grid.new.window ≡ V.budget grid.old.window }
{
    count(&grid.window, told, frame, slot);
    grid.issue(tile, frame, slot);
}

// A free unit issues the eldest ready entry of its tile.
fn issues<V: Windows, W>(grid: &mut Grid<V, W>, told: &mut Tallies, tile: u8)
    requires { tile < 16 }
    ensures change { seen (V.held grid.new.window) grid.new.state
        ≡ spec.issues (V.blocks grid.old.window) (V.budget grid.old.window) tile
        (seen (V.held grid.old.window) grid.old.state) }
    ensures heard { Heard told.old (noted.issues_notes (V.blocks grid.old.window) (V.budget grid.old.window) tile
        (seen (V.held grid.old.window) grid.old.state)) told.new }
    ensures image { V.blocks grid.new.window ≡ V.blocks grid.old.window }
    ensures budget { V.budget grid.new.window ≡ V.budget grid.old.window }
{
    if grid.state.busy(tile) == 0 {
        let frames = grid.window.numbers();
        match ready_slot(&grid.window, tile, frames.as_slice()) {
            Some(chosen) => issued(grid, told, tile, chosen.0, chosen.1),
            None => {}
        }
    }
}

// Whether a slot of a tile is marked.
fn is_marked(marks: u128, tile: u8) -> bool
    requires { tile < 16 }
    ensures { result ≡ is_some (lowest_slot marks tile) }
{
    lowest_on(marks, tile).is_some()
}

// The same where each slot that may fire is marked, so that a tile without a marked slot issues nothing.
fn issues_marked<V: Windows, W>(grid: &mut Grid<V, W>, told: &mut Tallies, tile: u8, marks: u128)
    requires tile { tile < 16 }
    requires marked { SlotsMarked (V.blocks grid.old.window) (V.budget grid.old.window)
        (V.held grid.old.window) marks }
    ensures change { seen (V.held grid.new.window) grid.new.state
        ≡ spec.issues (V.blocks grid.old.window) (V.budget grid.old.window) tile
        (seen (V.held grid.old.window) grid.old.state) }
    ensures heard { Heard told.old (noted.issues_notes (V.blocks grid.old.window) (V.budget grid.old.window) tile
        (seen (V.held grid.old.window) grid.old.state)) told.new }
    ensures image { V.blocks grid.new.window ≡ V.blocks grid.old.window }
    ensures budget { V.budget grid.new.window ≡ V.budget grid.old.window }
{
    if is_marked(marks, tile) {
        issues(grid, told, tile);
    }
}

// One where a unit is busy for so many cycles yet.
fn one_busy(left: u8) -> u64
    ensures { result ≡ cond (left == 0) 0 1 }
{
    if left == 0 { 0 } else { 1 }
}

// A unit that is busy works for a cycle, which is counted for its tile.
fn count_work(told: &mut Tallies, tile: u8, left: u8)
    requires { tile < 16 }
    ensures { Adds (statistic.Station tile) (cond (left == 0) 0 1) told.old told.new }
{
    told.add(Statistic::Station(tile), one_busy(left));
}

// What a unit gives is counted.
fn count_given(told: &mut Tallies, parcels: u64)
    ensures { Adds statistic.Parcels parcels told.old told.new }
{
    if parcels > 0 {
        told.add(Statistic::Parcels, parcels);
    }
}

/// Part (5).
pub fn works_on<V: Windows, W>(grid: &mut Grid<V, W>, told: &mut Tallies)
    ensures change { seen (V.held grid.new.window) grid.new.state
        ≡ spec.works_on (V.blocks grid.old.window) (V.budget grid.old.window)
        (seen (V.held grid.old.window) grid.old.state) }
    ensures heard { Heard told.old (noted.works_notes (V.blocks grid.old.window) (V.budget grid.old.window)
        (seen (V.held grid.old.window) grid.old.state)) told.new }
    ensures image { V.blocks grid.new.window ≡ V.blocks grid.old.window }
    ensures budget { V.budget grid.new.window ≡ V.budget grid.old.window }
{
    let frames = grid.window.numbers();
    let marks = marked_slots(&grid.window, frames.as_slice());
    for tile in 0..16u8 {
        count_work(told, tile, grid.state.busy(tile));
        count_given(told, given(grid, tile));
        grid.unit_on(tile);
        issues_marked(grid, told, tile, marks);
    }
}
