//! Runs of the grid over any window.
ghost use Rattle.std.specs.Prelude.{◌≡◌, ◌<◌, ◌≤◌, ◌+◌, ◌-◌, ◌^◌, [], true, false};
ghost use Rattle.grid_machine.specs.inside.Counted.{IsCounted};
ghost use Rattle.grid_machine.specs.Going.{goes};
ghost use Rattle.grid_parts.specs.Seen.{seen};
ghost use Rattle.grid_machine.specs.Endings.{ended, ending_of, is_going};
ghost use Rattle.grid_machine.specs.WholeRuns.{GoesFor, IsRun, at_end, going_cycles};
ghost use Rattle.grid_machine.specs.inside.WholeRuns.{IsKept};

use crate::cycling::close;
use grid_parts::{Grid, Windows};
use operand_net::Weather;
use trips_isa::{Ending, Stepped};

// Whether a last step lets the run go on.
fn goes(over: Stepped) -> bool
    ensures { result ≡ goes over }
{
    match over {
        Stepped::Went => true,
        _ => false,
    }
}

// Whether a run goes on.
fn is_going<V: Windows>(window: &V, budget: u32) -> bool
    ensures { result ≡ is_going budget (V.held window.now) }
{
    if goes(window.over()) {
        window.committed() < budget as u64
    } else {
        false
    }
}

// The committed next block, where no frame is in flight.
fn next_block<V: Windows>(window: &V) -> u32
    requires rests { (V.held window.now).frames ≡ [] }
    ensures value { result ≡ (V.held window.now).state.next }
{
    window.successor().unwrap_or(0)
}

// How a run has ended that does not go on, once no frame is in flight.
fn ending<V: Windows>(window: &V) -> Ending
    requires rests { (V.held window.now).frames ≡ [] }
    ensures value { result ≡ ending_of (V.held window.now).over (V.held window.now).state.next }
{
    match window.over() {
        Stepped::Went => Ending::Budget,
        Stepped::Ended => Ending::Ended,
        Stepped::StackFull => Ending::StackFull,
        Stepped::Trap(cause) => Ending::Trap {
            block: next_block(window),
            cause,
        },
    }
}

// Flushes the frames in flight where the run has ended, and tells how.
fn finish<V: Windows, W>(grid: &mut Grid<V, W>, budget: u32) -> Option<Ending>
    requires counted { IsCounted (seen (V.held grid.old.window) grid.old.state) }
    requires cycles { grid.old.state.counts.cycles ≤ 2 ^ 63 }
    ensures change { seen (V.held grid.new.window) grid.new.state
        ≡ at_end budget (seen (V.held grid.old.window) grid.old.state) }
    ensures value { result ≡ ended budget (V.held grid.new.window) }
    ensures kept { IsKept budget (seen (V.held grid.new.window) grid.new.state) }
    ensures cycles { grid.new.state.counts.cycles ≡ grid.old.state.counts.cycles }
    ensures image { V.blocks grid.new.window ≡ V.blocks grid.old.window }
    ensures budget { V.budget grid.new.window ≡ V.budget grid.old.window }
{
    if is_going(&grid.window, budget) {
        return None;
    }
    close(grid);
    Some(ending(&grid.window))
}

// A cycle, where the run goes on.
fn cycle_going<V: Windows, W: Weather>(grid: &mut Grid<V, W>, budget: u32)
    requires budget { V.budget grid.old.window ≡ budget }
    requires counted { IsCounted (seen (V.held grid.old.window) grid.old.state) }
    requires cycles { grid.old.state.counts.cycles < 2 ^ 63 }
    ensures change { GoesFor W.next W.follows (V.blocks grid.old.window) budget
        (going_cycles budget (V.held grid.old.window))
        (seen (V.held grid.old.window) grid.old.state) (seen (V.held grid.new.window) grid.new.state) }
    ensures counted { IsCounted (seen (V.held grid.new.window) grid.new.state) }
    ensures cycles { grid.new.state.counts.cycles
        ≡ grid.old.state.counts.cycles + going_cycles budget (V.held grid.old.window) }
    ensures image { V.blocks grid.new.window ≡ V.blocks grid.old.window }
    ensures budget { V.budget grid.new.window ≡ V.budget grid.old.window }
{
    if is_going(&grid.window, budget) {
        crate::cycling::cycle(grid);
    }
}

/// A cycle of a run that goes on, and how the run has then ended; none exactly where it goes on after it. Where it
/// has ended the frames in flight are flushed. A run that has ended answers its ending again, and nothing changes.
///
/// It wants the budget of the window, and that fewer than 2^63 cycles have been made.
pub fn cycle<V: Windows, W: Weather>(grid: &mut Grid<V, W>, budget: u32) -> Option<Ending>
    requires budget { V.budget grid.old.window ≡ budget }
    requires kept { IsKept budget (seen (V.held grid.old.window) grid.old.state) }
    requires cycles { grid.old.state.counts.cycles < 2 ^ 63 }
    ensures run { IsRun W.next W.follows (V.blocks grid.old.window) budget
        (going_cycles budget (V.held grid.old.window))
        (seen (V.held grid.old.window) grid.old.state) (seen (V.held grid.new.window) grid.new.state) }
    ensures value { result ≡ ended budget (V.held grid.new.window) }
    ensures same { is_going budget (V.held grid.old.window) ≡ false
        → seen (V.held grid.new.window) grid.new.state ≡ seen (V.held grid.old.window) grid.old.state }
    ensures kept { IsKept budget (seen (V.held grid.new.window) grid.new.state) }
    ensures cycles { grid.new.state.counts.cycles
        ≡ grid.old.state.counts.cycles + going_cycles budget (V.held grid.old.window) }
    ensures image { V.blocks grid.new.window ≡ V.blocks grid.old.window }
    ensures budget { V.budget grid.new.window ≡ V.budget grid.old.window }
{
    cycle_going(grid, budget);
    finish(grid, budget)
}

// Cycles while the run goes on, at most so many: how many have been made.
fn cycles<V: Windows, W: Weather>(grid: &mut Grid<V, W>, budget: u32, most: u64) -> u64
    requires budget { V.budget grid.old.window ≡ budget }
    requires counted { IsCounted (seen (V.held grid.old.window) grid.old.state) }
    requires cycles { grid.old.state.counts.cycles + most ≤ 2 ^ 63 }
    ensures change { GoesFor W.next W.follows (V.blocks grid.old.window) budget result
        (seen (V.held grid.old.window) grid.old.state) (seen (V.held grid.new.window) grid.new.state) }
    ensures full { is_going budget (V.held grid.new.window) ≡ true → result ≡ most }
    ensures few { result ≤ most }
    ensures counted { IsCounted (seen (V.held grid.new.window) grid.new.state) }
    ensures cycles { grid.new.state.counts.cycles ≡ grid.old.state.counts.cycles + result }
    ensures image { V.blocks grid.new.window ≡ V.blocks grid.old.window }
    ensures budget { V.budget grid.new.window ≡ V.budget grid.old.window }
{
    let mut made: u64 = 0;
    while made < most {
        if is_going(&grid.window, budget) {
            crate::cycling::cycle(grid);
            made += 1;
        } else {
            return made;
        }
    }
    made
}

/// Cycles until the run has ended, or until so many have been made in all, and how the run has ended; none exactly
/// where that many have been made and it goes on. Where it has ended the frames in flight are flushed.
///
/// It wants the budget of the window, and at most 2^63 cycles.
pub fn run<V: Windows, W: Weather>(grid: &mut Grid<V, W>, budget: u32, most: u64) -> Option<Ending>
    requires budget { V.budget grid.old.window ≡ budget }
    requires kept { IsKept budget (seen (V.held grid.old.window) grid.old.state) }
    requires cycles { grid.old.state.counts.cycles ≤ 2 ^ 63 }
    requires most { most ≤ 2 ^ 63 }
    ensures run { IsRun W.next W.follows (V.blocks grid.old.window) budget
        (grid.new.state.counts.cycles - grid.old.state.counts.cycles)
        (seen (V.held grid.old.window) grid.old.state) (seen (V.held grid.new.window) grid.new.state) }
    ensures value { result ≡ ended budget (V.held grid.new.window) }
    ensures same { is_going budget (V.held grid.old.window) ≡ false
        → seen (V.held grid.new.window) grid.new.state ≡ seen (V.held grid.old.window) grid.old.state }
    ensures full { is_going budget (V.held grid.new.window) ≡ true → most ≤ grid.new.state.counts.cycles }
    ensures few { grid.old.state.counts.cycles ≤ most → grid.new.state.counts.cycles ≤ most }
    ensures more { grid.old.state.counts.cycles ≤ grid.new.state.counts.cycles }
    ensures kept { IsKept budget (seen (V.held grid.new.window) grid.new.state) }
    ensures image { V.blocks grid.new.window ≡ V.blocks grid.old.window }
    ensures budget { V.budget grid.new.window ≡ V.budget grid.old.window }
{
    let more = most.saturating_sub(grid.state.counts.cycles);
    let _ = cycles(grid, budget, more);
    finish(grid, budget)
}
