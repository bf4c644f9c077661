//! Runs of cycles.
ghost use Rattle.std.specs.Prelude.{◌≡◌, ◌≤◌, ◌+◌, ◌^◌, true};
ghost use Rattle.grid_cycle_spec.specs.inside.Cycles.{AfterCycles};
ghost use Rattle.grid_parts.specs.Seen.{seen};
ghost use Rattle.grid_machine.specs.inside.Counted.{IsCounted};
ghost use Rattle.grid_machine.specs.Going.{goes};

use crate::cycling::cycle;
use grid_parts::{Grid, Windows};
use operand_net::Weather;
use trips_isa::Stepped;

// Whether a run has not ended.
fn is_going(over: Stepped) -> bool
    ensures { result ≡ goes over }
{
    match over {
        Stepped::Went => true,
        _ => false,
    }
}

/// Cycles until the run has ended, at most so many: how many have been made.
pub fn run<V: Windows, W: Weather>(grid: &mut Grid<V, W>, most: u64) -> u64
    requires counted { IsCounted (seen (V.held grid.old.window) grid.old.state) }
    requires cycles { grid.old.state.counts.cycles + most ≤ 2 ^ 63 }
    ensures change { AfterCycles W.next W.follows (V.blocks grid.old.window) (V.budget grid.old.window) result
        (seen (V.held grid.old.window) grid.old.state) (seen (V.held grid.new.window) grid.new.state) }
    ensures full { goes (V.held grid.new.window).over ≡ true → result ≡ most }
    ensures counted { IsCounted (seen (V.held grid.new.window) grid.new.state) }
    ensures cycles { grid.new.state.counts.cycles ≡ grid.old.state.counts.cycles + result }
    ensures image { V.blocks grid.new.window ≡ V.blocks grid.old.window }
    ensures budget { V.budget grid.new.window ≡ V.budget grid.old.window }
{
    let mut made: u64 = 0;
    while made < most {
        if !is_going(grid.window.over()) {
            return made;
        }
        cycle(grid);
        made += 1;
    }
    made
}
