//! A cycle and a run of a grid.
ghost use Rattle.std.specs.Prelude.{◌≡◌, ◌<◌, ◌≤◌, ◌+◌, ◌-◌, ◌^◌, length, true, false};
ghost use Rattle.grid_parts.specs.Seen.{seen};
ghost use Rattle.grid_machine.specs.Answered.{HasCome};
ghost use Rattle.grid_machine.specs.Endings.{ended, is_going};
ghost use Rattle.grid_machine.specs.Tallies.{CountsCommits};
ghost use Rattle.grid_machine.specs.WholeRuns.{IsRun, going_cycles, most_cycles};
ghost use Rattle.grid_machine.specs.inside.WholeRuns.{IsKept};

use crate::window::GridWindow;
use grid_parts::Grid;
use operand_net::Weather;
use trips_isa::Ending;

// The greatest number of cycles of a run.
fn most_cycles(budget: u32) -> u64
    ensures value { result ≡ most_cycles budget }
    ensures bound { result ≤ 2 ^ 63 }
{
    41472 * budget as u64
}

/// A cycle of a run that goes on, and how the run has then ended; none exactly where it goes on after it. Where it
/// has ended the frames in flight are flushed. A run that has ended answers its ending again, and nothing changes.
pub fn cycle<W: Weather>(grid: &mut Grid<GridWindow, W>) -> Option<Ending>
    requires kept { IsKept grid.old.window.budget (seen grid.old.window.window grid.old.state) }
    requires cycles { grid.old.state.counts.cycles < 2 ^ 63 }
    ensures run { IsRun W.next W.follows grid.old.window.image.blocks grid.old.window.budget
        (going_cycles grid.old.window.budget grid.old.window.window)
        (seen grid.old.window.window grid.old.state) (seen grid.new.window.window grid.new.state) }
    ensures value { result ≡ ended grid.old.window.budget grid.new.window.window }
    ensures same { is_going grid.old.window.budget grid.old.window.window ≡ false
        → seen grid.new.window.window grid.new.state ≡ seen grid.old.window.window grid.old.state }
    ensures kept { IsKept grid.old.window.budget (seen grid.new.window.window grid.new.state) }
    ensures cycles { grid.new.state.counts.cycles
        ≡ grid.old.state.counts.cycles + going_cycles grid.old.window.budget grid.old.window.window }
    ensures image { grid.new.window.image.blocks ≡ grid.old.window.image.blocks }
    ensures budget { grid.new.window.budget ≡ grid.old.window.budget }
{
    let budget = grid.window.window().budget();
    crate::runs::cycle(grid, budget)
}

/// Cycles until the run has ended, and how: as the machine's run ends within what is left of the budget. None exactly
/// where the greatest number of cycles has been made and the run goes on. Where it has ended the frames in flight are
/// flushed. A run that has ended answers its ending again, and nothing changes.
pub fn run<W: Weather>(grid: &mut Grid<GridWindow, W>) -> Option<Ending>
    requires kept { IsKept grid.old.window.budget (seen grid.old.window.window grid.old.state) }
    requires cycles { grid.old.state.counts.cycles ≤ 2 ^ 63 }
    ensures run { IsRun W.next W.follows grid.old.window.image.blocks grid.old.window.budget
        (grid.new.state.counts.cycles - grid.old.state.counts.cycles)
        (seen grid.old.window.window grid.old.state) (seen grid.new.window.window grid.new.state) }
    ensures value { result ≡ ended grid.old.window.budget grid.new.window.window }
    ensures comes { is_going grid.old.window.budget grid.old.window.window ≡ true
        → HasCome grid.old.window.image.blocks grid.old.window.window.state
        (grid.old.window.budget - length grid.old.window.window.state.trace) grid.old.window.budget
        (most_cycles grid.old.window.budget) result (seen grid.new.window.window grid.new.state) }
    ensures same { is_going grid.old.window.budget grid.old.window.window ≡ false
        → seen grid.new.window.window grid.new.state ≡ seen grid.old.window.window grid.old.state }
    ensures commits { CountsCommits (seen grid.old.window.window grid.old.state)
        (seen grid.new.window.window grid.new.state) }
    ensures few { grid.old.state.counts.cycles ≤ most_cycles grid.old.window.budget
        → grid.new.state.counts.cycles ≤ most_cycles grid.old.window.budget }
    ensures more { grid.old.state.counts.cycles ≤ grid.new.state.counts.cycles }
    ensures kept { IsKept grid.old.window.budget (seen grid.new.window.window grid.new.state) }
    ensures image { grid.new.window.image.blocks ≡ grid.old.window.image.blocks }
    ensures budget { grid.new.window.budget ≡ grid.old.window.budget }
{
    grid.window.keeps_invariant();
    let budget = grid.window.window().budget();
    let most = most_cycles(budget);
    crate::runs::run(grid, budget, most)
}
