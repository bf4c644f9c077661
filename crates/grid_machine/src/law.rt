//! Laws of runs of the grid, over its definitions alone; each function's clause is the law.
ghost use Rattle.std.specs.Prelude.{◌≡◌, ◌-◌, ◌<◌, ◌≤◌, ◌*◌, ℕ, List, length, Some};
ghost use Rattle.trips_isa.specs.declared.block.Block.{Block};
ghost use Rattle.trips_isa.specs.declared.run.Ending.{Ending};
ghost use Rattle.trips_isa.specs.declared.run.Stepped.TheVariants.{Went};
ghost use Rattle.commit_flush_spec.specs.inside.Invariant.{AllGood};
ghost use Rattle.commit_flush_spec.specs.inside.Laws.{WindowOk};
ghost use Rattle.grid_cycle_spec.specs.Grid.{Grid};
ghost use Rattle.grid_cycle_spec.specs.Laws.{AddsUp};
ghost use Rattle.grid_machine.specs.Endings.{ended};
ghost use Rattle.grid_machine.specs.WholeRuns.{IsRun};
ghost use Rattle.grid_machine.specs.inside.WholeRuns.{AreCycles};
ghost use Rattle.grid_machine.specs.Answered.{ComesTo};
ghost use Rattle.grid_machine.specs.Tallies.{CountsCommits};

use operand_net::Weather;

/// A run is eager cycles, and at its end the flush of the frames in flight.
pub fn runs_are_cycles<W: Weather>()
    ensures { (blocks : List Block) (budget n : ℕ) (g h : Grid W) → IsRun W.next W.follows blocks budget n g h
        → AreCycles W.next W.follows blocks budget n g h }
{}

/// Endings are exact: a run that has ended has come to where the machine comes to within what is left of the budget,
/// whatever the weather and the predictor; and each frame that was fetched has been committed or flushed.
pub fn runs_come_to_the_machine<W: Weather>()
    ensures { (blocks : List Block) (budget n : ℕ) (g h : Grid W) (e : Ending) → AllGood blocks
        → WindowOk blocks budget g.window → g.window.over ≡ Went → AddsUp g
        → IsRun W.next W.follows blocks budget n g h → ended budget h.window ≡ Some e
        → ComesTo blocks g.window.state (budget - length g.window.state.trace) e h }
{}

/// A run counts as many committed blocks as its trace grows by, and each frame that was filled has been committed,
/// has been flushed, or is in flight.
pub fn runs_count<W: Weather>()
    ensures commits { (blocks : List Block) (budget n : ℕ) (g h : Grid W)
        → IsRun W.next W.follows blocks budget n g h → CountsCommits g h }
    ensures frames { (blocks : List Block) (budget n : ℕ) (g h : Grid W) → AddsUp g
        → IsRun W.next W.follows blocks budget n g h → AddsUp h }
{}
