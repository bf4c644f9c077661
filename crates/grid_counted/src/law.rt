//! Laws of runs with notes; each function's clause is the law.
ghost use Rattle.std.specs.Prelude.{◌≡◌, ◌+◌, ℕ, List, length};
ghost use Rattle.trips_isa.specs.declared.block.Block.{Block};
ghost use Rattle.trips_isa.specs.Machine.{State};
ghost use Rattle.grid_cycle.specs.declared.weather.AnyWeather.{AnyWeather};
ghost use Rattle.grid_cycle.specs.declared.conditions.Conditions.{Conditions};
ghost use Rattle.grid_cycle_spec.specs.Grid.{Grid};
ghost use Rattle.grid_events.specs.Counts.{committed, fetched, flushed, tally};
ghost use Rattle.grid_events.specs.Notes.{Note};
ghost use Rattle.grid_machine.specs.WholeRuns.{IsRun};
ghost use Rattle.grid_tallies.specs.declared.statistic.Statistic.TheVariants as statistic;
ghost use Rattle.grid_tallies.specs.Statistics.{weigh};
ghost use Rattle.grid_counted.specs.Runs.{HasNotes, IsNotedRun};
ghost use Rattle.trips_isa.specs.declared.run.Ending.{Ending};
ghost use Rattle.grid_tallies.specs.declared.counters.Counters as counts;
ghost use Rattle.grid_tallies.specs.declared.flights.Flights as flights;
ghost use Rattle.grid_tallies.specs.Flights.{begun_below};
ghost use Rattle.grid_counted.specs.Seeds.{AreNotesFrom, HasCounted};

use operand_net::Weather;

/// A run with its notes is a run.
pub fn noted_runs_are_runs<W: Weather>()
    ensures { (blocks : List Block) (budget n : ℕ) (g h : Grid W) (notes : List Note)
        → IsNotedRun W.next W.follows blocks budget n g notes h → IsRun W.next W.follows blocks budget n g h }
{}

/// And each run has notes: they neither allow nor forbid one.
pub fn runs_have_notes<W: Weather>()
    ensures { (blocks : List Block) (budget n : ℕ) (g h : Grid W) → IsRun W.next W.follows blocks budget n g h
        → HasNotes W.next W.follows blocks budget n g h }
{}

/// The flushed frames that a grid counts are those of its notes, each for one of three causes.
pub fn flushes_have_causes()
    ensures { (blocks : List Block) (s : State) (budget : ℕ) (conditions : Conditions) (notes : List Note)
        (h : Grid AnyWeather) → AreNotesFrom blocks s budget conditions notes h → h.counts.flushed
        ≡ tally (weigh statistic.Violations) notes
        + tally (weigh statistic.WrongExits) notes + tally (weigh statistic.Ends) notes }
{}

/// Each frame that was filled has been committed, has been flushed, or is in flight at the end; once the run has ended
/// none is.
pub fn frames_add_up()
    ensures { (blocks : List Block) (s : State) (budget : ℕ) (conditions : Conditions) (notes : List Note)
        (h : Grid AnyWeather) → AreNotesFrom blocks s budget conditions notes h → tally fetched notes
        ≡ tally committed notes + tally flushed notes + length h.window.frames }
{}

/// Each cycle of a run that was counted began with one of the numbers of frames in flight from 0 to 8.
pub fn flights_are_cycles()
    ensures { (blocks : List Block) (s : State) (budget : ℕ) (conditions : Conditions) (ended : Ending)
        (h : Grid AnyWeather) (c : counts.Counters) (f : flights.Flights)
        → (r : HasCounted blocks s budget conditions ended h c f)
        → begun_below 9 0 (r.noted).cycles ≡ h.counts.cycles }
{}
