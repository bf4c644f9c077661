//! Laws of what is counted; each function's clause is the law.
ghost use Rattle.std.specs.Prelude.{◌≡◌, ◌+◌, ℕ, List, length};
ghost use Rattle.trips_isa.specs.declared.block.Block.{Block};
ghost use Rattle.grid_cycle_spec.specs.Cycles.{Eager};
ghost use Rattle.grid_cycle_spec.specs.Grid.{Grid};
ghost use Rattle.grid_events.specs.Counts.{fired, links, on_mesh, parcels, tally, waits};
ghost use Rattle.grid_events.specs.Notes.{Note};
ghost use Rattle.grid_tallies.specs.declared.counters.Counters as counts;
ghost use Rattle.grid_tallies.specs.declared.statistic.Statistic.TheVariants as statistic;
ghost use Rattle.grid_tallies.specs.Cycles.{IsCounted};
ghost use Rattle.grid_tallies.specs.Flights.{BeganWithFew, begun_below};
ghost use Rattle.grid_tallies.specs.Statistics.{weigh};

use operand_net::Weather;

/// A cycle that is counted is an eager cycle as any other.
pub fn counted_cycles_are_eager<W: Weather>()
    ensures { (blocks : List Block) (budget : ℕ) (g h : Grid W) (a b : counts.Counters)
        → IsCounted W.next W.follows blocks budget g h a b → Eager W.next W.follows blocks budget g h }
{}

/// What is fired is a mov, a null or something useful; and of cycles that began with at most eight frames in flight
/// each is counted for one number of frames, from none to eight.
pub fn statistics_add_up()
    ensures fired { (notes : List Note) → tally fired notes ≡ tally (weigh statistic.Movs) notes
        + tally (weigh statistic.Nulls) notes + tally (weigh statistic.Useful) notes }
    ensures flights { (before : ℕ) (cycles : List (List Note)) → BeganWithFew before cycles
        → begun_below 9 before cycles ≡ length cycles }
{}

/// Parcels, links and waits are what is noted of the mesh: a parcel that enters, one that takes a link, and one that
/// waits for a link.
pub fn mesh_statistics_are_its_notes()
    ensures parcels { (notes : List Note) → tally (weigh statistic.Parcels) notes ≡ tally (on_mesh parcels) notes }
    ensures links { (notes : List Note) → tally (weigh statistic.Links) notes ≡ tally (on_mesh links) notes }
    ensures waits { (notes : List Note) → tally (weigh statistic.Waits) notes ≡ tally (on_mesh waits) notes }
{}
