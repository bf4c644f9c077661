//! Part (1) of a cycle, counted.
ghost use Rattle.std.specs.Prelude.{◌≡◌, ◌<◌, ◌+◌, ◌^◌};
ghost use Rattle.grid_cycle_spec.specs.Ends as spec;
ghost use Rattle.grid_events.specs.EndNotes as noted;
ghost use Rattle.grid_parts.specs.Seen.{seen};
ghost use Rattle.grid_tallies.specs.Statistics.{Heard};

use crate::statistic::Statistic;
use crate::tallies::Tallies;
use grid_parts::{Grid, Windows};

/// Part (1). It wants room in the grid's counts as that does.
pub fn ends<V: Windows, W>(grid: &mut Grid<V, W>, told: &mut Tallies)
    requires committed { grid.old.state.counts.committed + 1 < 2 ^ 64 }
    requires flushed { grid.old.state.counts.flushed + 8 < 2 ^ 64 }
    ensures change { seen (V.held grid.new.window) grid.new.state
        ≡ spec.ends (V.blocks grid.old.window) (V.budget grid.old.window)
        (seen (V.held grid.old.window) grid.old.state) }
    ensures heard { Heard told.old (noted.ends_notes (V.blocks grid.old.window) (V.budget grid.old.window)
        (seen (V.held grid.old.window) grid.old.state)) told.new }
    ensures image { V.blocks grid.new.window ≡ V.blocks grid.old.window }
    ensures budget { V.budget grid.new.window ≡ V.budget grid.old.window }
{
    let before = grid.state.counts.flushed;
    grid.ends();
    let flushed = grid.state.counts.flushed.saturating_sub(before);
    told.add(Statistic::Ends, flushed);
}
