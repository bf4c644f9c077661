//! What a run has come to of which events were logged.
ghost use Rattle.std.specs.Prelude.{◌≡◌};
ghost use Rattle.grid_cycle_spec.specs.Costs.{cost_of};
ghost use Rattle.grid_cycle.specs.Engines.{blocks_of, grid_of};

use commit_flush::Window;
use grid_cycle::AnyWeather;
use grid_log::Log;
use grid_machine::GridWindow;
use grid_parts::Grid;
use trips_isa::{Counts, Ending};

/// A grid at the end of a run, how the run has ended, and the log of its events.
pub struct Logged {
    pub ending: Ending,
    pub log: Log,
    pub grid: Grid<GridWindow, AnyWeather>,
}

impl Drop for Logged {
    fn drop(self) {
        let Logged {
            ending: _ending,
            log: _log,
            grid,
        } = self;
        let Grid {
            window: _window,
            state: _state,
        } = grid;
    }
}

impl Logged {
    /// The window, with the image and the committed state.
    pub fn window(&self) -> &Window
        ensures value { result.now ≡ self.now.grid.window }
    {
        self.grid.window.window()
    }

    /// Cycles made, and frames fetched, committed and flushed.
    pub fn counts(&self) -> Counts
        ensures value { result ≡ self.now.grid.state.counts }
    {
        self.grid.state.counts
    }

    /// What the committed blocks may cost, in cycles.
    pub fn cost(&self) -> u64
        ensures value { result ≡ cost_of (blocks_of self.now.grid) (grid_of self.now.grid).window.state.trace }
    {
        let window = self.window();
        window.keeps_invariant();
        let _ = window.budget();
        grid_machine::cost(window.image(), window.arch().trace())
    }
}
