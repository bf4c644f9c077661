//! The grid.
ghost use Rattle.std.specs.Prelude.{◌≡◌, ◌<◌, ◌≤◌, ◌+◌, ◌-◌, ◌||◌, IfOk, IfSome, [], length, Some, true, false};
ghost use Rattle.std.specs.Prelude.{is_none, slice_get};
ghost use Rattle.trips_isa.specs.Machine.{start};
ghost use Rattle.commit_flush.specs.Observed.{is_whole_in};
ghost use Rattle.grid_cycle_spec.specs.Costs.{cost_of};
ghost use Rattle.grid_parts.specs.inside.Changes.{begun_with};
ghost use Rattle.grid_machine.specs.Answered.{ComesTo};
ghost use Rattle.grid_machine.specs.Endings.{ended, is_going};
ghost use Rattle.grid_machine.specs.Tallies.{CountsCommits};
ghost use Rattle.grid_machine.specs.WholeRuns.{IsRun, going_cycles, most_cycles};
ghost use Rattle.grid_cycle.specs.Engines.{IsCycle, IsTallied, IsWithinCost, blocks_of, grid_of};
ghost use Rattle.grid_cycle.specs.Lacks.{OldestSteps, oldest_lacks};
ghost use Rattle.grid_cycle.specs.Nexts.{is_busy, next_fetch, next_firing, ready_entry};

use crate::{fetching, firing, moving, waiting};
use base::Memory;
use block_atomic::Arch;
use block_check::CheckedImage;
use block_predict::Predictor;
use commit_flush::Window;
use frame_state::{Event, Lack};
use grid_machine::GridWindow;
use grid_parts::Grid as Parts;
use operand_net::Weather;
use std::alloc::Global;
use std::marker::Model;
use trips_isa::{Counts, Ending};

/// A grid on an image: the window of frames in flight, what is under way beside it, and the counts. Contracts see it
/// as these parts. Each has come from a stated start by the eager cycles that it counts.
pub struct Grid<W: Weather> {
    parts: Parts<GridWindow, W>,
}

impl<W: Weather> Model for Grid<W> {
    ghost use Rattle.commit_flush.specs.Seen.{Seen};
    ghost use Rattle.grid_parts.specs.declared.grid.Grid.{Grid as Held};

    ghost Value = { Held Seen W };

    ghost use Rattle.grid_cycle.specs.Engines.{blocks_of, grid_of};
    ghost use Rattle.grid_cycle.specs.inside.Engines.{IsEngine};

    ghost view = { λ g. g.parts };

    ghost invariant = { λ g. IsEngine W.next W.follows (blocks_of g.parts) g.parts.window.budget (grid_of g.parts) };
}

impl<W: Weather + Drop> Drop for Grid<W> {
    fn drop(self) {
        let Grid { parts } = self;
        let Parts {
            window: _window,
            state: _state,
        } = parts;
    }
}

impl<W: Weather + Drop> Grid<W> {
    /// A grid on an image at the start of its run, for at most so many blocks: nothing is under way, and the
    /// predictor and the weather are those given. Want of memory is the only error.
    pub fn make(
        alloc: Global,
        image: CheckedImage,
        input: Vec<u8>,
        predictor: Predictor,
        weather: W,
        budget: u32,
    ) -> Result<Grid<W>, Memory>
        requires stack { predictor.stack ≡ [] }
        requires some { 0 < budget }
        ensures begun { IfOk result (λ g. grid_of g ≡ begun_with (start image.bytes input.items) predictor weather) }
        ensures image { IfOk result (λ g. g.window.image ≡ image) }
        ensures budget { IfOk result (λ g. g.window.budget ≡ budget) }
    {
        let parts = moving::made(alloc, image, input, predictor, weather, budget)?;
        Ok(Grid { parts })
    }

    /// A grid on an image from a machine's state on. `budget` counts all that the machine has made, which has room
    /// for at least as many. Want of memory is the only error.
    pub fn make_at(
        alloc: Global,
        image: CheckedImage,
        arch: Arch,
        predictor: Predictor,
        weather: W,
        budget: u32,
    ) -> Result<Grid<W>, Memory>
        requires stack { predictor.stack ≡ [] }
        requires some { 0 < budget }
        requires next { arch.state.next < length image.blocks }
        requires room { budget ≤ arch.budget }
        requires spent { length arch.state.trace ≤ budget }
        ensures begun { IfOk result (λ g. grid_of g ≡ begun_with arch.state predictor weather) }
        ensures image { IfOk result (λ g. g.window.image ≡ image) }
        ensures budget { IfOk result (λ g. g.window.budget ≡ budget) }
    {
        let parts = moving::made_at(alloc, image, arch, predictor, weather, budget)?;
        Ok(Grid { parts })
    }

    /// The window, without what was under way.
    pub fn into_window(self) -> Window
        ensures value { result ≡ self.window }
    {
        let Grid { parts } = self;
        let Parts {
            window,
            state: _state,
        } = parts;
        window.into_window()
    }
}

impl<W: Weather> Grid<W> {
    /// A cycle, which is eager, where the run goes on, and how the run has then ended; none exactly where it goes on
    /// after it. Where it has ended the frames in flight are flushed. A run that has ended answers its ending again,
    /// and nothing changes.
    pub fn cycle(&mut self) -> Option<Ending>
        ensures eager { is_going self.old.window.budget self.old.window.window ≡ true
            → IsCycle W.next W.follows (blocks_of self.old) self.old.window.budget
            (grid_of self.old) (grid_of self.new) }
        ensures value { result ≡ ended self.old.window.budget self.new.window.window }
        ensures same { is_going self.old.window.budget self.old.window.window ≡ false
            → grid_of self.new ≡ grid_of self.old }
        ensures cycles { self.new.state.counts.cycles
            ≡ self.old.state.counts.cycles + going_cycles self.old.window.budget self.old.window.window }
        ensures within { IsWithinCost (blocks_of self.new) self.new.window.budget (grid_of self.new) }
        ensures tallied { IsTallied self.new.window.budget (grid_of self.new) }
        ensures image { blocks_of self.new ≡ blocks_of self.old }
        ensures budget { self.new.window.budget ≡ self.old.window.budget }
    {
        let ending = moving::cycle(&mut self.parts);
        moving::keeps_cost(&self.parts);
        ending
    }

    /// Cycles until the run has ended, and how: as the machine's run ends within what is left of the budget. Each run
    /// ends, in any weather, with any predictor and from any state. At its end the frames in flight are flushed. A
    /// run that has ended answers its ending again, and nothing changes.
    pub fn run(&mut self) -> Ending
        ensures run { IsRun W.next W.follows (blocks_of self.old) self.old.window.budget
            (self.new.state.counts.cycles - self.old.state.counts.cycles) (grid_of self.old) (grid_of self.new) }
        ensures value { Some result ≡ ended self.old.window.budget self.new.window.window }
        ensures comes { is_going self.old.window.budget self.old.window.window ≡ true
            → ComesTo (blocks_of self.old) self.old.window.window.state
            (self.old.window.budget - length self.old.window.window.state.trace) result (grid_of self.new) }
        ensures same { is_going self.old.window.budget self.old.window.window ≡ false
            → grid_of self.new ≡ grid_of self.old }
        ensures commits { CountsCommits (grid_of self.old) (grid_of self.new) }
        ensures few { self.new.state.counts.cycles ≤ most_cycles self.old.window.budget }
        ensures within { IsWithinCost (blocks_of self.new) self.new.window.budget (grid_of self.new) }
        ensures tallied { IsTallied self.new.window.budget (grid_of self.new) }
        ensures image { blocks_of self.new ≡ blocks_of self.old }
        ensures budget { self.new.window.budget ≡ self.old.window.budget }
    {
        let ending = moving::run(&mut self.parts);
        moving::keeps_cost(&self.parts);
        ending
    }

    /// Cycles made, and frames fetched, committed and flushed.
    pub fn counts(&self) -> Counts
        ensures value { result ≡ self.now.state.counts }
        ensures within { IsWithinCost (blocks_of self.now) self.now.window.budget (grid_of self.now) }
        ensures tallied { IsTallied self.now.window.budget (grid_of self.now) }
    {
        moving::keeps_cost(&self.parts);
        self.parts.state.counts
    }

    /// The window, with the image and the committed state.
    pub fn window(&self) -> &Window
        ensures value { result.now ≡ self.now.window }
    {
        self.parts.window.window()
    }

    /// What the committed blocks may cost, in cycles.
    pub fn cost(&self) -> u64
        ensures value { result ≡ cost_of (blocks_of self.now) (grid_of self.now).window.state.trace }
    {
        let window = self.window();
        window.keeps_invariant();
        let _ = window.budget();
        grid_machine::cost(window.image(), window.arch().trace())
    }

    /// The firing that a tile would make next: of the eldest entry of its slots that may fire; none exactly where the
    /// tile's unit is busy or no entry of it is ready.
    pub fn ready(&self, tile: u8) -> Option<Event>
        requires tile { tile < 16 }
        ensures value { result ≡ next_firing (blocks_of self.now) self.now.window.budget tile (grid_of self.now) }
        ensures none { is_none result ≡ (is_busy tile (grid_of self.now)
            || is_none (ready_entry (blocks_of self.now) self.now.window.budget tile (grid_of self.now))) }
    {
        firing::next_firing(&self.parts, tile)
    }

    /// The least output that the oldest frame lacks; none exactly where no frame is in flight, or the oldest has all
    /// outputs. Where it lacks one, a Read, a Fire, a Deliver, a Load, a Store or an Exit of it would be done.
    pub fn waiting_on(&self) -> Option<Lack>
        ensures value { result ≡ oldest_lacks self.now.window.window.frames }
        ensures whole { is_none result ≡ is_whole_in (slice_get self.now.window.window.frames 0) }
        ensures steps { IfSome result (λ lack. OldestSteps (blocks_of self.now) self.now.window.budget
            self.now.window.window self.now.window.window.frames) }
    {
        moving::keeps_steps(&self.parts);
        waiting::waiting_on(self.parts.window.window())
    }

    /// The block whose fetch part (2) of a cycle would begin, where the fetch unit is idle or ends a fetch in that
    /// cycle; none exactly where part (2) would begin no fetch.
    pub fn can_fetch(&self) -> Option<u32>
        ensures value { result ≡ next_fetch (blocks_of self.now) self.now.window.budget (grid_of self.now) }
    {
        fetching::next_fetch(&self.parts)
    }
}
