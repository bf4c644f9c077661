//! How a grid is made, and how it moves, with what stands of it at every moment.
ghost use Rattle.std.specs.Prelude.{◌≡◌, ◌<◌, ◌≤◌, ◌+◌, ◌-◌, IfOk, [], length, Some, true, false};
ghost use Rattle.trips_isa.specs.Machine.{start};
ghost use Rattle.frame_state.specs.declared.parts.Lack.{Lack};
ghost use Rattle.grid_parts.specs.inside.Changes.{begun_with};
ghost use Rattle.grid_machine.specs.Answered.{ComesTo};
ghost use Rattle.grid_machine.specs.Endings.{ended, is_going};
ghost use Rattle.grid_machine.specs.Tallies.{CountsCommits};
ghost use Rattle.grid_machine.specs.WholeRuns.{IsRun, going_cycles, most_cycles};
ghost use Rattle.grid_cycle.specs.Engines.{IsCycle, IsTallied, IsWithinCost, blocks_of, grid_of};
ghost use Rattle.grid_cycle.specs.inside.Engines.{IsEngine};
ghost use Rattle.grid_cycle.specs.Lacks.{OldestSteps, oldest_lacks};

use base::Memory;
use block_atomic::Arch;
use block_check::CheckedImage;
use block_predict::Predictor;
use grid_machine::GridWindow;
use grid_parts::Grid as Parts;
use operand_net::Weather;
use std::alloc::Global;
use trips_isa::Ending;

/// A grid at the start of an image's run.
pub fn made<W: Weather + Drop>(
    alloc: Global,
    image: CheckedImage,
    input: Vec<u8>,
    predictor: Predictor,
    weather: W,
    budget: u32,
) -> Result<Parts<GridWindow, W>, Memory>
    requires stack { predictor.stack ≡ [] }
    requires some { 0 < budget }
    ensures engine { IfOk result (λ g. IsEngine W.next W.follows (blocks_of g) g.window.budget (grid_of g)) }
    ensures begun { IfOk result (λ g. grid_of g ≡ begun_with (start image.bytes input.items) predictor weather) }
    ensures image { IfOk result (λ g. g.window.image ≡ image) }
    ensures budget { IfOk result (λ g. g.window.budget ≡ budget) }
{
    let parts = grid_machine::make(alloc, image, input, predictor, weather, budget)?;
    parts.window.keeps_invariant();
    Ok(parts)
}

/// A grid from a machine's state on.
pub fn made_at<W: Weather + Drop>(
    alloc: Global,
    image: CheckedImage,
    arch: Arch,
    predictor: Predictor,
    weather: W,
    budget: u32,
) -> Result<Parts<GridWindow, W>, Memory>
    requires stack { predictor.stack ≡ [] }
    requires some { 0 < budget }
    requires next { arch.state.next < length image.blocks }
    requires room { budget ≤ arch.budget }
    requires spent { length arch.state.trace ≤ budget }
    ensures engine { IfOk result (λ g. IsEngine W.next W.follows (blocks_of g) g.window.budget (grid_of g)) }
    ensures begun { IfOk result (λ g. grid_of g ≡ begun_with arch.state predictor weather) }
    ensures image { IfOk result (λ g. g.window.image ≡ image) }
    ensures budget { IfOk result (λ g. g.window.budget ≡ budget) }
{
    let parts = grid_machine::make_at(alloc, image, arch, predictor, weather, budget)?;
    parts.window.keeps_invariant();
    Ok(parts)
}

/// A cycle, where the run goes on.
pub fn cycle<W: Weather>(parts: &mut Parts<GridWindow, W>) -> Option<Ending>
    requires engine { IsEngine W.next W.follows (blocks_of parts.old) parts.old.window.budget (grid_of parts.old) }
    ensures engine { IsEngine W.next W.follows (blocks_of parts.new) parts.new.window.budget (grid_of parts.new) }
    ensures eager { is_going parts.old.window.budget parts.old.window.window ≡ true
        → IsCycle W.next W.follows (blocks_of parts.old) parts.old.window.budget (grid_of parts.old)
        (grid_of parts.new) }
    ensures value { result ≡ ended parts.old.window.budget parts.new.window.window }
    ensures same { is_going parts.old.window.budget parts.old.window.window ≡ false
        → grid_of parts.new ≡ grid_of parts.old }
    ensures cycles { parts.new.state.counts.cycles
        ≡ parts.old.state.counts.cycles + going_cycles parts.old.window.budget parts.old.window.window }
    ensures image { blocks_of parts.new ≡ blocks_of parts.old }
    ensures budget { parts.new.window.budget ≡ parts.old.window.budget }
{
    grid_machine::cycle(parts)
}

/// Cycles until the run has ended.
pub fn run<W: Weather>(parts: &mut Parts<GridWindow, W>) -> Ending
    requires engine { IsEngine W.next W.follows (blocks_of parts.old) parts.old.window.budget (grid_of parts.old) }
    ensures engine { IsEngine W.next W.follows (blocks_of parts.new) parts.new.window.budget (grid_of parts.new) }
    ensures run { IsRun W.next W.follows (blocks_of parts.old) parts.old.window.budget
        (parts.new.state.counts.cycles - parts.old.state.counts.cycles) (grid_of parts.old) (grid_of parts.new) }
    ensures value { Some result ≡ ended parts.old.window.budget parts.new.window.window }
    ensures comes { is_going parts.old.window.budget parts.old.window.window ≡ true
        → ComesTo (blocks_of parts.old) parts.old.window.window.state
        (parts.old.window.budget - length parts.old.window.window.state.trace) result (grid_of parts.new) }
    ensures same { is_going parts.old.window.budget parts.old.window.window ≡ false
        → grid_of parts.new ≡ grid_of parts.old }
    ensures commits { CountsCommits (grid_of parts.old) (grid_of parts.new) }
    ensures few { parts.new.state.counts.cycles ≤ most_cycles parts.old.window.budget }
    ensures image { blocks_of parts.new ≡ blocks_of parts.old }
    ensures budget { parts.new.window.budget ≡ parts.old.window.budget }
{
    let ended = grid_machine::run(parts);
    match ended {
        Some(ending) => ending,
        None => unreachable!(),
    }
}

/// What was counted of a grid is within its cost, and adds up. It does nothing.
pub fn keeps_cost<W: Weather>(parts: &Parts<GridWindow, W>)
    requires engine { IsEngine W.next W.follows (blocks_of parts.now) parts.now.window.budget (grid_of parts.now) }
    ensures within { IsWithinCost (blocks_of parts.now) parts.now.window.budget (grid_of parts.now) }
    ensures tallied { IsTallied parts.now.window.budget (grid_of parts.now) }
{}

/// Where the oldest frame lacks an output, some event of it would be done. It does nothing.
pub fn keeps_steps<W: Weather>(parts: &Parts<GridWindow, W>)
    requires engine { IsEngine W.next W.follows (blocks_of parts.now) parts.now.window.budget (grid_of parts.now) }
    ensures steps { (lack : Lack) → oldest_lacks parts.now.window.window.frames ≡ Some lack
        → OldestSteps (blocks_of parts.now) parts.now.window.budget parts.now.window.window
        parts.now.window.window.frames }
{
    parts.window.keeps_invariant();
}
