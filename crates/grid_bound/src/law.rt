//! The cycle bound of a run, over the grid's definitions alone.
//!
//! The law of a grid's lane, over definitions alone.
//!
//! The law of what a grid with its rule gives, over definitions alone.
ghost use Rattle.std.specs.Prelude.{◌≡◌, ℕ, suc, ◌+◌, ◌*◌, ◌-◌, ◌^◌, ◌<◌, ◌≤◌, List, length, [], ◌∷◌, slice_get};
ghost use Rattle.trips_isa.specs.declared.block.Block.{Block};
ghost use Rattle.trips_isa.specs.Machine.{State};
ghost use Rattle.trips_isa.specs.Rule.{Answer};
ghost use Rattle.trips_isa.specs.Blocks.{Responses};
ghost use Rattle.trips_isa.specs.inside.Blocks.{Solves};
ghost use Rattle.trips_isa.specs.declared.run.Stepped.TheVariants.{Went};
ghost use Rattle.commit_flush_spec.specs.InFlight.{opened};
ghost use Rattle.commit_flush_spec.specs.inside.Invariant.{AllGood};
ghost use Rattle.commit_flush_spec.specs.inside.Laws.{WindowOk};
ghost use Rattle.commit_flush_spec.specs.Frames.{Frame};
ghost use Rattle.grid_cycle_spec.specs.Costs.{cost_of, greatest_cost};
ghost use Rattle.grid_cycle_spec.specs.Grid.{Grid};
ghost use Rattle.grid_cycle_spec.specs.Cycles.{Eager, begun_at};
ghost use Rattle.grid_cycle_spec.specs.inside.Cycles.{AfterCycles};
ghost use Rattle.grid_bound.specs.inside.Course.{Course};
ghost use Rattle.grid_bound.specs.inside.Laws.{LaneRule};
ghost use Rattle.grid_bound.specs.inside.Blocks.{course_of};
ghost use Rattle.grid_bound.specs.inside.Programs.{size_in};
ghost use Rattle.grid_bound.specs.inside.Seen.{lane_of};
ghost use Rattle.grid_bound.specs.inside.CycleRule.{CycleRule};
ghost use Rattle.grid_bound.specs.inside.Shows.{IsDue};
ghost use Rattle.grid_bound.specs.inside.Rule.{GridRule};
ghost use Rattle.grid_bound.specs.inside.GoesOn.{GoesOn};
ghost use Rattle.grid_bound.specs.inside.OneCycle.{HasRule, OneCycle};

use operand_net::Weather;

/// A run that goes on has made at every moment fewer cycles than its trace costs and the dearest block besides; a
/// cycle that commits is within the cost of the trace, and any cycle within that and `greatest_cost`, so that this
/// holds where the run ends too; and no run goes on for `greatest_cost` cycles for each block of its budget.
/// It holds in any weather.
pub fn cycles_cost_at_most<W: Weather>()
    ensures moment { (blocks : List Block) (budget n : ℕ) (s : State) (entries : List ℕ) (weather : W) (h : Grid W)
        → AllGood blocks → WindowOk blocks budget (opened s)
        → AfterCycles W.next W.follows blocks budget n (begun_at s entries weather) h → GoesOn budget h
        → h.counts.cycles < 2 ^ 64 - 1
        → n + cost_of blocks s.trace < cost_of blocks h.window.state.trace + greatest_cost }
    ensures commit { (blocks : List Block) (budget n : ℕ) (s : State) (entries : List ℕ) (weather : W) (m h : Grid W)
        → AllGood blocks → WindowOk blocks budget (opened s)
        → AfterCycles W.next W.follows blocks budget n (begun_at s entries weather) m → GoesOn budget m
        → m.counts.cycles < 2 ^ 64 - 1 → Eager W.next W.follows blocks budget m h
        → length h.window.state.trace ≡ suc (length m.window.state.trace)
        → suc n + cost_of blocks s.trace ≤ cost_of blocks h.window.state.trace }
    ensures last { (blocks : List Block) (budget n : ℕ) (s : State) (entries : List ℕ) (weather : W) (m h : Grid W)
        → AllGood blocks → WindowOk blocks budget (opened s)
        → AfterCycles W.next W.follows blocks budget n (begun_at s entries weather) m → GoesOn budget m
        → m.counts.cycles < 2 ^ 64 - 1 → Eager W.next W.follows blocks budget m h
        → suc n + cost_of blocks s.trace ≤ cost_of blocks h.window.state.trace + greatest_cost }
    ensures ends { (blocks : List Block) (budget n : ℕ) (s : State) (entries : List ℕ) (weather : W) (h : Grid W)
        → AllGood blocks → WindowOk blocks budget (opened s)
        → AfterCycles W.next W.follows blocks budget n (begun_at s entries weather) h → GoesOn budget h
        → h.counts.cycles < 2 ^ 64 - 1 → n < greatest_cost * budget }
{}

/// The cycle bound in one statement, in any weather: where a grid has its rule and its run goes on, what is left for
/// the block that commits next is from one cycle to that block's cost, and an eager cycle commits the block, or
/// traps, or lowers what is left, and keeps the rule. The stated start has the rule.
pub fn one_cycle_commits_or_lowers<W: Weather>()
    ensures one { (blocks : List Block) (budget : ℕ) (g h : Grid W) → AllGood blocks → HasRule blocks budget g
        → GoesOn budget g → g.counts.cycles < 2 ^ 64 - 1 → Eager W.next W.follows blocks budget g h
        → OneCycle blocks budget g h }
    ensures begins { (blocks : List Block) (budget : ℕ) (s : State) (entries : List ℕ) (weather : W)
        → WindowOk blocks budget (opened s) → HasRule blocks budget (begun_at s entries weather) }
{}

/// Where a grid has its rule, the lane of its oldest frame has the rule of lanes, by any table that solves the
/// frame's block; without a frame in flight, whatever the next block is. `sizes` tells how many tasks the block has
/// that commits next.
pub fn lanes_have_their_rule<W: Weather>()
    ensures frame { (blocks : List Block) (budget : ℕ) (sizes : ℕ → ℕ) (g : Grid W) (f : Frame) (fs : List Frame)
        (a : Responses) (t : ℕ → Answer) → AllGood blocks → WindowOk blocks budget g.window → GridRule g
        → g.window.frames ≡ f ∷ fs → Solves f.code a t
        → sizes (length g.window.state.trace) ≡ size_in (slice_get blocks g.window.state.next)
        → LaneRule sizes (lane_of (course_of f.code t) g) }
    ensures none { (sizes : ℕ → ℕ) (g : Grid W) (c : Course) → GridRule g → g.window.frames ≡ []
        → LaneRule sizes (lane_of c g) }
{}

/// What the parts of a cycle ask of the oldest frame a grid that has its rule gives: parts (3) to (6) behind part
/// (2), and part (2) where no frame is in flight.
pub fn rules_give_what_parts_ask<W: Weather>()
    ensures parts { (blocks : List Block) (budget : ℕ) (g : Grid W) → AllGood blocks → WindowOk blocks budget g.window
        → g.window.over ≡ Went → GridRule g → CycleRule blocks budget g }
    ensures fetch { (g : Grid W) → GridRule g → g.window.frames ≡ [] → IsDue g g.fetching }
{}
