//! Laws of the lane, over its definitions alone; each function's clause is the law.
ghost use Rattle.std.specs.Prelude.{◌≡◌, ◌<◌, ◌≤◌, ◌+◌, ℕ, suc, false, List, length};
ghost use Rattle.trips_isa.specs.declared.block.Block.{Block};
ghost use Rattle.trips_isa.specs.Rule.{Answer};
ghost use Rattle.trips_isa.specs.Blocks.{Responses, at_place};
ghost use Rattle.trips_isa.specs.inside.Blocks.{Solves};
ghost use Rattle.trips_isa.specs.Fits.{FitsBlock};
ghost use Rattle.trips_isa.specs.Machine.{State, runs};
ghost use Rattle.commit_flush_spec.specs.inside.Invariant.{Below, IsRunnable};
ghost use Rattle.commit_flush_spec.specs.Frames.{Frame, at};
ghost use Rattle.commit_flush_spec.specs.Ends.{complete};
ghost use Rattle.commit_flush_spec.specs.inside.Observers.{is_ready, is_unread};
ghost use Rattle.grid_cycle_spec.specs.Grid.{Grid};
ghost use Rattle.grid_cycle_spec.specs.Costs.{cost, cost_of, size};
ghost use Rattle.grid_cycle_spec.specs.Cycles.{begun_at};
ghost use Rattle.grid_bound.specs.inside.Course.{Course, Good, tasks};
ghost use Rattle.grid_bound.specs.inside.Lane.{Lane, ready, unread};
ghost use Rattle.grid_bound.specs.inside.Lane as lane;
ghost use Rattle.grid_bound.specs.inside.Serving.{Served};
ghost use Rattle.grid_bound.specs.inside.Left.{left, price, total};
ghost use Rattle.grid_bound.specs.inside.Laws.{AfterServed, Falls, LaneRule};
ghost use Rattle.grid_bound.specs.inside.Blocks.{course_of, slot_tasks};
ghost use Rattle.grid_bound.specs.inside.Programs.{sizes_from};
ghost use Rattle.grid_bound.specs.inside.Seen.{front_of, lane_of};

use operand_net::Weather;

/// What is left for the block that commits next is from one cycle to its price. A cycle that serves it commits it, or
/// keeps the rule and lowers what is left.
pub fn served_cycles_fall()
    ensures least { (sizes : ℕ → ℕ) (l : Lane) → 1 ≤ left sizes l }
    ensures most { (sizes : ℕ → ℕ) (l : Lane) → LaneRule sizes l → left sizes l ≤ price (sizes l.done) }
    ensures falls { (sizes : ℕ → ℕ) (l m : Lane) → LaneRule sizes l → Served sizes l m → Falls sizes l m }
{}

/// After n cycles that serve the oldest frame: with what is left they are within the prices of the blocks committed
/// since, and of the next. A cycle that commits keeps them within those of the blocks committed.
pub fn cycles_are_bounded()
    ensures moment { (sizes : ℕ → ℕ) (n : ℕ) (l m : Lane) → LaneRule sizes l → AfterServed sizes n l m
        → n + left sizes m + total sizes l.done ≤ total sizes m.done + price (sizes m.done) }
    ensures commit { (sizes : ℕ → ℕ) (n : ℕ) (l m k : Lane) → LaneRule sizes l → AfterServed sizes n l m
        → k.done ≡ suc m.done → suc n + total sizes l.done ≤ total sizes k.done }
{}

/// A block's course has as many tasks as the block has instructions and reads, so that its price is the block's cost.
/// The course of a good block is good, whatever its reads and loads are answered.
pub fn courses_are_good()
    ensures size { (b : Block) (g : ℕ → Answer) → FitsBlock b → tasks (course_of b g) ≡ size b }
    ensures price { (b : Block) → price (size b) ≡ cost b }
    ensures good { (b : Block) (a : Responses) (g : ℕ → Answer) → IsRunnable b → Solves b a g → Good (course_of b g) }
{}

/// Where each step of a run commits a block, the prices of its blocks are the cost of its trace.
pub fn traces_are_priced()
    ensures { (blocks : List Block) (s : State) (n : ℕ) → length (runs blocks s n).0.trace ≡ length s.trace + n
        → cost_of blocks (runs blocks s n).0.trace + total (sizes_from blocks s) (length s.trace)
        ≡ total (sizes_from blocks s) (length s.trace + n) + cost_of blocks s.trace }
{}

/// At the stated start the lane has its rule, whatever the next block is.
pub fn lanes_begin_right<W: Weather>()
    ensures { (sizes : ℕ → ℕ) (c : Course) (s : State) (entries : List ℕ) (weather : W)
        → LaneRule sizes (lane_of c (begun_at s entries weather)) }
{}

/// The lane sees what the window says of the oldest frame: all its outputs have come where the frame is complete, a
/// read is unread and an entry ready where the window has it so; of what is ready this holds by any table of what has
/// come.
pub fn lanes_see_the_window<W: Weather>()
    ensures complete { (g : Grid W) (f : Frame) (t : ℕ → Answer) → length f.code.writes.items ≤ 32
        → lane.complete (front_of (course_of f.code t) g f) ≡ complete f }
    ensures unread { (g : Grid W) (f : Frame) (t : ℕ → Answer) (r : ℕ) → f.sealed ≡ false
        → unread (front_of (course_of f.code t) g f) (slot_tasks + r) ≡ is_unread f r }
    ensures ready { (g : Grid W) (f : Frame) (a : Responses) (t : ℕ → Answer) → Solves f.code a t
        → ((q : ℕ) → Below (at f.spots q) (at_place f.code t q)) → f.sealed ≡ false → (s : ℕ) → s < 128
        → ready (front_of (course_of f.code t) g f) s ≡ is_ready f s }
{}
