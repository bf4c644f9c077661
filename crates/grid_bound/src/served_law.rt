//! Laws of the oldest frame in a cycle, over the grid's definitions alone; each function's clause is the law.
ghost use Rattle.std.specs.Prelude.{◌≡◌, ◌-◌, ◌^◌, ◌<◌, ℕ, false, true, List, [], ◌∷◌, Some, length, slice_index};
ghost use Rattle.std.specs.Prelude.{slice_get, suc, ◌≤◌, ◌⊎◌, ◌+◌, ◌*◌, cond, nat_lt};
ghost use Rattle.trips_isa.specs.declared.block.Block.{Block};
ghost use Rattle.trips_isa.specs.declared.run.Stepped.TheVariants.{Went};
ghost use Rattle.trips_isa.specs.Rule.{Answer};
ghost use Rattle.trips_isa.specs.Limits.{most_nodes};
ghost use Rattle.operand_net.specs.Places.{Places};
ghost use Rattle.operand_net.specs.Tick.{Ticked};
ghost use Rattle.commit_flush_spec.specs.Frames.{Frame};
ghost use Rattle.commit_flush_spec.specs.Older.{Older, committed};
ghost use Rattle.commit_flush_spec.specs.Ends.{complete};
ghost use Rattle.commit_flush_spec.specs.inside.Invariant.{AllGood};
ghost use Rattle.commit_flush_spec.specs.inside.Laws.{WindowOk};
ghost use Rattle.grid_cycle_spec.specs.Grid.{Grid, numbers_of};
ghost use Rattle.grid_cycle_spec.specs.Choosing.{each};
ghost use Rattle.grid_cycle_spec.specs.Costs.{fetch_latency, greatest_cost, size};
ghost use Rattle.grid_cycle_spec.specs.Cycles.{Eager};
ghost use Rattle.grid_cycle_spec.specs.Ends.{ends};
ghost use Rattle.grid_cycle_spec.specs.Fetches.{fetches};
ghost use Rattle.grid_cycle_spec.specs.Banks.{reads_answered};
ghost use Rattle.grid_cycle_spec.specs.DataTiles.{data_turn, answers};
ghost use Rattle.grid_cycle_spec.specs.Units.{unit_turn, works_on};
ghost use Rattle.grid_cycle_spec.specs.inside.Arrivals.{arrivals};
ghost use Rattle.grid_bound.specs.inside.Sending.{fetching, reads_front};
ghost use Rattle.grid_bound.specs.inside.Moving.{move_front};
ghost use Rattle.grid_bound.specs.inside.Lane.{Lane};
ghost use Rattle.grid_bound.specs.inside.Laws.{LaneRule};
ghost use Rattle.grid_bound.specs.inside.Serving.{Served};
ghost use Rattle.grid_bound.specs.inside.Left.{left, price, total};
ghost use Rattle.grid_bound.specs.inside.Blocks.{course_of};
ghost use Rattle.grid_bound.specs.inside.Seen.{fetch_of, front_of, stage_of};
ghost use Rattle.grid_bound.specs.inside.Behind.{Behind};
ghost use Rattle.grid_bound.specs.inside.Shows.{Commits, IsDue, QuietReads, Shows, Traps};
ghost use Rattle.grid_bound.specs.inside.ServedFirst.{ServedFirst};
ghost use Rattle.grid_bound.specs.inside.Held.{AfterHeld, FallsHeld, ServedHeld, left_held};
ghost use Rattle.grid_bound.specs.inside.DataRule.{DataRule};
ghost use Rattle.grid_bound.specs.inside.UnitRule.{UnitRule};
ghost use Rattle.grid_bound.specs.inside.MoveRule.{MoveRule};
ghost use Rattle.grid_bound.specs.inside.CycleRule.{CycleRule};
ghost use Rattle.grid_bound.specs.inside.Lanes.{lane_in, table_in};
ghost use Rattle.grid_bound.specs.inside.Runs.{Stands, AfterStanding};
ghost use Rattle.grid_bound.specs.inside.Parts.{Tells, Answering, Working, RowMoves};

use operand_net::Weather;

/// Part (1): an oldest frame that lacks an output stays as it is. The block of one that has all is committed, or the
/// run traps.
pub fn oldest_frames_end<W: Weather>()
    ensures open { (blocks : List Block) (budget : ℕ) (g : Grid W) (f : Frame) (fs : List Frame)
        → g.window.frames ≡ f ∷ fs → WindowOk blocks budget g.window → g.window.over ≡ Went → complete f ≡ false
        → Behind f g (ends blocks budget g) }
    ensures all { (blocks : List Block) (budget : ℕ) (g : Grid W) (f : Frame) (fs : List Frame)
        → g.window.frames ≡ f ∷ fs → WindowOk blocks budget g.window → g.window.over ≡ Went → complete f ≡ true
        → length g.window.state.trace < budget → Commits g (ends blocks budget g) }
{}

/// Part (2): an oldest frame stays as it is. Without one the fetch of the next block goes on as the lane's does.
pub fn fetches_serve<W: Weather>()
    ensures held { (blocks : List Block) (budget : ℕ) (g : Grid W) (f : Frame) (fs : List Frame)
        → g.window.frames ≡ f ∷ fs → Behind f g (fetches blocks budget g) }
    ensures fetched { (blocks : List Block) (budget : ℕ) (g : Grid W) (b : Block) (t : ℕ → Answer)
        → g.window.frames ≡ [] → WindowOk blocks budget g.window → g.window.over ≡ Went
        → slice_index g.window.generations 0 < 2 ^ 64 - 1 → slice_get blocks g.window.state.next ≡ Some b
        → IsDue g g.fetching
        → (n : ℕ) × (stage_of (course_of b t) (fetches blocks budget g) (fetches blocks budget g).window.frames
        ≡ fetching n (course_of b t) (fetch_of g g.fetching)) }
{}

/// Part (3): the banks answer the reads of the oldest frame that the lane picks.
pub fn banks_serve<W: Weather>()
    ensures { (blocks : List Block) (budget : ℕ) (g : Grid W) (f : Frame) (fs : List Frame) (t : ℕ → Answer)
        → AllGood blocks → g.window.frames ≡ f ∷ fs → WindowOk blocks budget g.window → g.window.over ≡ Went
        → f.sealed ≡ false → QuietReads g f
        → Shows (course_of f.code t) f (reads_answered blocks budget g)
        (reads_front (front_of (course_of f.code t) g f)) }
{}

/// Part (4): data tiles answer requests of the oldest frame as the lane's do; one answers none only where none of the
/// frame waits for nothing.
pub fn data_tiles_serve<W: Weather>()
    ensures { (blocks : List Block) (budget : ℕ) (g : Grid W) (f : Frame) (fs : List Frame) → AllGood blocks
        → g.window.frames ≡ f ∷ fs → WindowOk blocks budget g.window → g.window.over ≡ Went → f.sealed ≡ false
        → ((d : ℕ) (x : Frame) (l : List Frame) → (each (data_turn blocks budget) d g).window.frames ≡ x ∷ l
        → x.sealed ≡ false → DataRule (each (data_turn blocks budget) d g) x)
        → Answering f g (answers blocks budget g) }
{}

/// Part (5): units finish results of the oldest frame and take its entries as the lane's do.
pub fn units_serve<W: Weather>()
    ensures { (blocks : List Block) (budget : ℕ) (g : Grid W) (f : Frame) (fs : List Frame) (t : ℕ → Answer)
        → AllGood blocks → g.window.frames ≡ f ∷ fs → WindowOk blocks budget g.window → g.window.over ≡ Went
        → f.sealed ≡ false → Tells (committed g.window.state) f t
        → ((k : ℕ) (x : Frame) (l : List Frame) → (each (unit_turn blocks budget) k g).window.frames ≡ x ∷ l
        → x.sealed ≡ false → UnitRule (each (unit_turn blocks budget) k g) x)
        → Working (course_of f.code t) f g (works_on blocks budget g) }
{}

/// Part (6), the tick: parcels of the frame that comes first wait for no others,
/// and none is held beyond three cycles.
pub fn oldest_parcels_tick<W: Weather>()
    ensures { ((w : W) → W.next w ≤ 3) → (n k : ℕ) (ns : List ℕ) (before after : Places) (v w : W)
        → Ticked W.next W.follows (n ∷ ns) before after v w (suc k) → RowMoves (before n) (after n) }
{}

/// Part (6): behind such a tick the parcels of the oldest frame arrive as the lane's do.
pub fn arrivals_serve<W: Weather>()
    ensures { (blocks : List Block) (budget : ℕ) (m : Grid W) (f : Frame) (fs : List Frame) (t : ℕ → Answer)
        (parcels : Places) (weather : W) → AllGood blocks → m.window.frames ≡ f ∷ fs
        → WindowOk blocks budget m.window → m.window.over ≡ Went → f.sealed ≡ false → MoveRule m f
        → (moves : RowMoves (m.parcels f.number) (parcels f.number))
        → Shows (course_of f.code t) f (arrivals blocks budget (numbers_of m.window.frames)
        (record m { parcels = parcels; weather = weather }))
        (move_front moves.hold (front_of (course_of f.code t) m f)) }
{}

/// How busy units are changes in part (5) alone.
pub fn units_stay<W: Weather>()
    ensures ends { (blocks : List Block) (budget : ℕ) (g : Grid W) → (ends blocks budget g).units ≡ g.units }
    ensures fetches { (blocks : List Block) (budget : ℕ) (g : Grid W) → (fetches blocks budget g).units ≡ g.units }
    ensures banks { (blocks : List Block) (budget : ℕ) (g : Grid W)
        → (reads_answered blocks budget g).units ≡ g.units }
    ensures tiles { (blocks : List Block) (budget : ℕ) (g : Grid W) → (answers blocks budget g).units ≡ g.units }
    ensures arrivals { (blocks : List Block) (budget : ℕ) (ns : List ℕ) (g : Grid W)
        → (arrivals blocks budget ns g).units ≡ g.units }
{}

/// Beyond the sixteen tiles no unit changes in a cycle.
pub fn far_units_stay<W: Weather>()
    ensures { (blocks : List Block) (budget : ℕ) (g h : Grid W) (t : ℕ) → 16 ≤ t
        → Eager W.next W.follows blocks budget g h → h.units t ≡ g.units t }
{}

/// Without a frame in flight banks and data tiles do nothing, and units only have less to do.
pub fn idle_parts<W: Weather>()
    ensures banks { (blocks : List Block) (budget : ℕ) (g : Grid W) → g.window.frames ≡ []
        → reads_answered blocks budget g ≡ g }
    ensures tiles { (blocks : List Block) (budget : ℕ) (g : Grid W) → g.window.frames ≡ []
        → answers blocks budget g ≡ g }
    ensures units { (blocks : List Block) (budget : ℕ) (g : Grid W) → g.window.frames ≡ []
        → works_on blocks budget g ≡ record g { units = λ t. cond (nat_lt t 16) (g.units t - 1) (g.units t) } }
{}

/// The table of the lane of a grid tells what the oldest frame gives.
pub fn tables_tell()
    ensures { (blocks : List Block) (o : Older) (f : Frame) → AllGood blocks → slice_get blocks f.block ≡ Some f.code
        → Tells o f (table_in o f) }
{}

/// Parts (1) to (6) together: an eager cycle serves the oldest frame, or the run traps. `b` is the block that commits
/// next.
pub fn eager_cycles_serve<W: Weather>()
    ensures { (blocks : List Block) (budget : ℕ) (g h : Grid W) (b : Block) (sizes : ℕ → ℕ) → AllGood blocks
        → WindowOk blocks budget g.window → g.window.over ≡ Went → length g.window.state.trace < budget
        → ((ends blocks budget g).window.over ≡ Went
        → CycleRule blocks budget (fetches blocks budget (ends blocks budget g)))
        → ((w : W) → W.next w ≤ 3) → ((t : ℕ) → 16 ≤ t → g.units t ≡ 0) → ((t : ℕ) → h.units t ≤ 24)
        → slice_get blocks g.window.state.next ≡ Some b → size b ≡ sizes (length g.window.state.trace)
        → (g.window.frames ≡ [] → IsDue g g.fetching × (slice_index g.window.generations 0 < 2 ^ 64 - 1))
        → Eager W.next W.follows blocks budget g h
        → Traps h ⊎ Served sizes (lane_in g) (lane_in h) }
{}

/// Served, of one grid's frames before all others: where the grid comes first at each station, whatever others do
/// with the units and the fetch unit that it leaves, its oldest frame is served, or its next block waits for the
/// fetch unit, or the run traps. Another has the fetch unit for `k` cycles beyond the next before the cycle,
/// and for `j` behind it.
pub fn first_frames_are_served<W: Weather>()
    ensures { (blocks : List Block) (budget k j : ℕ) (g h : Grid W) (b : Block) (sizes : ℕ → ℕ) → AllGood blocks
        → WindowOk blocks budget g.window → g.window.over ≡ Went → length g.window.state.trace < budget
        → (first : ServedFirst blocks budget k j g h)
        → ((e : (ends blocks budget g).window.over ≡ Went) → CycleRule blocks budget (first.acts e).fetched)
        → ((t : ℕ) → 16 ≤ t → g.units t ≡ 0)
        → slice_get blocks g.window.state.next ≡ Some b → size b ≡ sizes (length g.window.state.trace)
        → (g.window.frames ≡ [] → IsDue g g.fetching × (slice_index g.window.generations 0 < 2 ^ 64 - 1))
        → Traps h ⊎ ServedHeld sizes k j (lane_in g) (lane_in h) }
{}

/// A grid of its own comes first at each station, and no other has its fetch unit: an eager cycle is such a cycle.
pub fn eager_cycles_come_first<W: Weather>()
    ensures { (blocks : List Block) (budget : ℕ) (g h : Grid W) → ((w : W) → W.next w ≤ 3)
        → ((t : ℕ) → h.units t ≤ 24) → Eager W.next W.follows blocks budget g h
        → ServedFirst blocks budget 0 0 g h }
{}

/// Where another grid has the fetch unit for at most 8 cycles, the next included, what is left is from one cycle to
/// the price of the block, and each cycle that serves the block, or in which it waits for the fetch unit, commits it,
/// or keeps the rule and lowers what is left.
pub fn held_cycles_fall()
    ensures least { (sizes : ℕ → ℕ) (k : ℕ) (l : Lane) → 1 ≤ left_held sizes k l }
    ensures most { (sizes : ℕ → ℕ) (k : ℕ) (l : Lane) → k < fetch_latency → LaneRule sizes l
        → left_held sizes k l ≤ price (sizes l.done) }
    ensures falls { (sizes : ℕ → ℕ) (k j : ℕ) (l m : Lane) → j < fetch_latency → LaneRule sizes l
        → ServedHeld sizes k j l m
        → FallsHeld sizes k j l m }
{}

/// After n such cycles: with what is left they are within the prices of the blocks committed since, and of the next.
/// A cycle that commits keeps them within those of the blocks committed, whatever comes behind it.
pub fn held_cycles_are_bounded()
    ensures moment { (sizes : ℕ → ℕ) (n k j : ℕ) (l m : Lane) → k < fetch_latency → LaneRule sizes l
        → AfterHeld sizes n k l j m
        → n + left_held sizes j m + total sizes l.done ≤ total sizes m.done + price (sizes m.done) }
    ensures commit { (sizes : ℕ → ℕ) (n k j : ℕ) (l m x : Lane) → k < fetch_latency → LaneRule sizes l
        → AfterHeld sizes n k l j m → x.done ≡ suc m.done → suc n + total sizes l.done ≤ total sizes x.done }
{}

/// After n cycles each of which finds what it asks: with what is left they are within the prices of the blocks
/// committed since, and of the next. A cycle that commits keeps them within those of the blocks committed. A run
/// whose blocks have at most `most_nodes` tasks goes on for fewer than `greatest_cost` cycles for each block of its
/// budget.
pub fn cycles_stay_within<W: Weather>()
    ensures moment { (blocks : List Block) (budget : ℕ) (sizes : ℕ → ℕ) (n : ℕ) (g h : Grid W) → AllGood blocks
        → ((w : W) → W.next w ≤ 3) → AfterStanding W.next W.follows blocks budget sizes n g h
        → Stands blocks budget sizes h
        → n + left sizes (lane_in h) + total sizes (length g.window.state.trace)
        ≤ total sizes (length h.window.state.trace) + price (sizes (length h.window.state.trace)) }
    ensures commit { (blocks : List Block) (budget : ℕ) (sizes : ℕ → ℕ) (n : ℕ) (g m h : Grid W) → AllGood blocks
        → ((w : W) → W.next w ≤ 3) → AfterStanding W.next W.follows blocks budget sizes n g m
        → Stands blocks budget sizes m → length h.window.state.trace ≡ suc (length m.window.state.trace)
        → suc n + total sizes (length g.window.state.trace) ≤ total sizes (length h.window.state.trace) }
    ensures ends { (blocks : List Block) (budget : ℕ) (sizes : ℕ → ℕ) (n : ℕ) (g h : Grid W) → AllGood blocks
        → ((w : W) → W.next w ≤ 3) → ((k : ℕ) → sizes k ≤ most_nodes)
        → AfterStanding W.next W.follows blocks budget sizes n g h → Stands blocks budget sizes h
        → n < greatest_cost * budget }
{}
