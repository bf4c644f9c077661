//! Laws of the grid's cycles, over its definitions alone; each function's clause is the law.
ghost use Rattle.std.specs.Prelude.{◌≡◌, ◌≢◌, ◌<◌, ◌≤◌, ◌+◌, ◌++◌, ℕ, List, length};
ghost use Rattle.trips_isa.specs.declared.block.Block.{Block};
ghost use Rattle.trips_isa.specs.declared.op.Op.{Op};
ghost use Rattle.trips_isa.specs.declared.run.Traced.{Traced};
ghost use Rattle.trips_isa.specs.declared.run.Stepped.TheVariants.{Went};
ghost use Rattle.trips_isa.specs.Fits.{FitsBlock};
ghost use Rattle.commit_flush_spec.specs.inside.Invariant.{AllGood};
ghost use Rattle.commit_flush_spec.specs.Laws.{TakesSteps};
ghost use Rattle.commit_flush_spec.specs.inside.Laws.{WindowOk};
ghost use Rattle.commit_flush_spec.specs.Window.{Store, Window, happens};
ghost use Rattle.grid_cycle_spec.specs.Stations.{bank_of, bank_node, data_tile_of, data_node};
ghost use Rattle.grid_cycle_spec.specs.Stations.{home, tile_of, tile_node};
ghost use Rattle.grid_cycle_spec.specs.inside.Stations.{far};
ghost use Rattle.grid_cycle_spec.specs.Costs.{cost, cost_of, greatest};
ghost use Rattle.grid_cycle_spec.specs.Grid.{Grid};
ghost use Rattle.grid_cycle_spec.specs.Acting.{gone};
ghost use Rattle.grid_cycle_spec.specs.DataTiles.{wrong_load};
ghost use Rattle.grid_cycle_spec.specs.Cycles.{Eager, closed};
ghost use Rattle.grid_cycle_spec.specs.inside.Cycles.{AfterCycles};
ghost use Rattle.grid_cycle_spec.specs.Laws.{AddsUp};
ghost use Rattle.grid_cycle_spec.specs.inside.Laws.{ByEvents, IsNearer, TakesTime, first_number, frame_named};

use operand_net::Weather;

/// In an eager cycle the window changes by its own events, and by nothing else.
pub fn cycles_are_events<W: Weather>()
    ensures { (blocks : List Block) (budget : ℕ) (g h : Grid W) → Eager W.next W.follows blocks budget g h
        → ByEvents blocks budget g.window h.window }
{}

/// Whatever the weather, the predictor and the placing: after any number of eager cycles the committed state is
/// the machine's, after as many steps as the trace grew by.
pub fn cycles_take_steps<W: Weather>()
    ensures { (blocks : List Block) (budget n : ℕ) (g h : Grid W) → AllGood blocks
        → WindowOk blocks budget g.window → g.window.over ≡ Went
        → AfterCycles W.next W.follows blocks budget n g h → TakesSteps blocks g.window.state h.window }
{}

/// Two grids that start from one committed state have one committed state whenever they have committed as many
/// blocks, in whatever weather, with whatever predictor, and after however many cycles each.
pub fn weather_changes_no_state<V: Weather, W: Weather>()
    ensures { (blocks : List Block) (budget m n : ℕ) (f g : Grid V) (h k : Grid W) → AllGood blocks
        → WindowOk blocks budget f.window → f.window.over ≡ Went
        → WindowOk blocks budget h.window → h.window.over ≡ Went → f.window.state ≡ h.window.state
        → AfterCycles V.next V.follows blocks budget m f g → AfterCycles W.next W.follows blocks budget n h k
        → length g.window.state.trace ≡ length k.window.state.trace → g.window.state ≡ k.window.state }
{}

/// Each frame that was filled has been committed, has been flushed, or is in flight; at the end of a run none is.
pub fn counts_add_up<W: Weather>()
    ensures kept { (blocks : List Block) (budget n : ℕ) (g h : Grid W) → AddsUp g
        → AfterCycles W.next W.follows blocks budget n g h → AddsUp h }
    ensures closed { (g : Grid W) → AddsUp g
        → (closed g).counts.fetched ≡ (closed g).counts.committed + (closed g).counts.flushed }
{}

/// The frame that `wrong_load` names is the first that the store's event flushes. So it names one exactly where that
/// event is done and flushes any.
pub fn wrong_loads_are_flushed_first()
    ensures { (blocks : List Block) (budget m n : ℕ) (w : Window) → WindowOk blocks budget w
        → frame_named (wrong_load blocks budget m n w)
        ≡ first_number (gone w (happens blocks budget (Store m n) w)) }
{}

/// What a block may cost.
pub fn costs_are_bounded()
    ensures least { (b : Block) → 512 ≤ cost b }
    ensures most { (b : Block) → FitsBlock b → cost b ≤ greatest }
{}

/// The cost of a trace that goes on is the cost of both parts.
pub fn costs_add_up()
    ensures { (blocks : List Block) (s t : List Traced)
        → cost_of blocks (s ++ t) ≡ cost_of blocks s + cost_of blocks t }
{}

/// Each operation takes from 1 to 24 cycles.
pub fn operations_take_time()
    ensures { (op : Op) → TakesTime op }
{}

/// Each station stands on the mesh, and so does what each place of a block belongs to.
pub fn stations_are_nodes()
    ensures banks { (r : ℕ) → bank_node (bank_of r) < 25 }
    ensures data { (a : ℕ) → data_node (data_tile_of a) < 25 }
    ensures tiles { (s : ℕ) → tile_node (tile_of s) < 25 }
    ensures homes { (b : Block) (q : ℕ) → home b q < 25 }
{}

/// A parcel is at most eight links from its end, and each link that it takes brings it nearer by one.
pub fn links_lead_nearer()
    ensures far { (a b : ℕ) → a < 25 → b < 25 → far a b ≤ 8 }
    ensures nearer { (a b : ℕ) → a < 25 → b < 25 → a ≢ b → IsNearer a b }
{}
