//! The cycle bound of runs under any conditions, from the start and from any state, over their definitions alone.
ghost use Rattle.std.specs.Prelude.{◌≡◌, ℕ, ◌+◌, ◌^◌, ◌<◌, ◌≤◌, false, List, length, slice_get, Some, None};
ghost use Rattle.trips_isa.specs.declared.block.Block.{Block};
ghost use Rattle.trips_isa.specs.declared.causes.TrapCause.{TrapCause};
ghost use Rattle.trips_isa.specs.declared.run.Ending.{Ending};
ghost use Rattle.trips_isa.specs.declared.run.Ending.TheVariants as ending;
ghost use Rattle.trips_isa.specs.Stores.{data_size};
ghost use Rattle.grid_cycle.specs.declared.weather.AnyWeather.{AnyWeather};
ghost use Rattle.trips_isa.specs.Machine.{State};
ghost use Rattle.commit_flush_spec.specs.inside.Invariant.{AllGood};
ghost use Rattle.commit_flush_spec.specs.inside.Laws.{IsWhole};
ghost use Rattle.grid_cycle_spec.specs.Costs.{cost_in, cost_of, greatest_cost};
ghost use Rattle.grid_cycle_spec.specs.Grid.{Grid};
ghost use Rattle.grid_cycle.specs.Conditions.{IsRan, IsRanFrom};
ghost use Rattle.grid_cycle.specs.declared.conditions.Conditions.{Conditions};
ghost use Rattle.grid_cycle.specs.Traps.{is_trap};

/// A run of the grid on checked blocks, whatever its conditions, always has an ending. One that does not end in a trap
/// has made no more cycles than its trace costs (`within`); one that ends in a trap no more than that and what the
/// block costs that trapped, which is one of the image (`trapped_block`), and so any run no more than its trace costs
/// and `greatest_cost` (`trapped`). The image has at least one block and no more bytes than data memory holds, and the
/// budget is of 1 to 2^32 - 1 blocks.
pub fn runs_from_the_start_end()
    ensures ends { (blocks : List Block) (bytes input : List ℕ) (budget : ℕ) (conditions : Conditions)
        (h : Grid AnyWeather)
        → AllGood blocks → 0 < length blocks → length bytes ≤ data_size → 0 < budget → budget < 2 ^ 32
        → IsRan blocks bytes input budget conditions None h → ⊥ }
    ensures within { (blocks : List Block) (bytes input : List ℕ) (budget : ℕ) (conditions : Conditions) (e : Ending)
        (h : Grid AnyWeather)
        → AllGood blocks → 0 < length blocks → length bytes ≤ data_size → 0 < budget → budget < 2 ^ 32
        → is_trap e ≡ false → IsRan blocks bytes input budget conditions (Some e) h
        → h.counts.cycles ≤ cost_of blocks h.window.state.trace }
    ensures trapped { (blocks : List Block) (bytes input : List ℕ) (budget : ℕ) (conditions : Conditions) (e : Ending)
        (h : Grid AnyWeather)
        → AllGood blocks → 0 < length blocks → length bytes ≤ data_size → 0 < budget → budget < 2 ^ 32
        → IsRan blocks bytes input budget conditions (Some e) h
        → h.counts.cycles ≤ cost_of blocks h.window.state.trace + greatest_cost }
    ensures trapped_block { (blocks : List Block) (bytes input : List ℕ) (budget : ℕ) (conditions : Conditions)
        (block : ℕ) (cause : TrapCause) (h : Grid AnyWeather)
        → AllGood blocks → 0 < length blocks → length bytes ≤ data_size → 0 < budget → budget < 2 ^ 32
        → IsRan blocks bytes input budget conditions (Some (ending.Trap block cause)) h
        → (block < length blocks)
        × (h.counts.cycles ≤ cost_of blocks h.window.state.trace + cost_in (slice_get blocks block)) }
{}

/// The same of runs from any state with its 128 registers, the whole of data memory and a next block of
/// the image, be it one that no run comes to.
pub fn runs_from_a_state_end()
    ensures ends { (blocks : List Block) (s : State) (budget : ℕ) (conditions : Conditions) (h : Grid AnyWeather)
        → AllGood blocks → IsWhole s → s.next < length blocks → budget < 2 ^ 32
        → IsRanFrom blocks s budget conditions None h → ⊥ }
    ensures within { (blocks : List Block) (s : State) (budget : ℕ) (conditions : Conditions) (e : Ending)
        (h : Grid AnyWeather) → AllGood blocks → IsWhole s → s.next < length blocks → budget < 2 ^ 32
        → is_trap e ≡ false → IsRanFrom blocks s budget conditions (Some e) h
        → h.counts.cycles ≤ cost_of blocks h.window.state.trace }
    ensures trapped { (blocks : List Block) (s : State) (budget : ℕ) (conditions : Conditions) (e : Ending)
        (h : Grid AnyWeather) → AllGood blocks → IsWhole s → s.next < length blocks → budget < 2 ^ 32
        → IsRanFrom blocks s budget conditions (Some e) h
        → h.counts.cycles ≤ cost_of blocks h.window.state.trace + greatest_cost }
    ensures trapped_block { (blocks : List Block) (s : State) (budget : ℕ) (conditions : Conditions) (block : ℕ)
        (cause : TrapCause) (h : Grid AnyWeather)
        → AllGood blocks → IsWhole s → s.next < length blocks → budget < 2 ^ 32
        → IsRanFrom blocks s budget conditions (Some (ending.Trap block cause)) h
        → (block < length blocks)
        × (h.counts.cycles ≤ cost_of blocks h.window.state.trace + cost_in (slice_get blocks block)) }
{}
