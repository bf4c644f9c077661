//! Laws of four programs on one grid, over definitions alone; each function's clause is the law.
ghost use Rattle.std.specs.Prelude.{◌≡◌, ◌+◌, ◌*◌, ◌<◌, ◌⊎◌, ℕ, true, List, [], ◌∷◌, None};
ghost use Rattle.operand_net.specs.Places.{Places};
ghost use Rattle.grid_cycle_spec.specs.Grid.{Grid, numbers_of};
ghost use Rattle.grid_cycle_spec.specs.Ends.{ends};
ghost use Rattle.grid_cycle_spec.specs.Fetches.{begins, fetch_ends, fetches};
ghost use Rattle.grid_cycle_spec.specs.Banks.{bank_turn, reads_answered};
ghost use Rattle.grid_cycle_spec.specs.DataTiles.{answers, data_turn};
ghost use Rattle.grid_cycle_spec.specs.Units.{works_on};
ghost use Rattle.grid_cycle_spec.specs.inside.Arrivals.{arrivals};
ghost use Rattle.trips_isa.specs.declared.block.Block.{Block};
ghost use Rattle.smt_spec.specs.Programs.{Four, alone, grid_of, is_idle, mesh, own_of, travelled};
ghost use Rattle.smt_spec.specs.inside.Among.{Apart, Has};
ghost use Rattle.smt_spec.specs.Turns.{all_four};
ghost use Rattle.smt_spec.specs.Parts.{Images, answers_of, arrivals_of, ends_of, fetches_go_on, fetches_of};
ghost use Rattle.smt_spec.specs.Parts.{reads_of, gives, works_of};
ghost use Rattle.smt_spec.specs.inside.Laws.{Lends};
ghost use Rattle.std.specs.Prelude.{false};
ghost use Rattle.trips_isa.specs.declared.run.Stepped.TheVariants.{Went};
ghost use Rattle.trips_isa.specs.Machine.{State};
ghost use Rattle.block_predict.specs.Predicts.{Holding};
ghost use Rattle.commit_flush_spec.specs.InFlight.{opened};
ghost use Rattle.commit_flush_spec.specs.Laws.{TakesSteps};
ghost use Rattle.commit_flush_spec.specs.inside.Invariant.{AllGood};
ghost use Rattle.commit_flush_spec.specs.inside.Laws.{WindowOk};
ghost use Rattle.smt_spec.specs.Cycles.{Eager4, begun, goes_on};
ghost use Rattle.smt_spec.specs.inside.Cycles.{AfterFours};

use operand_net::Weather;

/// The program that comes first sees parts (1), (3) and (4) of a cycle, and the arrivals of part (6), as a grid of
/// its own makes them; part (2) too, but that it begins no fetch where the unit works for another or where it has
/// two frames; and part (5) too, but that others may take the units which it leaves free.
pub fn first_programs_are_alone<W: Weather>()
    ensures ends { (images : Images) (budget p : ℕ) (ps : List ℕ) (g : Four W) → Apart p ps
        → alone p (ends_of images budget (p ∷ ps) g) ≡ ends (images p) budget (alone p g) }
    ensures fetches { (images : Images) (budget p : ℕ) (ps : List ℕ) (g : Four W) → Apart p ps → Has p all_four
        → (alone p (fetches_of images budget (p ∷ ps) g) ≡ fetches (images p) budget (alone p g))
        ⊎ (alone p (fetches_of images budget (p ∷ ps) g)
        ≡ fetch_ends (images p) budget (alone p g).fetching (alone p g)) }
    ensures due { (images : Images) (budget p : ℕ) (ps : List ℕ) (g : Four W) → Apart p ps → Has p all_four
        → (alone p (fetches_go_on images budget g)).window.frames ≡ []
        → (alone p (fetches_go_on images budget g)).fetching ≡ None
        → is_idle (fetches_go_on images budget g) ≡ true
        → alone p (fetches_of images budget (p ∷ ps) g) ≡ fetches (images p) budget (alone p g) }
    ensures banks { (images : Images) (budget p : ℕ) (ps : List ℕ) (g : Four W) → Apart p ps
        → alone p (reads_of images budget (p ∷ ps) g) ≡ reads_answered (images p) budget (alone p g) }
    ensures tiles { (images : Images) (budget p : ℕ) (ps : List ℕ) (g : Four W) → Apart p ps
        → alone p (answers_of images budget (p ∷ ps) g) ≡ answers (images p) budget (alone p g) }
    ensures units { (images : Images) (budget p : ℕ) (ps : List ℕ) (g : Four W) → Apart p ps
        → Lends 16 (works_on (images p) budget (alone p g)) (alone p (works_of images budget (p ∷ ps) g)) }
    ensures arrivals { (images : Images) (budget p : ℕ) (ps : List ℕ) (g : Four W) → Apart p ps
        → alone p (arrivals_of images budget (p ∷ ps) g)
        ≡ arrivals (images p) budget (numbers_of (alone p g).window.frames) (alone p g) }
    ensures mesh { (g : Four W) (p f : ℕ) → f < 2 → mesh g (2 * p + f) ≡ (g.own p).parcels f }
    ensures travelled { (parcels : Places) (weather : W) (g : Four W) (p f : ℕ) → f < 2
        → ((travelled parcels weather g).own p).parcels f ≡ parcels (2 * p + f) }
{}

/// What a program does to its own parts hangs neither on the units nor on the weather nor on the count of cycles,
/// but for the issues: so it may be done to a grid that has none of them, and be written back among the shared
/// ones.
pub fn own_turns_are_alike<V: Weather, W: Weather>()
    ensures ends { (blocks : List Block) (budget c : ℕ) (u : ℕ → ℕ) (w : W) (g : Grid V)
        → ends blocks budget (grid_of (own_of g) u w c) ≡ grid_of (own_of (ends blocks budget g)) u w c }
    ensures fetched { (blocks : List Block) (budget c : ℕ) (u : ℕ → ℕ) (w : W) (g : Grid V)
        → fetch_ends blocks budget g.fetching (grid_of (own_of g) u w c)
        ≡ grid_of (own_of (fetch_ends blocks budget g.fetching g)) u w c }
    ensures begins { (blocks : List Block) (c : ℕ) (u : ℕ → ℕ) (w : W) (g : Grid V)
        → begins blocks (grid_of (own_of g) u w c) ≡ grid_of (own_of (begins blocks g)) u w c }
    ensures banks { (blocks : List Block) (budget c bank : ℕ) (u : ℕ → ℕ) (w : W) (g : Grid V)
        → bank_turn blocks budget bank (grid_of (own_of g) u w c)
        ≡ grid_of (own_of (bank_turn blocks budget bank g)) u w c }
    ensures tiles { (blocks : List Block) (budget c tile : ℕ) (u : ℕ → ℕ) (w : W) (g : Grid V)
        → data_turn blocks budget tile (grid_of (own_of g) u w c)
        ≡ grid_of (own_of (data_turn blocks budget tile g)) u w c }
    ensures results { (c tile p : ℕ) (u : ℕ → ℕ) (w : W) (g : Grid V)
        → gives tile p (grid_of (own_of g) u w c) ≡ grid_of (own_of (gives tile p g)) u w c }
    ensures arrivals { (blocks : List Block) (budget c : ℕ) (u : ℕ → ℕ) (w : W) (ns : List ℕ) (g : Grid V)
        → arrivals blocks budget ns (grid_of (own_of g) u w c)
        ≡ grid_of (own_of (arrivals blocks budget ns g)) u w c }
{}

/// In a cycle of four programs the committed state of each takes steps of its own machine, whatever the others are:
/// as many as its trace grows by. A program that is over stays as it is.
pub fn programs_take_their_own_steps<W: Weather>()
    ensures steps { (images : Images) (budget q : ℕ) (g h : Four W) → Eager4 W.next W.follows images budget g h
        → AllGood (images q) → WindowOk (images q) budget (g.own q).window → (g.own q).window.over ≡ Went
        → TakesSteps (images q) (g.own q).window.state (h.own q).window }
    ensures over { (images : Images) (budget q : ℕ) (g h : Four W) → q < 4 → Eager4 W.next W.follows images budget g h
        → goes_on budget (g.own q).window ≡ false → (g.own q).fetching ≡ None
        → ((h.own q).window ≡ (g.own q).window) × ((h.own q).fetching ≡ None) }
{}

/// Law each as alone: after any number of cycles from the stated start the committed state of each program is that
/// of its own machine after as many steps as its trace has grown by, and its run has ended as that machine's,
/// whatever the other three are.
pub fn programs_run_as_alone<W: Weather>()
    ensures { (images : Images) (budget q n : ℕ) (states : ℕ → State) (predictors : ℕ → Holding) (weather : W)
        (h : Four W) → q < 4 → AllGood (images q) → WindowOk (images q) budget (opened (states q))
        → AfterFours W.next W.follows images budget n (begun states predictors weather) h
        → TakesSteps (images q) (states q) (h.own q).window }
{}
