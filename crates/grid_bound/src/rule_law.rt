//! Laws of the grid's rule, over its definitions alone; each function's clause is the law.
ghost use Rattle.std.specs.Prelude.{◌≡◌, ◌≤◌, ℕ, List};
ghost use Rattle.trips_isa.specs.declared.block.Block.{Block};
ghost use Rattle.trips_isa.specs.declared.run.Stepped.TheVariants.{Went};
ghost use Rattle.trips_isa.specs.Machine.{State};
ghost use Rattle.commit_flush_spec.specs.inside.Invariant.{AllGood};
ghost use Rattle.commit_flush_spec.specs.inside.Laws.{WindowOk};
ghost use Rattle.grid_cycle_spec.specs.Grid.{Grid};
ghost use Rattle.grid_cycle_spec.specs.Ends.{ends};
ghost use Rattle.grid_cycle_spec.specs.Fetches.{fetches};
ghost use Rattle.grid_cycle_spec.specs.Banks.{reads_answered};
ghost use Rattle.grid_cycle_spec.specs.Choosing.{each};
ghost use Rattle.grid_cycle_spec.specs.DataTiles.{answers, data_turn};
ghost use Rattle.grid_cycle_spec.specs.Units.{unit_turn, works_on};
ghost use Rattle.grid_cycle_spec.specs.Cycles.{Eager, Moves, begun_at};
ghost use Rattle.grid_cycle_spec.specs.inside.Cycles.{AfterCycles};
ghost use Rattle.grid_bound.specs.inside.Rule.{GenerationsCounted, GridRule};

use operand_net::Weather;

/// At the stated start a grid has its rule.
pub fn grids_begin_right<W: Weather>()
    ensures rule { (s : State) (entries : List ℕ) (weather : W) → GridRule (begun_at s entries weather) }
    ensures generations { (s : State) (entries : List ℕ) (weather : W)
        → GenerationsCounted (begun_at s entries weather) }
{}

/// Each part of a cycle keeps the rule: (1) ends, (2) fetches, (3) the banks, (4) the data tiles, (5) the units, and
/// (6) the mesh with what arrives, in a weather that holds nothing for more than 3 cycles.
pub fn parts_keep_the_rule<W: Weather>()
    ensures ends { (blocks : List Block) (budget : ℕ) (g : Grid W) → AllGood blocks → WindowOk blocks budget g.window
        → GridRule g → GridRule (ends blocks budget g) }
    ensures fetches { (blocks : List Block) (budget : ℕ) (g : Grid W) → AllGood blocks
        → WindowOk blocks budget g.window → g.window.over ≡ Went → GridRule g → GridRule (fetches blocks budget g) }
    ensures banks { (blocks : List Block) (budget : ℕ) (g : Grid W) → AllGood blocks → WindowOk blocks budget g.window
        → g.window.over ≡ Went → GridRule g → GridRule (reads_answered blocks budget g) }
    ensures tiles { (blocks : List Block) (budget : ℕ) (g : Grid W) → AllGood blocks → WindowOk blocks budget g.window
        → g.window.over ≡ Went → GridRule g → GridRule (answers blocks budget g) }
    ensures units { (blocks : List Block) (budget : ℕ) (g : Grid W) → AllGood blocks → WindowOk blocks budget g.window
        → g.window.over ≡ Went → GridRule g → GridRule (works_on blocks budget g) }
    ensures mesh { (blocks : List Block) (budget : ℕ) (g h : Grid W) → AllGood blocks
        → WindowOk blocks budget g.window
        → g.window.over ≡ Went → ((w : W) → W.next w ≤ 3) → GridRule g → Moves W.next W.follows blocks budget g h
        → GridRule h }
{}

/// After each turn of parts (4) and (5) the rule stands too: of a data tile, and of a unit.
pub fn turns_keep_the_rule<W: Weather>()
    ensures tiles { (blocks : List Block) (budget k : ℕ) (g : Grid W) → AllGood blocks
        → WindowOk blocks budget g.window
        → g.window.over ≡ Went → GridRule g → GridRule (each (data_turn blocks budget) k g) }
    ensures units { (blocks : List Block) (budget k : ℕ) (g : Grid W) → AllGood blocks
        → WindowOk blocks budget g.window
        → g.window.over ≡ Went → GridRule g → GridRule (each (unit_turn blocks budget) k g) }
{}

/// Every eager cycle keeps the rule and the window's invariant, and so does any number of them. The only premise on
/// the weather is that it holds nothing for more than 3 cycles.
pub fn cycles_keep_the_rule<W: Weather>()
    ensures one { (blocks : List Block) (budget : ℕ) (g h : Grid W) → AllGood blocks → WindowOk blocks budget g.window
        → ((w : W) → W.next w ≤ 3) → GridRule g → Eager W.next W.follows blocks budget g h → GridRule h }
    ensures rule { (blocks : List Block) (budget n : ℕ) (g h : Grid W) → AllGood blocks
        → WindowOk blocks budget g.window → ((w : W) → W.next w ≤ 3) → GridRule g
        → AfterCycles W.next W.follows blocks budget n g h → GridRule h }
    ensures window { (blocks : List Block) (budget n : ℕ) (g h : Grid W) → AllGood blocks
        → WindowOk blocks budget g.window → ((w : W) → W.next w ≤ 3) → GridRule g
        → AfterCycles W.next W.follows blocks budget n g h → WindowOk blocks budget h.window }
{}

/// No frame is filled more often than cycles are made.
pub fn cycles_count_generations<W: Weather>()
    ensures { (blocks : List Block) (budget n : ℕ) (g h : Grid W) → GenerationsCounted g
        → AfterCycles W.next W.follows blocks budget n g h → GenerationsCounted h }
{}
