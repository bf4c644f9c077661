//! Laws of marks and traps, over their definitions alone; each function's clause is the law.
ghost use Rattle.std.specs.Prelude.{◌≡◌, ◌<◌, ◌+◌, ◌↔◌, ℕ, suc, List, true, Some, length, slice_get};
ghost use Rattle.trips_isa.specs.declared.block.Block.{Block};
ghost use Rattle.trips_isa.specs.declared.causes.TrapCause.{TrapCause};
ghost use Rattle.trips_isa.specs.declared.run.Stepped.TheVariants.{Went, Trap};
ghost use Rattle.trips_isa.specs.TrapCauses.{no_mark};
ghost use Rattle.trips_isa.specs.Places.{nodes_of};
ghost use Rattle.trips_isa.specs.Rule.{Answer};
ghost use Rattle.trips_isa.specs.Tables.{IsRanked};
ghost use Rattle.trips_isa.specs.Blocks.{token_of};
ghost use Rattle.trips_isa.specs.Marks.{mark_of, cause};
ghost use Rattle.trips_isa.specs.inside.Marks.{IsMarking};
ghost use Rattle.trips_isa.specs.inside.Acts.{is_clean, block_acts, IsClean};
ghost use Rattle.trips_isa.specs.Outcomes.{Comes, plain, outcome};
ghost use Rattle.trips_isa.specs.Machine.{State, step_of, runs};
ghost use Rattle.block_cases.specs.Cases.{deepest};
ghost use Rattle.block_cases.specs.inside.Joint.{marked_of};
ghost use Rattle.block_cases.specs.inside.Plain.{plain_step, plain_runs, next_cause, next_faults};

/// Beside any fixed table of tokens a block without a cycle has one marking, and depth `deepest` reaches
/// it; marks that are pulled side by side with the tokens, both that deep, are those beside the
/// whole table.
pub fn markings_are_unique()
    ensures only { (b : Block) → IsRanked (nodes_of b) → (g : ℕ → Answer) (m : ℕ → ℕ)
        → IsMarking b g m → (x : ℕ) → m x ≡ mark_of b g deepest x }
    ensures some { (b : Block) → IsRanked (nodes_of b) → (g : ℕ → Answer)
        → IsMarking b g (mark_of b g deepest) }
    ensures joint { (b : Block) → IsRanked (nodes_of b) → (regs mem : List ℕ) (x : ℕ)
        → marked_of b regs mem deepest x ≡ mark_of b (token_of b regs mem deepest) deepest x }
{}

/// Law clean is unmarked: where no operation that fires faults, in whatever order the nodes stand, no
/// node has a mark at any depth, the block has no cause, and it comes to its plain effects.
pub fn clean_blocks_are_unmarked()
    ensures order { (b : Block) (g : ℕ → Answer) → (is_clean (block_acts b g) ≡ true) ↔ IsClean b g }
    ensures marks { (b : Block) (g : ℕ → Answer) → is_clean (block_acts b g) ≡ true → (k x : ℕ)
        → mark_of b g k x ≡ no_mark }
    ensures cause { (b : Block) (g : ℕ → Answer) → is_clean (block_acts b g) ≡ true
        → cause b g ≡ no_mark }
    ensures outcome { (blocks : List Block) (k : ℕ) (b : Block) (regs mem : List ℕ)
        → is_clean (block_acts b (token_of b regs mem deepest)) ≡ true
        → outcome blocks k b regs mem ≡ Comes (plain blocks k b regs mem) }
{}

/// Where there is no cause the outcome is the plain one, a step the plain step, and a run that meets
/// no cause the plain run.
pub fn unmarked_blocks_are_plain()
    ensures outcome { (blocks : List Block) (k : ℕ) (b : Block) (regs mem : List ℕ)
        → cause b (token_of b regs mem deepest) ≡ no_mark
        → outcome blocks k b regs mem ≡ Comes (plain blocks k b regs mem) }
    ensures step { (blocks : List Block) (s : State) → next_cause blocks s ≡ no_mark
        → step_of blocks s ≡ plain_step blocks s }
    ensures run { (blocks : List Block) (s : State) (n : ℕ)
        → ((k : ℕ) → k < n → (plain_runs blocks s k).1 ≡ Went
        → next_cause blocks (plain_runs blocks s k).0 ≡ no_mark)
        → runs blocks s n ≡ plain_runs blocks s n }
{}

/// A step traps with a cause exactly where the next block's outcome is that fault; it leaves the
/// state, the trace included, and the run stays there. Any other step of a block adds one to the
/// trace.
pub fn traps_change_nothing()
    ensures only { (blocks : List Block) (s : State) (c : TrapCause) → (step_of blocks s).1 ≡ Trap c
        → next_faults blocks s c }
    ensures exactly { (blocks : List Block) (s : State) (c : TrapCause) → next_faults blocks s c
        → step_of blocks s ≡ (s, Trap c) }
    ensures leaves { (blocks : List Block) (s : State) (c : TrapCause) → (step_of blocks s).1 ≡ Trap c
        → (step_of blocks s).0 ≡ s }
    ensures stays { (blocks : List Block) (s : State) (n : ℕ) (c : TrapCause) → (runs blocks s n).1 ≡ Trap c
        → runs blocks s (suc n) ≡ runs blocks s n }
    ensures grows { (blocks : List Block) (b : Block) (s : State)
        → slice_get blocks s.next ≡ Some b → next_cause blocks s ≡ no_mark
        → length (step_of blocks s).0.trace ≡ length s.trace + 1 }
{}
