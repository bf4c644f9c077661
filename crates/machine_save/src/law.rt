//! Laws of saved states, over their definitions alone; each clause is one.
ghost use Rattle.std.specs.Prelude.{◌≡◌, ℕ, List, []};
ghost use Rattle.trips_isa.specs.declared.block.Image.{Image};
ghost use Rattle.trips_isa.specs.Machine.{State};
ghost use Rattle.machine_save.specs.declared.fault.SaveFault.{SaveFault};
ghost use Rattle.machine_save.specs.Spelling.{SaveBytes};
ghost use Rattle.machine_save.specs.FirstFault.{FirstSaveFault};

/// Bytes save at most one image and, but for the trace, one state; and these have one spelling.
pub fn saves_are_exact()
    ensures one_image { (i j : Image) (s t : State) (bytes : List ℕ) → SaveBytes i s bytes
        → SaveBytes j t bytes → i ≡ j }
    ensures one_state { (i j : Image) (s t : State) (bytes : List ℕ) → SaveBytes i s bytes
        → SaveBytes j t bytes → record s { trace = [] } ≡ record t { trace = [] } }
    ensures one_spelling { (i : Image) (s t : State) (bytes others : List ℕ) → SaveBytes i s bytes
        → SaveBytes i t others → record s { trace = [] } ≡ record t { trace = [] } → bytes ≡ others }
{}

/// Bytes have at most one first fault, and none where they save an image and a state.
pub fn first_faults_of_saves_are_unique()
    ensures one { (bytes : List ℕ) (f g : SaveFault) → FirstSaveFault bytes f
        → FirstSaveFault bytes g → f ≡ g }
    ensures not_both { (i : Image) (s : State) (bytes : List ℕ) (f : SaveFault) → SaveBytes i s bytes
        → FirstSaveFault bytes f → ⊥ }
{}
