//! Laws of traces, over their definitions alone; each function's clauses are the law.
ghost use Rattle.std.specs.Prelude.{◌≡◌, ◌⊎◌, ◌≤◌, ◌<◌, ◌++◌, ◌^◌, ◌∷◌, [], ℕ, List, length};
ghost use Rattle.trips_isa.specs.declared.block.Block.{Block};
ghost use Rattle.trips_isa.specs.Machine.{State};
ghost use Rattle.trace_verify.specs.declared.fault.VerifyFault.{VerifyFault};
ghost use Rattle.trace_verify.specs.Traces.{IsTrace};
ghost use Rattle.trace_verify.specs.FirstFault.{FirstFault};
ghost use Rattle.trace_verify.specs.Reading.{Reading, unread, feeds};
ghost use Rattle.trace_verify.specs.Verdicts.{Completes, FaultsWith};

/// Bytes that come in two pieces are read as one.
pub fn feeds_join()
    ensures joined { (blocks : List Block) (budget : ℕ) (r : Reading) (piece rest : List ℕ)
        → feeds blocks budget r (piece ++ rest) ≡ feeds blocks budget (feeds blocks budget r piece) rest }
{}

/// What is read from the first byte on completes a trace exactly where all bytes are one within the budget, and comes
/// to a fault exactly where this is their first one. The run starts at a block of an image that has fewer than
/// 2^32 blocks.
pub fn traces_are_judged()
    ensures completed { (blocks : List Block) (s : State) (budget b : ℕ) (bytes : List ℕ)
        → s.next < length blocks → length blocks < 2 ^ 32 → IsTrace blocks s b bytes → b ≤ budget
        → Completes blocks budget (unread s) bytes b }
    ensures completes { (blocks : List Block) (s : State) (budget b : ℕ) (bytes : List ℕ)
        → Completes blocks budget (unread s) bytes b → IsTrace blocks s b bytes × (b ≤ budget) }
    ensures faulted { (blocks : List Block) (s : State) (budget : ℕ) (bytes : List ℕ) (f : VerifyFault)
        → s.next < length blocks → length blocks < 2 ^ 32 → FirstFault blocks s budget bytes f
        → FaultsWith blocks budget (unread s) bytes f }
    ensures faults { (blocks : List Block) (s : State) (budget : ℕ) (bytes : List ℕ) (f : VerifyFault)
        → FaultsWith blocks budget (unread s) bytes f → FirstFault blocks s budget bytes f }
{}

/// Bytes are a trace within the budget or have a first fault, not both; a trace is one of one number of blocks, and
/// there is one first fault. The run starts at a block of an image that has fewer than 2^32 blocks.
pub fn verdicts_are_one()
    ensures judged { (blocks : List Block) (s : State) (budget : ℕ) (bytes : List ℕ)
        → ((b : ℕ) × IsTrace blocks s b bytes × (b ≤ budget))
        ⊎ ((f : VerifyFault) × FirstFault blocks s budget bytes f) }
    ensures apart { (blocks : List Block) (s : State) (budget b : ℕ) (bytes : List ℕ) (f : VerifyFault)
        → s.next < length blocks → length blocks < 2 ^ 32 → IsTrace blocks s b bytes → b ≤ budget
        → FirstFault blocks s budget bytes f → ⊥ }
    ensures blocks { (blocks : List Block) (s : State) (b c : ℕ) (bytes : List ℕ)
        → s.next < length blocks → length blocks < 2 ^ 32 → IsTrace blocks s b bytes → IsTrace blocks s c bytes
        → b ≡ c }
    ensures fault { (blocks : List Block) (s : State) (budget : ℕ) (bytes : List ℕ) (f g : VerifyFault)
        → s.next < length blocks → length blocks < 2 ^ 32 → FirstFault blocks s budget bytes f
        → FirstFault blocks s budget bytes g → f ≡ g }
{}
