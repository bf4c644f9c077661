//! What typing gives is what lowering takes.

ghost use Rattle.std.specs.Prelude.{ℕ, List};
ghost use Rattle.c_tree.specs.declared.typed.TypedProgram.{TypedProgram};
ghost use Rattle.c_meaning_spec.specs.Eval.{eval};
ghost use Rattle.c_type_rules.specs.inside.WellFormed.{WellFormed};
ghost use Rattle.flat_lower_premises.specs.inside.TypedTrees.{ProgramHasWords};
ghost use Rattle.ir_forms.specs.inside.FlatRuns.{checked, flat_run};
ghost use Rattle.flat_lower.specs.inside.TreeViews.{source_of};
ghost use Rattle.flat_lower.specs.inside.Fits.{FitsSource};
ghost use Rattle.flat_lower.specs.inside.Tree.{Source};
ghost use Rattle.flat_lower.specs.inside.Sizes.{IsMost};
ghost use Rattle.c_meaning_spec.specs.Laws.{IsInput};
ghost use Rattle.flat_lower.specs.inside.Keeps.{Keeps};
ghost use Rattle.flat_lower.specs.inside.Statements.{lowered_program};
ghost use Rattle.flat_lower_premises.specs.inside.Limits.{HasFewGlobals, HasFewNodes};
ghost use Rattle.flat_lower_premises.specs.inside.Most.{most_of};

/// A well formed program, whose numbers are words and which has few globals and few nodes, fits: of each
/// node typing says what lowering relies on, temporaries and memory suffice, a word counts the sections of
/// a switch, and main can be called.
pub fn typed_programs_fit()
    ensures { (P : TypedProgram) → WellFormed P → ProgramHasWords P → HasFewGlobals P → HasFewNodes P
        → FitsSource (source_of P) }
{}

/// The bound that the meaning of a lowered program is stated with is one: no function's body has
/// more nodes and statements.
pub fn most_of_is_most()
    ensures { (P : Source) → IsMost P (most_of P) }
{}

/// The lowered program of such a program does what C means by it, on every input: within n steps of
/// the evaluation the same output and the same result, or the same overflow, or as much output.
pub fn lowered_programs_keep_meaning()
    ensures { (P : TypedProgram) → WellFormed P → ProgramHasWords P → HasFewGlobals P → HasFewNodes P
        → (input : List ℕ) → IsInput input → (n : ℕ)
        → Keeps (most_of (source_of P)) (flat_run checked (lowered_program P) input) n
        (eval P input n) }
{}
