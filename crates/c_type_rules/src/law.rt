//! That typed programs are well formed.

ghost use Rattle.std.specs.Prelude.{◌≡◌, None};
ghost use Rattle.c_tree.specs.declared.tree.Program.{Program};
ghost use Rattle.c_type.specs.inside.Programs.{program_fault, program_tree};
ghost use Rattle.c_type_rules.specs.inside.WellFormed.{WellFormed};

/// The typed program of a translation unit without a fault is well formed: its places and calls
/// name what exists, the types of its nodes agree (C17 6.5), its jumps and returns stand where they
/// may (C17 6.8.6), its `main` can be called, and the limits of a program are kept.
pub fn typed_programs_are_well_formed()
    ensures { (p : Program) → program_fault p ≡ None → WellFormed (program_tree p) }
{}
