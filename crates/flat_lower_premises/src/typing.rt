//! That typing keeps words: each number of a typed program is a word of its type.

ghost use Rattle.c_tree.specs.declared.tree.Program.{Program};
ghost use Rattle.c_tree.specs.declared.typed.TypedProgram.{TypedProgram};
ghost use Rattle.c_type_rules.specs.Units.{Accepts};
ghost use Rattle.flat_lower_premises.specs.inside.Trees.{UnitHasWords};
ghost use Rattle.flat_lower_premises.specs.inside.TypedTrees.{ProgramHasWords};

/// Where each number of a translation unit is a word of its type (C17 6.2.6.2), so is each number
/// of its typed program, and so is each value that a global is given.
pub fn programs_have_words()
    ensures { (p : Program) (t : TypedProgram)
        → UnitHasWords p.items → Accepts p t → ProgramHasWords t }
{}
