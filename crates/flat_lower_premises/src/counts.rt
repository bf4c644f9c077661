ghost use Rattle.std.specs.Prelude.{ℕ, List, length, ◌≤◌};
ghost use Rattle.c_tree.specs.declared.token.Lexeme.{Lexeme};
ghost use Rattle.c_tree.specs.declared.tree.Program.{Program};
ghost use Rattle.c_tree.specs.declared.tree.Top.{Top};
ghost use Rattle.c_tree.specs.declared.typed.TypedProgram.{TypedProgram};
ghost use Rattle.c_grammar.specs.Accepted.{IsUnit};
ghost use Rattle.c_type_rules.specs.Units.{Accepts};

/// A unit has no more items than tokens, and its typed program no more globals than the unit has
/// items. It does nothing when it runs.
pub fn globals_are_few()
    ensures items { (ts : List Lexeme) (xs : List Top) → IsUnit ts xs → length xs ≤ length ts }
    ensures globals { (p : Program) (t : TypedProgram) → Accepts p t
        → length t.globals ≤ length p.items }
{}
