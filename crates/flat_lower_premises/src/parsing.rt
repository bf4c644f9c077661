//! That the trees of a text have words where its tokens have them.

ghost use Rattle.std.specs.Prelude.{List};
ghost use Rattle.c_tree.specs.declared.token.Lexeme.{Lexeme};
ghost use Rattle.c_tree.specs.declared.tree.Top.{Top};
ghost use Rattle.c_grammar.specs.Accepted.{IsUnit};
ghost use Rattle.flat_lower_premises.specs.inside.Words.{TokensHaveWords};
ghost use Rattle.flat_lower_premises.specs.inside.Trees.{UnitHasWords};

/// Where each number among the tokens is a word of its type, so is each number of the translation
/// unit (C17 6.9) that they spell. It does nothing when it runs.
pub fn units_have_words()
    ensures { (ts : List Lexeme) (xs : List Top) → TokensHaveWords ts → IsUnit ts xs
        → UnitHasWords xs }
{}
