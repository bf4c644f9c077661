ghost use Rattle.std.specs.Prelude.{ℕ, List};
ghost use Rattle.c_tree.specs.declared.token.Lexeme.{Lexeme};
ghost use Rattle.c_pre.specs.Texts.{Lexed};
ghost use Rattle.flat_lower_premises.specs.inside.Words.{TokensHaveWords};

/// Each constant among a text's tokens, behind its directives and macros, is a word of its type (C17 6.4.4). It does
/// nothing when it runs.
pub fn tokens_have_words()
    ensures { (most : ℕ) (text : List ℕ) (ts : List Lexeme) → Lexed most text ts
        → TokensHaveWords ts }
{}
