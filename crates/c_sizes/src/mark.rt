//! Punctuators that stand first.

ghost use Rattle.std.specs.Prelude.{◌≡◌};
ghost use Rattle.c_library.specs.Calls as calls;
ghost use Rattle.c_sizes.specs.Firsts as firsts;

use c_tree::{Form, Lexeme, Mark};

/// Is it this punctuator?
pub fn is_mark(mark: Mark, form: &Form) -> bool
    ensures { result ≡ calls.is_mark mark form.now }
{
    match form {
        Form::Mark(other) => *other == mark,
        _ => false,
    }
}

/// Does this punctuator stand first?
pub fn begins(mark: Mark, tokens: &[Lexeme]) -> bool
    ensures { result ≡ firsts.begins mark tokens.now }
{
    match tokens {
        [] => false,
        [token, ..] => is_mark(mark, &token.form),
    }
}

/// The tokens behind the first.
pub fn rest(tokens: &[Lexeme]) -> &[Lexeme]
    ensures { result.now ≡ firsts.rest tokens.now }
{
    match tokens {
        [] => &[],
        [_, more @ ..] => more,
    }
}

/// Are there no tokens?
pub fn is_empty(tokens: &[Lexeme]) -> bool
    ensures { result ≡ firsts.is_empty tokens.now }
{
    match tokens {
        [] => true,
        _ => false,
    }
}
