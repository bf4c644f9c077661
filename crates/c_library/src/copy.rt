//! Forms and tokens, copied.

ghost use Rattle.std.specs.Prelude.{◌≡◌, IfOk};

use c_tree::{Form, Lexeme};
use std::alloc::{AllocError, Global};

/// The same form once more. Want of memory is the only error.
pub fn form_copied(alloc: Global, form: &Form) -> Result<Form, AllocError>
    ensures ok { IfOk result (λ f. f ≡ form.now) }
{
    match form {
        Form::Include => Ok(Form::Include),
        Form::Key(key) => Ok(Form::Key(*key)),
        Form::Name(name) => Ok(Form::Name(name.copy(alloc)?)),
        Form::Number { value, kind } => Ok(Form::Number {
            value: *value,
            kind: *kind,
        }),
        Form::Mark(mark) => Ok(Form::Mark(*mark)),
    }
}

/// The same token once more. Want of memory is the only error.
pub fn token_copied(alloc: Global, token: &Lexeme) -> Result<Lexeme, AllocError>
    ensures ok { IfOk result (λ t. t ≡ token.now) }
{
    Ok(Lexeme {
        offset: token.offset,
        form: form_copied(alloc, &token.form)?,
    })
}
