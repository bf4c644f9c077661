//! The macros of a text.

ghost use Rattle.std.specs.Prelude.{◌≡◌};
ghost use Rattle.std.specs.Option.{option_copied};
ghost use Rattle.c_pre.specs.Macros.{name_of, body_of, is_hidden, live_body};

use crate::form::same_name;
use base::Items;
use c_lex::string_of;
use c_tree::{Form, Word};

/// What a name was last said to be: a macro with this body, or none, behind an `#undef`.
#[derive(Debug, Drop)]
pub struct Macro {
    pub name: Word,
    pub body: Option<Items<Form>>,
}

/// The name that a token is, if it is one, and no string literal.
pub fn name_of(form: &Form) -> Option<&Word>
    ensures { option_copied result ≡ name_of form.now }
{
    match form {
        Form::Name(name) => {
            if string_of(form).is_some() {
                None
            } else {
                Some(name)
            }
        }
        _ => None,
    }
}

/// The body of the macro of this name, if it is one.
pub fn body_of<'a>(macros: &'a [Macro], name: &[u8]) -> Option<&'a Items<Form>>
    ensures { option_copied result ≡ body_of name.now macros.now }
{
    let mut body = None;
    let mut rest = macros;
    while let [first, more @ ..] = rest {
        if same_name(first.name.as_slice(), name) {
            body = first.body.as_ref();
        }
        rest = more;
    }
    body
}

/// Is the name one of these?
fn is_hidden(hidden: &[Word], name: &[u8]) -> bool
    ensures { result ≡ is_hidden name.now hidden.now }
{
    let mut rest = hidden;
    while let [first, more @ ..] = rest {
        if same_name(first.as_slice(), name) {
            return true;
        }
        rest = more;
    }
    false
}

/// The body that stands for this name, where these names are being replaced.
pub fn live_body<'a>(macros: &'a [Macro], hidden: &[Word], name: &[u8]) -> Option<&'a Items<Form>>
    ensures { option_copied result ≡ live_body macros.now hidden.now name.now }
{
    if is_hidden(hidden, name) {
        None
    } else {
        body_of(macros, name)
    }
}
