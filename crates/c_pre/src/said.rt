//! What a raw token says.

ghost use Rattle.std.specs.Prelude.{◌≡◌, IsTrue};
ghost use Rattle.c_pre.specs.Said.{said_by};

use c_lex::{DirectiveKind, Header, directive_of, header_of, is_line_end};
use c_tree::Form;

/// What a raw token is: a token of the program, or what the lexer makes of a directive's line (C17 6.10): its `#` and
/// name, the line of a header, and the line's end.
#[derive(Clone, Copy, Debug, PartialEq, Eq)]
pub enum Said {
    Token,
    Directive(DirectiveKind),
    Header(Header),
    LineEnd,
}

/// Is it a form as most are: no name, or one that begins with a letter or `_`?
#[tactic(auto, using(crate::proofs::Words::letter_is_token))]
fn is_common(form: &Form) -> bool
    ensures { IsTrue result → said_by form.now ≡ Said.Token }
{
    match form {
        Form::Name(name) => match name.as_slice() {
            [] => false,
            [first, ..] => b'A' <= *first,
        },
        _ => true,
    }
}

/// What a raw token is.
pub fn said_by(form: &Form) -> Said
    ensures { result ≡ said_by form.now }
{
    if is_common(form) {
        return Said::Token;
    }
    if let Some(kind) = directive_of(form) {
        Said::Directive(kind)
    } else if let Some(header) = header_of(form) {
        Said::Header(header)
    } else if is_line_end(form) {
        Said::LineEnd
    } else {
        Said::Token
    }
}
