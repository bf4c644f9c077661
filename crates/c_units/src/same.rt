//! Rows of tokens, compared.

ghost use Rattle.std.specs.Prelude.{◌≡◌, nat_eq};
ghost use Rattle.c_tree.specs.Marks.{mark_number};
ghost use Rattle.c_units.specs.Same as same;

use c_tree::{Form, Kind, Lexeme, Mark, same_bytes};
use c_words::is_key;

/// Are two types one?
fn same_kind(a: Kind, b: Kind) -> bool
    ensures { result ≡ nat_eq (same.kind_number a) (same.kind_number b) }
{
    a == b
}

/// Are two punctuators one?
fn same_mark(a: Mark, b: Mark) -> bool
    ensures { result ≡ nat_eq (mark_number a) (mark_number b) }
{
    a == b
}

/// Are two forms one?
pub fn same_form(a: &Form, b: &Form) -> bool
    ensures { result ≡ same.same_form a.now b.now }
{
    match (a, b) {
        (Form::Key(key), Form::Key(_)) => is_key(*key, b),
        (Form::Name(a), Form::Name(b)) => same_bytes(a.as_slice(), b.as_slice()),
        (
            Form::Number { value, kind },
            Form::Number {
                value: other,
                kind: other_kind,
            },
        ) => *value == *other && same_kind(*kind, *other_kind),
        (Form::Mark(a), Form::Mark(b)) => same_mark(*a, *b),
        _ => false,
    }
}

/// Are two rows of tokens one, but for their places in the text?
pub fn same_tokens(a: &[Lexeme], b: &[Lexeme]) -> bool
    ensures { result ≡ same.same_tokens a.now b.now }
{
    let mut rest = a;
    let mut other = b;
    while let [first, more @ ..] = rest {
        match other {
            [] => return false,
            [second, others @ ..] => {
                if !same_form(&first.form, &second.form) {
                    return false;
                }
                other = others;
            }
        }
        rest = more;
    }
    other.is_empty()
}
