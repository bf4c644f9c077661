//! Forms, compared.

ghost use Rattle.std.specs.Prelude.{◌≡◌, nat_eq};
ghost use Rattle.std.specs.Str.{bytes_eq};
ghost use Rattle.c_tree.specs.Marks.{mark_number};
ghost use Rattle.c_pre.specs.Forms.{key_number, kind_number, same_form, same_forms};

use c_tree::{Form, Key, Kind, Mark, same_bytes};

/// Are two keywords one?
fn same_key(a: Key, b: Key) -> bool
    ensures { result ≡ nat_eq (key_number a) (key_number b) }
{
    a == b
}

/// Are two types one?
fn same_kind(a: Kind, b: Kind) -> bool
    ensures { result ≡ nat_eq (kind_number a) (kind_number b) }
{
    a == b
}

/// Are two punctuators one?
fn same_mark(a: Mark, b: Mark) -> bool
    ensures { result ≡ nat_eq (mark_number a) (mark_number b) }
{
    a == b
}

/// Are two names one?
pub fn same_name(a: &[u8], b: &[u8]) -> bool
    ensures { result ≡ bytes_eq a.now b.now }
{
    same_bytes(a, b)
}

/// Are two forms one?
fn same_form(a: &Form, b: &Form) -> bool
    ensures { result ≡ same_form a.now b.now }
{
    match (a, b) {
        (Form::Include, Form::Include) => true,
        (Form::Key(a), Form::Key(b)) => same_key(*a, *b),
        (Form::Name(a), Form::Name(b)) => same_name(a.as_slice(), b.as_slice()),
        (
            Form::Number { value, kind },
            Form::Number {
                value: other,
                kind: other_kind,
            },
        ) => *value == *other && same_kind(*kind, *other_kind),
        (Form::Mark(a), Form::Mark(b)) => same_mark(*a, *b),
        _ => false,
    }
}

/// Are two bodies one?
pub fn same_forms(a: &[Form], b: &[Form]) -> bool
    ensures { result ≡ same_forms a.now b.now }
{
    let mut rest = a;
    let mut other = b;
    while let [first, more @ ..] = rest {
        match other {
            [] => return false,
            [second, others @ ..] => {
                if !same_form(first, second) {
                    return false;
                }
                other = others;
            }
        }
        rest = more;
    }
    other.is_empty()
}
