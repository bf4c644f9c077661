//! The nearest name that a text declares before a place, and where it declares a function.

ghost use Rattle.std.specs.Prelude.{◌≡◌};
ghost use Rattle.trips_messages.specs.Classes as classes;
ghost use Rattle.trips_messages.specs.Nearest as nearness;

use crate::class::{Class, class_of};
use crate::names::{Phase, declares, in_phase, stand_after};
use c_tree::{Form, Lexeme, Word};

/// How many keystrokes a name may be away.
#[derive(Clone, Copy, Debug, PartialEq, Eq)]
pub enum Reach {
    One,
    Two,
}

/// Where a function is declared, by a place of the text.
#[derive(Clone, Copy, Debug, PartialEq, Eq)]
pub enum Standing {
    Nowhere,
    Before,
    Behind,
}

// Do two words with these first bytes differ in that two bytes are swapped?
fn is_swapped(x: u8, y: u8, xs: &[u8], ys: &[u8]) -> bool
    ensures { result ≡ nearness.is_swapped x y xs.now ys.now }
{
    match xs {
        [] => false,
        [a, more @ ..] => match ys {
            [] => false,
            [b, others @ ..] => (x == *b && *a == y) && more == others,
        },
    }
}

// Is one word the other after one keystroke, a byte more, less, another or swapped with the next?
fn is_one_away(a: &[u8], b: &[u8]) -> bool
    ensures { result ≡ nearness.is_one_away a.now b.now }
{
    match a {
        [] => b.len() == 1,
        [x, xs @ ..] => match b {
            [] => xs.len() == 0,
            [y, ys @ ..] => {
                if *x == *y {
                    is_one_away(xs, ys)
                } else {
                    (xs == ys || a == ys) || (xs == b || is_swapped(*x, *y, xs, ys))
                }
            }
        },
    }
}

// Is one word the other, or so after one keystroke?
fn is_within_one(a: &[u8], b: &[u8]) -> bool
    ensures { result ≡ nearness.is_within_one a.now b.now }
{
    a == b || is_one_away(a, b)
}

// Is one word the other after two keystrokes or less?
fn is_within_two(a: &[u8], b: &[u8]) -> bool
    ensures { result ≡ nearness.is_within_two a.now b.now }
{
    match a {
        [] => b.len() <= 2,
        [x, xs @ ..] => match b {
            [] => xs.len() <= 1,
            [y, ys @ ..] => {
                if *x == *y {
                    is_within_two(xs, ys)
                } else {
                    is_within_one(xs, ys) || (is_within_one(a, ys) || is_within_one(xs, b))
                }
            }
        },
    }
}

// Is the name so near?
fn is_near(reach: Reach, word: &[u8], name: &[u8]) -> bool
    ensures { result ≡ nearness.is_near reach word.now name.now }
{
    match reach {
        Reach::One => is_one_away(word, name),
        Reach::Two => is_within_two(word, name),
    }
}

// The name where it is near, else the best so far.
fn nearer<'a>(reach: Reach, word: &[u8], name: &'a [u8], best: &'a [u8]) -> &'a [u8]
    ensures { result.now ≡ nearness.nearer reach word.now name.now best.now }
{
    if is_near(reach, word, name) {
        name
    } else {
        best
    }
}

// The best behind a name.
fn best_after_name<'a>(
    reach: Reach,
    word: &[u8],
    phase: Phase,
    name: &'a Word,
    best: &'a [u8],
) -> &'a [u8]
    ensures { result.now ≡ nearness.best_after_name reach word.now phase name.now best.now }
{
    if declares(phase) {
        nearer(reach, word, name.as_slice(), best)
    } else {
        best
    }
}

// The best behind the include, which declares three names.
fn best_after_include<'a>(reach: Reach, word: &[u8], best: &'a [u8]) -> &'a [u8]
    ensures { result.now ≡ nearness.best_after_include reach word.now best.now }
{
    let first = nearer(reach, word, b"getchar", best);
    let second = nearer(reach, word, b"putchar", first);
    nearer(reach, word, b"EOF", second)
}

// The best behind a token.
fn best_after<'a>(
    reach: Reach,
    word: &[u8],
    phase: Phase,
    form: &'a Form,
    best: &'a [u8],
) -> &'a [u8]
    ensures { result.now ≡ nearness.best_after reach word.now phase form.now best.now }
{
    match form {
        Form::Include => best_after_include(reach, word, best),
        Form::Name(name) => best_after_name(reach, word, phase, name, best),
        _ => best,
    }
}

// The last name so near that is declared before an offset, or none.
fn nearest_by<'a>(reach: Reach, word: &[u8], tokens: &'a [Lexeme], offset: u32) -> &'a [u8]
    ensures { result.now ≡ nearness.nearest_by reach word.now offset tokens.now }
{
    let mut at = in_phase(Phase::Elsewhere, 0);
    let mut best = b"".as_slice();
    let mut rest = tokens;
    while let [lexeme, more @ ..] = rest {
        if offset <= lexeme.offset {
            return best;
        }
        best = best_after(reach, word, at.phase, &lexeme.form, best);
        at = stand_after(class_of(&lexeme.form), at);
        rest = more;
    }
    best
}

/// The nearest name that is declared before an offset, within two keystrokes of the word, or none.
pub fn nearest<'a>(word: &[u8], tokens: &'a [Lexeme], offset: u32) -> &'a [u8]
    ensures { result.now ≡ nearness.nearest word.now offset tokens.now }
{
    if word.len() < 3 || 64 < word.len() {
        return b"";
    }
    let one = nearest_by(Reach::One, word, tokens, offset);
    if one.is_empty() && 6 <= word.len() {
        nearest_by(Reach::Two, word, tokens, offset)
    } else {
        one
    }
}

// Is the token this name?
fn is_word(word: &[u8], form: &Form) -> bool
    ensures { result ≡ nearness.is_word word.now form.now }
{
    match form {
        Form::Name(name) => name.as_slice() == word,
        _ => false,
    }
}

// Is the token a bracket that opens a list of parameters?
fn opens_list(form: &Form) -> bool
    ensures { result ≡ nearness.is_opening (classes.class_of form.now) }
{
    match class_of(form) {
        Class::OpenRound => true,
        _ => false,
    }
}

// Is the token the last of a type?
fn is_type(form: &Form) -> bool
    ensures { result ≡ nearness.is_type (classes.class_of form.now) }
{
    match class_of(form) {
        Class::Type => true,
        _ => false,
    }
}

// Do the tokens go on as the declaration of this function, behind its type?
fn names_function(word: &[u8], tokens: &[Lexeme]) -> bool
    ensures { result ≡ nearness.names_function word.now tokens.now }
{
    match tokens {
        [name, opening, ..] => is_word(word, &name.form) && opens_list(&opening.form),
        _ => false,
    }
}

// A place by another.
fn side(offset: u32, at: u32) -> Standing
    ensures { result ≡ nearness.side offset at }
{
    if at < offset {
        Standing::Before
    } else {
        Standing::Behind
    }
}

/// Where the text first declares a function of this name.
pub fn where_declared(word: &[u8], tokens: &[Lexeme], offset: u32) -> Standing
    ensures { result ≡ nearness.where_declared word.now offset tokens.now }
{
    let mut rest = tokens;
    while let [lexeme, more @ ..] = rest {
        if is_type(&lexeme.form) && names_function(word, more) {
            return side(offset, lexeme.offset);
        }
        rest = more;
    }
    Standing::Nowhere
}
