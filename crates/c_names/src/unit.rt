//! The unit without names of types and of enumeration constants.

ghost use Rattle.std.specs.Prelude.{◌≡◌, ◌∷◌, ◌≤◌, ◌<◌, ◌-◌, length, IsTrue, IfOk, IfErr, Ok, true};
ghost use Rattle.c_tree.specs.Limits.{most_tokens};
ghost use Rattle.c_library.specs.Within.{within};
ghost use Rattle.c_library.specs.inside.Gives.{Gives, Refuses};
ghost use Rattle.c_library.specs.inside.Puts.{put_all};
ghost use Rattle.c_names.specs.Named as unit;

use crate::header::goes;
use crate::scope::Scope;
use crate::turn::Names;
use c_library::{LibraryFault, Output};
use c_tree::{Form, Key, Lexeme, MOST_TOKENS};
use std::alloc::Global;

/// Is the keyword none that declares such names, or tells a size?
fn key_stays(key: Key) -> bool
    ensures { result ≡ unit.key_stays key }
{
    match key {
        Key::Typedef | Key::Enum | Key::Sizeof => false,
        _ => true,
    }
}

/// Begins `ptrdiff_t` or `wchar_t` with these bytes?
fn may_be_other(a: u8, b: u8, c: u8, d: u8) -> bool
    ensures { result ≡ unit.may_be_other a b c d }
{
    (a == b'p' && b == b't' && c == b'r' && d == b'd')
        || (a == b'w' && b == b'c' && c == b'h' && d == b'a')
}

/// Begins a name of a header's type with these bytes?
fn may_be(a: u8, b: u8, c: u8, d: u8) -> bool
    ensures { result ≡ unit.may_be a b c d }
{
    (a == b'i' && b == b'n' && c == b't')
        || (a == b'u' && b == b'i' && c == b'n' && d == b't')
        || (a == b's' && b == b'i' && c == b'z' && d == b'e')
        || may_be_other(a, b, c, d)
}

/// May it be a name of a header's type?
fn may_be_type(name: &[u8]) -> bool
    ensures { result ≡ unit.may_be_type name.now }
{
    match name {
        [a, b, c, d, ..] => may_be(*a, *b, *c, *d),
        _ => false,
    }
}

/// Has the token nothing to do with such names?
fn stays(form: &Form) -> bool
    ensures { result ≡ unit.stays form.now }
{
    match form {
        Form::Key(key) => key_stays(*key),
        Form::Name(name) => !may_be_type(name.as_slice()) && !goes(name.as_slice()),
        _ => true,
    }
}

/// Has the unit surely no names of types, none of enumeration constants, and no `sizeof`?
pub fn has_no_name(tokens: &[Lexeme]) -> bool
    ensures { result ≡ unit.has_no_name tokens.now }
{
    let mut rest = tokens;
    while let [token, more @ ..] = rest {
        if !stays(&token.form) {
            return false;
        }
        rest = more;
    }
    true
}

/// Takes the first tokens, puts what stands for them, and gives those behind them, where so many turns are left.
#[tactic(auto, using(crate::proofs::Turned::turn_goes))]
fn take<'a>(
    alloc: Global,
    names: &mut Names,
    turns: usize,
    token: &Lexeme,
    behind: &'a [Lexeme],
    out: &mut Output,
) -> Result<&'a [Lexeme], LibraryFault>
    requires { 0 < turns }
    ensures goes { IfOk result (λ rest.
        put_all most_tokens (unit.named_in turns names.old (token.now ∷ behind.now)) out.old
        ≡ put_all most_tokens (unit.named_in (turns - 1) names.new rest.now) out.new) }
    ensures fails { IfErr result
        (Refuses (put_all most_tokens (unit.named_in turns names.old (token.now ∷ behind.now)) out.old)) }
    ensures left { IfOk result (λ rest. length rest.now ≤ length behind.now) }
{
    names.take(alloc, token, behind, out)
}

/// Puts what stands for these tokens.
fn put_named(alloc: Global, tokens: &[Lexeme], out: &mut Output) -> Result<(), LibraryFault>
    ensures { Gives (put_all most_tokens (unit.named tokens.now) out.old) result out.new }
{
    let mut names = Names {
        starts: true,
        scope: Scope::new(alloc),
    };
    let mut turns = tokens.len();
    let mut rest = tokens;
    while let [token, more @ ..] = rest {
        rest = take(alloc, &mut names, turns, token, more, out)?;
        turns -= 1;
    }
    Ok(())
}

/// The unit without names, whatever it has.
fn without_names(alloc: Global, tokens: &[Lexeme]) -> Result<Vec<Lexeme>, LibraryFault>
    ensures ok { IfOk result (λ out. within most_tokens (unit.named tokens.now) ≡ Ok out.items) }
    ensures err { IfErr result (Refuses (within most_tokens (unit.named tokens.now))) }
{
    let mut out = Output::new(alloc);
    match put_named(alloc, tokens, &mut out) {
        Ok(()) => Ok(out.into_vec()),
        Err(fault) => Err(fault),
    }
}

/// The same, where it is so.
fn is_plain(tokens: &[Lexeme]) -> bool
    ensures { IsTrue result → unit.has_no_name tokens.now ≡ true }
{
    has_no_name(tokens)
}

/// Has the unit surely its own tokens?
#[tactic(auto, using(crate::proofs::Kept::unit_stays))]
fn is_own(tokens: &[Lexeme]) -> bool
    ensures { IsTrue result → within most_tokens (unit.named tokens.now) ≡ Ok tokens.now }
{
    tokens.len() <= MOST_TOKENS && is_plain(tokens)
}

/// The unit with names of types and of enumeration constants replaced, or the first token that is too many.
///
/// A unit without them is given back as it is.
pub fn named(alloc: Global, tokens: Vec<Lexeme>) -> Result<Vec<Lexeme>, LibraryFault>
    ensures ok { IfOk result (λ out. within most_tokens (unit.named tokens.items) ≡ Ok out.items) }
    ensures err { IfErr result (Refuses (within most_tokens (unit.named tokens.items))) }
{
    if is_own(&tokens) {
        return Ok(tokens);
    }
    without_names(alloc, &tokens)
}
