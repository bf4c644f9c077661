//! The keywords of declarations in the order of the grammar.

ghost use Rattle.std.specs.Prelude.{◌≡◌, [], ◌∷◌, ◌++◌, map, IfOk, OnOk};
ghost use Rattle.c_library.specs.Calls as calls;
ghost use Rattle.c_words.specs.Ordered as ordered;

use crate::keys::{is_key, is_type_word, is_word, none, storages};
use crate::named::{Named, spelling, type_of};
use crate::place::{Place, Places};
use crate::run::cut;
use crate::stand::{Spelled, Stand};
use base::Items;
use c_library::token_copied;
use c_tree::{Form, Key, Lexeme, Mark};
use std::alloc::{AllocError, Global};

fn is_sign(form: &Form) -> bool
    ensures { result ≡ ordered.is_sign form.now }
{
    is_key(Key::Signed, form) || is_key(Key::Unsigned, form)
}

fn is_size(form: &Form) -> bool
    ensures { result ≡ ordered.is_size form.now }
{
    is_key(Key::Short, form) || is_key(Key::Long, form)
}

/// May the second word of a type stand behind the first one in the grammar?
pub fn may_follow(first: &Form, second: &Form) -> bool
    ensures { result ≡ ordered.may_follow first.now second.now }
{
    (is_sign(first) && (is_size(second) || is_key(Key::Char, second) || is_key(Key::Int, second)))
        || (is_size(first) && is_key(Key::Int, second))
}

/// Does a type of the grammar go on so behind this word of it?
fn goes_on(first: &Lexeme, words: &[Lexeme]) -> bool
    ensures { result ≡ ordered.goes_on first.now.form words.now }
{
    let mut before = first;
    let mut rest = words;
    while let [token, more @ ..] = rest {
        if !may_follow(&before.form, &token.form) {
            return false;
        }
        before = token;
        rest = more;
    }
    true
}

/// Is a run a type of the grammar as it stands?
fn is_plain(words: &[Lexeme]) -> bool
    ensures { result ≡ ordered.is_plain words.now }
{
    match words {
        [] => true,
        [token, more @ ..] => is_type_word(&token.form) && goes_on(token, more),
    }
}

/// Is it this punctuator?
pub fn is_mark(mark: Mark, form: &Form) -> bool
    ensures { result ≡ calls.is_mark mark form.now }
{
    match form {
        Form::Mark(other) => *other == mark,
        _ => false,
    }
}

pub fn is_name(form: &Form) -> bool
    ensures { result ≡ ordered.is_name form.now }
{
    match form {
        Form::Name(_) => true,
        _ => false,
    }
}

/// Do the tokens begin with a `(`?
pub fn opens(tokens: &[Lexeme]) -> bool
    ensures { result ≡ calls.opens tokens.now }
{
    match tokens {
        [] => false,
        [token, ..] => is_mark(Mark::LeftParen, &token.form),
    }
}

fn begins_declarator(tokens: &[Lexeme]) -> bool
    ensures { result ≡ ordered.begins_declarator tokens.now }
{
    match tokens {
        [] => false,
        [token, ..] => is_name(&token.form) || is_mark(Mark::Star, &token.form),
    }
}

fn begins_function(tokens: &[Lexeme]) -> bool
    ensures { result ≡ ordered.begins_function tokens.now }
{
    match tokens {
        [] => false,
        [token, more @ ..] => is_name(&token.form) && opens(more),
    }
}

fn is_unit(place: Place) -> bool
    ensures { result ≡ ordered.is_unit place }
{
    match place {
        Place::Unit => true,
        _ => false,
    }
}

fn is_block(place: Place) -> bool
    ensures { result ≡ ordered.is_block place }
{
    match place {
        Place::Block => true,
        _ => false,
    }
}

fn is_inside(place: Place) -> bool
    ensures { result ≡ ordered.is_inside place }
{
    match place {
        Place::Block | Place::Header => true,
        _ => false,
    }
}

fn is_local(place: Place) -> bool
    ensures { result ≡ ordered.is_local place }
{
    match place {
        Place::Parameters => true,
        other => is_inside(other),
    }
}

/// The keyword does not stand in a run, or it may.
fn may_be(key: Key, may: bool, words: &[Lexeme]) -> bool
    ensures { result ≡ ordered.may_be key may words.now }
{
    none(key, words) || may
}

/// May the storage classes and `inline` of a run stand in the place, before these tokens?
fn may_stand(place: Place, words: &[Lexeme], behind: &[Lexeme]) -> bool
    ensures { result ≡ ordered.may_stand place words.now behind.now }
{
    let is_object = begins_declarator(behind);
    let is_function = is_unit(place) && begins_function(behind);
    storages(words) <= 1
        && may_be(Key::Static, is_unit(place) || is_block(place), words)
        && may_be(Key::Register, is_local(place) && is_object, words)
        && may_be(Key::Auto, is_inside(place) && is_object, words)
        && may_be(Key::Extern, is_function, words)
        && may_be(Key::Inline, is_function, words)
}

fn spelled(is_static: bool, named: Option<Named>) -> Option<Spelled>
    ensures { result ≡ ordered.spelled is_static named }
{
    match named {
        None => None,
        Some(named) => Some(Spelled { is_static, named }),
    }
}

/// What stands for a run in a place and before these tokens, if it is to change.
fn changed(place: Place, words: &[Lexeme], behind: &[Lexeme]) -> Option<Spelled>
    ensures { result ≡ ordered.changed place words.now behind.now }
{
    if is_plain(words) || !may_stand(place, words, behind) {
        None
    } else {
        spelled(is_block(place) && !none(Key::Static, words), type_of(words))
    }
}

/// A run begins.
fn begun(spelled: Option<Spelled>) -> Stand
    ensures { result ≡ ordered.begun spelled }
{
    match spelled {
        None => Stand::Kept,
        Some(spelled) => Stand::Spelled(spelled),
    }
}

/// What the first of these tokens, which is `token`, is in a run, behind a token that is that.
fn stand_of(
    before: Stand,
    places: &Places,
    token: &Lexeme,
    tokens: &[Lexeme],
    behind: &[Lexeme],
) -> Stand
    requires is_first { tokens.now ≡ token.now ∷ behind.now }
    ensures { result ≡ ordered.stand_of before places.now token.now behind.now }
{
    if !is_word(&token.form) {
        return Stand::Apart;
    }
    match before {
        Stand::Apart => {
            let (words, after) = cut(tokens);
            begun(changed(places.here(), words, after))
        }
        Stand::Kept => Stand::Kept,
        _ => Stand::Gone,
    }
}

/// Puts a keyword behind the others, as a token at this place. Want of memory is the only error.
pub fn put_key(at: u32, key: Key, out: &mut Items<Lexeme>) -> Result<(), AllocError>
    ensures { OnOk result (out.new ≡ out.old ++ ordered.key_at at key ∷ []) }
{
    out.push(Lexeme {
        offset: at,
        form: Form::Key(key),
    })
}

/// Puts keywords behind the others, as tokens at this place. Want of memory is the only error.
pub fn put_keys(at: u32, keys: &[Key], out: &mut Items<Lexeme>) -> Result<(), AllocError>
    ensures { OnOk result (out.new ≡ out.old ++ map (ordered.key_at at) keys.now) }
{
    let mut rest = keys;
    while let [key, more @ ..] = rest {
        put_key(at, *key, out)?;
        rest = more;
    }
    Ok(())
}

/// Puts what stands for a run. Want of memory is the only error.
fn put_spelled(at: u32, spelled: Spelled, out: &mut Items<Lexeme>) -> Result<(), AllocError>
    ensures { OnOk result (out.new ≡ out.old ++ map (ordered.key_at at) (ordered.keys spelled)) }
{
    if spelled.is_static {
        put_key(at, Key::Static, out)?;
    }
    put_keys(at, spelling(spelled.named), out)
}

/// Puts a token once more. Want of memory is the only error.
pub fn put_copy(alloc: Global, token: &Lexeme, out: &mut Items<Lexeme>) -> Result<(), AllocError>
    ensures { OnOk result (out.new ≡ out.old ++ token.now ∷ []) }
{
    out.push(token_copied(alloc, token)?)
}

/// Puts what stands for a token. Want of memory is the only error.
fn put(
    alloc: Global,
    stand: Stand,
    token: &Lexeme,
    out: &mut Items<Lexeme>,
) -> Result<(), AllocError>
    ensures { OnOk result (out.new ≡ out.old ++ ordered.stands_for stand token.now) }
{
    match stand {
        Stand::Spelled(spelled) => put_spelled(token.offset, spelled, out),
        Stand::Gone => Ok(()),
        _ => put_copy(alloc, token, out),
    }
}

/// The tokens of a unit, with the keywords of declarations in the order of the grammar. Want of memory is the only
/// error.
pub fn ordered(alloc: Global, tokens: &[Lexeme]) -> Result<Items<Lexeme>, AllocError>
    ensures ok { IfOk result (λ out. out ≡ ordered.ordered tokens.now) }
{
    let mut out = Items::new(alloc);
    let mut places = Places::new(alloc);
    let mut before = Stand::Apart;
    let mut rest = tokens;
    while let [token, more @ ..] = rest {
        let stand = stand_of(before, &places, token, rest, more);
        put(alloc, stand, token, &mut out)?;
        places.pass(&token.form)?;
        before = stand;
        rest = more;
    }
    Ok(out)
}
