//! Parameters that are pointers are arrays.

ghost use Rattle.std.specs.Prelude.{◌≡◌, [], ◌∷◌, ◌++◌, option_map, IfOk, OnOk};
ghost use Rattle.c_words.specs.Pointers as pointers;

use crate::keys::is_word;
use crate::ordered::{is_mark, is_name, put_copy};
use crate::part::Part;
use crate::place::{Place, Places};
use base::Items;
use c_tree::{Form, Key, Lexeme, Mark};
use std::alloc::{AllocError, Global};

/// Is it a qualifier of a pointer?
fn is_qualifier(form: &Form) -> bool
    ensures { result ≡ pointers.is_qualifier form.now }
{
    match form {
        Form::Key(Key::Const | Key::Volatile | Key::Restrict) => true,
        _ => false,
    }
}

/// Do the tokens begin with `,` or `)`?
fn ends(tokens: &[Lexeme]) -> bool
    ensures { result ≡ pointers.ends tokens.now }
{
    match tokens {
        [] => false,
        [token, ..] => is_mark(Mark::Comma, &token.form) || is_mark(Mark::RightParen, &token.form),
    }
}

/// A parameter's name, or none, with its end behind it.
fn name_at(tokens: &[Lexeme]) -> Option<&[Lexeme]>
    ensures { option_map (λ ts. ts.now) result ≡ pointers.name_at tokens.now }
{
    match tokens {
        [] => None,
        [token, more @ ..] => {
            if is_name(&token.form) && ends(more) {
                Some(&tokens[..1])
            } else if ends(tokens) {
                Some(&[])
            } else {
                None
            }
        }
    }
}

/// That behind a `*` and its qualifiers.
fn pointed(tokens: &[Lexeme]) -> Option<&[Lexeme]>
    ensures { option_map (λ ts. ts.now) result ≡ pointers.pointed tokens.now }
{
    let mut rest = tokens;
    while let [token, more @ ..] = rest {
        if !is_qualifier(&token.form) {
            return name_at(rest);
        }
        rest = more;
    }
    None
}

/// Is there a name?
fn is_named(name: Option<&[Lexeme]>) -> bool
    ensures { result ≡ pointers.is_named (option_map (λ ts. ts.now) name.entry) }
{
    match name {
        Some([_, ..]) => true,
        _ => false,
    }
}

/// May a parameter of this name or none stand directly in these parentheses?
fn may_point(place: Place, name: Option<&[Lexeme]>) -> bool
    ensures { result ≡ pointers.may_point place (option_map (λ ts. ts.now) name.entry) }
{
    match place {
        Place::Parameters => true,
        Place::Header => is_named(name),
        _ => false,
    }
}

fn is_type(part: Part) -> bool
    ensures { result ≡ pointers.is_type part }
{
    match part {
        Part::Word => true,
        _ => false,
    }
}

/// The name of the parameter, if it has one, of which this token is the `*`.
fn pointer<'a>(
    before: Part,
    places: &Places,
    token: &Lexeme,
    behind: &'a [Lexeme],
) -> Option<&'a [Lexeme]>
    ensures { option_map (λ ts. ts.now) result ≡ pointers.pointer before places.now token.now behind.now }
{
    let name = pointed(behind);
    if is_type(before) && may_point(places.here(), name) && is_mark(Mark::Star, &token.form) {
        name
    } else {
        None
    }
}

/// What a token is, that begins a pointer of this name or none.
fn begins(name: Option<&[Lexeme]>, form: &Form) -> Part
    ensures { result ≡ pointers.begins (option_map (λ ts. ts.now) name.entry) form.now }
{
    match name {
        Some(_) => Part::Star,
        None => {
            if is_word(form) {
                Part::Word
            } else {
                Part::Apart
            }
        }
    }
}

/// What a token of a pointer is, behind its `*`.
fn up_to(form: &Form) -> Part
    ensures { result ≡ pointers.up_to form.now }
{
    if is_qualifier(form) {
        Part::Within
    } else if is_name(form) {
        Part::Name
    } else {
        Part::Apart
    }
}

/// What a token, before these, is in a parameter, behind a token that is that.
fn part_of(before: Part, places: &Places, token: &Lexeme, behind: &[Lexeme]) -> Part
    ensures { result ≡ pointers.part_of before places.now token.now behind.now }
{
    match before {
        Part::Star | Part::Within => up_to(&token.form),
        other => begins(pointer(other, places, token, behind), &token.form),
    }
}

/// Puts a punctuator behind the others, as a token at this place. Want of memory is the only error.
fn put_mark(at: u32, mark: Mark, out: &mut Items<Lexeme>) -> Result<(), AllocError>
    ensures { OnOk result (out.new ≡ out.old ++ pointers.mark_at at mark ∷ []) }
{
    out.push(Lexeme {
        offset: at,
        form: Form::Mark(mark),
    })
}

/// Puts tokens once more. Want of memory is the only error.
fn put_copies(alloc: Global, tokens: &[Lexeme], out: &mut Items<Lexeme>) -> Result<(), AllocError>
    ensures { OnOk result (out.new ≡ out.old ++ tokens.now) }
{
    let mut rest = tokens;
    while let [token, more @ ..] = rest {
        put_copy(alloc, token, out)?;
        rest = more;
    }
    Ok(())
}

/// Puts the array that stands for a pointer of this name. Want of memory is the only error.
fn put_array(
    alloc: Global,
    name: Option<&[Lexeme]>,
    token: &Lexeme,
    out: &mut Items<Lexeme>,
) -> Result<(), AllocError>
    ensures { OnOk result (out.new ≡ out.old ++ pointers.array_of (option_map (λ ts. ts.now) name.entry) token.now) }
{
    match name {
        None => put_copy(alloc, token, out),
        Some(name) => {
            put_copies(alloc, name, out)?;
            put_mark(token.offset, Mark::LeftBracket, out)?;
            put_mark(token.offset, Mark::RightBracket, out)
        }
    }
}

/// Puts what stands for a token, before these. Want of memory is the only error.
fn put(
    alloc: Global,
    part: Part,
    token: &Lexeme,
    behind: &[Lexeme],
    out: &mut Items<Lexeme>,
) -> Result<(), AllocError>
    ensures { OnOk result (out.new ≡ out.old ++ pointers.stands_for part token.now behind.now) }
{
    match part {
        Part::Star => put_array(alloc, pointed(behind), token, out),
        Part::Within | Part::Name => Ok(()),
        _ => put_copy(alloc, token, out),
    }
}

/// The tokens of a unit, with arrays for the parameters that are pointers. Want of memory is the only error.
pub fn without_pointers(alloc: Global, tokens: &[Lexeme]) -> Result<Items<Lexeme>, AllocError>
    ensures ok { IfOk result (λ out. out ≡ pointers.without_pointers tokens.now) }
{
    let mut out = Items::new(alloc);
    let mut places = Places::new(alloc);
    let mut before = Part::Apart;
    let mut rest = tokens;
    while let [token, more @ ..] = rest {
        let part = part_of(before, &places, token, more);
        put(alloc, part, token, more, &mut out)?;
        places.pass(&token.form)?;
        before = part;
        rest = more;
    }
    Ok(out)
}
