//! Enumerations.

ghost use Rattle.std.specs.Prelude.{◌≡◌, List, [], option_map, IfOk};
ghost use Rattle.c_names.specs.Enums as enums;
ghost use Rattle.c_names.specs.Values as values;
ghost use Rattle.c_names.specs.inside.Takes.{taken, went_on, at_comma, past_token};
ghost use Rattle.c_tree.specs.declared.Lexeme.{Lexeme};

use crate::piece::Piece;
use crate::scope::{Scope, is_own, tag};
use crate::value::{Next, enumerator, first};
use crate::words::{begins, is_mark};
use base::Items;
use c_library::form_copied;
use c_tree::{Form, Key, Lexeme, Mark};
use std::alloc::{AllocError, Global};

/// The word `int`.
pub const INT: [Piece; 1] = [Piece::Word(Key::Int)];

/// Ends a list behind its last enumerator, and gives what follows it. Want of memory is the only error.
fn last<'a>(
    alloc: Global,
    scope: &mut Scope,
    next: &mut Next,
    forms: &[Form],
    behind: &'a [Lexeme],
) -> Result<Option<&'a [Lexeme]>, AllocError>
    ensures { IfOk result (λ rest. taken scope.new (option_map (λ ts. ts.now) rest)
        ≡ enums.last scope.old next.old forms.now behind.now) }
{
    if forms.is_empty() {
        return Ok(Some(behind));
    }
    if enumerator(alloc, scope, next, forms)? {
        Ok(Some(behind))
    } else {
        Ok(None)
    }
}

/// Ends an enumerator at its `,`, and tells whether it was one. Want of memory is the only error.
fn pass_comma(
    alloc: Global,
    scope: &mut Scope,
    next: &mut Next,
    forms: &mut Items<Form>,
) -> Result<bool, AllocError>
    ensures { IfOk result (λ went. (ts : List Lexeme) → went_on went (enums.listed scope.new next.new forms.new ts)
        ≡ at_comma scope.old next.old forms.old ts) }
{
    let went = enumerator(alloc, scope, next, forms.as_slice())?;
    *forms = Items::new(alloc);
    Ok(went)
}

/// Passes a token of a list that is not its `}`, and tells whether the list goes on. Want of memory is the only
/// error.
fn pass(
    alloc: Global,
    scope: &mut Scope,
    next: &mut Next,
    forms: &mut Items<Form>,
    token: &Lexeme,
) -> Result<bool, AllocError>
    ensures { IfOk result (λ went. (ts : List Lexeme) → went_on went (enums.listed scope.new next.new forms.new ts)
        ≡ past_token scope.old next.old forms.old token.now ts) }
{
    if is_mark(Mark::Comma, &token.form) {
        pass_comma(alloc, scope, next, forms)
    } else {
        forms.push(form_copied(alloc, &token.form)?)?;
        Ok(true)
    }
}

/// Declares the enumerators of a list, and gives what follows its `}`. Want of memory is the only error.
fn take_list<'a>(
    alloc: Global,
    scope: &mut Scope,
    tokens: &'a [Lexeme],
) -> Result<Option<&'a [Lexeme]>, AllocError>
    ensures { IfOk result (λ rest. taken scope.new (option_map (λ ts. ts.now) rest)
        ≡ enums.listed scope.old values.first [] tokens.now) }
{
    let mut next = first(alloc)?;
    let mut forms = Items::new(alloc);
    let mut rest = tokens;
    while let [token, more @ ..] = rest {
        if is_mark(Mark::RightBrace, &token.form) {
            return last(alloc, scope, &mut next, forms.as_slice(), more);
        }
        if !pass(alloc, scope, &mut next, &mut forms, token)? {
            return Ok(None);
        }
        rest = more;
    }
    Ok(None)
}

/// Declares the enumerators of a list that has at least one. Want of memory is the only error.
fn list_behind<'a>(
    alloc: Global,
    scope: &mut Scope,
    tokens: &'a [Lexeme],
) -> Result<Option<&'a [Lexeme]>, AllocError>
    ensures { IfOk result (λ rest. taken scope.new (option_map (λ ts. ts.now) rest)
        ≡ enums.list_behind scope.old tokens.now) }
{
    if begins(Mark::RightBrace, tokens) {
        Ok(None)
    } else {
        take_list(alloc, scope, tokens)
    }
}

/// Does the name of a tag stand for something?
pub fn is_known(scope: &Scope, form: &Form) -> bool
    ensures { result ≡ enums.is_known form.now scope.now }
{
    match form {
        Form::Name(name) => scope.look_up(name.as_slice()).is_some(),
        _ => false,
    }
}

/// A tag alone, which must be known: what follows it.
fn known<'a>(scope: &mut Scope, form: &Form, behind: &'a [Lexeme]) -> Option<&'a [Lexeme]>
    ensures { taken scope.new (option_map (λ ts. ts.now) result) ≡ enums.known form.now scope.old behind.now }
{
    if is_known(scope, form) {
        Some(behind)
    } else {
        None
    }
}

/// Declares a tag with a list, and gives what follows it. Want of memory is the only error.
fn tagged<'a>(
    alloc: Global,
    scope: &mut Scope,
    form: &Form,
    tokens: &'a [Lexeme],
) -> Result<Option<&'a [Lexeme]>, AllocError>
    ensures { IfOk result (λ rest. taken scope.new (option_map (λ ts. ts.now) rest)
        ≡ enums.tagged form.now scope.old tokens.now) }
{
    if scope.in_parens() || !scope.is_free(form) {
        return Ok(None);
    }
    scope.declare(alloc, form, &INT)?;
    list_behind(alloc, scope, tokens)
}

/// What follows a tag, with a list or without one. Want of memory is the only error.
fn tag_behind<'a>(
    alloc: Global,
    scope: &mut Scope,
    form: &Form,
    tokens: &'a [Lexeme],
) -> Result<Option<&'a [Lexeme]>, AllocError>
    ensures { IfOk result (λ rest. taken scope.new (option_map (λ ts. ts.now) rest)
        ≡ enums.tag_behind form.now scope.old tokens.now) }
{
    match tokens {
        [] => Ok(known(scope, form, tokens)),
        [brace, inner @ ..] => {
            if is_mark(Mark::LeftBrace, &brace.form) {
                tagged(alloc, scope, form, inner)
            } else {
                Ok(known(scope, form, tokens))
            }
        }
    }
}

/// What follows a name behind `enum`. Want of memory is the only error.
fn name_behind<'a>(
    alloc: Global,
    scope: &mut Scope,
    name: &[u8],
    tokens: &'a [Lexeme],
) -> Result<Option<&'a [Lexeme]>, AllocError>
    ensures { IfOk result (λ rest. taken scope.new (option_map (λ ts. ts.now) rest)
        ≡ enums.name_behind name.now scope.old tokens.now) }
{
    if is_own(name) {
        let form = tag(alloc, name)?;
        tag_behind(alloc, scope, &form, tokens)
    } else {
        Ok(None)
    }
}

/// What follows a brace behind `enum`. Want of memory is the only error.
fn brace_behind<'a>(
    alloc: Global,
    scope: &mut Scope,
    tokens: &'a [Lexeme],
) -> Result<Option<&'a [Lexeme]>, AllocError>
    ensures { IfOk result (λ rest. taken scope.new (option_map (λ ts. ts.now) rest)
        ≡ enums.brace_behind scope.old tokens.now) }
{
    if scope.in_parens() {
        Ok(None)
    } else {
        list_behind(alloc, scope, tokens)
    }
}

/// What follows an enumeration, behind `enum`. Want of memory is the only error.
pub fn enum_behind<'a>(
    alloc: Global,
    scope: &mut Scope,
    tokens: &'a [Lexeme],
) -> Result<Option<&'a [Lexeme]>, AllocError>
    ensures { IfOk result (λ rest. taken scope.new (option_map (λ ts. ts.now) rest)
        ≡ enums.enum_behind scope.old tokens.now) }
{
    match tokens {
        [] => Ok(None),
        [token, more @ ..] => match &token.form {
            Form::Name(name) => name_behind(alloc, scope, name.as_slice(), more),
            Form::Mark(Mark::LeftBrace) => brace_behind(alloc, scope, more),
            _ => Ok(None),
        },
    }
}
