//! Declarations of names of types.

ghost use Rattle.std.specs.Prelude.{◌≡◌, ◌≤◌, [], ◌∷◌, List, length, option_map, IfOk};
ghost use Rattle.c_names.specs.declared.scope.Entry.{Entry};
ghost use Rattle.c_names.specs.Enums as enums;
ghost use Rattle.c_names.specs.Words as words;
ghost use Rattle.c_names.specs.inside.Separated.{names_end, marks_from};
ghost use Rattle.c_names.specs.inside.Takes.{taken};

use crate::enums::{INT, enum_behind, is_known};
use crate::piece::Piece;
use crate::scope::{Scope, is_own, tag};
use crate::words::{is_mark, is_same, size_of, take_words};
use base::Items;
use c_tree::{Form, Key, Lexeme, Mark};
use std::alloc::{AllocError, Global};

/// May the name be declared for these words?
fn may_name(scope: &Scope, words: &[Piece], form: &Form) -> bool
    ensures { result ≡ enums.may_name form.now words.now scope.now }
{
    match form {
        Form::Name(name) => {
            is_own(name.as_slice())
                && (!scope.is_here(name.as_slice())
                    || is_same(words, scope.look_up(name.as_slice())))
        }
        _ => false,
    }
}

/// Declares a name before these tokens, and gives them; none where it may not be declared. Want of memory is the only
/// error.
#[tactic(auto, using(crate::proofs::Separated::declared_is, crate::proofs::Separated::not_free))]
fn declare_before<'a>(
    alloc: Global,
    scope: &mut Scope,
    words: &[Piece],
    name: &Lexeme,
    behind: &'a [Lexeme],
) -> Result<&'a [Lexeme], AllocError>
    ensures value { IfOk result (λ rest. marks_from scope.new words.now rest.now
        ≡ enums.names_from scope.old words.now (name.now ∷ behind.now)) }
    ensures left { IfOk result (λ rest. length rest.now ≤ length behind.now) }
{
    if !may_name(scope, words, &name.form) {
        return Ok(&[]);
    }
    scope.declare(alloc, &name.form, words)?;
    Ok(behind)
}

/// Declares the name that stands first, and gives what follows it; nothing where it may not be declared. Want of
/// memory is the only error.
fn past_name<'a>(
    alloc: Global,
    scope: &mut Scope,
    words: &[Piece],
    tokens: &'a [Lexeme],
) -> Result<&'a [Lexeme], AllocError>
    ensures value { IfOk result (λ rest. marks_from scope.new words.now rest.now
        ≡ enums.names_from scope.old words.now tokens.now) }
    ensures left { IfOk result (λ rest. length rest.now ≤ length tokens.now) }
{
    match tokens {
        [] => Ok(tokens),
        [name, behind @ ..] => declare_before(alloc, scope, words, name, behind),
    }
}

/// What follows the last name, if a `;` ends it.
fn ended<'a>(form: &Form, behind: &'a [Lexeme]) -> Option<&'a [Lexeme]>
    ensures { (es : List Entry) → taken es (option_map (λ ts. ts.now) result) ≡ names_end es form.now behind.now }
{
    if is_mark(Mark::Semicolon, form) {
        Some(behind)
    } else {
        None
    }
}

/// Declares names as ones that stand for these words, and gives what follows the `;`. Want of memory is the only
/// error.
fn take_names<'a>(
    alloc: Global,
    scope: &mut Scope,
    words: &[Piece],
    tokens: &'a [Lexeme],
) -> Result<Option<&'a [Lexeme]>, AllocError>
    ensures { IfOk result (λ rest. taken scope.new (option_map (λ ts. ts.now) rest)
        ≡ enums.names_from scope.old words.now tokens.now) }
{
    let mut rest = past_name(alloc, scope, words, tokens)?;
    while let [mark, more @ ..] = rest {
        if !is_mark(Mark::Comma, &mark.form) {
            return Ok(ended(&mark.form, more));
        }
        rest = past_name(alloc, scope, words, more)?;
    }
    Ok(None)
}

/// What follows a declaration of names of types by words. Want of memory is the only error.
fn words_behind<'a>(
    alloc: Global,
    scope: &mut Scope,
    tokens: &'a [Lexeme],
) -> Result<Option<&'a [Lexeme]>, AllocError>
    ensures { IfOk result (λ rest. taken scope.new (option_map (λ ts. ts.now) rest)
        ≡ enums.words_behind scope.old tokens.now) }
{
    let mut words = Items::new(alloc);
    let rest = take_words(scope, &mut words, tokens)?;
    if size_of(words.as_slice()).is_some() {
        take_names(alloc, scope, words.as_slice(), rest)
    } else {
        Ok(None)
    }
}

/// What follows a declaration of names of an enumeration. Want of memory is the only error.
fn enum_named<'a>(
    alloc: Global,
    scope: &mut Scope,
    tokens: &'a [Lexeme],
) -> Result<Option<&'a [Lexeme]>, AllocError>
    ensures { IfOk result (λ rest. taken scope.new (option_map (λ ts. ts.now) rest)
        ≡ enums.enum_named scope.old tokens.now) }
{
    match enum_behind(alloc, scope, tokens)? {
        Some(rest) => take_names(alloc, scope, &INT, rest),
        None => Ok(None),
    }
}

/// Is it the keyword `enum`?
fn is_enum(form: &Form) -> bool
    ensures { result ≡ enums.is_enum form.now }
{
    match form {
        Form::Key(Key::Enum) => true,
        _ => false,
    }
}

/// The bytes of an enumeration of this tag, if it is known. Want of memory is the only error.
fn tag_size(alloc: Global, scope: &Scope, form: &Form) -> Result<Option<u64>, AllocError>
    ensures { IfOk result (λ size. size ≡ enums.tag_size form.now scope.now) }
{
    match form {
        Form::Name(name) => {
            if is_own(name.as_slice()) && is_known(scope, &tag(alloc, name.as_slice())?) {
                Ok(Some(4))
            } else {
                Ok(None)
            }
        }
        _ => Ok(None),
    }
}

/// The bytes of an enumeration, behind `enum`, and the tokens behind its tag. Want of memory is the only error.
fn enum_from<'a>(
    alloc: Global,
    scope: &Scope,
    tokens: &'a [Lexeme],
) -> Result<(Option<u64>, &'a [Lexeme]), AllocError>
    ensures { IfOk result (λ found. (found.0, found.1.now) ≡ enums.enum_from scope.now tokens.now) }
{
    match tokens {
        [] => Ok((None, tokens)),
        [token, more @ ..] => Ok((tag_size(alloc, scope, &token.form)?, more)),
    }
}

/// The bytes of the type that words say, and what follows them. Want of memory is the only error.
fn words_type<'a>(
    alloc: Global,
    scope: &Scope,
    tokens: &'a [Lexeme],
) -> Result<(Option<u64>, &'a [Lexeme]), AllocError>
    ensures { IfOk result (λ found. (found.0, found.1.now)
        ≡ enums.words_type (words.words_from scope.now [] tokens.now)) }
{
    let mut all = Items::new(alloc);
    let rest = take_words(scope, &mut all, tokens)?;
    Ok((size_of(all.as_slice()), rest))
}

/// The bytes of the type that stands first, if one does, and what follows it. Want of memory is the only error.
pub fn type_from<'a>(
    alloc: Global,
    scope: &Scope,
    tokens: &'a [Lexeme],
) -> Result<(Option<u64>, &'a [Lexeme]), AllocError>
    ensures { IfOk result (λ found. (found.0, found.1.now) ≡ enums.type_from scope.now tokens.now) }
{
    match tokens {
        [] => Ok((None, tokens)),
        [token, more @ ..] => {
            if is_enum(&token.form) {
                enum_from(alloc, scope, more)
            } else {
                words_type(alloc, scope, tokens)
            }
        }
    }
}

/// What follows a declaration of names of types, behind `typedef`. Want of memory is the only error.
pub fn typedef_behind<'a>(
    alloc: Global,
    scope: &mut Scope,
    tokens: &'a [Lexeme],
) -> Result<Option<&'a [Lexeme]>, AllocError>
    ensures { IfOk result (λ rest. taken scope.new (option_map (λ ts. ts.now) rest)
        ≡ enums.typedef_behind scope.old tokens.now) }
{
    match tokens {
        [] => Ok(None),
        [token, more @ ..] => {
            if is_enum(&token.form) {
                enum_named(alloc, scope, more)
            } else {
                words_behind(alloc, scope, tokens)
            }
        }
    }
}
