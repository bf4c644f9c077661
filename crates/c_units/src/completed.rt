//! Declarations of arrays whose size is left out, with the size that another one has.

ghost use Rattle.std.specs.Prelude.{◌≡◌, [], option_map, is_some, IfOk};
ghost use Rattle.c_units.specs.Completed as sizes;
ghost use Rattle.c_units.specs.Objects as objects;

use crate::objects::{Declaration, tokens_copied};
use crate::same::same_tokens;
use base::Items;
use c_locals::{is_mark, split};
use c_tree::{Lexeme, Mark};
use std::alloc::{AllocError, Global};

/// Is it any token?
pub fn is_any(tokens: &[Lexeme]) -> bool
    ensures { result ≡ objects.is_any tokens.now }
{
    match tokens {
        [] => false,
        _ => true,
    }
}

impl Declaration {
    /// Has it a value?
    pub fn has_value(&self) -> bool
        ensures { result ≡ objects.has_value self.now }
    {
        is_any(self.value.as_slice())
    }
}

/// The tokens behind a `]` that stands first.
fn behind_end(tokens: &[Lexeme]) -> Option<&[Lexeme]>
    ensures { option_map (λ ts. ts.now) result ≡ sizes.behind_end tokens.now }
{
    match tokens {
        [] => None,
        [token, more @ ..] => {
            if is_mark(Mark::RightBracket, &token.form) {
                Some(more)
            } else {
                None
            }
        }
    }
}

/// Do tokens begin with a `]`?
fn begins_end(tokens: &[Lexeme]) -> bool
    ensures { result ≡ sizes.begins_end tokens.now }
{
    behind_end(tokens).is_some()
}

/// Is a size left out?
fn is_open(head: &[Lexeme]) -> bool
    ensures { result ≡ sizes.is_open head.now }
{
    let mut rest = head;
    while let [token, more @ ..] = rest {
        if is_mark(Mark::LeftBracket, &token.form) && begins_end(more) {
            return true;
        }
        rest = more;
    }
    false
}

/// Do these stand behind a `]`, and behind a size and its `]` too?
fn same_behind(behind: Option<&[Lexeme]>, parts: Option<(&[Lexeme], &[Lexeme])>) -> bool
    ensures { result ≡ sizes.same_behind (option_map (λ ts. ts.now) behind.entry)
        (option_map (λ p. (p.0.now, p.1.now)) parts.entry) }
{
    match (behind, parts) {
        (Some(tokens), Some((size, others))) => is_any(size) && same_tokens(tokens, others),
        _ => false,
    }
}

/// Are these one before the first `[`, and behind the first size, which the former leave out and the latter have?
fn same_but_size(
    given: Option<(&[Lexeme], &[Lexeme])>,
    parts: Option<(&[Lexeme], &[Lexeme])>,
) -> bool
    ensures { result ≡ sizes.same_but_size (option_map (λ p. (p.0.now, p.1.now)) given.entry)
        (option_map (λ p. (p.0.now, p.1.now)) parts.entry) }
{
    match (given, parts) {
        (Some((a, x)), Some((b, y))) => {
            same_tokens(a, b) && same_behind(behind_end(x), split(Mark::RightBracket, y))
        }
        _ => false,
    }
}

/// Are the type and the name of an object, with a size that is left out, completed by those?
fn is_completed(head: &[Lexeme], other: &[Lexeme]) -> bool
    ensures { result ≡ sizes.is_completed head.now other.now }
{
    same_but_size(
        split(Mark::LeftBracket, head),
        split(Mark::LeftBracket, other),
    )
}

/// What the first of these declarations that completes them has, or else they themselves.
fn whole_head<'a>(all: &'a [Declaration], head: &'a [Lexeme]) -> &'a [Lexeme]
    ensures { result.now ≡ sizes.whole_head all.now head.now }
{
    let mut rest = all;
    while let [first, more @ ..] = rest {
        if is_completed(head, first.head.as_slice()) {
            return first.head.as_slice();
        }
        rest = more;
    }
    head
}

/// A declaration with this head. Want of memory is the only error, here and below.
fn with_head(
    alloc: Global,
    declaration: &Declaration,
    head: &[Lexeme],
) -> Result<Declaration, AllocError>
    ensures { IfOk result (λ d. d ≡ record declaration.now { head = head.now }) }
{
    Ok(Declaration {
        external: declaration.external,
        at: declaration.at,
        head: tokens_copied(alloc, head)?,
        value: tokens_copied(alloc, declaration.value.as_slice())?,
        is_bared: declaration.is_bared,
    })
}

/// A declaration, with the size that it leaves out, if one of these has it.
fn with_size(
    alloc: Global,
    all: &[Declaration],
    declaration: &Declaration,
) -> Result<Declaration, AllocError>
    ensures { IfOk result (λ d. d ≡ sizes.completed all.now declaration.now) }
{
    let head = declaration.head.as_slice();
    if is_open(head) && !declaration.has_value() {
        with_head(alloc, declaration, whole_head(all, head))
    } else {
        declaration.copy(alloc)
    }
}

/// Each of these declarations so.
pub fn each_completed(
    alloc: Global,
    all: &[Declaration],
    declarations: &[Declaration],
) -> Result<Items<Declaration>, AllocError>
    ensures { IfOk result (λ out. out ≡ sizes.completed_from all.now [] declarations.now) }
{
    let mut out = Items::new(alloc);
    let mut rest = declarations;
    while let [first, more @ ..] = rest {
        out.push(with_size(alloc, all, first)?)?;
        rest = more;
    }
    Ok(out)
}
