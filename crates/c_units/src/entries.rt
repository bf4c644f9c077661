//! The values of a list with designators, each at its index.

ghost use Rattle.std.specs.Prelude.{◌≡◌, option_map, IfOk};
ghost use Rattle.c_locals.specs.Brackets as brackets;
ghost use Rattle.c_locals.specs.Declarators as declarators;
ghost use Rattle.c_units.specs.Entries as entries;

use crate::objects::tokens_copied;
use base::Items;
use c_locals::{first_piece, is_mark};
use c_tree::{Form, Kind, Lexeme, Mark};
use std::alloc::{AllocError, Global};

/// A value of a list, and the index of the element that it sets.
#[derive(Drop)]
pub struct Entry {
    pub at: u64,
    pub value: Items<Lexeme>,
}

// READING

/// Is it an index?
fn is_index(index: u64) -> bool
    ensures { result ≡ entries.is_index index }
{
    index < 4096
}

/// The next index.
fn next(index: u64) -> u64
    ensures { result ≡ entries.next index }
{
    if index < 4096 { index + 1 } else { index }
}

/// What is not understood. It takes no memory.
fn unknown(alloc: Global) -> Entry
    ensures { result ≡ entries.unknown }
{
    Entry {
        at: 0,
        value: Items::new(alloc),
    }
}

/// The value, at an index that is a constant. Want of memory is the only error, here and below.
fn numbered(alloc: Global, index: &Form, value: &[Lexeme]) -> Result<Entry, AllocError>
    ensures { IfOk result (λ e. e ≡ entries.numbered index.now value.now) }
{
    match index {
        Form::Number { value: at, .. } => {
            if is_index(*at) {
                Ok(Entry {
                    at: *at,
                    value: tokens_copied(alloc, value)?,
                })
            } else {
                Ok(unknown(alloc))
            }
        }
        _ => Ok(unknown(alloc)),
    }
}

/// What stands behind the bracket of a designator.
fn designated(alloc: Global, tokens: &[Lexeme]) -> Result<Entry, AllocError>
    ensures { IfOk result (λ e. e ≡ entries.designated tokens.now) }
{
    match tokens {
        [index, close, assign, value @ ..] => {
            if is_mark(Mark::RightBracket, &close.form) && is_mark(Mark::Assign, &assign.form) {
                numbered(alloc, &index.form, value)
            } else {
                Ok(unknown(alloc))
            }
        }
        _ => Ok(unknown(alloc)),
    }
}

/// A piece of a list, which sets the element of this index where it has no designator.
fn piece(alloc: Global, index: u64, tokens: &[Lexeme]) -> Result<Entry, AllocError>
    ensures { IfOk result (λ e. e ≡ entries.piece index tokens.now) }
{
    match tokens {
        [] => Ok(unknown(alloc)),
        [token, more @ ..] => {
            if is_mark(Mark::LeftBracket, &token.form) {
                designated(alloc, more)
            } else {
                Ok(Entry {
                    at: index,
                    value: tokens_copied(alloc, tokens)?,
                })
            }
        }
    }
}

/// Is the piece nothing, behind a comma that is the last?
#[tactic(auto, using(c_locals::proofs::SplitFacts::no_end))]
fn ends(piece: &[Lexeme], further: Option<&[Lexeme]>) -> bool
    ensures { result ≡ declarators.ends piece.now
        (brackets.further_pieces (option_map (λ more. more.now) further.entry)) }
{
    match further {
        None => match piece {
            [] => true,
            [_, ..] => false,
        },
        Some(_) => false,
    }
}

/// The values of a list.
pub fn entries(alloc: Global, values: &[Lexeme]) -> Result<Items<Entry>, AllocError>
    ensures { IfOk result (λ out. out ≡ entries.entries values.now) }
{
    let mut out = Items::new(alloc);
    let mut index: u64 = 0;
    let mut rest = Some(values);
    while let Some(tokens) = rest {
        let (first, further) = first_piece(tokens);
        if ends(first, further) {
            return Ok(out);
        }
        let value = piece(alloc, index, first)?;
        index = next(value.at);
        out.push(value)?;
        rest = further;
    }
    Ok(out)
}

// GOOD LISTS

/// Are they the value of one element?
fn is_value(tokens: &[Lexeme]) -> bool
    ensures { result ≡ entries.is_value tokens.now }
{
    match tokens {
        [] => false,
        [token, ..] => !is_mark(Mark::LeftBrace, &token.form),
    }
}

/// Is it a constant?
fn is_number(form: &Form) -> bool
    ensures { result ≡ entries.is_number form.now }
{
    match form {
        Form::Number { .. } => true,
        _ => false,
    }
}

/// Is it one and nothing else, which may go since it has no effect?
fn may_go(value: &[Lexeme]) -> bool
    ensures { result ≡ entries.may_go value.now }
{
    match value {
        [token] => is_number(&token.form),
        _ => false,
    }
}

/// Does one of these set the element?
fn is_set(index: u64, given: &[Entry]) -> bool
    ensures { result ≡ entries.is_set index given.now }
{
    let mut rest = given;
    while let [first, more @ ..] = rest {
        if first.at == index {
            return true;
        }
        rest = more;
    }
    false
}

/// Is a value good before these?
fn is_good(given: &Entry, behind: &[Entry]) -> bool
    ensures { result ≡ entries.is_good given.now behind.now }
{
    let value = given.value.as_slice();
    is_index(given.at) && is_value(value) && (may_go(value) || !is_set(given.at, behind))
}

/// Is each of these?
pub fn are_good(given: &[Entry]) -> bool
    ensures { result ≡ entries.are_good given.now }
{
    let mut rest = given;
    while let [first, more @ ..] = rest {
        if !is_good(first, more) {
            return false;
        }
        rest = more;
    }
    true
}

// ALL ELEMENTS

/// The larger of two numbers.
fn larger(a: u64, b: u64) -> u64
    ensures { result ≡ entries.larger a b }
{
    if a <= b { b } else { a }
}

/// How many elements these set.
pub fn count(given: &[Entry]) -> u64
    ensures { result ≡ entries.count_from 0 given.now }
{
    let mut most: u64 = 0;
    let mut rest = given;
    while let [first, more @ ..] = rest {
        most = larger(most, next(first.at));
        rest = more;
    }
    most
}

/// The last value of the element, or this one.
fn last_of<'a>(value: &'a [Lexeme], index: u64, given: &'a [Entry]) -> &'a [Lexeme]
    ensures { result.now ≡ entries.last_of value.now index given.now }
{
    let mut last = value;
    let mut rest = given;
    while let [first, more @ ..] = rest {
        if first.at == index {
            last = first.value.as_slice();
        }
        rest = more;
    }
    last
}

/// A zero at this place.
fn zero_at(alloc: Global, at: u32) -> Result<Items<Lexeme>, AllocError>
    ensures { IfOk result (λ out. out ≡ entries.zero_at at) }
{
    let mut out = Items::new(alloc);
    out.push(Lexeme {
        offset: at,
        form: Form::Number {
            value: 0,
            kind: Kind::Int,
        },
    })?;
    Ok(out)
}

/// What stands before a value.
fn comma_at(alloc: Global, at: u32, index: u64) -> Result<Items<Lexeme>, AllocError>
    ensures { IfOk result (λ out. out ≡ entries.comma_at at index) }
{
    let mut out = Items::new(alloc);
    if index == 0 {
        Ok(out)
    } else {
        out.push(Lexeme {
            offset: at,
            form: Form::Mark(Mark::Comma),
        })?;
        Ok(out)
    }
}

/// An element, with the comma.
fn element(alloc: Global, at: u32, given: &[Entry], index: u64) -> Result<Items<Lexeme>, AllocError>
    ensures { IfOk result (λ out. out ≡ entries.element at given.now index) }
{
    let zero = zero_at(alloc, at)?;
    let mut out = comma_at(alloc, at, index)?;
    out.append(tokens_copied(alloc, last_of(zero.as_slice(), index, given))?)?;
    Ok(out)
}

/// So many elements.
pub fn elements(
    alloc: Global,
    at: u32,
    given: &[Entry],
    size: u64,
) -> Result<Items<Lexeme>, AllocError>
    ensures { IfOk result (λ out. out ≡ entries.elements at given.now size) }
{
    let mut out = Items::new(alloc);
    for index in 0..size {
        out.append(element(alloc, at, given, index)?)?;
    }
    Ok(out)
}
