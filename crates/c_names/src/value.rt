//! The values of enumeration constants.

ghost use Rattle.std.specs.Prelude.{◌≡◌, ◌++◌, [], not, option_map, IfOk, OnOk};
ghost use Rattle.c_tree.specs.declared.Kind.TheVariants.{Int};
ghost use Rattle.c_names.specs.Pieces as pieces;
ghost use Rattle.c_names.specs.Values as values;
ghost use Rattle.c_names.specs.inside.Takes.{bound_by};

use crate::piece::{Piece, add_all, is_type};
use crate::scope::Scope;
use base::Items;
use c_tree::{Form, Kind, Mark};
use std::alloc::{AllocError, Global};

/// A value said behind `=` has fewer pieces than that.
const MOST_PIECES: usize = 256;

/// The value of the next enumerator behind which nothing is said: a value, and how much more it is.
#[derive(Drop)]
pub struct Next {
    pub base: Items<Piece>,
    pub plus: u32,
}

/// Is it an operator of constant expressions, or a parenthesis?
fn is_operator(mark: Mark) -> bool
    ensures { result ≡ values.is_operator mark }
{
    match mark {
        Mark::LeftParen
        | Mark::RightParen
        | Mark::Question
        | Mark::Colon
        | Mark::Tilde
        | Mark::Not
        | Mark::Plus
        | Mark::Minus
        | Mark::Star
        | Mark::Slash
        | Mark::Percent
        | Mark::ShiftLeft
        | Mark::ShiftRight
        | Mark::Less
        | Mark::Greater
        | Mark::LessEqual
        | Mark::GreaterEqual
        | Mark::Equal
        | Mark::NotEqual
        | Mark::And
        | Mark::Xor
        | Mark::Or
        | Mark::AndAnd
        | Mark::OrOr => true,
        _ => false,
    }
}

/// The pieces of a name that stands for a value.
fn value_pieces<'a>(found: Option<&'a [Piece]>) -> &'a [Piece]
    ensures { result.now ≡ values.value_pieces (option_map (λ ps. ps.now) found.entry) }
{
    match found {
        Some(pieces) => { if is_type(pieces) { &[] } else { pieces } }
        None => &[],
    }
}

/// Adds a constant, and tells whether it is an int. Want of memory is the only error.
fn add_constant(all: &mut Items<Piece>, value: u64, kind: Kind) -> Result<bool, AllocError>
    ensures some { IfOk result (λ some. some ≡ not (pieces.none (values.constant_pieces value kind))) }
    ensures added { OnOk result (all.new ≡ all.old ++ values.constant_pieces value kind) }
{
    match kind {
        Kind::Int => {
            if value < 2_147_483_648 {
                all.push(Piece::Constant(value as u32))?;
                Ok(true)
            } else {
                Ok(false)
            }
        }
        _ => Ok(false),
    }
}

/// Adds an operator, and tells whether it is one. Want of memory is the only error.
fn add_operator(all: &mut Items<Piece>, mark: Mark) -> Result<bool, AllocError>
    ensures some { IfOk result (λ some. some ≡ not (pieces.none (values.operator_pieces mark))) }
    ensures added { OnOk result (all.new ≡ all.old ++ values.operator_pieces mark) }
{
    if is_operator(mark) {
        all.push(Piece::Sign(mark))?;
        Ok(true)
    } else {
        Ok(false)
    }
}

/// Adds the pieces that a token of a value is, and tells whether it may be one. Want of memory is the only error.
fn add_pieces(scope: &Scope, all: &mut Items<Piece>, form: &Form) -> Result<bool, AllocError>
    ensures some { IfOk result (λ some. some ≡ not (pieces.none (values.pieces_of scope.now form.now))) }
    ensures added { OnOk result (all.new ≡ all.old ++ values.pieces_of scope.now form.now) }
{
    match form {
        Form::Number { value, kind } => add_constant(all, *value, *kind),
        Form::Mark(mark) => add_operator(all, *mark),
        Form::Name(name) => add_all(all, value_pieces(scope.look_up(name.as_slice()))),
        _ => Ok(false),
    }
}

/// The pieces of a value; none where a token may be none of a value's. Want of memory is the only error.
fn value_of(alloc: Global, scope: &Scope, forms: &[Form]) -> Result<Items<Piece>, AllocError>
    ensures { IfOk result (λ ps. ps ≡ values.value_from scope.now [] forms.now) }
{
    let mut all = Items::new(alloc);
    let mut rest = forms;
    while let [form, more @ ..] = rest {
        if !add_pieces(scope, &mut all, form)? {
            return Ok(Items::new(alloc));
        }
        rest = more;
    }
    Ok(all)
}

/// The value of the first enumerator. Want of memory is the only error.
pub fn first(alloc: Global) -> Result<Next, AllocError>
    ensures { IfOk result (λ n. n ≡ values.first) }
{
    Ok(Next {
        base: Items::from_slice(alloc, &[Piece::Constant(0)])?,
        plus: 0,
    })
}

/// The pieces in parentheses. Want of memory is the only error.
fn enclosed(alloc: Global, all: &[Piece]) -> Result<Items<Piece>, AllocError>
    ensures { IfOk result (λ ps. ps ≡ values.enclosed all.now) }
{
    let mut out = Items::new(alloc);
    out.push(Piece::Sign(Mark::LeftParen))?;
    add_all(&mut out, all)?;
    out.push(Piece::Sign(Mark::RightParen))?;
    Ok(out)
}

/// The sum of a value that is no constant and a number. Want of memory is the only error.
fn long_sum(alloc: Global, base: &[Piece], plus: u32) -> Result<Items<Piece>, AllocError>
    ensures { IfOk result (λ ps. ps ≡ values.long_sum base.now plus) }
{
    let mut out = enclosed(alloc, base)?;
    if plus == 0 {
        return Ok(out);
    }
    out.push(Piece::Sign(Mark::Plus))?;
    out.push(Piece::Constant(plus))?;
    enclosed(alloc, out.as_slice())
}

/// A constant, if it is an int. Want of memory is the only error.
fn constant(alloc: Global, value: u64) -> Result<Items<Piece>, AllocError>
    ensures { IfOk result (λ ps. ps ≡ values.constant_pieces value Int) }
{
    let mut out = Items::new(alloc);
    add_constant(&mut out, value, Kind::Int)?;
    Ok(out)
}

/// The sum of a value and a number. Want of memory is the only error.
fn sum(alloc: Global, base: &[Piece], plus: u32) -> Result<Items<Piece>, AllocError>
    ensures { IfOk result (λ ps. ps ≡ values.sum base.now plus) }
{
    match base {
        [] => Ok(Items::new(alloc)),
        [Piece::Constant(value)] => constant(alloc, u64::from(*value) + u64::from(plus)),
        _ => long_sum(alloc, base, plus),
    }
}

/// The value in its pieces. Want of memory is the only error.
fn value(alloc: Global, next: &Next) -> Result<Items<Piece>, AllocError>
    ensures { IfOk result (λ ps. ps ≡ values.value next.now) }
{
    if next.plus < 2_147_483_648 && next.base.len() < MOST_PIECES {
        sum(alloc, next.base.as_slice(), next.plus)
    } else {
        Ok(Items::new(alloc))
    }
}

/// Declares an enumerator with the next value, if it may be declared, and tells whether it was. Want of memory is the
/// only error.
fn bind(alloc: Global, scope: &mut Scope, next: &mut Next, form: &Form) -> Result<bool, AllocError>
    ensures { IfOk result (λ went. bound_by went scope.new next.new ≡ values.bound form.now next.old scope.old) }
{
    let pieces = value(alloc, next)?;
    if scope.is_free(form) && !pieces.is_empty() {
        scope.declare(alloc, form, pieces.as_slice())?;
        next.plus = next.plus.saturating_add(1);
        Ok(true)
    } else {
        Ok(false)
    }
}

/// Declares an enumerator with the value that these tokens are. Want of memory is the only error.
fn bind_value(
    alloc: Global,
    scope: &mut Scope,
    next: &mut Next,
    form: &Form,
    forms: &[Form],
) -> Result<bool, AllocError>
    ensures { IfOk result (λ went. bound_by went scope.new next.new
        ≡ values.bound_value form.now forms.now scope.old) }
{
    *next = Next {
        base: value_of(alloc, scope, forms)?,
        plus: 0,
    };
    bind(alloc, scope, next, form)
}

/// Declares the enumerator of these tokens, and tells whether it is one. Want of memory is the only error.
pub fn enumerator(
    alloc: Global,
    scope: &mut Scope,
    next: &mut Next,
    forms: &[Form],
) -> Result<bool, AllocError>
    ensures { IfOk result (λ went. bound_by went scope.new next.new
        ≡ values.enumerator scope.old next.old forms.now) }
{
    match forms {
        [name] => bind(alloc, scope, next, name),
        [name, Form::Mark(Mark::Assign), more @ ..] => bind_value(alloc, scope, next, name, more),
        _ => Ok(false),
    }
}
