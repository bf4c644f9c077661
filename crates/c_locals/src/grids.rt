//! Arrays with two sizes and values, row by row.

ghost use Rattle.std.specs.Prelude.{◌≡◌, [], ◌∷◌, ◌++◌, option_map, IfOk};
ghost use Rattle.c_tree.specs.Limits.{most_tokens};
ghost use Rattle.c_library.specs.inside.Gives.{Gives};
ghost use Rattle.c_library.specs.inside.Puts.{put_all};
ghost use Rattle.c_locals.specs.Brackets as brackets;
ghost use Rattle.c_locals.specs.Declarators as declarators;
ghost use Rattle.c_locals.specs.Elements as elements;

use crate::brackets::first_piece;
use crate::elements::{is_just, put_filled, put_loop, put_zero_from};
use crate::parts::{braced, put_bracketed, put_width};
use crate::put::{number, put_mark, put_token, put_tokens};
use base::Items;
use c_library::{LibraryFault, Output, token_copied};
use c_tree::{Form, Lexeme, Mark, Word};
use std::alloc::{AllocError, Global};

/// The name with an index in brackets. Want of memory is the only error.
fn element_of(alloc: Global, name: &Lexeme, index: Form) -> Result<Items<Lexeme>, AllocError>
    ensures { IfOk result (λ of. of ≡ elements.element name.now.offset (name.now ∷ []) index) }
{
    let at = name.offset;
    let mut of = Items::new(alloc);
    of.push(token_copied(alloc, name)?)?;
    of.push(Lexeme {
        offset: at,
        form: Form::Mark(Mark::LeftBracket),
    })?;
    of.push(Lexeme {
        offset: at,
        form: index,
    })?;
    of.push(Lexeme {
        offset: at,
        form: Form::Mark(Mark::RightBracket),
    })?;
    Ok(of)
}

/// Is the piece nothing, behind a comma that is the last?
#[tactic(auto, using(crate::proofs::SplitFacts::no_end))]
fn ends(piece: &[Lexeme], further: Option<&[Lexeme]>) -> bool
    ensures { result ≡ declarators.ends piece.now
        (brackets.further_pieces (option_map (λ more. more.now) further.entry)) }
{
    match further {
        None => match piece {
            [] => true,
            [_, ..] => false,
        },
        Some(_) => false,
    }
}

/// How many rows a list has, if all are in braces.
pub fn rows(values: &[Lexeme]) -> Option<usize>
    ensures { result ≡ declarators.rows_from 0 (brackets.pieces values.now) }
{
    let size = values.len();
    let mut count: usize = 0;
    let mut rest = Some(values);
    while let Some(tokens) = rest {
        let (piece, further) = first_piece(tokens);
        if ends(piece, further) {
            return Some(count);
        }
        if braced(piece).is_none() {
            return None;
        }
        count += 1;
        rest = further;
    }
    Some(count)
}

/// Puts a row with this number.
fn put_row(
    alloc: Global,
    name: &Lexeme,
    width: &[Lexeme],
    k: usize,
    row: Option<&[Lexeme]>,
    out: &mut Output,
) -> Result<(), LibraryFault>
    ensures { Gives (put_all most_tokens (declarators.set_row name.now width.now k
        (option_map (λ v. v.now) row.entry)) out.old) result out.new }
{
    match row {
        None => Ok(()),
        Some(values) => {
            let of = element_of(alloc, name, number(k))?;
            put_filled(alloc, name.offset, of.as_slice(), width, values, out)
        }
    }
}

/// Puts the rows.
#[tactic(auto, using(crate::proofs::PutBehind::both))]
fn put_rows(
    alloc: Global,
    name: &Lexeme,
    width: &[Lexeme],
    values: &[Lexeme],
    out: &mut Output,
) -> Result<(), LibraryFault>
    ensures { Gives (put_all most_tokens (declarators.set_rows name.now width.now 0
        (brackets.pieces values.now)) out.old) result out.new }
{
    let size = values.len();
    let mut k: usize = 0;
    let mut rest = Some(values);
    while let Some(tokens) = rest {
        let (piece, further) = first_piece(tokens);
        put_row(alloc, name, width, k, braced(piece), out)?;
        k += 1;
        rest = further;
    }
    Ok(())
}

/// Puts what sets the row of the counter to 0.
fn put_zero_width(
    alloc: Global,
    name: &Lexeme,
    width: &[Lexeme],
    out: &mut Output,
) -> Result<(), LibraryFault>
    ensures { Gives (put_all most_tokens (declarators.zero_width name.now width.now) out.old) result out.new }
{
    let word = Word::from_slice(alloc, b".row")?;
    let of = element_of(alloc, name, Form::Name(word))?;
    put_zero_from(alloc, name.offset, of.as_slice(), 0, width, out)
}

/// Puts a loop over the rows from this number on that sets each to 0.
#[tactic(auto, using(crate::proofs::PutBehind::both))]
fn put_zero_row(
    alloc: Global,
    name: &Lexeme,
    width: &[Lexeme],
    k: usize,
    height: &[Lexeme],
    out: &mut Output,
) -> Result<(), LibraryFault>
    ensures { Gives (put_all most_tokens (declarators.zero_row name.now height.now width.now k) out.old)
        result out.new }
{
    put_loop(alloc, name.offset, b".row", k, height, out)?;
    put_zero_width(alloc, name, width, out)
}

/// Puts what sets the rows from this number on to 0.
fn put_zero_rows(
    alloc: Global,
    name: &Lexeme,
    height: &[Lexeme],
    width: &[Lexeme],
    k: usize,
    out: &mut Output,
) -> Result<(), LibraryFault>
    ensures { Gives (put_all most_tokens (declarators.zero_rows name.now height.now width.now k) out.old)
        result out.new }
{
    match height {
        [] => Ok(()),
        [_, ..] => {
            if is_just(k, height) {
                return Ok(());
            }
            put_zero_row(alloc, name, width, k, height, out)
        }
    }
}

/// Puts the declaration of an array with two sizes.
#[tactic(auto, using(crate::proofs::PutBehind::both))]
fn put_grid_type(
    alloc: Global,
    words: &[Lexeme],
    name: &Lexeme,
    height: &[Lexeme],
    width: &[Lexeme],
    k: usize,
    out: &mut Output,
) -> Result<(), LibraryFault>
    ensures { Gives (put_all most_tokens (declarators.plain words.now name.now
        (elements.bracketed name.now.offset (declarators.size_of name.now.offset height.now k)
        ++ elements.bracketed name.now.offset width.now)) out.old)
        result out.new }
{
    put_tokens(alloc, words, out)?;
    put_token(alloc, name, out)?;
    put_bracketed(alloc, name.offset, height, k, out)?;
    put_width(alloc, name.offset, width, out)?;
    put_mark(name.offset, Mark::Semicolon, out)
}

/// Puts an array with two sizes and so many rows.
#[tactic(auto, using(crate::proofs::PutBehind::both))]
pub fn put_grid(
    alloc: Global,
    words: &[Lexeme],
    name: &Lexeme,
    height: &[Lexeme],
    width: &[Lexeme],
    values: &[Lexeme],
    k: usize,
    out: &mut Output,
) -> Result<(), LibraryFault>
    ensures { Gives (put_all most_tokens (declarators.grid words.now name.now height.now width.now
        (brackets.pieces values.now) k) out.old) result out.new }
{
    put_grid_type(alloc, words, name, height, width, k, out)?;
    put_rows(alloc, name, width, values, out)?;
    put_zero_rows(alloc, name, height, width, k, out)
}
