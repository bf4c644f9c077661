//! Local arrays with values, one declarator after another.

ghost use Rattle.std.specs.Prelude.{◌≡◌, [], ◌∷◌, ◌++◌, option_map, IfOk};
ghost use Rattle.c_tree.specs.declared.Mark.TheVariants.{Comma};
ghost use Rattle.c_tree.specs.Limits.{most_tokens};
ghost use Rattle.c_library.specs.inside.Gives.{Gives};
ghost use Rattle.c_library.specs.inside.Puts.{put_all};
ghost use Rattle.c_locals.specs.Brackets as brackets;
ghost use Rattle.c_locals.specs.Declarators as declarators;
ghost use Rattle.c_locals.specs.Elements as elements;

use crate::brackets::split;
use crate::elements::{count, put_filled};
use crate::grids::{put_grid, rows};
use crate::parts::{list_of, put_bracketed, sized};
use crate::put::{put_mark, put_token, put_tokens};
use base::Items;
use c_library::{LibraryFault, Output, token_copied};
use c_tree::{Lexeme, Mark};
use std::alloc::{AllocError, Global};

// ONE DECLARATOR

/// Puts a declarator as it is.
#[tactic(auto, using(crate::proofs::PutBehind::both))]
fn put_plain(
    alloc: Global,
    words: &[Lexeme],
    name: &Lexeme,
    behind: &[Lexeme],
    out: &mut Output,
) -> Result<(), LibraryFault>
    ensures { Gives (put_all most_tokens (declarators.plain words.now name.now behind.now) out.old)
        result out.new }
{
    put_tokens(alloc, words, out)?;
    put_token(alloc, name, out)?;
    put_tokens(alloc, behind, out)?;
    put_mark(name.offset, Mark::Semicolon, out)
}

/// Puts a scalar with this value.
#[tactic(auto, using(crate::proofs::PutBehind::both))]
fn put_scalar(
    alloc: Global,
    words: &[Lexeme],
    name: &Lexeme,
    value: &[Lexeme],
    out: &mut Output,
) -> Result<(), LibraryFault>
    ensures { Gives (put_all most_tokens (declarators.scalar words.now name.now value.now) out.old)
        result out.new }
{
    put_tokens(alloc, words, out)?;
    put_token(alloc, name, out)?;
    put_mark(name.offset, Mark::Assign, out)?;
    put_tokens(alloc, value, out)?;
    put_mark(name.offset, Mark::Semicolon, out)
}

/// Puts a scalar whose value stands in braces, if it is one value.
fn put_scalar_if(
    alloc: Global,
    words: &[Lexeme],
    name: &Lexeme,
    behind: &[Lexeme],
    value: &[Lexeme],
    out: &mut Output,
) -> Result<(), LibraryFault>
    ensures { Gives (put_all most_tokens (declarators.scalar_if words.now name.now behind.now value.now
        (brackets.split Comma value.now)) out.old) result out.new }
{
    match split(Mark::Comma, value) {
        None => put_scalar(alloc, words, name, value, out),
        Some((before, [])) => put_scalar(alloc, words, name, before, out),
        Some((_, [_, ..])) => put_plain(alloc, words, name, behind, out),
    }
}

/// Puts the declaration of an array.
#[tactic(auto, using(crate::proofs::PutBehind::both))]
fn put_array_type(
    alloc: Global,
    words: &[Lexeme],
    name: &Lexeme,
    size: &[Lexeme],
    n: usize,
    out: &mut Output,
) -> Result<(), LibraryFault>
    ensures { Gives (put_all most_tokens (declarators.plain words.now name.now
        (elements.bracketed name.now.offset (declarators.size_of name.now.offset size.now n))) out.old)
        result out.new }
{
    put_tokens(alloc, words, out)?;
    put_token(alloc, name, out)?;
    put_bracketed(alloc, name.offset, size, n, out)?;
    put_mark(name.offset, Mark::Semicolon, out)
}

/// Puts an array with these values.
#[tactic(auto, using(crate::proofs::PutBehind::both))]
fn put_array(
    alloc: Global,
    words: &[Lexeme],
    name: &Lexeme,
    size: &[Lexeme],
    values: &[Lexeme],
    out: &mut Output,
) -> Result<(), LibraryFault>
    ensures { Gives (put_all most_tokens (declarators.array words.now name.now size.now values.now) out.old)
        result out.new }
{
    put_array_type(alloc, words, name, size, count(values), out)?;
    let of = name_alone(alloc, name)?;
    put_filled(alloc, name.offset, of.as_slice(), size, values, out)
}

/// The name alone. Want of memory is the only error.
fn name_alone(alloc: Global, name: &Lexeme) -> Result<Items<Lexeme>, AllocError>
    ensures { IfOk result (λ of. of ≡ name.now ∷ []) }
{
    let mut of = Items::new(alloc);
    of.push(token_copied(alloc, name)?)?;
    Ok(of)
}

// WHICH OF THESE IT IS

/// Puts a declarator with two sizes.
fn put_grid_by(
    alloc: Global,
    words: &[Lexeme],
    name: &Lexeme,
    behind: &[Lexeme],
    sizes: (&[Lexeme], &[Lexeme]),
    list: Option<&[Lexeme]>,
    out: &mut Output,
) -> Result<(), LibraryFault>
    ensures { Gives (put_all most_tokens (declarators.grid_by words.now name.now behind.now sizes.entry.0.now
        sizes.entry.1.now (option_map (λ v. v.now) list.entry)) out.old) result out.new }
{
    match list {
        None => put_plain(alloc, words, name, behind, out),
        Some(values) => match rows(values) {
            None => put_plain(alloc, words, name, behind, out),
            Some(k) => put_grid(alloc, words, name, sizes.0, sizes.1, values, k, out),
        },
    }
}

/// Puts a declarator with one size and no values behind it.
fn put_second_by(
    alloc: Global,
    words: &[Lexeme],
    name: &Lexeme,
    behind: &[Lexeme],
    height: &[Lexeme],
    second: Option<(&[Lexeme], &[Lexeme])>,
    out: &mut Output,
) -> Result<(), LibraryFault>
    ensures { Gives (put_all most_tokens (declarators.second_by words.now name.now behind.now height.now
        (option_map (λ p. (p.0.now, p.1.now)) second.entry)) out.old) result out.new }
{
    match second {
        None => put_plain(alloc, words, name, behind, out),
        Some((width, more)) => {
            put_grid_by(
                alloc,
                words,
                name,
                behind,
                (height, width),
                list_of(more),
                out,
            )
        }
    }
}

/// Puts a declarator with one size.
fn put_first_by(
    alloc: Global,
    words: &[Lexeme],
    name: &Lexeme,
    behind: &[Lexeme],
    first: Option<(&[Lexeme], &[Lexeme])>,
    out: &mut Output,
) -> Result<(), LibraryFault>
    ensures { Gives (put_all most_tokens (declarators.first_by words.now name.now behind.now
        (option_map (λ p. (p.0.now, p.1.now)) first.entry)) out.old) result out.new }
{
    match first {
        None => put_plain(alloc, words, name, behind, out),
        Some((size, more)) => match list_of(more) {
            Some(values) => put_array(alloc, words, name, size, values, out),
            None => put_second_by(alloc, words, name, behind, size, sized(more), out),
        },
    }
}

/// Puts a declarator as a declaration of its own.
pub fn put_declared(
    alloc: Global,
    words: &[Lexeme],
    name: &Lexeme,
    behind: &[Lexeme],
    out: &mut Output,
) -> Result<(), LibraryFault>
    ensures { Gives (put_all most_tokens (declarators.declared words.now name.now behind.now) out.old)
        result out.new }
{
    match list_of(behind) {
        Some(value) => put_scalar_if(alloc, words, name, behind, value, out),
        None => put_first_by(alloc, words, name, behind, sized(behind), out),
    }
}
