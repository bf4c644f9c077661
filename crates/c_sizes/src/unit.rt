//! A unit in which constants stand for the sizes of its objects.

ghost use Rattle.std.specs.Prelude.{◌≡◌, ◌∷◌, true, IsTrue, Ok, IfOk, IfErr};
ghost use Rattle.c_tree.specs.Limits.{most_tokens};
ghost use Rattle.c_library.specs.Places.{tokens};
ghost use Rattle.c_library.specs.Within.{within};
ghost use Rattle.c_library.specs.inside.Gives.{Gives, Refuses};
ghost use Rattle.c_library.specs.inside.Puts.{put_all};
ghost use Rattle.c_sizes.specs.Sized as sized;
ghost use Rattle.c_sizes.specs.Walks as walks;

use crate::known::Known;
use crate::operand::{is_sizeof, told};
use crate::walk::Walk;
use base::Items;
use c_library::{LibraryFault, Output, form_copied};
use c_tree::{Form, Lexeme, MOST_TOKENS};
use std::alloc::{AllocError, Global};

/// Is no token `sizeof`?
fn has_no_sizeof(tokens: &[Lexeme]) -> bool
    ensures { result ≡ sized.is_sized tokens.now }
{
    let mut rest = tokens;
    while let [token, more @ ..] = rest {
        if is_sizeof(&token.form) {
            return false;
        }
        rest = more;
    }
    true
}

/// Is no token `sizeof`? Then the unit is its own.
pub fn is_sized(tokens: &[Lexeme]) -> bool
    ensures { IsTrue result → sized.is_sized tokens.now ≡ true }
{
    has_no_sizeof(tokens)
}

/// What stands for a token, before these, if it is a `sizeof` whose size is told, and how many tokens its operand
/// has. Want of memory is the only error.
fn size_at(
    alloc: Global,
    known: &Known,
    token: &Lexeme,
    behind: &[Lexeme],
) -> Result<(Items<Form>, usize), AllocError>
    ensures { IfOk result (λ size. size ≡ sized.size_at known.now token.now behind.now) }
{
    if is_sizeof(&token.form) {
        let (size, rest) = told(alloc, known, behind)?;
        Ok((size, behind.len().saturating_sub(rest.len())))
    } else {
        Ok((Items::new(alloc), 0))
    }
}

/// Puts these forms in place of a token, or the token if there are none.
fn put_for(
    alloc: Global,
    token: &Lexeme,
    size: &[Form],
    out: &mut Output,
) -> Result<(), LibraryFault>
    ensures { Gives (put_all most_tokens (sized.stands_for token.now size.now) out.old) result out.new }
{
    if size.is_empty() {
        out.put(token.offset, form_copied(alloc, &token.form)?)
    } else {
        out.put_all(alloc, token.offset, size)
    }
}

/// How many tokens are left out behind a token for which these forms stand, whose operand has so many.
fn left_out(size: &[Form], taken: usize) -> usize
    ensures { result ≡ sized.left_out (size.now, taken) }
{
    if size.is_empty() { 0 } else { taken }
}

/// Puts these forms, which stand for the first of these tokens, or that token if there are none, and gives how many of
/// those behind it are left out: the operand, which has so many.
#[tactic(auto, using(crate::proofs::SizedTurns::first_goes))]
fn put_told(
    alloc: Global,
    walk: &Walk,
    token: &Lexeme,
    behind: &[Lexeme],
    size: &[Form],
    taken: usize,
    out: &mut Output,
) -> Result<usize, LibraryFault>
    requires told { (size.now, taken) ≡ sized.size_at walk.now.known token.now behind.now }
    ensures goes { IfOk result (λ n.
        put_all most_tokens (sized.sized_from walk.now 0 (token.now ∷ behind.now)) out.old
        ≡ put_all most_tokens (sized.sized_from (walks.past token.now.form behind.now walk.now) n behind.now)
        out.new) }
    ensures fails { IfErr result (Refuses (put_all most_tokens
        (sized.sized_from walk.now 0 (token.now ∷ behind.now)) out.old)) }
{
    match put_for(alloc, token, size, out) {
        Ok(()) => Ok(left_out(size, taken)),
        Err(fault) => Err(fault),
    }
}

/// Puts what stands for the first of these tokens, and gives how many of those behind it are left out.
fn put_first(
    alloc: Global,
    walk: &Walk,
    token: &Lexeme,
    behind: &[Lexeme],
    out: &mut Output,
) -> Result<usize, LibraryFault>
    ensures goes { IfOk result (λ n.
        put_all most_tokens (sized.sized_from walk.now 0 (token.now ∷ behind.now)) out.old
        ≡ put_all most_tokens (sized.sized_from (walks.past token.now.form behind.now walk.now) n behind.now)
        out.new) }
    ensures fails { IfErr result (Refuses (put_all most_tokens
        (sized.sized_from walk.now 0 (token.now ∷ behind.now)) out.old)) }
{
    let (size, taken) = size_at(alloc, &walk.known, token, behind)?;
    put_told(alloc, walk, token, behind, size.as_slice(), taken, out)
}

/// Puts what stands for the first of these tokens, unless it is left out, and gives how many of those behind it are.
fn put_next(
    alloc: Global,
    walk: &Walk,
    skip: usize,
    token: &Lexeme,
    behind: &[Lexeme],
    out: &mut Output,
) -> Result<usize, LibraryFault>
    ensures goes { IfOk result (λ n.
        put_all most_tokens (sized.sized_from walk.now skip (token.now ∷ behind.now)) out.old
        ≡ put_all most_tokens (sized.sized_from (walks.past token.now.form behind.now walk.now) n behind.now)
        out.new) }
    ensures fails { IfErr result (Refuses (put_all most_tokens
        (sized.sized_from walk.now skip (token.now ∷ behind.now)) out.old)) }
{
    if skip == 0 {
        put_first(alloc, walk, token, behind, out)
    } else {
        Ok(skip - 1)
    }
}

/// Puts these tokens, with constants for the sizes of objects.
fn put_sized(alloc: Global, tokens: &[Lexeme], out: &mut Output) -> Result<(), LibraryFault>
    ensures { Gives (put_all most_tokens (sized.sized tokens.now) out.old) result out.new }
{
    let mut walk = Walk::new(alloc);
    let mut skip: usize = 0;
    let mut rest = tokens;
    while let [token, more @ ..] = rest {
        skip = put_next(alloc, &walk, skip, token, more, out)?;
        walk.pass(alloc, &token.form, more)?;
        rest = more;
    }
    Ok(())
}

/// The unit with constants for sizes, whatever it has.
fn sized_anew(alloc: Global, tokens: &[Lexeme]) -> Result<Vec<Lexeme>, LibraryFault>
    ensures ok { IfOk result (λ out. within most_tokens (sized.sized tokens.now) ≡ Ok out.items) }
    ensures err { IfErr result (Refuses (within most_tokens (sized.sized tokens.now))) }
{
    let mut out = Output::new(alloc);
    match put_sized(alloc, tokens, &mut out) {
        Ok(()) => Ok(out.into_vec()),
        Err(fault) => Err(fault),
    }
}

/// The tokens of a unit with constants for the sizes of its objects, or the first token that is too many.
///
/// A unit without `sizeof` is given back as it is.
pub fn sized(alloc: Global, tokens: Vec<Lexeme>) -> Result<Vec<Lexeme>, LibraryFault>
    ensures ok { IfOk result (λ out. within most_tokens (sized.sized tokens.items) ≡ Ok out.items) }
    ensures err { IfErr result (Refuses (within most_tokens (sized.sized tokens.items))) }
{
    if tokens.len() <= MOST_TOKENS && has_no_sizeof(&tokens) {
        return Ok(tokens);
    }
    sized_anew(alloc, &tokens)
}
