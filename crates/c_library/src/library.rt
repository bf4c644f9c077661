//! The unit with the functions of the library that it calls.

ghost use Rattle.std.specs.Prelude.{◌≡◌, IfOk, IfErr, IsTrue, Ok};
ghost use Rattle.c_tree.specs.Limits.{most_tokens};
ghost use Rattle.c_library.specs.Calls as calls;
ghost use Rattle.c_library.specs.Library as library;
ghost use Rattle.c_library.specs.inside.Gives.{Refuses};

use crate::calls::owns;
use crate::definition::{Definition, add_formats, add_rows};
use crate::fault::LibraryFault;
use crate::mention::calls_none;
use crate::output::Output;
use crate::table::table;
use crate::walk::Walk;
use base::Items;
use c_tree::{Lexeme, MOST_TOKENS};
use std::alloc::Global;

/// The unit with the definitions of formats, and with those of functions.
#[tactic(auto, using(crate::proofs::Placed::placed_is))]
fn with_formats(
    alloc: Global,
    tokens: &[Lexeme],
    own: bool,
    formats: Items<Definition>,
) -> Result<Vec<Lexeme>, LibraryFault>
    requires own { own ≡ calls.owns calls.printf 0 tokens.now }
    ensures ok { IfOk result (λ ts. library.with_formats most_tokens tokens.now formats ≡ Ok ts.items) }
    ensures err { IfErr result (Refuses (library.with_formats most_tokens tokens.now formats)) }
{
    let mut all = formats;
    add_rows(alloc, tokens, table(), &mut all)?;
    let mut output = Output::new(alloc);
    output.put_unit(alloc, all.as_slice(), Walk::start(own), tokens)?;
    Ok(output.into_vec())
}

/// The tokens of a unit with the definitions that it needs, whatever it calls.
fn with_definitions(alloc: Global, tokens: &[Lexeme]) -> Result<Vec<Lexeme>, LibraryFault>
    ensures ok { IfOk result (λ ts. library.with_library most_tokens tokens.now ≡ Ok ts.items) }
    ensures err { IfErr result (Refuses (library.with_library most_tokens tokens.now)) }
{
    let own = owns(b"printf", tokens);
    let mut formats = Items::new(alloc);
    add_formats(alloc, Walk::start(own), tokens, &mut formats)?;
    with_formats(alloc, tokens, own, formats)
}

/// Has the unit surely its own tokens?
#[tactic(auto, using(crate::proofs::Unchanged::unit_stays))]
fn stays(tokens: &[Lexeme]) -> bool
    ensures { IsTrue result → library.with_library most_tokens tokens.now ≡ Ok tokens.now }
{
    tokens.len() <= MOST_TOKENS && calls_none(tokens)
}

/// The tokens of a unit with the definitions of the library that it needs, or the first fault.
///
/// A unit that calls no function of the library is given back as it is.
pub fn with_library(alloc: Global, tokens: Vec<Lexeme>) -> Result<Vec<Lexeme>, LibraryFault>
    ensures ok { IfOk result (λ ts. library.with_library most_tokens tokens.items ≡ Ok ts.items) }
    ensures err { IfErr result (Refuses (library.with_library most_tokens tokens.items)) }
{
    if stays(&tokens) {
        return Ok(tokens);
    }
    with_definitions(alloc, &tokens)
}
