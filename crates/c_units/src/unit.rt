//! Units whose declarations are settled.

ghost use Rattle.std.specs.Prelude.{◌≡◌, Ok, IfOk, IfErr};
ghost use Rattle.c_tree.specs.Limits.{most_tokens};
ghost use Rattle.c_library.specs.Within.{within};
ghost use Rattle.c_library.specs.inside.Gives.{Refuses};
ghost use Rattle.c_units.specs.Settled as units;

use crate::designators::plain;
use crate::joined::joined;
use crate::raised::raised;
use crate::repeats::has_no_repeats;
use base::Items;
use c_library::LibraryFault;
use c_tree::{Lexeme, MOST_TOKENS};
use std::alloc::{AllocError, Global};

/// Is there nothing to settle in a unit? Want of memory is the only error.
pub fn is_settled(alloc: Global, tokens: &[Lexeme]) -> Result<bool, AllocError>
    ensures { IfOk result (λ b. b ≡ units.is_settled tokens.now) }
{
    has_no_repeats(alloc, tokens)
}

/// Tokens, if there are as few as there may be, or the first that is too many.
fn limited(tokens: Items<Lexeme>) -> Result<Vec<Lexeme>, LibraryFault>
    ensures ok { IfOk result (λ out. within most_tokens tokens ≡ Ok out.items) }
    ensures err { IfErr result (Refuses (within most_tokens tokens)) }
{
    match tokens.get(MOST_TOKENS) {
        None => Ok(tokens.into_vec()),
        Some(token) => Err(LibraryFault::TooManyTokens(token.offset)),
    }
}

/// The tokens of a unit whose declarations are settled. Want of memory is the only error.
fn unlimited(alloc: Global, tokens: Vec<Lexeme>) -> Result<Items<Lexeme>, AllocError>
    ensures { IfOk result (λ out. out ≡ units.settled tokens.items) }
{
    if is_settled(alloc, &tokens)? {
        Ok(Items::from_vec(tokens))
    } else {
        let unit = plain(alloc, &tokens)?;
        let unit = raised(alloc, unit.as_slice())?;
        joined(alloc, unit.as_slice())
    }
}

/// A unit whose declarations are settled: lists of values have no designators, prototypes stand outside of blocks, each
/// object there is declared once, and its value stands in braces only where the grammar has them; or the first token
/// that is too many.
///
/// A unit in which nothing is to settle is given back as it is.
pub fn settled(alloc: Global, tokens: Vec<Lexeme>) -> Result<Vec<Lexeme>, LibraryFault>
    ensures ok { IfOk result (λ out. within most_tokens (units.settled tokens.items) ≡ Ok out.items) }
    ensures err { IfErr result (Refuses (within most_tokens (units.settled tokens.items))) }
{
    let unit = unlimited(alloc, tokens)?;
    limited(unit)
}
