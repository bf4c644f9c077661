//! What a unit comes to behind its literals and its calls of the library.

ghost use Rattle.std.specs.Prelude.{◌≡◌, true, IsTrue, Ok, IfOk, IfErr};
ghost use Rattle.c_tree.specs.Limits.{most_tokens};
ghost use Rattle.c_library.specs.Literals as literals;
ghost use Rattle.c_library.specs.Prepared as prepared;
ghost use Rattle.c_library.specs.inside.Gives.{Refuses};

use crate::fault::LibraryFault;
use crate::joins::joined;
use crate::library::with_library;
use crate::mention::calls_none;
use crate::strings::with_strings;
use c_lex::string_of;
use c_tree::{Lexeme, MOST_TOKENS};
use std::alloc::Global;

/// Is none of the tokens a literal?
fn has_no_literal(tokens: &[Lexeme]) -> bool
    ensures { result ≡ literals.has_no_literal tokens.now }
{
    let mut rest = tokens;
    while let [token, more @ ..] = rest {
        if string_of(&token.form).is_some() {
            return false;
        }
        rest = more;
    }
    true
}

/// Are there no literals, and no calls of the library? It looks at names alone, so it may miss that there are none.
pub fn is_prepared(tokens: &[Lexeme]) -> bool
    ensures { IsTrue result → prepared.is_prepared tokens.now ≡ true }
{
    has_no_literal(tokens) && calls_none(tokens)
}

/// The tokens that a unit comes to behind its literals and its calls of the library, or its first fault.
///
/// A unit without these is given back as it is.
#[tactic(auto, using(crate::proofs::PreparedFacts::prepared_stays))]
pub fn prepared(alloc: Global, tokens: Vec<Lexeme>) -> Result<Vec<Lexeme>, LibraryFault>
    ensures ok { IfOk result (λ out. prepared.prepared most_tokens tokens.items ≡ Ok out.items) }
    ensures err { IfErr result (Refuses (prepared.prepared most_tokens tokens.items)) }
{
    if tokens.len() <= MOST_TOKENS && is_prepared(&tokens) {
        return Ok(tokens);
    }
    let joined = joined(alloc, &tokens)?;
    let unit = with_library(alloc, joined.into_vec())?;
    with_strings(alloc, &unit)
}
