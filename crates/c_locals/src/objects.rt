//! Objects of blocks, for the grammar.

ghost use Rattle.std.specs.Prelude.{◌≡◌, ◌≤◌, ◌+◌, true, length, Ok, IsTrue, IfOk, IfErr};
ghost use Rattle.c_tree.specs.Limits.{most_tokens};
ghost use Rattle.c_library.specs.Within.{within};
ghost use Rattle.c_library.specs.inside.Gives.{Refuses};
ghost use Rattle.c_locals.specs.Objects as objects;

use crate::stages::is_static;
use crate::statics::with_statics;
use crate::values::with_values;
use crate::walk::{blocks_past, sets_list};
use c_library::LibraryFault;
use c_tree::{Form, Lexeme, MOST_TOKENS, Mark};
use std::alloc::Global;

/// Has a unit neither `static` nor a list in braces within braces?
pub fn has_no_objects(tokens: &[Lexeme]) -> bool
    ensures { result ≡ objects.has_no_objects tokens.now }
{
    let count = tokens.len();
    let mut blocks: usize = 0;
    let mut rest = tokens;
    while let [token, more @ ..] = rest {
        if is_static(&token.form) || sets_list(blocks, token, more) {
            return false;
        }
        blocks = blocks_past(blocks, &token.form);
        rest = more;
    }
    true
}

/// A unit whose static objects stand in front of their functions and whose local arrays are set element by element,
/// or the first token that is too many.
///
/// A unit that has neither is given back as it is.
#[tactic(auto, using(crate::proofs::ObjectFacts::objects_within))]
pub fn with_objects(alloc: Global, tokens: Vec<Lexeme>) -> Result<Vec<Lexeme>, LibraryFault>
    ensures ok { IfOk result (λ out. within most_tokens (objects.with_objects tokens.items) ≡ Ok out.items) }
    ensures err { IfErr result (Refuses (within most_tokens (objects.with_objects tokens.items))) }
{
    if tokens.len() <= MOST_TOKENS && has_no_objects(&tokens) {
        return Ok(tokens);
    }
    let unit = with_statics(alloc, &tokens)?;
    with_values(alloc, unit.as_slice())
}
