//! The passes over the tokens behind directives.

ghost use Rattle.std.specs.Prelude.{◌≡◌, Ok, IfOk, IfErr};
ghost use Rattle.c_tree.specs.Limits.{most_tokens};
ghost use Rattle.c_library.specs.inside.Gives.{Refuses};
ghost use Rattle.c_pre.specs.Passes as passes;

use c_library::{LibraryFault, prepared};
use c_locals::with_objects;
use c_names::named;
use c_sizes::sized;
use c_tree::Lexeme;
use c_units::settled;
use c_words::worded;
use std::alloc::Global;

/// The tokens of the grammar that those behind directives come to, or the first fault of a pass. A pass that would
/// change nothing gives its tokens back as they are.
pub fn passed(alloc: Global, tokens: Vec<Lexeme>) -> Result<Vec<Lexeme>, LibraryFault>
    ensures ok { IfOk result (λ out. passes.passed most_tokens tokens.items ≡ Ok out.items) }
    ensures err { IfErr result (Refuses (passes.passed most_tokens tokens.items)) }
{
    let unit = named(alloc, tokens)?;
    let unit = worded(alloc, unit)?;
    let unit = prepared(alloc, unit)?;
    let unit = settled(alloc, unit)?;
    let unit = sized(alloc, unit)?;
    with_objects(alloc, unit)
}
