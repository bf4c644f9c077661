//! String literals, put as tokens.

ghost use Rattle.std.specs.Prelude.{◌≡◌, IfOk};
ghost use Rattle.c_lex.specs.Strings.{string_name};
ghost use Rattle.c_tree.specs.Limits.{most_tokens};
ghost use Rattle.c_library.specs.Arrays as arrays;
ghost use Rattle.c_library.specs.Initialisers as initialisers;
ghost use Rattle.c_library.specs.Places.{tokens};
ghost use Rattle.c_library.specs.inside.Gives.{Gives};
ghost use Rattle.c_library.specs.inside.Puts.{put_all};

use crate::fault::LibraryFault;
use crate::output::Output;
use c_tree::{Form, Key, Kind, Mark, Word};
use std::alloc::{AllocError, Global};

/// The name of the literal with these values. Want of memory is the only error.
pub fn literal_name(alloc: Global, values: &[u8]) -> Result<Word, AllocError>
    ensures { IfOk result (λ name. name ≡ string_name values.now) }
{
    let mut name = Vec::from_slice(alloc, b"\"")?;
    name.extend_from_slice(values)?;
    Word::from_slice(alloc, &name)
}

/// The constant of type `int` that is this byte.
fn constant(byte: u8) -> Form
    ensures { result ≡ initialisers.value byte }
{
    Form::Number {
        value: u64::from(byte),
        kind: Kind::Int,
    }
}

/// Puts these values and the 0 that ends them, up to the brace.
fn put_listed(offset: u32, values: &[u8], out: &mut Output) -> Result<(), LibraryFault>
    ensures { Gives (put_all most_tokens (tokens offset (initialisers.listed values.now)) out.old) result out.new }
{
    let mut rest = values;
    while let [value, more @ ..] = rest {
        out.put(offset, constant(*value))?;
        out.put(offset, Form::Mark(Mark::Comma))?;
        rest = more;
    }
    out.put(offset, constant(0))?;
    out.put(offset, Form::Mark(Mark::RightBrace))
}

/// Puts the list in braces of a literal with these values.
pub fn put_braces(offset: u32, values: &[u8], out: &mut Output) -> Result<(), LibraryFault>
    ensures { Gives (put_all most_tokens (tokens offset (initialisers.braces values.now)) out.old) result out.new }
{
    out.put(offset, Form::Mark(Mark::LeftBrace))?;
    put_listed(offset, values, out)
}

/// Puts the tokens before the list in braces of an array.
fn put_declares(
    alloc: Global,
    offset: u32,
    values: &[u8],
    out: &mut Output,
) -> Result<(), LibraryFault>
    ensures { Gives (put_all most_tokens (tokens offset (arrays.declares values.now)) out.old) result out.new }
{
    let name = literal_name(alloc, values)?;
    out.put(offset, Form::Key(Key::Char))?;
    out.put(offset, Form::Name(name))?;
    out.put(offset, Form::Mark(Mark::LeftBracket))?;
    out.put(offset, Form::Mark(Mark::RightBracket))?;
    out.put(offset, Form::Mark(Mark::Assign))
}

/// Puts the definition of the array of a literal with these values.
#[tactic(auto, using(crate::proofs::Puts::both, crate::proofs::Puts::one))]
pub fn put_array(
    alloc: Global,
    offset: u32,
    values: &[u8],
    out: &mut Output,
) -> Result<(), LibraryFault>
    ensures { Gives (put_all most_tokens (arrays.array offset values.now) out.old) result out.new }
{
    put_declares(alloc, offset, values, out)?;
    put_braces(offset, values, out)?;
    out.put(offset, Form::Mark(Mark::Semicolon))
}
