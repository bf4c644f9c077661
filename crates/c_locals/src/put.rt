//! Tokens put behind others.

ghost use Rattle.std.specs.Prelude.{◌≡◌, [], ◌∷◌};
ghost use Rattle.c_tree.specs.Limits.{most_tokens};
ghost use Rattle.c_library.specs.Places.{tokens};
ghost use Rattle.c_library.specs.inside.Gives.{Gives};
ghost use Rattle.c_library.specs.inside.Puts.{put_all};
ghost use Rattle.c_locals.specs.Elements as elements;

use c_library::{LibraryFault, Output, form_copied};
use c_tree::{Form, Kind, Lexeme, Mark, Word};
use std::alloc::Global;

/// Puts a copy of a token.
#[tactic(auto, using(crate::proofs::PutBehind::one))]
pub fn put_token(alloc: Global, token: &Lexeme, out: &mut Output) -> Result<(), LibraryFault>
    ensures { Gives (put_all most_tokens (token.now ∷ []) out.old) result out.new }
{
    out.put(token.offset, form_copied(alloc, &token.form)?)
}

/// Puts copies of tokens.
pub fn put_tokens(alloc: Global, tokens: &[Lexeme], out: &mut Output) -> Result<(), LibraryFault>
    ensures { Gives (put_all most_tokens tokens.now out.old) result out.new }
{
    let mut rest = tokens;
    while let [token, more @ ..] = rest {
        out.put(token.offset, form_copied(alloc, &token.form)?)?;
        rest = more;
    }
    Ok(())
}

/// Puts a punctuator.
pub fn put_mark(at: u32, mark: Mark, out: &mut Output) -> Result<(), LibraryFault>
    ensures { Gives (put_all most_tokens (elements.marked at mark) out.old) result out.new }
{
    out.put(at, Form::Mark(mark))
}

/// A number of values as a constant of type int.
pub fn number(n: usize) -> Form
    ensures { result ≡ elements.number n }
{
    Form::Number {
        value: n as u64 % 2147483648,
        kind: Kind::Int,
    }
}

/// Puts a number of values.
pub fn put_number(at: u32, n: usize, out: &mut Output) -> Result<(), LibraryFault>
    ensures { Gives (put_all most_tokens (tokens at (elements.number n ∷ [])) out.old) result out.new }
{
    out.put(at, number(n))
}

/// Puts a name.
pub fn put_name(alloc: Global, at: u32, name: &[u8], out: &mut Output) -> Result<(), LibraryFault>
    ensures { Gives (put_all most_tokens (tokens at (elements.named name.now ∷ [])) out.old) result out.new }
{
    let word = Word::from_slice(alloc, name)?;
    out.put(at, Form::Name(word))
}
