//! String literals side by side.

ghost use Rattle.std.specs.Prelude.{◌≡◌, ◌≤◌, ◌∷◌, ◌++◌, length, IfOk};
ghost use Rattle.c_library.specs.Joined as joined;

use crate::copy::token_copied;
use crate::literal::literal_name;
use base::Items;
use c_lex::string_of;
use c_tree::{Form, Lexeme};
use std::alloc::{AllocError, Global};

/// Adds the values of the literals that stand first in `behind` to those of the one before them, at this place, and
/// gives what is left. Want of memory is the only error.
fn run<'a>(
    offset: u32,
    values: &mut Vec<u8>,
    behind: &'a [Lexeme],
) -> Result<&'a [Lexeme], AllocError>
    ensures joined { IfOk result (λ rest. joined.joined (joined.literal offset values.old.items ∷ behind.now)
        ≡ joined.literal offset values.new.items ∷ joined.joined rest.now) }
    ensures left { IfOk result (λ rest. length rest.now ≤ length behind.now) }
{
    let mut rest = behind;
    while let [token, more @ ..] = rest {
        match string_of(&token.form) {
            None => return Ok(rest),
            Some(further) => values.extend_from_slice(further)?,
        }
        rest = more;
    }
    Ok(rest)
}

/// Puts the literal with these values, and with those of the literals that stand first in `behind`, and gives what is
/// left. Want of memory is the only error.
fn put_run<'a>(
    alloc: Global,
    offset: u32,
    values: &[u8],
    behind: &'a [Lexeme],
    out: &mut Items<Lexeme>,
) -> Result<&'a [Lexeme], AllocError>
    ensures joined { IfOk result (λ rest. out.old ++ joined.joined (joined.literal offset values.now ∷ behind.now)
        ≡ out.new ++ joined.joined rest.now) }
    ensures left { IfOk result (λ rest. length rest.now ≤ length behind.now) }
{
    let mut values = Vec::from_slice(alloc, values)?;
    let rest = run(offset, &mut values, behind)?;
    let name = literal_name(alloc, &values)?;
    out.push(Lexeme {
        offset,
        form: Form::Name(name),
    })?;
    Ok(rest)
}

/// Puts the first token, with the literals that join it, and gives what is left. Want of memory is the only error.
fn put_first<'a>(
    alloc: Global,
    token: &Lexeme,
    behind: &'a [Lexeme],
    out: &mut Items<Lexeme>,
) -> Result<&'a [Lexeme], AllocError>
    ensures joined { IfOk result (λ rest. out.old ++ joined.joined (token.now ∷ behind.now)
        ≡ out.new ++ joined.joined rest.now) }
    ensures left { IfOk result (λ rest. length rest.now ≤ length behind.now) }
{
    match string_of(&token.form) {
        None => {
            out.push(token_copied(alloc, token)?)?;
            Ok(behind)
        }
        Some(values) => put_run(alloc, token.offset, values, behind, out),
    }
}

/// The tokens, where literals side by side are one. Want of memory is the only error.
pub fn joined(alloc: Global, tokens: &[Lexeme]) -> Result<Items<Lexeme>, AllocError>
    ensures { IfOk result (λ out. out ≡ joined.joined tokens.now) }
{
    let mut out = Items::new(alloc);
    let mut rest = tokens;
    while let [token, more @ ..] = rest {
        rest = put_first(alloc, token, more, &mut out)?;
    }
    Ok(out)
}
