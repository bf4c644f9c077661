//! The operand of a `sizeof`, and what stands for both.

ghost use Rattle.std.specs.Prelude.{◌≡◌, ◌≤◌, length, option_map, IfOk};
ghost use Rattle.c_sizes.specs.Operands as operands;

use crate::behind::reach;
use crate::cut::{Rule, cut};
use crate::known::Known;
use crate::object::object;
use crate::outcome::size;
use crate::shape::add_copies;
use crate::value::value;
use crate::width::Width;
use base::Items;
use c_tree::{Form, Key, Lexeme};
use std::alloc::{AllocError, Global};

/// Is the token `sizeof`?
pub fn is_sizeof(form: &Form) -> bool
    ensures { result ≡ operands.is_sizeof form.now }
{
    match form {
        Form::Key(key) => *key == Key::Sizeof,
        _ => false,
    }
}

// VALUES

/// How many operators and groups may stand one in another in parentheses.
#[tactic(auto, unfolding(crate::specs::Operands::most_levels))]
fn most_levels() -> u8
    ensures { result ≡ operands.most_levels }
{
    64
}

/// Is it that of a cast?
fn is_cast(rule: Rule) -> bool
    ensures { result ≡ operands.is_cast rule }
{
    match rule {
        Rule::Cast(_) => true,
        _ => false,
    }
}

/// That of the operand that these tokens are.
fn whole(known: &Known, tokens: &[Lexeme]) -> Option<Width>
    ensures { result ≡ operands.whole known.now tokens.now }
{
    let (rule, _, _, _) = cut(tokens);
    if is_cast(rule) {
        None
    } else {
        size(value(known, most_levels(), tokens))
    }
}

/// A size with these tokens behind what has it, if it is known.
fn before(width: Option<Width>, behind: &[Lexeme]) -> Option<(Width, &[Lexeme])>
    ensures { option_map (λ p. (p.0, p.1.now)) result ≡ operands.before width behind.now }
{
    match width {
        None => None,
        Some(width) => Some((width, behind)),
    }
}

/// That of an operand of so many tokens that these begin with.
fn valued_by<'a>(known: &Known, count: usize, tokens: &'a [Lexeme]) -> Option<(Width, &'a [Lexeme])>
    requires within { count ≤ length tokens.now }
    ensures { option_map (λ p. (p.0, p.1.now)) result
        ≡ operands.valued_by known.now count tokens.now }
{
    let (operand, behind) = tokens.split_at(count);
    before(whole(known, operand), behind)
}

/// That of an operand with a value that these tokens begin with.
fn valued<'a>(known: &Known, tokens: &'a [Lexeme]) -> Option<(Width, &'a [Lexeme])>
    ensures { option_map (λ p. (p.0, p.1.now)) result ≡ operands.valued known.now tokens.now }
{
    valued_by(known, reach(tokens), tokens)
}

// OPERANDS

/// Copies of what stands for a size. Want of memory is the only error, here and below.
fn copied(alloc: Global, size: &[Form]) -> Result<Items<Form>, AllocError>
    ensures { IfOk result (λ fs. fs ≡ size.now) }
{
    let mut forms = Items::new(alloc);
    add_copies(alloc, size, &mut forms)?;
    Ok(forms)
}

/// What stands for the size of a value, and the tokens behind it.
fn by_value<'a>(
    alloc: Global,
    valued: Option<(Width, &'a [Lexeme])>,
) -> Result<(Items<Form>, &'a [Lexeme]), AllocError>
    ensures { IfOk result (λ t. (t.0, t.1.now)
        ≡ operands.by_value (option_map (λ p. (p.0, p.1.now)) valued.entry)) }
{
    match valued {
        None => Ok((Items::new(alloc), &[])),
        Some((width, behind)) => Ok((width.constant(alloc)?, behind)),
    }
}

/// What stands for the size of an operand that these tokens begin with, and the tokens behind it.
pub fn told<'a>(
    alloc: Global,
    known: &Known,
    tokens: &'a [Lexeme],
) -> Result<(Items<Form>, &'a [Lexeme]), AllocError>
    ensures { IfOk result (λ t. (t.0, t.1.now) ≡ operands.told known.now tokens.now) }
{
    let (size, behind) = object(known, tokens);
    match size {
        [] => by_value(alloc, valued(known, tokens)),
        _ => Ok((copied(alloc, size)?, behind)),
    }
}
