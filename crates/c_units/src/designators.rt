//! Lists of values with designators, as lists without.

ghost use Rattle.std.specs.Prelude.{◌≡◌, ◌++◌, option_map, IfOk, OnOk};
ghost use Rattle.c_locals.specs.Declarators as declarators;
ghost use Rattle.c_locals.specs.Elements.{marked};
ghost use Rattle.c_units.specs.Designators as designators;
ghost use Rattle.c_units.specs.Entries as entries;

use crate::entries::{Entry, are_good, count, elements, entries};
use crate::objects::{is_name, tokens_copied};
use base::Items;
use c_library::token_copied;
use c_locals::{is_mark, split};
use c_tree::{Form, Lexeme, Mark};
use std::alloc::{AllocError, Global};

/// A unit, as far as it is read, and how many tokens follow of a list that stands without designators.
#[derive(Drop)]
pub struct Reading {
    pub out: Items<Lexeme>,
    pub skip: usize,
}

// WHERE THEY STAND

/// Do tokens begin with a `[`?
fn begins_size(tokens: &[Lexeme]) -> bool
    ensures { result ≡ designators.begins_size tokens.now }
{
    match tokens {
        [] => false,
        [token, ..] => is_mark(Mark::LeftBracket, &token.form),
    }
}

/// With a `{` and a `[`?
fn begins_designated(tokens: &[Lexeme]) -> bool
    ensures { result ≡ designators.begins_designated tokens.now }
{
    match tokens {
        [] => false,
        [token, more @ ..] => is_mark(Mark::LeftBrace, &token.form) && begins_size(more),
    }
}

/// Does a designator stand behind the token?
pub fn designates(form: &Form, behind: &[Lexeme]) -> bool
    ensures { result ≡ designators.designates form.now behind.now }
{
    is_mark(Mark::Comma, form) && begins_size(behind)
        || is_mark(Mark::Assign, form) && begins_designated(behind)
}

/// Behind one of these?
fn has_designator(tokens: &[Lexeme]) -> bool
    ensures { result ≡ designators.has_designator tokens.now }
{
    let mut rest = tokens;
    while let [token, more @ ..] = rest {
        if designates(&token.form, more) {
            return true;
        }
        rest = more;
    }
    false
}

/// Stands one in what stands between the braces of a value?
fn is_designated(values: &[Lexeme]) -> bool
    ensures { result ≡ designators.is_designated values.now }
{
    begins_size(values) || has_designator(values)
}

// ONE LIST

/// Has a size, which may be a constant, room for so many values?
fn has_room(size: &Form, count: u64) -> bool
    ensures { result ≡ designators.has_room size.now count }
{
    match size {
        Form::Number { value, .. } => count <= *value,
        _ => true,
    }
}

/// Has a size, if it is one constant?
fn fits(size: &[Lexeme], count: u64) -> bool
    ensures { result ≡ designators.fits size.now count }
{
    match size {
        [token] => has_room(&token.form, count),
        _ => true,
    }
}

/// May a list stand without its designators?
fn may_stand(size: &[Lexeme], values: &[Lexeme], given: &[Entry]) -> bool
    ensures { result ≡ designators.may_stand size.now values.now given.now }
{
    is_designated(values) && are_good(given) && fits(size, count(given))
}

/// Puts a mark. Want of memory is the only error, here and below.
fn put(at: u32, mark: Mark, out: &mut Items<Lexeme>) -> Result<(), AllocError>
    ensures { OnOk result (out.new ≡ out.old ++ marked at mark) }
{
    out.push(Lexeme {
        offset: at,
        form: Form::Mark(mark),
    })
}

/// `[ SIZE ] = { VALUES }`
fn list(
    alloc: Global,
    at: u32,
    size: &[Lexeme],
    values: Items<Lexeme>,
) -> Result<Items<Lexeme>, AllocError>
    ensures { IfOk result (λ out. out ≡ designators.list at size.now values) }
{
    let mut out = Items::new(alloc);
    put(at, Mark::LeftBracket, &mut out)?;
    out.append(tokens_copied(alloc, size)?)?;
    put(at, Mark::RightBracket, &mut out)?;
    put(at, Mark::Assign, &mut out)?;
    put(at, Mark::LeftBrace, &mut out)?;
    out.append(values)?;
    put(at, Mark::RightBrace, &mut out)?;
    Ok(out)
}

/// What stands in brackets, and what behind them.
fn sized(tokens: &[Lexeme]) -> Option<(&[Lexeme], &[Lexeme])>
    ensures { option_map (λ p. (p.0.now, p.1.now)) result ≡ declarators.sized tokens.now }
{
    match tokens {
        [] => None,
        [token, more @ ..] => {
            if is_mark(Mark::LeftBracket, &token.form) {
                split(Mark::RightBracket, more)
            } else {
                None
            }
        }
    }
}

/// What stands in braces behind a `=`, and what behind these.
fn list_at(tokens: &[Lexeme]) -> Option<(&[Lexeme], &[Lexeme])>
    ensures { option_map (λ p. (p.0.now, p.1.now)) result ≡ designators.list_at tokens.now }
{
    match tokens {
        [assign, brace, more @ ..] => {
            if is_mark(Mark::Assign, &assign.form) && is_mark(Mark::LeftBrace, &brace.form) {
                split(Mark::RightBrace, more)
            } else {
                None
            }
        }
        _ => None,
    }
}

// THE UNIT

impl Reading {
    /// Before the first token. It takes no memory.
    fn beginning(alloc: Global) -> Reading
        ensures { result ≡ designators.beginning }
    {
        Reading {
            out: Items::new(alloc),
            skip: 0,
        }
    }

    /// Puts a token.
    fn to_out(&mut self, alloc: Global, token: &Lexeme) -> Result<(), AllocError>
        ensures { OnOk result (self.new ≡ designators.to_out token.now self.old) }
    {
        self.out.push(token_copied(alloc, token)?)
    }

    /// Puts an array of this name, of which so many tokens follow.
    fn put_list(
        &mut self,
        alloc: Global,
        name: &Lexeme,
        size: &[Lexeme],
        given: &[Entry],
        skip: usize,
    ) -> Result<(), AllocError>
        ensures { OnOk result (self.new ≡ designators.with_list name.now size.now given.now skip self.old) }
    {
        let values = elements(alloc, name.offset, given, count(given))?;
        let behind = list(alloc, name.offset, size, values)?;
        self.out.push(token_copied(alloc, name)?)?;
        self.out.append(behind)?;
        self.skip = skip;
        Ok(())
    }

    /// Puts one, or its name alone.
    fn list_if(
        &mut self,
        alloc: Global,
        name: &Lexeme,
        size: &[Lexeme],
        values: &[Lexeme],
        skip: usize,
    ) -> Result<(), AllocError>
        ensures { OnOk result (self.new
            ≡ designators.list_if name.now size.now values.now (entries.entries values.now) skip self.old) }
    {
        let given = entries(alloc, values)?;
        if may_stand(size, values, given.as_slice()) {
            self.put_list(alloc, name, size, given.as_slice(), skip)
        } else {
            self.to_out(alloc, name)
        }
    }

    /// Goes past the name of an array with this size, before its list, if that is one.
    fn list_by(
        &mut self,
        alloc: Global,
        name: &Lexeme,
        behind: &[Lexeme],
        size: &[Lexeme],
        parts: Option<(&[Lexeme], &[Lexeme])>,
    ) -> Result<(), AllocError>
        ensures { OnOk result (self.new ≡ designators.list_by name.now behind.now size.now
            (option_map (λ p. (p.0.now, p.1.now)) parts.entry) self.old) }
    {
        match parts {
            None => self.to_out(alloc, name),
            Some((values, rest)) => {
                let skip = behind.len().saturating_sub(rest.len());
                self.list_if(alloc, name, size, values, skip)
            }
        }
    }

    /// Goes past a name before its size, if that is one.
    fn size_by(
        &mut self,
        alloc: Global,
        name: &Lexeme,
        behind: &[Lexeme],
        parts: Option<(&[Lexeme], &[Lexeme])>,
    ) -> Result<(), AllocError>
        ensures { OnOk result (self.new ≡ designators.size_by name.now behind.now
            (option_map (λ p. (p.0.now, p.1.now)) parts.entry) self.old) }
    {
        match parts {
            None => self.to_out(alloc, name),
            Some((size, rest)) => self.list_by(alloc, name, behind, size, list_at(rest)),
        }
    }

    /// Goes past a token, before these.
    fn take(&mut self, alloc: Global, token: &Lexeme, behind: &[Lexeme]) -> Result<(), AllocError>
        ensures { OnOk result (self.new ≡ designators.taken self.old.skip token.now behind.now self.old) }
    {
        if self.skip != 0 {
            self.skip -= 1;
            Ok(())
        } else if is_name(&token.form) {
            self.size_by(alloc, token, behind, sized(behind))
        } else {
            self.to_out(alloc, token)
        }
    }
}

/// A unit no list of which has a designator, where it is the list of an array with one size.
pub fn plain(alloc: Global, tokens: &[Lexeme]) -> Result<Items<Lexeme>, AllocError>
    ensures { IfOk result (λ out. out ≡ designators.plain tokens.now) }
{
    let mut state = Reading::beginning(alloc);
    let mut rest = tokens;
    while let [token, more @ ..] = rest {
        state.take(alloc, token, more)?;
        rest = more;
    }
    let Reading { out, .. } = state;
    Ok(out)
}
