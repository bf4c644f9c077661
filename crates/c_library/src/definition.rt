//! The definitions that a unit needs.

ghost use Rattle.std.specs.Prelude.{◌≡◌, map, Ok};
ghost use Rattle.c_library.specs.Definitions as definitions;
ghost use Rattle.c_library.specs.Walks as walks;
ghost use Rattle.c_library.specs.inside.Gives.{Gives};

use crate::calls::{behind, calls, format_of, is_name, owns};
use crate::fault::LibraryFault;
use crate::format::{printf_definition, printf_name};
use crate::header::{Header, same_name};
use crate::spelled::forms_of;
use crate::walk::Walk;
use base::Items;
use c_tree::{Form, Lexeme, Word};
use std::alloc::Global;

/// A definition: its name, the header behind which it stands, and its tokens.
#[derive(Debug, Drop)]
pub struct Definition {
    pub name: Word,
    pub header: Header,
    pub forms: Items<Form>,
}

/// A name, the header that has it, and the text of its definition.
pub type TableRow = (&'static [u8], Header, &'static [u8]);

/// Is this name defined?
fn is_defined(name: &[u8], all: &[Definition]) -> bool
    ensures { result ≡ definitions.is_defined name.now all.now }
{
    let mut rest = all;
    while let [definition, more @ ..] = rest {
        if same_name(definition.name.as_slice(), name) {
            return true;
        }
        rest = more;
    }
    false
}

/// Adds the definition of a format, if it is one.
fn add_forms(
    at: u32,
    name: Word,
    forms: Option<Items<Form>>,
    all: &mut Items<Definition>,
) -> Result<(), LibraryFault>
    ensures { Gives (definitions.with_forms at name forms all.old) result all.new }
{
    match forms {
        None => Err(LibraryFault::Format(at)),
        Some(forms) => {
            all.push(Definition {
                name,
                header: Header::Stdio,
                forms,
            })?;
            Ok(())
        }
    }
}

/// Adds the definition of a format, unless it is there.
fn add_format(
    alloc: Global,
    at: u32,
    format: &[u8],
    all: &mut Items<Definition>,
) -> Result<(), LibraryFault>
    ensures { Gives (definitions.with_format at format.now all.old) result all.new }
{
    let name = printf_name(alloc, format)?;
    if is_defined(name.as_slice(), all.as_slice()) {
        return Ok(());
    }
    add_forms(at, name, printf_definition(alloc, format)?, all)
}

/// Adds the definition of the format of a call.
fn add_call(
    alloc: Global,
    walk: &Walk,
    token: &Lexeme,
    rest: &[Lexeme],
    all: &mut Items<Definition>,
) -> Result<(), LibraryFault>
    ensures { Gives (definitions.with_call (walks.call walk.now token.now rest.now) all.old) result all.new }
{
    match walk.call(token, rest) {
        None => Ok(()),
        Some((at, values)) => {
            let format = format_of(alloc, values)?;
            add_format(alloc, at, format.as_slice(), all)
        }
    }
}

/// Adds the definition of each format by which these tokens print.
pub fn add_formats(
    alloc: Global,
    walk: Walk,
    tokens: &[Lexeme],
    all: &mut Items<Definition>,
) -> Result<(), LibraryFault>
    ensures { Gives (definitions.formats walk tokens.now all.old) result all.new }
{
    let mut walk = walk;
    let mut rest = tokens;
    while let [token, more @ ..] = rest {
        add_call(alloc, &walk, token, more, all)?;
        walk = walk.past(token, more);
        rest = more;
    }
    Ok(())
}

/// Does the unit call this function of the library, and have none of its own?
fn is_called(tokens: &[Lexeme], entry: &TableRow) -> bool
    ensures { result ≡ definitions.is_called tokens.now
        (entry.now.0.now, entry.now.1, entry.now.2.now) }
{
    calls(entry.0, behind(entry.1, tokens)) && !owns(entry.0, tokens)
}

/// Is the name one of the forms?
fn names(name: &[u8], forms: &[Form]) -> bool
    ensures { result ≡ definitions.names name.now forms.now }
{
    let mut rest = forms;
    while let [form, more @ ..] = rest {
        if is_name(name, form) {
            return true;
        }
        rest = more;
    }
    false
}

/// Does a definition name it?
fn is_named(name: &[u8], all: &[Definition]) -> bool
    ensures { result ≡ definitions.is_named name.now all.now }
{
    let mut rest = all;
    while let [definition, more @ ..] = rest {
        if names(name, definition.forms.as_slice()) {
            return true;
        }
        rest = more;
    }
    false
}

/// Adds the definition of a row, if it is needed.
fn add_row(
    alloc: Global,
    tokens: &[Lexeme],
    entry: &TableRow,
    all: &mut Items<Definition>,
) -> Result<(), LibraryFault>
    ensures { Gives (Ok (definitions.with_row tokens.now (entry.now.0.now, entry.now.1, entry.now.2.now) all.old))
        result all.new }
{
    if is_called(tokens, entry) || is_named(entry.0, all.as_slice()) {
        all.push(Definition {
            name: Word::from_slice(alloc, entry.0)?,
            header: entry.1,
            forms: forms_of(alloc, entry.2)?,
        })?;
    }
    Ok(())
}

/// Adds the definitions of the rows that are needed.
pub fn add_rows(
    alloc: Global,
    tokens: &[Lexeme],
    rows: &[TableRow],
    all: &mut Items<Definition>,
) -> Result<(), LibraryFault>
    ensures { Gives (Ok (definitions.with_rows tokens.now (map (λ row. (row.0.now, row.1, row.2.now)) rows.now)
        all.old)) result all.new }
{
    match rows {
        [] => Ok(()),
        [first, more @ ..] => {
            add_rows(alloc, tokens, more, all)?;
            add_row(alloc, tokens, first, all)
        }
    }
}
