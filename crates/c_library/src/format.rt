//! The function that a format of `printf` stands for (C17 7.21.6.1), in tokens.

ghost use Rattle.std.specs.Prelude.{◌≡◌, ◌++◌, ◌<◌, ◌≤◌, OnOk, IfOk};
ghost use Rattle.c_library.specs.Terms as written;
ghost use Rattle.c_library.specs.Formats as formats;

use crate::conversion::Conversion;
use crate::reading::{Item, items_of};
use crate::terms::{constant, put_call, put_conversion, put_mark_between, put_parameter};
use base::Items;
use c_tree::{Form, Key, Mark, Word};
use std::alloc::{AllocError, Global};

/// A function as far as it is written: the piece of text that has no term yet, how many conversions there are,
/// whether there are too many, the parameters with their commas, and the terms with the signs between them.
#[derive(Drop)]
pub struct Writer {
    pub piece: Items<u8>,
    pub count: u8,
    pub too_many: bool,
    pub parameters: Items<Form>,
    pub terms: Items<Form>,
}

/// The name of a literal of these values.
fn string_name(alloc: Global, values: &[u8]) -> Result<Word, AllocError>
    ensures ok { IfOk result (λ w. w ≡ written.string_name values.now) }
{
    let mut name = Vec::from_slice(alloc, b"\"")?;
    name.extend_from_slice(values)?;
    Word::from_slice(alloc, name.as_slice())
}

/// The name of the function of a format, which no word of a text is. Want of memory is the only error.
pub fn printf_name(alloc: Global, format: &[u8]) -> Result<Word, AllocError>
    ensures ok { IfOk result (λ w. w ≡ formats.printf_name format.now) }
{
    let mut name = Vec::from_slice(alloc, b"printf\"")?;
    name.extend_from_slice(format)?;
    Word::from_slice(alloc, name.as_slice())
}

/// Adds a term that writes a piece of text, if there is one.
fn put_text(alloc: Global, terms: &mut Items<Form>, piece: &[u8]) -> Result<(), AllocError>
    ensures { OnOk result (terms.new ≡ formats.with_text piece.now terms.old) }
{
    match piece {
        [] => Ok(()),
        [b] => {
            let character = constant(u32::from(*b));
            put_call(alloc, terms, b"print.c", character, &[])
        }
        _ => {
            let literal = Form::Name(string_name(alloc, piece)?);
            put_call(alloc, terms, b"print.s", literal, &[])
        }
    }
}

impl Writer {
    /// The text so far becomes a term.
    fn end_piece(&mut self, alloc: Global) -> Result<(), AllocError>
        ensures { OnOk result (self.new ≡ formats.with_piece self.old) }
    {
        put_text(alloc, &mut self.terms, self.piece.as_slice())?;
        self.piece = Items::new(alloc);
        Ok(())
    }

    /// A conversion becomes a parameter and a term.
    fn convert(&mut self, alloc: Global, c: Conversion) -> Result<(), AllocError>
        requires { self.old.count < 8 }
        ensures { OnOk result (self.new ≡ formats.with_conversion c self.old) }
    {
        put_mark_between(&mut self.parameters, Mark::Comma)?;
        put_parameter(alloc, &mut self.parameters, self.count, c)?;
        put_conversion(alloc, &mut self.terms, self.count, c)?;
        self.count += 1;
        Ok(())
    }

    /// An item more.
    fn add(&mut self, alloc: Global, item: Item) -> Result<(), AllocError>
        ensures { OnOk result (self.new ≡ formats.with_item item self.old) }
    {
        match item {
            Item::Byte(b) => self.piece.push(b),
            Item::Conversion(c) => {
                if self.count < 8 {
                    self.end_piece(alloc)?;
                    self.convert(alloc, c)
                } else {
                    self.too_many = true;
                    Ok(())
                }
            }
        }
    }

    /// These items more, and the end of the format.
    fn add_all(&mut self, alloc: Global, items: &[Item]) -> Result<(), AllocError>
        ensures { OnOk result (self.new ≡ formats.with_items items.now self.old) }
    {
        let mut rest = items;
        while let [item, more @ ..] = rest {
            self.add(alloc, *item)?;
            rest = more;
        }
        self.end_piece(alloc)
    }
}

/// The parameters of a function, `void` where there are none.
fn or_void(parameters: &mut Items<Form>) -> Result<(), AllocError>
    ensures { OnOk result (parameters.new ≡ formats.or_void parameters.old) }
{
    if parameters.is_empty() {
        parameters.push(Form::Key(Key::Void))
    } else {
        Ok(())
    }
}

/// The sum of the terms, 0 where there are none.
fn or_zero(terms: &mut Items<Form>) -> Result<(), AllocError>
    ensures { OnOk result (terms.new ≡ formats.or_zero terms.old) }
{
    if terms.is_empty() {
        terms.push(constant(0))
    } else {
        Ok(())
    }
}

/// The definition of the function with this name, these parameters and these terms.
fn function_of(
    alloc: Global,
    name: Word,
    mut parameters: Items<Form>,
    mut terms: Items<Form>,
) -> Result<Items<Form>, AllocError>
    ensures ok { IfOk result (λ forms. forms ≡ formats.function_of name parameters terms) }
{
    or_void(&mut parameters)?;
    or_zero(&mut terms)?;
    let mut forms = Items::new(alloc);
    forms.push(Form::Key(Key::Int))?;
    forms.push(Form::Name(name))?;
    forms.push(Form::Mark(Mark::LeftParen))?;
    forms.append(parameters)?;
    forms.push(Form::Mark(Mark::RightParen))?;
    forms.push(Form::Mark(Mark::LeftBrace))?;
    forms.push(Form::Key(Key::Return))?;
    forms.append(terms)?;
    forms.push(Form::Mark(Mark::Semicolon))?;
    forms.push(Form::Mark(Mark::RightBrace))?;
    Ok(forms)
}

/// The function of a format, where its conversions are not too many.
fn finished(alloc: Global, format: &[u8], writer: Writer) -> Result<Option<Items<Form>>, AllocError>
    ensures ok { IfOk result (λ forms. forms ≡ formats.finished format.now writer) }
{
    let Writer {
        piece: _,
        count: _,
        too_many,
        parameters,
        terms,
    } = writer;
    if too_many {
        Ok(None)
    } else {
        let name = printf_name(alloc, format)?;
        Ok(Some(function_of(alloc, name, parameters, terms)?))
    }
}

/// The function of a format with these items.
fn defined_by(
    alloc: Global,
    format: &[u8],
    items: &[Item],
) -> Result<Option<Items<Form>>, AllocError>
    ensures ok { IfOk result (λ forms. forms
        ≡ formats.finished format.now (formats.with_items items.now formats.start)) }
{
    let mut writer = Writer {
        piece: Items::new(alloc),
        count: 0,
        too_many: false,
        parameters: Items::new(alloc),
        terms: Items::new(alloc),
    };
    writer.add_all(alloc, items)?;
    finished(alloc, format, writer)
}

/// The definition of the function that a format stands for, if it is a format of the profile. Want of memory is the
/// only error.
#[tactic(auto, unfolding(crate::specs::Formats::printf_definition))]
pub fn printf_definition(alloc: Global, format: &[u8]) -> Result<Option<Items<Form>>, AllocError>
    ensures ok { IfOk result (λ forms. forms ≡ formats.printf_definition format.now) }
{
    match items_of(alloc, format)? {
        None => Ok(None),
        Some(items) => defined_by(alloc, format, items.as_slice()),
    }
}
