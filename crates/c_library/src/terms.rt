//! What stands for a conversion (C17 7.21.6.1, paragraphs 6 to 8): a parameter, and a call of one of the library's
//! functions that write (docs/library.c).

ghost use Rattle.std.specs.Prelude.{◌≡◌, ◌++◌, [], ◌<◌, OnOk, IfOk, codes};
ghost use Rattle.std.specs.Option.{option_copied};
ghost use Rattle.c_tree.specs.declared.Mark.TheVariants.{Plus};
ghost use Rattle.c_library.specs.Terms as written;
ghost use Rattle.c_library.specs.Terms.{call, with_part};

use crate::conversion::{Conversion, Size, given, is_signed};
use base::Items;
use c_tree::{Form, Key, Kind, Mark, Word};
use std::alloc::{AllocError, Global};

/// Adds the mark before another part of a list, if there is one already.
pub fn put_mark_between(forms: &mut Items<Form>, mark: Mark) -> Result<(), AllocError>
    ensures { OnOk result (forms.new ≡ with_part mark forms.old []) }
{
    if forms.is_empty() {
        Ok(())
    } else {
        forms.push(Form::Mark(mark))
    }
}

/// The name of an argument, counted from 0.
fn argument(alloc: Global, k: u8) -> Result<Word, AllocError>
    requires { k < 8 }
    ensures ok { IfOk result (λ w. w ≡ written.argument k) }
{
    Word::from_slice(alloc, &[b'a', b'.', b'1' + k])
}

/// A constant of type int.
pub fn constant(value: u32) -> Form
    ensures { result ≡ written.constant value }
{
    Form::Number {
        value: u64::from(value % 2_147_483_648),
        kind: Kind::Int,
    }
}

/// Adds constants to the arguments of a call.
fn put_constants(forms: &mut Items<Form>, values: &[u32]) -> Result<(), AllocError>
    ensures { OnOk result (forms.new ≡ forms.old ++ written.constants values.now) }
{
    let mut rest = values;
    while let [value, more @ ..] = rest {
        forms.push(Form::Mark(Mark::Comma))?;
        forms.push(constant(*value))?;
        rest = more;
    }
    Ok(())
}

/// Adds a call with this first argument, and these constants behind it, to a sum.
pub fn put_call(
    alloc: Global,
    terms: &mut Items<Form>,
    name: &[u8],
    first: Form,
    values: &[u32],
) -> Result<(), AllocError>
    ensures { OnOk result (terms.new ≡ with_part Plus terms.old (call name.now first values.now)) }
{
    put_mark_between(terms, Mark::Plus)?;
    terms.push(Form::Name(Word::from_slice(alloc, name)?))?;
    terms.push(Form::Mark(Mark::LeftParen))?;
    terms.push(first)?;
    put_constants(terms, values)?;
    terms.push(Form::Mark(Mark::RightParen))
}

/// The keyword of the signed type that a length modifier says.
fn signed_type(size: Size) -> Key
    ensures { result ≡ written.signed_type size }
{
    match size {
        Size::Plain => Key::Int,
        Size::Short => Key::Short,
        Size::Char => Key::Char,
        Size::Long | Size::Longer => Key::Long,
    }
}

/// Adds the parameter of a conversion, counted from 0.
pub fn put_parameter(
    alloc: Global,
    forms: &mut Items<Form>,
    k: u8,
    c: Conversion,
) -> Result<(), AllocError>
    requires { k < 8 }
    ensures { OnOk result (forms.new ≡ forms.old ++ written.parameter k c) }
{
    let name = Form::Name(argument(alloc, k)?);
    if c.letter == b's' {
        forms.push(Form::Key(Key::Char))?;
        forms.push(name)?;
        forms.push(Form::Mark(Mark::LeftBracket))?;
        forms.push(Form::Mark(Mark::RightBracket))
    } else if is_signed(c.letter) || c.letter == b'c' {
        forms.push(Form::Key(signed_type(c.size)))?;
        forms.push(name)
    } else {
        forms.push(Form::Key(Key::Unsigned))?;
        forms.push(Form::Key(signed_type(c.size)))?;
        forms.push(name)
    }
}

/// Has it neither flags nor a width nor a precision?
fn is_bare(c: Conversion) -> bool
    ensures { result ≡ written.is_bare c }
{
    !(c.left || c.plus || c.space || c.form || c.zero) && c.width == 0 && !c.precision.is_some()
}

/// The function that writes numbers or text as they are, by the letter, if there is one.
fn bare_name(b: u8) -> Option<&'static [u8]>
    ensures { option_copied result ≡ written.bare_name b }
{
    if is_signed(b) {
        Some(b"print.d")
    } else if b == b'u' {
        Some(b"print.u")
    } else if b == b'x' {
        Some(b"print.x")
    } else if b == b'c' {
        Some(b"print.c")
    } else if b == b's' {
        Some(b"print.s")
    } else {
        None
    }
}

/// The function that writes the conversion as it is, if there is one.
fn short_name(c: Conversion) -> Option<&'static [u8]>
    ensures { option_copied result ≡ written.short_name c }
{
    if is_bare(c) {
        bare_name(c.letter)
    } else {
        None
    }
}

/// What fills the field: `-` stands for spaces behind.
#[tactic(auto, unfolding(crate::specs::Terms::fill_of))]
fn fill_of(c: Conversion) -> u32
    ensures { result ≡ written.fill_of c }
{
    if c.left {
        u32::from(b'-')
    } else if c.zero && !c.precision.is_some() {
        u32::from(b'0')
    } else {
        u32::from(b' ')
    }
}

/// What stands before a number that is not negative, or 0.
#[tactic(auto, unfolding(crate::specs::Terms::sign_of))]
fn sign_of(c: Conversion) -> u32
    ensures { result ≡ written.sign_of c }
{
    if c.plus {
        u32::from(b'+')
    } else if c.space {
        u32::from(b' ')
    } else {
        0
    }
}

/// `#` where the base is shown, or 0.
#[tactic(auto, unfolding(crate::specs::Terms::form_of))]
fn form_of(c: Conversion) -> u32
    ensures { result ≡ written.form_of c }
{
    if c.form { u32::from(b'#') } else { 0 }
}

/// How many digits there are at least.
fn least_of(c: Conversion) -> u32
    ensures { result ≡ written.least_of c }
{
    given(1, c.precision)
}

/// How many characters of a string are written at most.
fn most_of(c: Conversion) -> u32
    ensures { result ≡ written.most_of c }
{
    given(2_147_483_647, c.precision)
}

/// The constants behind a signed number in a field.
#[tactic(auto, unfolding(crate::specs::Terms::signed_values))]
fn signed_values(c: Conversion) -> [u32; 4]
    ensures { result ≡ written.signed_values c }
{
    [sign_of(c), fill_of(c), c.width, least_of(c)]
}

/// The constants behind a string in a field.
#[tactic(auto, unfolding(crate::specs::Terms::string_values))]
fn string_values(c: Conversion) -> [u32; 3]
    ensures { result ≡ written.string_values c }
{
    [fill_of(c), c.width, most_of(c)]
}

/// The constants behind a character in a field.
#[tactic(auto, unfolding(crate::specs::Terms::character_values))]
fn character_values(c: Conversion) -> [u32; 2]
    ensures { result ≡ written.character_values c }
{
    [fill_of(c), c.width]
}

/// The constants behind an unsigned number in a field.
#[tactic(auto, unfolding(crate::specs::Terms::unsigned_values))]
fn unsigned_values(c: Conversion) -> [u32; 5]
    ensures { result ≡ written.unsigned_values c }
{
    [
        u32::from(c.letter),
        form_of(c),
        fill_of(c),
        c.width,
        least_of(c),
    ]
}

/// Adds the call that writes a signed number in a field to a sum.
fn put_signed(
    alloc: Global,
    terms: &mut Items<Form>,
    argument: Form,
    c: Conversion,
) -> Result<(), AllocError>
    ensures { OnOk result (terms.new
        ≡ with_part Plus terms.old (call (codes "print.signed") argument (written.signed_values c))) }
{
    put_call(alloc, terms, b"print.signed", argument, &signed_values(c))
}

/// Adds the call that writes a string in a field to a sum.
fn put_string(
    alloc: Global,
    terms: &mut Items<Form>,
    argument: Form,
    c: Conversion,
) -> Result<(), AllocError>
    ensures { OnOk result (terms.new
        ≡ with_part Plus terms.old (call (codes "print.string") argument (written.string_values c))) }
{
    put_call(alloc, terms, b"print.string", argument, &string_values(c))
}

/// Adds the call that writes a character in a field to a sum.
fn put_character(
    alloc: Global,
    terms: &mut Items<Form>,
    argument: Form,
    c: Conversion,
) -> Result<(), AllocError>
    ensures { OnOk result (terms.new
        ≡ with_part Plus terms.old (call (codes "print.char") argument (written.character_values c))) }
{
    put_call(alloc, terms, b"print.char", argument, &character_values(c))
}

/// Adds the call that writes an unsigned number in a field to a sum.
fn put_unsigned(
    alloc: Global,
    terms: &mut Items<Form>,
    argument: Form,
    c: Conversion,
) -> Result<(), AllocError>
    ensures { OnOk result (terms.new
        ≡ with_part Plus terms.old (call (codes "print.unsigned") argument (written.unsigned_values c))) }
{
    put_call(
        alloc,
        terms,
        b"print.unsigned",
        argument,
        &unsigned_values(c),
    )
}

/// Adds the call that writes the argument in a field to a sum.
fn put_full_call(
    alloc: Global,
    terms: &mut Items<Form>,
    argument: Form,
    c: Conversion,
) -> Result<(), AllocError>
    ensures { OnOk result (terms.new ≡ with_part Plus terms.old (written.full_call argument c)) }
{
    if is_signed(c.letter) {
        put_signed(alloc, terms, argument, c)
    } else if c.letter == b's' {
        put_string(alloc, terms, argument, c)
    } else if c.letter == b'c' {
        put_character(alloc, terms, argument, c)
    } else {
        put_unsigned(alloc, terms, argument, c)
    }
}

/// Adds the call that writes a conversion, counted from 0, to a sum.
pub fn put_conversion(
    alloc: Global,
    terms: &mut Items<Form>,
    k: u8,
    c: Conversion,
) -> Result<(), AllocError>
    requires { k < 8 }
    ensures { OnOk result (terms.new ≡ with_part Plus terms.old (written.call_of k c)) }
{
    let argument = Form::Name(argument(alloc, k)?);
    match short_name(c) {
        Some(name) => put_call(alloc, terms, name, argument, &[]),
        None => put_full_call(alloc, terms, argument, c),
    }
}
