//! What stands for `sizeof` of an object, and of its rows and elements.

ghost use Rattle.std.specs.Prelude.{◌≡◌, ◌++◌, [], ◌∷◌, OnOk, IfOk};
ghost use Rattle.c_sizes.specs.Counts as counts;
ghost use Rattle.c_sizes.specs.Shapes as shapes;

use crate::mark::{begins, rest};
use crate::size::{add_size, behind_size, is_size, values};
use base::Items;
use c_library::form_copied;
use c_tree::{Form, Kind, Lexeme, Mark};
use std::alloc::{AllocError, Global};

/// The tokens that stand for `sizeof` of a name: without an index, with one, with two. None stand for a size that is
/// not told. And the bytes of what the name gives, if it is a function: 0 if that is void.
#[derive(Debug, Drop)]
pub struct Shape {
    pub whole: Items<Form>,
    pub row: Items<Form>,
    pub element: Items<Form>,
    pub result: Option<u8>,
}

/// A constant of type unsigned long.
fn constant(value: usize) -> Form
    ensures { result ≡ shapes.constant value }
{
    Form::Number {
        value: (value % 2_147_483_648) as u64,
        kind: Kind::ULong,
    }
}

/// That constant alone. Want of memory is the only error.
pub fn alone(alloc: Global, value: usize) -> Result<Items<Form>, AllocError>
    ensures { IfOk result (λ fs. fs ≡ shapes.constant value ∷ []) }
{
    let mut forms = Items::new(alloc);
    forms.push(constant(value))?;
    Ok(forms)
}

/// Adds copies. Want of memory is the only error.
pub fn add_copies(alloc: Global, from: &[Form], forms: &mut Items<Form>) -> Result<(), AllocError>
    ensures { OnOk result (forms.new ≡ forms.old ++ from.now) }
{
    let mut rest = from;
    while let [form, more @ ..] = rest {
        forms.push(form_copied(alloc, form)?)?;
        rest = more;
    }
    Ok(())
}

/// Adds `* ( SIZE )`. Want of memory is the only error.
fn add_times(alloc: Global, size: &[Form], forms: &mut Items<Form>) -> Result<(), AllocError>
    ensures { OnOk result (forms.new ≡ forms.old ++ shapes.times size.now) }
{
    forms.push(Form::Mark(Mark::Star))?;
    forms.push(Form::Mark(Mark::LeftParen))?;
    add_copies(alloc, size, forms)?;
    forms.push(Form::Mark(Mark::RightParen))
}

/// `( BYTES * ( SIZE ) )`. Want of memory is the only error.
fn row(alloc: Global, bytes: u8, size: &[Form]) -> Result<Items<Form>, AllocError>
    ensures { IfOk result (λ fs. fs ≡ shapes.row bytes size.now) }
{
    let mut forms = Items::new(alloc);
    forms.push(Form::Mark(Mark::LeftParen))?;
    forms.push(constant(usize::from(bytes)))?;
    add_times(alloc, size, &mut forms)?;
    forms.push(Form::Mark(Mark::RightParen))?;
    Ok(forms)
}

/// `( BYTES * ( SIZE ) * ( SIZE ) )`. Want of memory is the only error.
fn table(alloc: Global, bytes: u8, rows: &[Form], size: &[Form]) -> Result<Items<Form>, AllocError>
    ensures { IfOk result (λ fs. fs ≡ shapes.table bytes rows.now size.now) }
{
    let mut forms = Items::new(alloc);
    forms.push(Form::Mark(Mark::LeftParen))?;
    forms.push(constant(usize::from(bytes)))?;
    add_times(alloc, rows, &mut forms)?;
    add_times(alloc, size, &mut forms)?;
    forms.push(Form::Mark(Mark::RightParen))?;
    Ok(forms)
}

/// What the whole of an array is: as a parameter it is a pointer. Want of memory is the only error.
fn whole(alloc: Global, is_parameter: bool, forms: Items<Form>) -> Result<Items<Form>, AllocError>
    ensures { IfOk result (λ fs. fs ≡ shapes.whole is_parameter forms) }
{
    if is_parameter {
        alone(alloc, 8)
    } else {
        Ok(forms)
    }
}

/// The first size, which these tokens begin with, where those stand behind the brackets. Want of memory is the only
/// error.
fn first_size(
    alloc: Global,
    tokens: &[Lexeme],
    behind: &[Lexeme],
) -> Result<Items<Form>, AllocError>
    ensures { IfOk result (λ fs. fs ≡ shapes.first_size tokens.now behind.now) }
{
    if begins(Mark::RightBracket, tokens) {
        return alone(alloc, values(behind));
    }
    let mut forms = Items::new(alloc);
    add_size(alloc, tokens, &mut forms)?;
    Ok(forms)
}

/// The forms of a size. Want of memory is the only error.
fn forms_of(alloc: Global, tokens: &[Lexeme]) -> Result<Items<Form>, AllocError>
    ensures { IfOk result (λ fs. fs ≡ counts.size tokens.now) }
{
    let mut forms = Items::new(alloc);
    add_size(alloc, tokens, &mut forms)?;
    Ok(forms)
}

impl Shape {
    /// What has no size that is told. It takes no memory.
    pub fn untold(alloc: Global) -> Shape
        ensures { result ≡ shapes.untold }
    {
        Shape {
            whole: Items::new(alloc),
            row: Items::new(alloc),
            element: Items::new(alloc),
            result: None,
        }
    }

    /// A function whose result has so many bytes. It takes no memory.
    pub fn function(alloc: Global, bytes: u8) -> Shape
        ensures { result ≡ shapes.function bytes }
    {
        Shape {
            whole: Items::new(alloc),
            row: Items::new(alloc),
            element: Items::new(alloc),
            result: Some(bytes),
        }
    }

    /// A scalar. Want of memory is the only error.
    pub fn scalar(alloc: Global, bytes: u8) -> Result<Shape, AllocError>
        ensures { IfOk result (λ s. s ≡ shapes.scalar bytes) }
    {
        Ok(Shape {
            whole: alone(alloc, usize::from(bytes))?,
            row: Items::new(alloc),
            element: Items::new(alloc),
            result: None,
        })
    }

    /// An array with this size. Want of memory is the only error.
    fn array(
        alloc: Global,
        is_parameter: bool,
        bytes: u8,
        size: &[Form],
    ) -> Result<Shape, AllocError>
        ensures { IfOk result (λ s. s ≡ shapes.array is_parameter bytes size.now) }
    {
        let all = row(alloc, bytes, size)?;
        Ok(Shape {
            whole: whole(alloc, is_parameter, all)?,
            row: alone(alloc, usize::from(bytes))?,
            element: Items::new(alloc),
            result: None,
        })
    }

    /// An array with these two sizes. Want of memory is the only error.
    fn rows(
        alloc: Global,
        is_parameter: bool,
        bytes: u8,
        rows: &[Form],
        size: &[Form],
    ) -> Result<Shape, AllocError>
        ensures { IfOk result (λ s. s ≡ shapes.rows is_parameter bytes rows.now size.now) }
    {
        let all = table(alloc, bytes, rows, size)?;
        Ok(Shape {
            whole: whole(alloc, is_parameter, all)?,
            row: row(alloc, bytes, size)?,
            element: alone(alloc, usize::from(bytes))?,
            result: None,
        })
    }

    /// An array with two sizes, of which the first begins `tokens` and the second `second`. Want of memory is the
    /// only error.
    fn two(
        alloc: Global,
        is_parameter: bool,
        bytes: u8,
        tokens: &[Lexeme],
        second: &[Lexeme],
    ) -> Result<Shape, AllocError>
        ensures { IfOk result (λ s. s ≡ shapes.rows is_parameter bytes
            (shapes.first_size tokens.now (counts.behind_size second.now)) (counts.size second.now)) }
    {
        let first = first_size(alloc, tokens, behind_size(second))?;
        let columns = forms_of(alloc, second)?;
        Shape::rows(
            alloc,
            is_parameter,
            bytes,
            first.as_slice(),
            columns.as_slice(),
        )
    }

    /// An array whose first size these tokens begin with, where those stand behind it. Want of memory is the only
    /// error.
    fn sized_array(
        alloc: Global,
        is_parameter: bool,
        bytes: u8,
        tokens: &[Lexeme],
        behind: &[Lexeme],
    ) -> Result<Shape, AllocError>
        ensures { IfOk result (λ s. s ≡ shapes.sized_array is_parameter bytes tokens.now behind.now) }
    {
        if begins(Mark::LeftBracket, behind) {
            let second = rest(behind);
            if is_size(second) && !begins(Mark::LeftBracket, behind_size(second)) {
                Shape::two(alloc, is_parameter, bytes, tokens, second)
            } else {
                Ok(Shape::untold(alloc))
            }
        } else {
            let first = first_size(alloc, tokens, behind)?;
            Shape::array(alloc, is_parameter, bytes, first.as_slice())
        }
    }

    /// What a name is that is declared before these tokens. Want of memory is the only error.
    pub fn of(
        alloc: Global,
        is_parameter: bool,
        bytes: u8,
        tokens: &[Lexeme],
    ) -> Result<Shape, AllocError>
        ensures { IfOk result (λ s. s ≡ shapes.shape is_parameter bytes tokens.now) }
    {
        if begins(Mark::LeftParen, tokens) {
            Ok(Shape::function(alloc, bytes))
        } else if !begins(Mark::LeftBracket, tokens) {
            Shape::scalar(alloc, bytes)
        } else {
            let first = rest(tokens);
            if is_size(first) {
                Shape::sized_array(alloc, is_parameter, bytes, first, behind_size(first))
            } else {
                Ok(Shape::untold(alloc))
            }
        }
    }
}
