//! Small units as plain data, with what C17 and docs/LANGUAGE.md give them: how much there is of the
//! typed program, or the fault.

use c_type::TypeFault;

/// An expression, at the offset of what it stands in.
#[derive(Clone, Copy)]
pub enum Value {
    Number(u64),
    Name(&'static [u8]),
    Call(&'static [u8]),
    /// The first element of an array.
    Element(&'static [u8]),
}

/// The statement of a body, one byte behind the function's name.
#[derive(Clone, Copy)]
pub enum Body {
    Give(Value),
    Leave,
    Break,
    Scalar(&'static [u8], Value),
}

/// An item at its offset. A function is of type int and has so many ints, `p`, `q`, .., as parameters.
#[derive(Clone, Copy)]
pub enum Item {
    Include(u32),
    Global(u32, &'static [u8], Value),
    Array(u32, &'static [u8], u64),
    /// An array of one long in braces, one byte behind its name, with no size.
    Open(u32, &'static [u8], Value),
    Prototype(u32, &'static [u8], u8),
    Function(u32, &'static [u8], u8, Body),
}

/// How many globals and functions there are, and which of these is `main`.
#[derive(Clone, Copy, Debug, PartialEq, Eq)]
pub struct Typed {
    pub globals: usize,
    pub functions: usize,
    pub main: u32,
}

pub type Row = (&'static str, &'static [Item], Result<Typed, TypeFault>);

pub const ZERO: Body = Body::Give(Value::Number(0));

pub const ROWS: &[Row] = &[
    (
        "main alone",
        &[Item::Function(1, b"main", 0, ZERO)],
        Ok(Typed {
            globals: 0,
            functions: 1,
            main: 0,
        }),
    ),
    ("no item", &[], Err(TypeFault::NoMain)),
    (
        "main behind a function that it calls",
        &[
            Item::Function(1, b"f", 0, ZERO),
            Item::Function(3, b"main", 0, Body::Give(Value::Call(b"f"))),
        ],
        Ok(Typed {
            globals: 0,
            functions: 2,
            main: 1,
        }),
    ),
    (
        "main before a function that it calls",
        &[
            Item::Prototype(1, b"f", 0),
            Item::Function(2, b"main", 0, Body::Give(Value::Call(b"f"))),
            Item::Function(4, b"f", 0, ZERO),
        ],
        Ok(Typed {
            globals: 0,
            functions: 2,
            main: 0,
        }),
    ),
    (
        "a call without a definition",
        &[
            Item::Prototype(1, b"f", 0),
            Item::Function(2, b"main", 0, Body::Give(Value::Call(b"f"))),
        ],
        Err(TypeFault::Unknown(3)),
    ),
    (
        "a call of a function that is declared later",
        &[
            Item::Function(2, b"main", 0, Body::Give(Value::Call(b"f"))),
            Item::Function(4, b"f", 0, ZERO),
        ],
        Err(TypeFault::Unknown(3)),
    ),
    (
        "a call without an argument",
        &[
            Item::Function(1, b"f", 1, ZERO),
            Item::Function(3, b"main", 0, Body::Give(Value::Call(b"f"))),
        ],
        Err(TypeFault::Arity(4)),
    ),
    (
        "a main that is a prototype",
        &[Item::Prototype(1, b"main", 0)],
        Err(TypeFault::NoMain),
    ),
    (
        "a main that is a global",
        &[Item::Global(1, b"main", Value::Number(1))],
        Err(TypeFault::NoMain),
    ),
    (
        "a main with a parameter",
        &[Item::Function(1, b"main", 1, ZERO)],
        Err(TypeFault::NoMain),
    ),
    (
        "a function with a global's name",
        &[
            Item::Global(1, b"main", Value::Number(1)),
            Item::Function(2, b"main", 0, ZERO),
        ],
        Err(TypeFault::Twice(2)),
    ),
    (
        "a second definition",
        &[
            Item::Function(1, b"main", 0, ZERO),
            Item::Function(3, b"main", 0, ZERO),
        ],
        Err(TypeFault::Twice(3)),
    ),
    (
        "a repeated prototype",
        &[
            Item::Prototype(1, b"main", 0),
            Item::Prototype(2, b"main", 0),
            Item::Function(3, b"main", 0, ZERO),
        ],
        Ok(Typed {
            globals: 0,
            functions: 1,
            main: 0,
        }),
    ),
    (
        "a prototype that does not agree",
        &[
            Item::Prototype(1, b"f", 0),
            Item::Prototype(2, b"f", 1),
            Item::Function(3, b"main", 0, ZERO),
        ],
        Err(TypeFault::Mismatch(2)),
    ),
    (
        "a second definition that does not agree",
        &[
            Item::Function(1, b"f", 0, ZERO),
            Item::Function(3, b"f", 1, ZERO),
            Item::Function(5, b"main", 0, ZERO),
        ],
        Err(TypeFault::Twice(3)),
    ),
    (
        "eight parameters",
        &[
            Item::Function(1, b"f", 8, ZERO),
            Item::Function(3, b"main", 0, ZERO),
        ],
        Ok(Typed {
            globals: 0,
            functions: 2,
            main: 1,
        }),
    ),
    (
        "nine parameters",
        &[
            Item::Function(1, b"f", 9, ZERO),
            Item::Function(3, b"main", 0, ZERO),
        ],
        Err(TypeFault::TooManyParams(1)),
    ),
    (
        "nine parameters of a prototype",
        &[
            Item::Prototype(1, b"f", 9),
            Item::Function(3, b"main", 0, ZERO),
        ],
        Err(TypeFault::TooManyParams(1)),
    ),
    (
        "a global",
        &[
            Item::Global(1, b"x", Value::Number(1)),
            Item::Function(2, b"main", 0, Body::Give(Value::Name(b"x"))),
        ],
        Ok(Typed {
            globals: 1,
            functions: 1,
            main: 0,
        }),
    ),
    (
        "a global after its use",
        &[
            Item::Function(1, b"main", 0, Body::Give(Value::Name(b"x"))),
            Item::Global(3, b"x", Value::Number(1)),
        ],
        Err(TypeFault::Unknown(2)),
    ),
    (
        "a global twice",
        &[
            Item::Global(1, b"x", Value::Number(1)),
            Item::Global(2, b"x", Value::Number(1)),
            Item::Function(3, b"main", 0, ZERO),
        ],
        Err(TypeFault::Twice(2)),
    ),
    (
        "a name that is not in scope in a constant",
        &[
            Item::Global(1, b"x", Value::Name(b"y")),
            Item::Function(2, b"main", 0, ZERO),
        ],
        Err(TypeFault::Unknown(1)),
    ),
    (
        "a global in its own initialiser",
        &[
            Item::Global(1, b"x", Value::Name(b"x")),
            Item::Function(2, b"main", 0, ZERO),
        ],
        Err(TypeFault::Mismatch(1)),
    ),
    (
        "an array of one mebibyte",
        &[
            Item::Array(1, b"x", 1048576),
            Item::Function(2, b"main", 0, ZERO),
        ],
        Ok(Typed {
            globals: 1,
            functions: 1,
            main: 0,
        }),
    ),
    (
        "an array of one byte more",
        &[
            Item::Array(1, b"x", 1048577),
            Item::Function(2, b"main", 0, ZERO),
        ],
        Err(TypeFault::TooLarge(1)),
    ),
    (
        "globals of one byte more",
        &[
            Item::Array(1, b"x", 1048576),
            Item::Global(2, b"y", Value::Number(1)),
            Item::Function(3, b"main", 0, ZERO),
        ],
        Err(TypeFault::TooLarge(2)),
    ),
    (
        "an array of no element",
        &[Item::Array(1, b"x", 0), Item::Function(2, b"main", 0, ZERO)],
        Err(TypeFault::Mismatch(1)),
    ),
    (
        "the include twice",
        &[
            Item::Include(1),
            Item::Include(2),
            Item::Function(3, b"main", 0, Body::Give(Value::Name(b"EOF"))),
        ],
        Ok(Typed {
            globals: 0,
            functions: 1,
            main: 0,
        }),
    ),
    (
        "EOF without the include",
        &[Item::Function(3, b"main", 0, Body::Give(Value::Name(b"EOF")))],
        Err(TypeFault::Unknown(4)),
    ),
    (
        "EOF declared after the include",
        &[
            Item::Include(1),
            Item::Global(7, b"EOF", Value::Number(1)),
            Item::Function(8, b"main", 0, ZERO),
        ],
        Err(TypeFault::Twice(7)),
    ),
    (
        "EOF declared before the include",
        &[
            Item::Global(1, b"EOF", Value::Number(1)),
            Item::Include(7),
            Item::Function(8, b"main", 0, ZERO),
        ],
        Err(TypeFault::Twice(7)),
    ),
    (
        "EOF as a local",
        &[
            Item::Include(1),
            Item::Function(2, b"main", 0, Body::Scalar(b"EOF", Value::Number(1))),
        ],
        Err(TypeFault::Twice(3)),
    ),
    (
        "getchar defined before the include",
        &[
            Item::Function(1, b"getchar", 0, ZERO),
            Item::Include(8),
            Item::Function(9, b"main", 0, ZERO),
        ],
        Err(TypeFault::Twice(8)),
    ),
    (
        "getchar defined after the include",
        &[
            Item::Include(1),
            Item::Function(2, b"getchar", 0, ZERO),
            Item::Function(9, b"main", 0, ZERO),
        ],
        Err(TypeFault::Twice(2)),
    ),
    (
        "getchar declared as it is",
        &[
            Item::Prototype(1, b"getchar", 0),
            Item::Include(2),
            Item::Function(3, b"main", 0, Body::Give(Value::Call(b"getchar"))),
        ],
        Ok(Typed {
            globals: 0,
            functions: 1,
            main: 0,
        }),
    ),
    (
        "putchar declared as it is not",
        &[
            Item::Include(1),
            Item::Prototype(2, b"putchar", 0),
            Item::Function(3, b"main", 0, ZERO),
        ],
        Err(TypeFault::Mismatch(2)),
    ),
    (
        "the end of the run declared as it is not",
        &[
            Item::Include(1),
            Item::Prototype(2, b"exit.now", 1),
            Item::Function(3, b"main", 0, ZERO),
        ],
        Err(TypeFault::Mismatch(2)),
    ),
    (
        "a local in its own initialiser",
        &[Item::Function(1, b"main", 0, Body::Scalar(b"x", Value::Name(b"x")))],
        Ok(Typed {
            globals: 0,
            functions: 1,
            main: 0,
        }),
    ),
    (
        "a local with a parameter's name",
        &[
            Item::Function(1, b"f", 1, Body::Scalar(b"p", Value::Number(1))),
            Item::Function(9, b"main", 0, ZERO),
        ],
        Err(TypeFault::Twice(2)),
    ),
    (
        "a return without a value",
        &[Item::Function(1, b"main", 0, Body::Leave)],
        Err(TypeFault::Mismatch(2)),
    ),
    (
        "a break outside a loop",
        &[Item::Function(1, b"main", 0, Body::Break)],
        Err(TypeFault::Mismatch(2)),
    ),
    (
        "a fault before a main that is missing",
        &[Item::Function(1, b"f", 0, Body::Break)],
        Err(TypeFault::Mismatch(2)),
    ),
];
