//! Units whose constants call functions or read elements, and open arrays.

use crate::type_rows::{Item, Row, Value, ZERO};
use c_type::TypeFault;

pub const CONSTANTS: &[Row] = &[
    (
        "a constant that calls a function that is not in scope",
        &[
            Item::Global(1, b"x", Value::Call(b"f")),
            Item::Function(2, b"main", 0, ZERO),
        ],
        Err(TypeFault::Unknown(1)),
    ),
    (
        "a constant that calls a function without a definition",
        &[
            Item::Prototype(1, b"f", 0),
            Item::Global(2, b"x", Value::Call(b"f")),
            Item::Function(3, b"main", 0, ZERO),
        ],
        Err(TypeFault::Unknown(2)),
    ),
    (
        "a constant that calls a function that is defined later",
        &[
            Item::Prototype(1, b"f", 0),
            Item::Global(2, b"x", Value::Call(b"f")),
            Item::Function(3, b"f", 0, ZERO),
            Item::Function(5, b"main", 0, ZERO),
        ],
        Err(TypeFault::Mismatch(2)),
    ),
    (
        "a constant that calls a global",
        &[
            Item::Global(1, b"x", Value::Number(1)),
            Item::Global(2, b"y", Value::Call(b"x")),
            Item::Function(3, b"main", 0, ZERO),
        ],
        Err(TypeFault::Mismatch(2)),
    ),
    (
        "a constant that reads an element of an array that is not in scope",
        &[
            Item::Global(1, b"x", Value::Element(b"a")),
            Item::Function(2, b"main", 0, ZERO),
        ],
        Err(TypeFault::Unknown(1)),
    ),
    (
        "a constant that reads an element",
        &[
            Item::Array(1, b"a", 1),
            Item::Global(2, b"x", Value::Element(b"a")),
            Item::Function(3, b"main", 0, ZERO),
        ],
        Err(TypeFault::Mismatch(2)),
    ),
    (
        "an open array that is too large, before its value",
        &[
            Item::Array(1, b"x", 1048569),
            Item::Open(2, b"y", Value::Name(b"z")),
            Item::Function(4, b"main", 0, ZERO),
        ],
        Err(TypeFault::TooLarge(2)),
    ),
    (
        "an open array that just fits, and its value",
        &[
            Item::Array(1, b"x", 1048568),
            Item::Open(2, b"y", Value::Name(b"z")),
            Item::Function(4, b"main", 0, ZERO),
        ],
        Err(TypeFault::Unknown(3)),
    ),
];
