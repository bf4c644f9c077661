use crate::{BinaryOp, BumpOp, Kind, UnaryOp};
use base::{Boxed, Items};

/// A global, a scalar of the function or a local array of the function, by its number.
///
/// Globals, local arrays and the scalars after the parameters are numbered in the order of the text.
#[derive(Clone, Copy, Debug, PartialEq, Eq)]
pub enum Place {
    Global(u32),
    Scalar(u32),
    Array(u32),
}

/// What a call calls: a definition of the program by its number, a function of `<stdio.h>`, or what ends the whole run.
#[derive(Clone, Copy, Debug, PartialEq, Eq)]
pub enum Callee {
    Func(u32),
    GetChar,
    PutChar,
    Exit,
}

/// What a scalar slot of a function holds: a value, or the array that an array parameter stands for, with
/// its second size where it has two.
#[derive(Clone, Copy, Debug, PartialEq, Eq)]
pub enum Slot {
    Scalar(Kind),
    Address { kind: Kind, row: Option<u32> },
}

/// A local array: how many elements it has in all, and how many each of its rows has where it has two
/// sizes.
#[derive(Clone, Copy, Debug, PartialEq, Eq)]
pub struct TypedArray {
    pub kind: Kind,
    pub length: u32,
    pub row: Option<u32>,
}

/// A typed expression. Its kind is none for a call that gives no value.
///
/// An array's name has the kind of its elements. Its place is the `at` of the expression that it is of; a conversion
/// that the typing adds has the place of its operand.
#[derive(Drop)]
#[cycle(typed_expr)]
pub struct TypedExpr {
    pub kind: Option<Kind>,
    pub at: u32,
    pub node: TypedNode,
}

/// What a typed expression is.
///
/// Each conversion to another type that the typing adds (C17 6.3) is a `Convert`, but for those that a
/// compound assignment's `at`, the type in which its operation is done, and a `Bump` imply. For `=` the
/// `at` is the left side's type. A cast stays a `Cast`.
#[derive(Drop)]
#[cycle(typed_expr)]
pub enum TypedNode {
    Number(u64),
    Name(Place),
    Element {
        array: Place,
        row: Option<Boxed<TypedExpr>>,
        index: Boxed<TypedExpr>,
    },
    Call {
        function: Callee,
        args: Items<Boxed<TypedExpr>>,
    },
    Unary {
        op: UnaryOp,
        e: Boxed<TypedExpr>,
    },
    Cast {
        to: Kind,
        e: Boxed<TypedExpr>,
    },
    Convert {
        to: Kind,
        e: Boxed<TypedExpr>,
    },
    Bump {
        op: BumpOp,
        e: Boxed<TypedExpr>,
    },
    Binary {
        op: BinaryOp,
        left: Boxed<TypedExpr>,
        right: Boxed<TypedExpr>,
    },
    Choice {
        test: Boxed<TypedExpr>,
        yes: Boxed<TypedExpr>,
        no: Boxed<TypedExpr>,
    },
    Assign {
        op: Option<BinaryOp>,
        at: Kind,
        left: Boxed<TypedExpr>,
        right: Boxed<TypedExpr>,
    },
    Comma {
        left: Boxed<TypedExpr>,
        right: Boxed<TypedExpr>,
    },
}

/// A section of a typed switch: the words of its labels, converted to the type of the test, where
/// `default` has none, and its statements.
#[derive(Drop)]
#[cycle(typed_stmt)]
pub struct TypedSection {
    pub labels: Items<Option<u64>>,
    pub body: Items<TypedStmt>,
}

/// A typed statement. The `scalar` of a `Switch` is the one that it counts: a slot of its own, of the type
/// of its test.
#[derive(Drop)]
#[cycle(typed_stmt)]
pub enum TypedStmt {
    Declare {
        place: Place,
        init: Option<Boxed<TypedExpr>>,
    },
    Plain(Option<Boxed<TypedExpr>>),
    Compound(Items<TypedStmt>),
    If {
        test: Boxed<TypedExpr>,
        yes: Boxed<TypedStmt>,
        no: Option<Boxed<TypedStmt>>,
    },
    While {
        test: Boxed<TypedExpr>,
        body: Boxed<TypedStmt>,
    },
    Do {
        body: Boxed<TypedStmt>,
        test: Boxed<TypedExpr>,
    },
    For {
        init: TypedForInit,
        test: Option<Boxed<TypedExpr>>,
        post: Option<Boxed<TypedExpr>>,
        body: Boxed<TypedStmt>,
    },
    Switch {
        scalar: u32,
        test: Boxed<TypedExpr>,
        sections: Items<TypedSection>,
    },
    Break,
    Continue,
    Return(Option<Boxed<TypedExpr>>),
}

/// The first part of a typed `for`.
#[derive(Drop)]
#[cycle(typed_stmt)]
pub enum TypedForInit {
    Nothing,
    First(Boxed<TypedExpr>),
    Locals(Items<TypedStmt>),
}

/// A global: a scalar where its length is none, which counts all elements; `row` is the second size where
/// it has two. `init` has the values given, converted to the kind, and with two sizes whole rows; the rest
/// is zero.
#[derive(Drop)]
pub struct TypedGlobal {
    pub kind: Kind,
    pub length: Option<u32>,
    pub row: Option<u32>,
    pub init: Items<u64>,
}

/// A function: the first `params` of its scalars are its parameters. A `result` of none is void.
#[derive(Drop)]
pub struct TypedFunc {
    pub result: Option<Kind>,
    pub params: u32,
    pub scalars: Items<Slot>,
    pub arrays: Items<TypedArray>,
    pub body: TypedStmt,
}

/// A typed program: its functions are the definitions in the order of the text, and `main` is the
/// number of the function main.
#[derive(Drop)]
pub struct TypedProgram {
    pub globals: Items<TypedGlobal>,
    pub functions: Items<TypedFunc>,
    pub main: u32,
}
