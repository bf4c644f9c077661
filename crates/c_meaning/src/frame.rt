use crate::arguments::Arguments;
use crate::scalars::Scalars;
use base::Boxed;
use c_meaning_spec::{Halt, Object, Signal};
use c_tree::{BinaryOp, BumpOp, Callee, Kind, Place, TypedExpr, TypedSection, TypedStmt, UnaryOp};

/// A loop from its test on.
#[derive(Clone, Copy)]
pub struct Loop<'a> {
    pub test: Option<&'a TypedExpr>,
    pub post: Option<&'a TypedExpr>,
    pub body: &'a TypedStmt,
}

/// A part of the program that is to be evaluated.
#[derive(Clone, Copy)]
pub enum Task<'a> {
    Of(&'a TypedExpr),
    Run(&'a TypedStmt),
    Turn(Loop<'a>),
}

/// What an expression that is evaluated next is to the node in which it stands: a right operand, the right
/// side of an assignment to an element, or the second of two indexes.
#[derive(Clone, Copy)]
pub enum Operand {
    Right {
        op: BinaryOp,
        kind: Option<Kind>,
    },
    OfAnd,
    OfOr,
    OfComma,
    Stored {
        op: Option<BinaryOp>,
        to: Option<Kind>,
        at: Kind,
        place: Place,
    },
    StoredRow {
        op: Option<BinaryOp>,
        to: Option<Kind>,
        at: Kind,
        place: Place,
        row: u64,
    },
    AfterRow(Place),
    BumpAfterRow {
        op: BumpOp,
        kind: Option<Kind>,
        place: Place,
    },
}

/// Where a loop is: before its declarations, its first turn, after its test or after its body.
#[derive(Clone, Copy)]
pub enum Stage {
    Begins,
    Turns,
    Tests,
    Ran,
}

/// What a call gives back to its caller beside its scalars: the count of arrays, its base and its room.
#[derive(Clone, Copy)]
pub struct Caller {
    pub count: u32,
    pub base: u32,
    pub room: u32,
}

/// What follows a part.
#[derive(Drop)]
pub enum Frame<'a> {
    Converting(Kind),
    Unary {
        op: UnaryOp,
        kind: Option<Kind>,
    },
    Element(Place),
    RowElement {
        place: Place,
        row: u64,
    },
    Argument {
        token: u32,
        callee: Callee,
        rest: &'a [Boxed<TypedExpr>],
        done: Arguments,
    },
    Operand {
        operand: Operand,
        right: &'a TypedExpr,
    },
    Operated {
        op: BinaryOp,
        kind: Option<Kind>,
        left: u64,
    },
    Truth,
    Valued,
    Choice {
        first: &'a TypedExpr,
        other: &'a TypedExpr,
    },
    Assigned(Object),
    Compounded {
        op: BinaryOp,
        to: Option<Kind>,
        at: Kind,
        object: Object,
        old: u64,
    },
    BumpElement {
        op: BumpOp,
        kind: Option<Kind>,
        place: Place,
    },
    BumpRow {
        op: BumpOp,
        kind: Option<Kind>,
        place: Place,
        row: u64,
    },
    StoredAfterRow {
        op: Option<BinaryOp>,
        to: Option<Kind>,
        at: Kind,
        place: Place,
        index: &'a TypedExpr,
        right: &'a TypedExpr,
    },
    Caller {
        is_main: bool,
        scalars: Scalars,
        caller: Caller,
    },
    Dropped,
    Initialised(u32),
    Sequence(&'a [TypedStmt]),
    If {
        first: &'a TypedStmt,
        other: Option<&'a TypedStmt>,
    },
    Turning {
        stage: Stage,
        rest: &'a [TypedStmt],
        turn: Loop<'a>,
    },
    Switch(&'a [TypedSection]),
    Sections {
        rest: &'a [TypedStmt],
        behind: &'a [TypedSection],
    },
    Returning,
}

/// What waits behind a part: what follows it, the token of the expression that it is, or that of the call whose body it
/// is.
#[derive(Drop)]
pub enum Waiting<'a> {
    Follows(Frame<'a>),
    Place(u32),
    Call(u32),
}

/// What is done next.
#[derive(Clone, Copy)]
pub enum Move<'a> {
    Do(Task<'a>),
    Give(Signal),
    End(Halt),
}
