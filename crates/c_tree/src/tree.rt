use crate::{Kind, Word};
use base::{Boxed, Items};

/// A unary operator other than `++` and `--` (C17 6.5.3.3).
#[derive(Clone, Copy, Debug, PartialEq, Eq)]
pub enum UnaryOp {
    Plus,
    Minus,
    Complement,
    Not,
}

/// `++` and `--` before and after their operand (C17 6.5.2.4, 6.5.3.1).
#[derive(Clone, Copy, Debug, PartialEq, Eq)]
pub enum BumpOp {
    PreInc,
    PreDec,
    PostInc,
    PostDec,
}

/// A binary operator (C17 6.5.5 to 6.5.14), from the loosest level to the tightest.
#[derive(Clone, Copy, Debug, PartialEq, Eq)]
pub enum BinaryOp {
    LogicalOr,
    LogicalAnd,
    BitOr,
    BitXor,
    BitAnd,
    Equal,
    NotEqual,
    Less,
    Greater,
    LessEqual,
    GreaterEqual,
    ShiftLeft,
    ShiftRight,
    Add,
    Subtract,
    Multiply,
    Divide,
    Remainder,
}

/// An expression (C17 6.5): the offset of its first token in the text, and in `at` that of the token that names what
/// it does, which the grammar says.
#[derive(Drop)]
#[cycle(expr)]
pub struct Expr {
    pub offset: u32,
    pub at: u32,
    pub node: ExprNode,
}

/// What an expression is. A parenthesised one is a `Group`.
///
/// An `Element` of an array with two sizes has the first of its two indexes as `row`. `Assign` has the
/// operator of a compound assignment, and none for `=`.
#[derive(Drop)]
#[cycle(expr)]
pub enum ExprNode {
    Number {
        value: u64,
        kind: Kind,
    },
    Name(Word),
    Element {
        array: Word,
        row: Option<Boxed<Expr>>,
        index: Boxed<Expr>,
    },
    Call {
        function: Word,
        args: Items<Boxed<Expr>>,
    },
    Group(Boxed<Expr>),
    Unary {
        op: UnaryOp,
        e: Boxed<Expr>,
    },
    Cast {
        to: Kind,
        e: Boxed<Expr>,
    },
    Bump {
        op: BumpOp,
        e: Boxed<Expr>,
    },
    Binary {
        op: BinaryOp,
        left: Boxed<Expr>,
        right: Boxed<Expr>,
    },
    Choice {
        test: Boxed<Expr>,
        yes: Boxed<Expr>,
        no: Boxed<Expr>,
    },
    Assign {
        op: Option<BinaryOp>,
        left: Boxed<Expr>,
        right: Boxed<Expr>,
    },
    Comma {
        left: Boxed<Expr>,
        right: Boxed<Expr>,
    },
}

/// What follows a declared name: no brackets, empty ones, ones with a size, or two pairs of brackets, of
/// which the first may be empty.
#[derive(Drop)]
pub enum ArraySize {
    Scalar,
    Open,
    Sized(Boxed<Expr>),
    Rows {
        rows: Option<Boxed<Expr>>,
        size: Boxed<Expr>,
    },
}

/// A label of a section, at the offset of its keyword: a case with its constant, or `default`, which has
/// none (C17 6.8.1).
#[derive(Drop)]
pub struct Label {
    pub offset: u32,
    pub value: Option<Boxed<Expr>>,
}

/// A section of a switch: its labels, one at least, and the statements behind them, one at least.
#[derive(Drop)]
#[cycle(stmt)]
pub struct Section {
    pub labels: Items<Label>,
    pub body: Items<Stmt>,
}

/// A statement (C17 6.8) or a local declaration, and the offset of its first token.
///
/// A `Declare` stands at the offset of its name.
#[derive(Drop)]
#[cycle(stmt)]
pub struct Stmt {
    pub offset: u32,
    pub node: StmtNode,
}

/// What a statement is. A declaration gives one `Declare` for each of its declarators.
#[derive(Drop)]
#[cycle(stmt)]
pub enum StmtNode {
    Declare {
        kind: Kind,
        name: Word,
        size: ArraySize,
        init: Option<Boxed<Expr>>,
    },
    Plain(Option<Boxed<Expr>>),
    Compound(Items<Stmt>),
    If {
        test: Boxed<Expr>,
        yes: Boxed<Stmt>,
        no: Option<Boxed<Stmt>>,
    },
    While {
        test: Boxed<Expr>,
        body: Boxed<Stmt>,
    },
    Do {
        body: Boxed<Stmt>,
        test: Boxed<Expr>,
    },
    For {
        init: ForInit,
        test: Option<Boxed<Expr>>,
        post: Option<Boxed<Expr>>,
        body: Boxed<Stmt>,
    },
    Switch {
        test: Boxed<Expr>,
        sections: Items<Section>,
    },
    Break,
    Continue,
    Return(Option<Boxed<Expr>>),
}

/// The first part of a `for`: nothing, an expression, or the declarators of a declaration.
#[derive(Drop)]
#[cycle(stmt)]
pub enum ForInit {
    Nothing,
    First(Boxed<Expr>),
    Locals(Items<Stmt>),
}

/// A parameter, at the offset of its name, or of its type where it has none.
#[derive(Drop)]
pub struct Param {
    pub offset: u32,
    pub kind: Kind,
    pub name: Option<Word>,
    pub size: ArraySize,
}

/// An item of a translation unit (C17 6.9): the include at its offset, others at the offset of their name.
#[derive(Drop)]
pub struct Top {
    pub offset: u32,
    pub node: TopNode,
}

/// What an item is. A declaration of globals gives one `Global` for each of its declarators.
///
/// A global's `init` has one list of values for each row that is given where it has two sizes, and else
/// one list, which has one value for a scalar; without an initialiser it has none. A `result` of none is
/// void, and a `body` of none makes a prototype.
#[derive(Drop)]
pub enum TopNode {
    Include,
    Global {
        kind: Kind,
        name: Word,
        size: ArraySize,
        init: Items<Items<Boxed<Expr>>>,
    },
    Func {
        result: Option<Kind>,
        name: Word,
        params: Items<Param>,
        body: Option<Stmt>,
    },
}

/// A translation unit (C17 6.9).
#[derive(Drop)]
pub struct Program {
    pub items: Items<Top>,
}
