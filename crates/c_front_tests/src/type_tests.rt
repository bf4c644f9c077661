//! The rows of units, built as trees.

use crate::type_constant_rows::CONSTANTS;
use crate::type_rows::{Body, Item, ROWS, Row, Typed, Value};
use base::{Boxed, Items};
use c_tree::{
    ArraySize, BinaryOp, Expr, ExprNode, Kind, Param, Program, Stmt, StmtNode, Top, TopNode,
    TypedExpr, TypedFunc, TypedGlobal, TypedNode, TypedProgram, TypedStmt, Word,
};
use c_type::{TypeFault, type_program};
use std::alloc::Global;
use std::process::Abort;

fn number(offset: u32, value: u64) -> Expr {
    let node = ExprNode::Number {
        value,
        kind: Kind::Int,
    };
    Expr {
        offset,
        at: offset,
        node,
    }
}

fn call(alloc: Global, name: &[u8]) -> Result<ExprNode, TypeFault> {
    Ok(ExprNode::Call {
        function: Word::from_slice(alloc, name)?,
        args: Items::new(alloc),
    })
}

/// The first element of an array.
fn element(alloc: Global, offset: u32, name: &[u8]) -> Result<ExprNode, TypeFault> {
    let array = Word::from_slice(alloc, name)?;
    let index = Boxed::new(alloc, number(offset, 0))?;
    let row = None;
    Ok(ExprNode::Element { array, row, index })
}

fn expression_node(alloc: Global, offset: u32, value: Value) -> Result<ExprNode, TypeFault> {
    match value {
        Value::Number(value) => Ok(ExprNode::Number {
            value,
            kind: Kind::Int,
        }),
        Value::Name(name) => Ok(ExprNode::Name(Word::from_slice(alloc, name)?)),
        Value::Call(name) => call(alloc, name),
        Value::Element(name) => element(alloc, offset, name),
    }
}

fn expression(alloc: Global, offset: u32, value: Value) -> Result<Boxed<Expr>, TypeFault> {
    let node = expression_node(alloc, offset, value)?;
    let at = offset;
    Ok(Boxed::new(alloc, Expr { offset, at, node })?)
}

fn declaration(
    alloc: Global,
    offset: u32,
    name: &[u8],
    init: Value,
) -> Result<StmtNode, TypeFault> {
    let name = Word::from_slice(alloc, name)?;
    let init = expression(alloc, offset, init)?;
    Ok(StmtNode::Declare {
        kind: Kind::Int,
        name,
        size: ArraySize::Scalar,
        init: Some(init),
    })
}

fn statement_node(alloc: Global, offset: u32, body: Body) -> Result<StmtNode, TypeFault> {
    match body {
        Body::Give(value) => Ok(StmtNode::Return(Some(expression(alloc, offset, value)?))),
        Body::Leave => Ok(StmtNode::Return(None)),
        Body::Break => Ok(StmtNode::Break),
        Body::Scalar(name, init) => declaration(alloc, offset, name, init),
    }
}

fn statement(alloc: Global, offset: u32, body: Body) -> Result<Stmt, TypeFault> {
    let node = statement_node(alloc, offset, body)?;
    Ok(Stmt { offset, node })
}

fn block(alloc: Global, offset: u32, body: Body) -> Result<Stmt, TypeFault> {
    let mut all = Items::new(alloc);
    all.push(statement(alloc, offset, body)?)?;
    Ok(Stmt {
        offset,
        node: StmtNode::Compound(all),
    })
}

fn param(alloc: Global, offset: u32, number: u8) -> Result<Param, TypeFault> {
    let name = Word::from_slice(alloc, &[b'p'.wrapping_add(number)])?;
    Ok(Param {
        offset,
        kind: Kind::Int,
        name: Some(name),
        size: ArraySize::Scalar,
    })
}

fn params(alloc: Global, offset: u32, count: u8) -> Result<Items<Param>, TypeFault> {
    let mut all = Items::new(alloc);
    for number in 0..count {
        all.push(param(alloc, offset, number)?)?;
    }
    Ok(all)
}

/// What a function has before its body.
#[derive(Drop)]
struct Signature {
    offset: u32,
    name: Word,
    params: Items<Param>,
}

fn head(alloc: Global, offset: u32, name: &[u8], count: u8) -> Result<Signature, TypeFault> {
    let name = Word::from_slice(alloc, name)?;
    let params = params(alloc, offset, count)?;
    Ok(Signature {
        offset,
        name,
        params,
    })
}

fn function_of(head: Signature, body: Option<Stmt>) -> Top {
    Top {
        offset: head.offset,
        node: TopNode::Func {
            result: Some(Kind::Int),
            name: head.name,
            params: head.params,
            body,
        },
    }
}

fn prototype(alloc: Global, offset: u32, name: &[u8], count: u8) -> Result<Top, TypeFault> {
    let head = head(alloc, offset, name, count)?;
    Ok(function_of(head, None))
}

fn function(
    alloc: Global,
    offset: u32,
    name: &[u8],
    count: u8,
    body: Body,
) -> Result<Top, TypeFault> {
    let head = head(alloc, offset, name, count)?;
    let body = block(alloc, offset.wrapping_add(1), body)?;
    Ok(function_of(head, Some(body)))
}

fn global_of(
    offset: u32,
    kind: Kind,
    name: Word,
    size: ArraySize,
    init: Items<Items<Boxed<Expr>>>,
) -> Top {
    Top {
        offset,
        node: TopNode::Global {
            kind,
            name,
            size,
            init,
        },
    }
}

/// One list of one value.
fn values(
    alloc: Global,
    offset: u32,
    value: Value,
) -> Result<Items<Items<Boxed<Expr>>>, TypeFault> {
    let mut all = Items::new(alloc);
    all.push(expression(alloc, offset, value)?)?;
    let mut lists = Items::new(alloc);
    lists.push(all)?;
    Ok(lists)
}

fn scalar(alloc: Global, offset: u32, name: &[u8], value: Value) -> Result<Top, TypeFault> {
    let name = Word::from_slice(alloc, name)?;
    let init = values(alloc, offset, value)?;
    Ok(global_of(offset, Kind::Char, name, ArraySize::Scalar, init))
}

fn array(alloc: Global, offset: u32, name: &[u8], count: u64) -> Result<Top, TypeFault> {
    let name = Word::from_slice(alloc, name)?;
    let size = ArraySize::Sized(Boxed::new(alloc, number(offset, count))?);
    Ok(global_of(offset, Kind::Char, name, size, Items::new(alloc)))
}

fn open_array(alloc: Global, offset: u32, name: &[u8], value: Value) -> Result<Top, TypeFault> {
    let name = Word::from_slice(alloc, name)?;
    let init = values(alloc, offset.wrapping_add(1), value)?;
    Ok(global_of(offset, Kind::Long, name, ArraySize::Open, init))
}

fn item(alloc: Global, item: Item) -> Result<Top, TypeFault> {
    match item {
        Item::Include(offset) => Ok(Top {
            offset,
            node: TopNode::Include,
        }),
        Item::Global(offset, name, value) => scalar(alloc, offset, name, value),
        Item::Array(offset, name, count) => array(alloc, offset, name, count),
        Item::Open(offset, name, value) => open_array(alloc, offset, name, value),
        Item::Prototype(offset, name, count) => prototype(alloc, offset, name, count),
        Item::Function(offset, name, count, body) => function(alloc, offset, name, count, body),
    }
}

fn unit(alloc: Global, items: &[Item]) -> Result<Program, TypeFault> {
    let mut all = Items::new(alloc);
    for one in items {
        all.push(item(alloc, *one)?)?;
    }
    Ok(Program { items: all })
}

fn typed(alloc: Global, items: &[Item]) -> Result<TypedProgram, TypeFault> {
    type_program(alloc, unit(alloc, items)?)
}

fn answer(alloc: Global, items: &[Item]) -> Result<Typed, TypeFault> {
    let program = typed(alloc, items)?;
    Ok(Typed {
        globals: program.globals.len(),
        functions: program.functions.len(),
        main: program.main,
    })
}

fn assert_rows(rt: &impl Abort, alloc: Global, rows: &[Row]) {
    for (name, items, want) in rows {
        assert_eq!(rt; answer(alloc, items), *want, "{name}");
    }
}

#[test]
fn units_have_their_typing_or_their_fault(rt: HostRuntime) {
    assert_rows(&rt, rt.alloc(), ROWS);
    assert_rows(&rt, rt.alloc(), CONSTANTS);
}

/// The first value of the first global.
fn first_value(globals: &[TypedGlobal]) -> Option<u64> {
    match globals {
        [global, ..] => global.init.as_slice().first().copied(),
        [] => None,
    }
}

/// Whether a body is `return e;` with an `e` that is converted to int.
fn gives_converted(body: &[TypedStmt]) -> bool {
    match body {
        [TypedStmt::Return(Some(e))] => is_converted(e.get()),
        _ => false,
    }
}

fn is_converted(e: &TypedExpr) -> bool {
    match &e.node {
        TypedNode::Convert { to, .. } => *to == Kind::Int,
        _ => false,
    }
}

fn has_converted(functions: &[TypedFunc]) -> bool {
    match functions {
        [function] => match &function.body {
            TypedStmt::Compound(body) => gives_converted(body.as_slice()),
            _ => false,
        },
        _ => false,
    }
}

const NARROW: &[Item] = &[
    Item::Global(1, b"x", Value::Number(511)),
    Item::Function(2, b"main", 0, Body::Give(Value::Name(b"x"))),
];

fn assert_value(rt: &impl Abort, globals: &[TypedGlobal]) {
    assert_eq!(rt; first_value(globals), Some(u64::MAX), "511 as a char");
}

fn assert_converted(rt: &impl Abort, functions: &[TypedFunc]) {
    assert!(rt;
        has_converted(functions),
        "a char that an int function returns"
    );
}

fn assert_values(rt: &impl Abort, alloc: Global, items: &[Item]) -> Result<(), TypeFault> {
    let program = typed(alloc, items)?;
    assert_value(rt, program.globals.as_slice());
    assert_converted(rt, program.functions.as_slice());
    Ok(())
}

#[test]
fn values_are_converted(rt: HostRuntime) -> Result<(), TypeFault> {
    assert_values(&rt, rt.alloc(), NARROW)
}

fn plus_zero(alloc: Global, left: Boxed<Expr>) -> Result<Boxed<Expr>, TypeFault> {
    let node = ExprNode::Binary {
        op: BinaryOp::Add,
        left,
        right: Boxed::new(alloc, number(1, 0))?,
    };
    let (offset, at) = (1, 1);
    Ok(Boxed::new(alloc, Expr { offset, at, node })?)
}

/// `0 + 0 + .. + 0`, grouped to the left.
fn chain(alloc: Global, count: u32) -> Result<Boxed<Expr>, TypeFault> {
    let mut sum = Boxed::new(alloc, number(1, 0))?;
    for _ in 0..count {
        sum = plus_zero(alloc, sum)?;
    }
    Ok(sum)
}

fn give(e: Boxed<Expr>) -> Stmt {
    Stmt {
        offset: 1,
        node: StmtNode::Return(Some(e)),
    }
}

/// A function that gives a chain.
fn chained(alloc: Global, count: u32) -> Result<Top, TypeFault> {
    let head = head(alloc, 1, b"main", 0)?;
    let sum = chain(alloc, count)?;
    Ok(function_of(head, Some(give(sum))))
}

fn chained_unit(alloc: Global, count: u32) -> Result<Program, TypeFault> {
    let mut items = Items::new(alloc);
    items.push(chained(alloc, count)?)?;
    Ok(Program { items })
}

fn assert_chain(rt: &impl Abort, alloc: Global, count: u32) -> Result<(), TypeFault> {
    let program = type_program(alloc, chained_unit(alloc, count)?)?;
    assert_eq!(rt; program.functions.len(), 1);
    Ok(())
}

#[test]
fn a_chain_of_4000_additions_is_typed(rt: HostRuntime) -> Result<(), TypeFault> {
    assert_chain(&rt, rt.alloc(), 4_000)
}
