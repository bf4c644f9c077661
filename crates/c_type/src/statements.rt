//! The typing of statements, node by node.

ghost use Rattle.std.specs.Prelude.{◌≡◌, [], map, option_map};
ghost use Rattle.c_tree.specs.declared.tree.StmtNode.TheVariants as node;
ghost use Rattle.c_type.specs.States.{at, in_loop};
ghost use Rattle.c_type.specs.LeftOut.{tree_if};
ghost use Rattle.c_type.specs.Statements.{part, beginning_of, tail_fault, rest_fault};
ghost use Rattle.c_type.specs.inside.Statements.{section_of};
ghost use Rattle.c_type.specs.inside.Runs.{Runs, Moves, RunAll, RunElse, RunLegs, RunSection, RunSections};
ghost use Rattle.c_type.specs.inside.Runs.{Begins};

use crate::declarations::declare;
use crate::jumps::{break_stmt, continue_stmt, give};
use crate::parts::{full_if, plain};
use crate::seen::SeenLabels;
use crate::state::{Around, State};
use crate::switches::{section_labels, switch_scalar, switch_test};
use base::{Boxed, Items, Queue};
use c_tree::{
    Expr, ForInit, Kind, Section, Stmt, StmtNode, TypedExpr, TypedForInit, TypedSection, TypedStmt,
};
use c_type_expr::{Role, TypeFault, full};
use std::alloc::Global;

// Around the body of a loop.
const IN_LOOP: Around = Around {
    may_break: true,
    may_continue: true,
};

/// The statements of a block, one after another.
#[cycle(stmt)]
pub fn all(
    alloc: Global,
    state: &mut State,
    around: Around,
    body: Items<Stmt>,
) -> Result<Items<TypedStmt>, TypeFault>
    ensures { RunAll (map part body) around state.old state.new result }
{
    let mut rest = Queue::from_items(body);
    let mut found = Items::new(alloc);
    while let Some(stmt) = rest.pop() {
        let stmt = type_stmt(alloc, state, around, stmt)?;
        found.push(stmt)?;
    }
    Ok(found)
}

#[cycle(stmt)]
#[tactic(auto, using(crate::proofs::Nodes::on_compound))]
fn block(
    alloc: Global,
    state: &mut State,
    around: Around,
    offset: u32,
    body: Items<Stmt>,
) -> Result<TypedStmt, TypeFault>
    ensures { Runs (part (at offset (node.Compound body))) around state.old state.new result }
{
    state.names.open()?;
    let body = all(alloc, state, around, body)?;
    state.names.close();
    Ok(TypedStmt::Compound(body))
}

#[cycle(stmt)]
fn boxed(
    alloc: Global,
    state: &mut State,
    around: Around,
    s: Boxed<Stmt>,
) -> Result<Boxed<TypedStmt>, TypeFault>
    ensures { Runs (part s) around state.old state.new result }
{
    let s = type_stmt(alloc, state, around, s.into_inner())?;
    Ok(Boxed::new(alloc, s)?)
}

#[cycle(stmt)]
fn else_leg(
    alloc: Global,
    state: &mut State,
    around: Around,
    no: Option<Boxed<Stmt>>,
) -> Result<Option<Boxed<TypedStmt>>, TypeFault>
    ensures { RunElse (option_map part no) around state.old state.new result }
{
    match no {
        None => Ok(None),
        Some(no) => {
            let no = boxed(alloc, state, around, no)?;
            Ok(Some(no))
        }
    }
}

#[cycle(stmt)]
fn legs(
    alloc: Global,
    state: &mut State,
    around: Around,
    yes: Boxed<Stmt>,
    no: Option<Boxed<Stmt>>,
) -> Result<(Boxed<TypedStmt>, Option<Boxed<TypedStmt>>), TypeFault>
    ensures { RunLegs (part yes) (option_map part no) around state.old state.new result }
{
    let yes = boxed(alloc, state, around, yes)?;
    let no = else_leg(alloc, state, around, no)?;
    Ok((yes, no))
}

#[cycle(stmt)]
#[tactic(auto, using(crate::proofs::Nodes::on_if))]
fn either(
    alloc: Global,
    state: &mut State,
    around: Around,
    offset: u32,
    test: Boxed<Expr>,
    yes: Boxed<Stmt>,
    no: Option<Boxed<Stmt>>,
) -> Result<TypedStmt, TypeFault>
    ensures { Runs (part (at offset (node.If test yes no))) around state.old state.new result }
{
    let test = full(alloc, &state.names, Role::Value, test)?;
    let (yes, no) = legs(alloc, state, around, yes, no)?;
    Ok(TypedStmt::If { test, yes, no })
}

#[cycle(stmt)]
#[tactic(auto, using(crate::proofs::Nodes::on_while))]
fn while_stmt(
    alloc: Global,
    state: &mut State,
    around: Around,
    offset: u32,
    test: Boxed<Expr>,
    body: Boxed<Stmt>,
) -> Result<TypedStmt, TypeFault>
    ensures { Runs (part (at offset (node.While test body))) around state.old state.new result }
{
    let test = full(alloc, &state.names, Role::Value, test)?;
    let body = boxed(alloc, state, IN_LOOP, body)?;
    Ok(TypedStmt::While { test, body })
}

#[cycle(stmt)]
#[tactic(auto, using(crate::proofs::Nodes::on_do))]
fn do_stmt(
    alloc: Global,
    state: &mut State,
    around: Around,
    offset: u32,
    body: Boxed<Stmt>,
    test: Boxed<Expr>,
) -> Result<TypedStmt, TypeFault>
    ensures { Runs (part (at offset (node.Do body test))) around state.old state.new result }
{
    let body = boxed(alloc, state, IN_LOOP, body)?;
    let test = full(alloc, &state.names, Role::Value, test)?;
    Ok(TypedStmt::Do { body, test })
}

#[cycle(stmt)]
#[tactic(auto, using(crate::proofs::BeginningNodes::beginnings))]
fn beginning(
    alloc: Global,
    state: &mut State,
    around: Around,
    init: ForInit,
) -> Result<TypedForInit, TypeFault>
    ensures { Begins (beginning_of init) around state.old state.new result }
{
    match init {
        ForInit::Nothing => Ok(TypedForInit::Nothing),
        ForInit::First(e) => {
            let e = full(alloc, &state.names, Role::Free, e)?;
            Ok(TypedForInit::First(e))
        }
        ForInit::Locals(locals) => {
            let locals = all(alloc, state, around, locals)?;
            Ok(TypedForInit::Locals(locals))
        }
    }
}

/// The third part of a `for`, and its body.
#[derive(Drop)]
struct Tail {
    post: Option<Boxed<Expr>>,
    body: Boxed<Stmt>,
}

/// What follows the first part of a `for`.
#[derive(Drop)]
struct Rest {
    test: Option<Boxed<Expr>>,
    tail: Tail,
}

#[cycle(stmt)]
fn tail_of(
    alloc: Global,
    state: &mut State,
    tail: Tail,
) -> Result<(Option<Boxed<TypedExpr>>, Boxed<TypedStmt>), TypeFault>
    ensures { Moves (tail_fault tail.post (part tail.body) state.old)
        (tree_if tail.post state.old.names, (part tail.body).tree state.old)
        ((part tail.body).after state.old) state.new result }
{
    let Tail { post, body } = tail;
    let post = full_if(alloc, &state.names, Role::Free, post)?;
    let body = boxed(alloc, state, IN_LOOP, body)?;
    Ok((post, body))
}

#[cycle(stmt)]
fn rest_of(
    alloc: Global,
    state: &mut State,
    rest: Rest,
) -> Result<
    (
        Option<Boxed<TypedExpr>>,
        (Option<Boxed<TypedExpr>>, Boxed<TypedStmt>),
    ),
    TypeFault,
>
    ensures { Moves (rest_fault rest.test rest.tail.post (part rest.tail.body) state.old) (
      tree_if rest.test state.old.names,
      (
        tree_if rest.tail.post state.old.names,
        (part rest.tail.body).tree state.old,
      ),
    )
        ((part rest.tail.body).after state.old) state.new result }
{
    let Rest { test, tail } = rest;
    let test = full_if(alloc, &state.names, Role::Value, test)?;
    let tail = tail_of(alloc, state, tail)?;
    Ok((test, tail))
}

#[cycle(stmt)]
#[tactic(auto, using(crate::proofs::Nodes::on_for))]
fn for_stmt(
    alloc: Global,
    state: &mut State,
    around: Around,
    offset: u32,
    init: ForInit,
    rest: Rest,
) -> Result<TypedStmt, TypeFault>
    ensures { Runs (part (at offset (node.For init rest.test rest.tail.post rest.tail.body))) around
        state.old state.new result }
{
    state.names.open()?;
    let init = beginning(alloc, state, around, init)?;
    let (test, (post, body)) = rest_of(alloc, state, rest)?;
    state.names.close();
    Ok(TypedStmt::For {
        init,
        test,
        post,
        body,
    })
}

#[cycle(stmt)]
fn section(
    alloc: Global,
    state: &mut State,
    around: Around,
    kind: Kind,
    seen: &mut SeenLabels,
    s: Section,
) -> Result<TypedSection, TypeFault>
    ensures { RunSection kind seen.old (section_of s) around state.old state.new seen.new result }
{
    let Section { labels, body } = s;
    let labels = section_labels(alloc, &state.names, kind, seen, labels.as_slice())?;
    let body = all(alloc, state, around, body)?;
    Ok(TypedSection { labels, body })
}

/// The sections of a switch, one after another.
#[cycle(stmt)]
fn some_sections(
    alloc: Global,
    state: &mut State,
    around: Around,
    kind: Kind,
    sections: Items<Section>,
) -> Result<Items<TypedSection>, TypeFault>
    ensures { RunSections kind [] (map section_of sections) around state.old state.new result }
{
    let mut rest = Queue::from_items(sections);
    let mut found = Items::new(alloc);
    let mut seen = SeenLabels::new(alloc);
    while let Some(s) = rest.pop() {
        let s = section(alloc, state, around, kind, &mut seen, s)?;
        found.push(s)?;
    }
    Ok(found)
}

#[cycle(stmt)]
#[tactic(auto, using(crate::proofs::SwitchNodes::on_switch))]
fn switch(
    alloc: Global,
    state: &mut State,
    around: Around,
    offset: u32,
    test: Boxed<Expr>,
    sections: Items<Section>,
) -> Result<TypedStmt, TypeFault>
    ensures { Runs (part (at offset (node.Switch test sections))) around state.old state.new result }
{
    let (test, kind) = switch_test(alloc, &state.names, test)?;
    let scalar = switch_scalar(state, kind, offset)?;
    let around = Around {
        may_break: true,
        may_continue: around.may_continue,
    };
    let sections = some_sections(alloc, state, around, kind, sections)?;
    Ok(TypedStmt::Switch {
        scalar,
        test,
        sections,
    })
}

/// The typed tree of a statement, or its first fault.
#[cycle(stmt)]
pub fn type_stmt(
    alloc: Global,
    state: &mut State,
    around: Around,
    s: Stmt,
) -> Result<TypedStmt, TypeFault>
    ensures { Runs (part s) around state.old state.new result }
{
    let Stmt { offset, node } = s;
    match node {
        StmtNode::Declare {
            kind,
            name,
            size,
            init,
        } => declare(alloc, state, around, offset, kind, name, size, init),
        StmtNode::Plain(e) => plain(alloc, state, around, offset, e),
        StmtNode::Compound(body) => block(alloc, state, around, offset, body),
        StmtNode::If { test, yes, no } => either(alloc, state, around, offset, test, yes, no),
        StmtNode::While { test, body } => while_stmt(alloc, state, around, offset, test, body),
        StmtNode::Do { body, test } => do_stmt(alloc, state, around, offset, body, test),
        StmtNode::For {
            init,
            test,
            post,
            body,
        } => {
            let tail = Tail { post, body };
            for_stmt(alloc, state, around, offset, init, Rest { test, tail })
        }
        StmtNode::Switch { test, sections } => {
            switch(alloc, state, around, offset, test, sections)
        }
        StmtNode::Break => break_stmt(state, around, offset),
        StmtNode::Continue => continue_stmt(state, around, offset),
        StmtNode::Return(e) => give(alloc, state, around, offset, e),
    }
}
