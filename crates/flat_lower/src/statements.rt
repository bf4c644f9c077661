//! The flat code of statements.

ghost use Rattle.std.specs.Prelude.{◌≡◌, Some, None, OnOk, IfOk};
ghost use Rattle.ir_forms.specs.inside.FlatCode as flat;
ghost use Rattle.ir_forms.specs.inside.FlatCode.{Then, only};
ghost use Rattle.ir_forms.specs.inside.FlatViews.{code_of};
ghost use Rattle.c_tree.specs.declared.Place.TheVariants.{Scalar};
ghost use Rattle.flat_lower.specs.inside.Tree as tree;
ghost use Rattle.flat_lower.specs.inside.TreeViews.{expr_of, expr_if, stmt_of};
ghost use Rattle.flat_lower.specs.inside.Operations as operations;
ghost use Rattle.flat_lower.specs.inside.Expressions.{expr_code};
ghost use Rattle.flat_lower.specs.inside.Statements.{expr_if_code, declare_code, return_code, if_so};
ghost use Rattle.flat_lower.specs.inside.Statements.{turn_code, loop_code, do_code, stmt_code, stmts_code};
ghost use Rattle.flat_lower.specs.inside.Statements.{first_code, sections_code};
ghost use Rattle.flat_lower.specs.inside.Switches.{section_code};
ghost use Rattle.flat_lower.specs.inside.Emitted.{Adds, block_of, first_of, other_of, sections_in};

use crate::around::Around;
use crate::emit::{put_if, put_return, scalar, temp};
use crate::expressions::put_value;
use crate::looping::{put_do, put_for, put_while};
use crate::operations::put_copy;
use crate::places::Places;
use crate::plain::put_plain;
use crate::switching::{in_switch, put_broken, put_continued, put_section_of, put_switched};
use base::{Boxed, Items, Memory};
use c_tree::{Place, TypedExpr, TypedForInit, TypedSection, TypedStmt};
use ir_forms::{Arg, FlatStmt};
use std::alloc::Global;

/// An expression, where there is one.
#[tactic(auto, using(crate::proofs::Emits::nothing))]
pub fn put_value_if(
    code: &mut Items<FlatStmt>,
    alloc: Global,
    places: &Places,
    e: &Option<Boxed<TypedExpr>>,
) -> Result<(), Memory>
    ensures { OnOk result (Adds code.old code.new (expr_if_code places.now (expr_if e.now))) }
{
    match e {
        None => Ok(()),
        Some(e) => put_value(code, alloc, places, 0, e.get()),
    }
}

// A scalar's initialiser.
fn put_initialised(
    code: &mut Items<FlatStmt>,
    alloc: Global,
    places: &Places,
    i: u32,
    e: &TypedExpr,
) -> Result<(), Memory>
    ensures { OnOk result (Adds code.old code.new
        (Then (expr_code places.now 0 (expr_of e.now)) (operations.copied i (operations.temp 0)))) }
{
    put_value(code, alloc, places, 0, e)?;
    put_copy(code, scalar(i)?, temp(0))?;
    Ok(())
}

// The declaration of a scalar.
#[tactic(auto, using(crate::proofs::Emits::nothing))]
fn put_scalar_declared(
    code: &mut Items<FlatStmt>,
    alloc: Global,
    places: &Places,
    i: u32,
    init: &Option<Boxed<TypedExpr>>,
) -> Result<(), Memory>
    ensures { OnOk result (Adds code.old code.new
        (declare_code places.now (Scalar i) (expr_if init.now))) }
{
    match init {
        None => Ok(()),
        Some(e) => put_initialised(code, alloc, places, i, e.get()),
    }
}

/// A declaration: a scalar is set by its initialiser alone.
#[tactic(auto, using(crate::proofs::Emits::nothing))]
fn put_declared(
    code: &mut Items<FlatStmt>,
    alloc: Global,
    places: &Places,
    place: Place,
    init: &Option<Boxed<TypedExpr>>,
) -> Result<(), Memory>
    ensures { OnOk result (Adds code.old code.new
        (declare_code places.now place (expr_if init.now))) }
{
    match place {
        Place::Global(_) => Ok(()),
        Place::Scalar(i) => put_scalar_declared(code, alloc, places, i, init),
        Place::Array(_) => Ok(()),
    }
}

// A return of a value.
fn put_value_returned(
    code: &mut Items<FlatStmt>,
    alloc: Global,
    places: &Places,
    e: &TypedExpr,
) -> Result<(), Memory>
    ensures { OnOk result (Adds code.old code.new
        (return_code places.now (Some (expr_of e.now)))) }
{
    put_value(code, alloc, places, 0, e)?;
    put_return(code, Some(Arg::Var(temp(0))))?;
    Ok(())
}

// A return, with or without a value.
fn put_returned(
    code: &mut Items<FlatStmt>,
    alloc: Global,
    places: &Places,
    e: &Option<Boxed<TypedExpr>>,
) -> Result<(), Memory>
    ensures { OnOk result (Adds code.old code.new (return_code places.now (expr_if e.now))) }
{
    match e {
        None => put_return(code, None),
        Some(e) => put_value_returned(code, alloc, places, e.get()),
    }
}

// Statements one after another.
#[cycle(stmt)]
fn put_stmts(
    code: &mut Items<FlatStmt>,
    alloc: Global,
    places: &Places,
    around: Around,
    all: &[TypedStmt],
) -> Result<(), Memory>
    ensures { OnOk result (Adds code.old code.new (stmts_code places.now around (block_of all.now))) }
{
    for s in all {
        put_stmt(code, alloc, places, around, s)?;
    }
    Ok(())
}

/// The code of a statement, on its own.
#[cycle(stmt)]
fn stmt(
    alloc: Global,
    places: &Places,
    around: Around,
    s: &TypedStmt,
) -> Result<Items<FlatStmt>, Memory>
    ensures { IfOk result (λ code. code_of code ≡ stmt_code places.now around (stmt_of s.now)) }
{
    let mut code = Items::new(alloc);
    put_stmt(&mut code, alloc, places, around, s)?;
    Ok(code)
}

/// The code of the statement behind an `else`, where there is one, on its own.
#[cycle(stmt)]
fn stmt_if(
    alloc: Global,
    places: &Places,
    around: Around,
    s: &Option<Boxed<TypedStmt>>,
) -> Result<Items<FlatStmt>, Memory>
    ensures { IfOk result (λ code.
        code_of code ≡ stmts_code places.now around (other_of s.now)) }
{
    match s {
        None => Ok(Items::new(alloc)),
        Some(s) => stmt(alloc, places, around, s.get()),
    }
}

// An `if`.
#[cycle(stmt)]
fn put_choice(
    code: &mut Items<FlatStmt>,
    alloc: Global,
    places: &Places,
    around: Around,
    test: &TypedExpr,
    yes: &TypedStmt,
    no: &Option<Boxed<TypedStmt>>,
) -> Result<(), Memory>
    ensures { OnOk result (Adds code.old code.new (stmt_code places.now around
        (tree.If (expr_of test.now) (stmt_of yes.now) (other_of no.now)))) }
{
    put_value(code, alloc, places, 0, test)?;
    let yes = stmt(alloc, places, around, yes)?;
    let no = stmt_if(alloc, places, around, no)?;
    put_if(code, Arg::Var(temp(0)), yes, no)?;
    Ok(())
}

// A `while`.
#[cycle(stmt)]
fn put_while_loop(
    code: &mut Items<FlatStmt>,
    alloc: Global,
    places: &Places,
    test: &TypedExpr,
    body: &TypedStmt,
) -> Result<(), Memory>
    ensures { OnOk result (Adds code.old code.new (stmt_code places.now Around.Loop
        (tree.While (expr_of test.now) (stmt_of body.now)))) }
{
    let body = stmt(alloc, places, Around::Loop, body)?;
    put_while(code, alloc, places, test, body)?;
    Ok(())
}

// A `do`.
#[cycle(stmt)]
fn put_do_loop(
    code: &mut Items<FlatStmt>,
    alloc: Global,
    places: &Places,
    body: &TypedStmt,
    test: &TypedExpr,
) -> Result<(), Memory>
    ensures { OnOk result (Adds code.old code.new (stmt_code places.now Around.Loop
        (tree.Do (stmt_of body.now) (expr_of test.now)))) }
{
    let body = stmt(alloc, places, Around::Loop, body)?;
    put_do(code, alloc, places, test, body)?;
    Ok(())
}

// The first part of a `for`.
#[cycle(stmt)]
#[tactic(auto, using(crate::proofs::Emits::nothing))]
fn put_first(
    code: &mut Items<FlatStmt>,
    alloc: Global,
    places: &Places,
    around: Around,
    first: &TypedForInit,
) -> Result<(), Memory>
    ensures { OnOk result (Adds code.old code.new (first_code places.now around (first_of first.now))) }
{
    match first {
        TypedForInit::Nothing => Ok(()),
        TypedForInit::First(e) => put_value(code, alloc, places, 0, e.get()),
        TypedForInit::Locals(all) => put_stmts(code, alloc, places, around, all.as_slice()),
    }
}

// A `for`.
#[cycle(stmt)]
fn put_for_loop(
    code: &mut Items<FlatStmt>,
    alloc: Global,
    places: &Places,
    around: Around,
    first: &TypedForInit,
    test: &Option<Boxed<TypedExpr>>,
    post: &Option<Boxed<TypedExpr>>,
    body: &TypedStmt,
) -> Result<(), Memory>
    ensures { OnOk result (Adds code.old code.new (stmt_code places.now around (tree.For
        (first_of first.now) (expr_if test.now) (expr_if post.now) (stmt_of body.now)))) }
{
    put_first(code, alloc, places, around, first)?;
    let body = stmt(alloc, places, Around::Loop, body)?;
    put_for(code, alloc, places, test, post, body)?;
    Ok(())
}

// The section of a switch behind n others.
#[cycle(stmt)]
fn put_section(
    code: &mut Items<FlatStmt>,
    alloc: Global,
    places: &Places,
    around: Around,
    n: u64,
    all: &[TypedStmt],
) -> Result<(), Memory>
    ensures { OnOk result (Adds code.old code.new
        (section_code n (stmts_code places.now around (block_of all.now)))) }
{
    let mut body = Items::new(alloc);
    put_stmts(&mut body, alloc, places, around, all)?;
    put_section_of(code, alloc, n, body)?;
    Ok(())
}

// The sections of a switch, one after another.
#[cycle(stmt)]
fn put_sections(
    code: &mut Items<FlatStmt>,
    alloc: Global,
    places: &Places,
    around: Around,
    sections: &[TypedSection],
) -> Result<(), Memory>
    ensures { OnOk result (Adds code.old code.new
        (sections_code places.now around 0 (sections_in sections.now))) }
{
    let mut n: u64 = 0;
    for section in sections {
        put_section(code, alloc, places, around, n, section.body.as_slice())?;
        n += 1;
    }
    Ok(())
}

// A switch.
#[cycle(stmt)]
fn put_switch(
    code: &mut Items<FlatStmt>,
    alloc: Global,
    places: &Places,
    around: Around,
    test: &TypedExpr,
    sections: &[TypedSection],
) -> Result<(), Memory>
    ensures { OnOk result (Adds code.old code.new (stmt_code places.now around
        (tree.Switch (expr_of test.now) (sections_in sections.now)))) }
{
    put_value(code, alloc, places, 0, test)?;
    let mut body = Items::new(alloc);
    put_sections(&mut body, alloc, places, in_switch(around), sections)?;
    put_switched(code, alloc, around, sections, body)?;
    Ok(())
}

/// A statement.
#[cycle(stmt)]
pub fn put_stmt(
    code: &mut Items<FlatStmt>,
    alloc: Global,
    places: &Places,
    around: Around,
    s: &TypedStmt,
) -> Result<(), Memory>
    ensures { OnOk result (Adds code.old code.new (stmt_code places.now around (stmt_of s.now))) }
{
    match s {
        TypedStmt::Declare { place, init } => put_declared(code, alloc, places, *place, init),
        TypedStmt::Plain(e) => put_plain(code, alloc, places, e),
        TypedStmt::Compound(all) => put_stmts(code, alloc, places, around, all.as_slice()),
        TypedStmt::If { test, yes, no } => put_choice(
            code,
            alloc,
            places,
            around,
            test.get(),
            yes.get(),
            no,
        ),
        TypedStmt::While { test, body } => {
            put_while_loop(code, alloc, places, test.get(), body.get())
        }
        TypedStmt::Do { body, test } => put_do_loop(code, alloc, places, body.get(), test.get()),
        TypedStmt::For {
            init,
            test,
            post,
            body,
        } => put_for_loop(code, alloc, places, around, init, test, post, body.get()),
        TypedStmt::Switch {
            scalar: _,
            test,
            sections,
        } => put_switch(code, alloc, places, around, test.get(), sections.as_slice()),
        TypedStmt::Break => put_broken(code, around),
        TypedStmt::Continue => put_continued(code, around),
        TypedStmt::Return(e) => put_returned(code, alloc, places, e),
    }
}
