//! The flat code of loops whose bodies are emitted.

ghost use Rattle.std.specs.Prelude.{◌≡◌, Some, None, OnOk, IfOk};
ghost use Rattle.ir_forms.specs.inside.FlatCode as flat;
ghost use Rattle.ir_forms.specs.inside.FlatCode.{only};
ghost use Rattle.ir_forms.specs.inside.FlatViews.{code_of};
ghost use Rattle.flat_lower.specs.inside.TreeViews.{expr_of, expr_if};
ghost use Rattle.flat_lower.specs.inside.Expressions.{expr_code};
ghost use Rattle.flat_lower.specs.inside.Statements.{expr_if_code, if_so, turn_code, loop_code, do_code};
ghost use Rattle.flat_lower.specs.inside.Emitted.{Adds};

use crate::emit::{put_break, put_if, put_loop, temp};
use crate::expressions::put_value;
use crate::operations::put_word;
use crate::places::Places;
use crate::statements::put_value_if;
use base::{Boxed, Items, Memory};
use c_tree::TypedExpr;
use ir_forms::{Arg, FlatStmt};
use std::alloc::Global;

/// The code that leaves a loop, on its own.
fn leaving(alloc: Global) -> Result<Items<FlatStmt>, Memory>
    ensures { IfOk result (λ code. code_of code ≡ only flat.Break) }
{
    let mut code = Items::new(alloc);
    put_break(&mut code)?;
    Ok(code)
}

/// A loop's body where the test in temporary 0 holds; else the loop is left.
fn put_if_so(code: &mut Items<FlatStmt>, alloc: Global, body: Items<FlatStmt>) -> Result<(), Memory>
    ensures { OnOk result (Adds code.old code.new (if_so (code_of body))) }
{
    let no = leaving(alloc)?;
    put_if(code, Arg::Var(temp(0)), body, no)?;
    Ok(())
}

/// A turn under a test, on its own.
fn tested_turn(
    alloc: Global,
    places: &Places,
    test: &TypedExpr,
    body: Items<FlatStmt>,
) -> Result<Items<FlatStmt>, Memory>
    ensures { IfOk result (λ code.
        code_of code ≡ turn_code places.now (Some (expr_of test.now)) (code_of body)) }
{
    let mut code = Items::new(alloc);
    put_value(&mut code, alloc, places, 0, test)?;
    put_if_so(&mut code, alloc, body)?;
    Ok(code)
}

/// A turn of a `while` or a `for`, on its own.
fn turn(
    alloc: Global,
    places: &Places,
    test: &Option<Boxed<TypedExpr>>,
    body: Items<FlatStmt>,
) -> Result<Items<FlatStmt>, Memory>
    ensures { IfOk result (λ code.
        code_of code ≡ turn_code places.now (expr_if test.now) (code_of body)) }
{
    match test {
        None => Ok(body),
        Some(test) => tested_turn(alloc, places, test.get(), body),
    }
}

/// What a turn ends with, on its own.
fn behind(
    alloc: Global,
    places: &Places,
    post: &Option<Boxed<TypedExpr>>,
) -> Result<Items<FlatStmt>, Memory>
    ensures { IfOk result (λ code. code_of code ≡ expr_if_code places.now (expr_if post.now)) }
{
    let mut code = Items::new(alloc);
    put_value_if(&mut code, alloc, places, post)?;
    Ok(code)
}

/// A `while` whose body is emitted.
pub fn put_while(
    code: &mut Items<FlatStmt>,
    alloc: Global,
    places: &Places,
    test: &TypedExpr,
    body: Items<FlatStmt>,
) -> Result<(), Memory>
    ensures { OnOk result (Adds code.old code.new
        (loop_code places.now (Some (expr_of test.now)) None (code_of body))) }
{
    let body = tested_turn(alloc, places, test, body)?;
    put_loop(code, body, Items::new(alloc))?;
    Ok(())
}

/// A `for` whose body is emitted, behind its first part.
pub fn put_for(
    code: &mut Items<FlatStmt>,
    alloc: Global,
    places: &Places,
    test: &Option<Boxed<TypedExpr>>,
    post: &Option<Boxed<TypedExpr>>,
    body: Items<FlatStmt>,
) -> Result<(), Memory>
    ensures { OnOk result (Adds code.old code.new
        (loop_code places.now (expr_if test.now) (expr_if post.now) (code_of body))) }
{
    let body = turn(alloc, places, test, body)?;
    let post = behind(alloc, places, post)?;
    put_loop(code, body, post)?;
    Ok(())
}

/// A turn of a `do`, on its own.
fn do_turn(alloc: Global, body: Items<FlatStmt>) -> Result<Items<FlatStmt>, Memory>
    ensures { IfOk result (λ code. code_of code ≡ if_so (code_of body)) }
{
    let mut code = Items::new(alloc);
    put_if_so(&mut code, alloc, body)?;
    Ok(code)
}

/// The code of an expression, on its own.
fn value(alloc: Global, places: &Places, e: &TypedExpr) -> Result<Items<FlatStmt>, Memory>
    ensures { IfOk result (λ code. code_of code ≡ expr_code places.now 0 (expr_of e.now)) }
{
    let mut code = Items::new(alloc);
    put_value(&mut code, alloc, places, 0, e)?;
    Ok(code)
}

/// The test of a `do` stands behind its body; the first turn is taken.
pub fn put_do(
    code: &mut Items<FlatStmt>,
    alloc: Global,
    places: &Places,
    test: &TypedExpr,
    body: Items<FlatStmt>,
) -> Result<(), Memory>
    ensures { OnOk result (Adds code.old code.new
        (do_code places.now (expr_of test.now) (code_of body))) }
{
    put_word(code, temp(0), 1)?;
    let body = do_turn(alloc, body)?;
    let post = value(alloc, places, test)?;
    put_loop(code, body, post)?;
    Ok(())
}
