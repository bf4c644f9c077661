//! The last parts of loops, and whether they have blocks of their own.

ghost use Rattle.std.specs.Prelude.{◌≡◌, ◌&&◌, not};
ghost use Rattle.ir_forms.specs.inside.FlatViews.{code_of, step_of};
ghost use Rattle.hyper_build.specs.inside.Legs as legs;
ghost use Rattle.hyper_build.specs.inside.BackwardCode as code;

use crate::straight::{both, either, is_no_leg};
use ir_forms::FlatStmt;

/// Whether a statement is one operation.
fn is_operation(s: &FlatStmt) -> bool
    ensures { result ≡ legs.is_operation (step_of s.now) }
{
    match s {
        FlatStmt::Let { .. } => true,
        FlatStmt::Frame { .. } => true,
        FlatStmt::Load { .. } => true,
        FlatStmt::Save { .. } => true,
        _ => false,
    }
}

/// Whether statements are operations alone.
fn are_operations(stmts: &[FlatStmt]) -> bool
    ensures { result ≡ legs.are_operations (code_of stmts.now) }
{
    let mut all = true;
    let mut at = stmts.len();
    while at > 0 {
        at -= 1;
        let one = is_operation(&stmts[at]);
        all = both(one, all);
    }
    all
}

/// Whether a continue of a statement leads to the last part of the loop in whose body the statement stands.
#[cycle(going)]
fn continues_stmt(s: &FlatStmt) -> bool
    ensures { result ≡ legs.continues_in (step_of s.now) }
{
    match s {
        FlatStmt::If { yes, no, .. } => {
            let one = continues(yes.as_slice());
            let other = continues(no.as_slice());
            either(one, other)
        }
        FlatStmt::Continue => true,
        _ => false,
    }
}

/// Whether a continue of statements leads to the last part of the loop in whose body they stand.
#[cycle(going)]
fn continues(stmts: &[FlatStmt]) -> bool
    ensures { result ≡ legs.continues (code_of stmts.now) }
{
    let mut any = false;
    let mut at = stmts.len();
    while at > 0 {
        at -= 1;
        let one = continues_stmt(&stmts[at]);
        any = either(one, any);
    }
    any
}

/// Whether statements are operations alone and no continue of the body leads to them.
fn is_lone(body: &[FlatStmt], post: &[FlatStmt]) -> bool
    ensures { result ≡ legs.are_operations (code_of post.now) && not (legs.continues (code_of body.now)) }
{
    let one = are_operations(post);
    let other = continues(body);
    both(one, !other)
}

/// Whether a loop's last part has no block of its own, by whether the body's block ends before it.
pub fn is_bare(ends: bool, body: &[FlatStmt], post: &[FlatStmt]) -> bool
    ensures { result ≡ code.is_bare_code ends (code_of body.now) (code_of post.now) }
{
    let empty = is_no_leg(post);
    let lone = is_lone(body, post);
    either(empty, both(!ends, lone))
}
