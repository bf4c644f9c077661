//! Code that has no block of its own, and where it leads.

ghost use Rattle.std.specs.Prelude.{◌≡◌, drop};
ghost use Rattle.ir_forms.specs.inside.FlatViews.{code_of, step_of};
ghost use Rattle.hyper_build.specs.inside.Tree as tree;
ghost use Rattle.hyper_build.specs.inside.Legs.{label_or};
ghost use Rattle.hyper_build.specs.inside.BackwardCode as code;

use ir_forms::FlatStmt;

/// Where a break or a continue alone leads.
fn exit_in(s: &FlatStmt, broke: u32, again: u32) -> Option<u32>
    ensures { result ≡ code.exit_in broke again (step_of s.now) }
{
    match s {
        FlatStmt::Break => Some(broke),
        FlatStmt::Continue => Some(again),
        _ => None,
    }
}

/// Where a leg that has no block of its own leads.
pub fn exit_of(stmts: &[FlatStmt], join: u32, broke: u32, again: u32) -> Option<u32>
    ensures { result ≡ code.exit_of join broke again (code_of stmts.now) }
{
    let (first, rest) = match stmts.split_first() {
        None => return Some(join),
        Some(parts) => parts,
    };
    if rest.is_empty() {
        exit_in(first, broke, again)
    } else {
        None
    }
}

/// Whether nothing goes on behind a statement.
fn leaves(s: &FlatStmt) -> bool
    ensures { result ≡ tree.leaves (step_of s.now) }
{
    match s {
        FlatStmt::Break => true,
        FlatStmt::Continue => true,
        FlatStmt::Return(_) => true,
        FlatStmt::Halt(_) => true,
        _ => false,
    }
}

/// Whether statements do anything, from one of them on, before they leave.
pub fn goes_on(stmts: &[FlatStmt], at: usize) -> bool
    ensures { result ≡ tree.goes_on (code_of (drop at stmts.now)) }
{
    if at < stmts.len() {
        !leaves(&stmts[at])
    } else {
        false
    }
}

/// A leg's label, or where it leads at once.
pub fn label_of(label: u32, exit: Option<u32>) -> u32
    ensures { result ≡ label_or label exit }
{
    match exit {
        None => label,
        Some(exit) => exit,
    }
}
