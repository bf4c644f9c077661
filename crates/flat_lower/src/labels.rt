//! The comparing of a switch's value with its labels.

ghost use Rattle.std.specs.Prelude.{◌≡◌, OnOk, IfOk};
ghost use Rattle.ir_forms.specs.inside.FlatCode.{Then};
ghost use Rattle.ir_forms.specs.inside.FlatViews.{code_of};
ghost use Rattle.flat_lower.specs.inside.Labels as labels;
ghost use Rattle.flat_lower.specs.inside.Labels.{found_code, equal_code, either_code, choice_code, case_code};
ghost use Rattle.flat_lower.specs.inside.Labels.{label_code, held_code, labels_code, compared_code};
ghost use Rattle.flat_lower.specs.inside.Emitted.{Adds, sections_in};
ghost use Rattle.flat_lower.specs.declared.held.Held.TheVariants as held;

use crate::emit::{put_if, put_let, scratch, temp};
use crate::held::Held;
use crate::switching::put_left;
use base::{Items, Memory};
use c_tree::TypedSection;
use ir_forms::{Arg, FlatStmt};
use std::alloc::Global;
use trips_isa::Op;

// So many sections are skipped, on its own.
fn found(alloc: Global, n: u64) -> Result<Items<FlatStmt>, Memory>
    ensures { IfOk result (λ code. code_of code ≡ found_code n) }
{
    let mut code = Items::new(alloc);
    put_left(&mut code, n)?;
    Ok(code)
}

// Whether a label is equal, in a scratch variable.
fn put_equal(code: &mut Items<FlatStmt>, s: u8, w: u64) -> Result<(), Memory>
    ensures { OnOk result (Adds code.old code.new (equal_code s w)) }
{
    put_let(code, scratch(s), Op::Teq, Arg::Var(temp(0)), Arg::Const(w))
}

// Whether a label, or one before it, is equal.
fn put_either(code: &mut Items<FlatStmt>, w: u64) -> Result<(), Memory>
    ensures { OnOk result (Adds code.old code.new (either_code w)) }
{
    put_equal(code, 1, w)?;
    put_let(
        code,
        scratch(0),
        Op::Or,
        Arg::Var(scratch(0)),
        Arg::Var(scratch(1)),
    )?;
    Ok(())
}

// A label that is equal ends the comparing.
fn put_choice(code: &mut Items<FlatStmt>, alloc: Global, n: u64) -> Result<(), Memory>
    ensures { OnOk result (Adds code.old code.new (choice_code n)) }
{
    let yes = found(alloc, n)?;
    put_if(code, Arg::Var(scratch(0)), yes, Items::new(alloc))?;
    Ok(())
}

// The last label of a three.
fn put_third(code: &mut Items<FlatStmt>, alloc: Global, n: u64, w: u64) -> Result<(), Memory>
    ensures { OnOk result (Adds code.old code.new (Then (either_code w) (choice_code n))) }
{
    put_either(code, w)?;
    put_choice(code, alloc, n)?;
    Ok(())
}

// A label of a case.
fn put_case(
    code: &mut Items<FlatStmt>,
    alloc: Global,
    held: Held,
    n: u64,
    w: u64,
) -> Result<(), Memory>
    ensures { OnOk result (Adds code.old code.new (case_code held n w)) }
{
    match held {
        Held::Zero => put_equal(code, 0, w),
        Held::One => put_either(code, w),
        Held::Two => put_third(code, alloc, n, w),
    }
}

/// A label of the section behind n others.
#[tactic(auto, using(crate::proofs::Emits::nothing))]
fn put_label(
    code: &mut Items<FlatStmt>,
    alloc: Global,
    held: Held,
    n: u64,
    label: Option<u64>,
) -> Result<(), Memory>
    ensures { OnOk result (Adds code.old code.new (label_code held n label)) }
{
    match label {
        None => Ok(()),
        Some(w) => put_case(code, alloc, held, n, w),
    }
}

// How many of a three are compared with one more.
fn one_more(held: Held) -> Held
    ensures { result ≡ labels.one_more held }
{
    match held {
        Held::Zero => Held::One,
        Held::One => Held::Two,
        Held::Two => Held::Zero,
    }
}

// How many of a three are compared behind a label.
fn held_behind(held: Held, label: Option<u64>) -> Held
    ensures { result ≡ labels.held_behind held label }
{
    match label {
        None => held,
        Some(_) => one_more(held),
    }
}

// At the end of a section those that are left decide.
#[tactic(auto, using(crate::proofs::Emits::nothing))]
fn put_held(code: &mut Items<FlatStmt>, alloc: Global, held: Held, n: u64) -> Result<(), Memory>
    ensures { OnOk result (Adds code.old code.new (held_code held n)) }
{
    match held {
        Held::Zero => Ok(()),
        Held::One => put_choice(code, alloc, n),
        Held::Two => put_choice(code, alloc, n),
    }
}

/// The labels of the section behind n others.
fn put_labels(
    code: &mut Items<FlatStmt>,
    alloc: Global,
    n: u64,
    labels: &[Option<u64>],
) -> Result<(), Memory>
    ensures { OnOk result (Adds code.old code.new (labels_code held.Zero n labels.now)) }
{
    let mut held = Held::Zero;
    for label in labels {
        put_label(code, alloc, held, n, *label)?;
        held = held_behind(held, *label);
    }
    put_held(code, alloc, held, n)?;
    Ok(())
}

/// The labels of all sections.
pub fn put_compared(
    code: &mut Items<FlatStmt>,
    alloc: Global,
    sections: &[TypedSection],
) -> Result<(), Memory>
    ensures { OnOk result (Adds code.old code.new (compared_code 0 (sections_in sections.now))) }
{
    let mut n: u64 = 0;
    for section in sections {
        put_labels(code, alloc, n, section.labels.as_slice())?;
        n += 1;
    }
    Ok(())
}
