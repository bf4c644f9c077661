//! The flat code of switches, but for their statements.

ghost use Rattle.std.specs.Prelude.{◌≡◌, ◌+◌, ◌<◌, Some, OnOk, IfOk, cond, nat_eq, false};
ghost use Rattle.ir_forms.specs.inside.FlatCode as flat;
ghost use Rattle.ir_forms.specs.inside.FlatCode.{Then, only};
ghost use Rattle.ir_forms.specs.inside.FlatViews.{code_of};
ghost use Rattle.flat_lower.specs.inside.Operations as operations;
ghost use Rattle.flat_lower.specs.inside.Operations.{set_word};
ghost use Rattle.flat_lower.specs.inside.Switches as switches;
ghost use Rattle.flat_lower.specs.inside.Labels.{found_code, compared_code};
ghost use Rattle.flat_lower.specs.inside.Switches.{break_code, continue_code, behind_code, searched_code, dense_code};
ghost use Rattle.flat_lower.specs.inside.Switches.{chosen_code, section_code, switched_code, section_count};
ghost use Rattle.flat_lower.specs.inside.Emitted.{Adds, sections_in};

use crate::around::Around;
use crate::emit::{put_break, put_continue, put_if, put_let, put_loop, scratch, temp};
use crate::labels::put_compared;
use crate::operations::put_word;
use base::{Items, Memory};
use c_tree::TypedSection;
use ir_forms::{Arg, FlatStmt};
use std::alloc::Global;
use trips_isa::Op;

/// What stands around the sections of a switch, by what stands around it.
pub fn in_switch(around: Around) -> Around
    ensures { result ≡ switches.in_switch around }
{
    match around {
        Around::Nowhere => Around::Switch,
        Around::Loop => Around::SwitchInLoop,
        Around::Switch => Around::Switch,
        Around::SwitchInLoop => Around::SwitchInLoop,
    }
}

/// A word in temporary 0, and a break.
pub fn put_left(code: &mut Items<FlatStmt>, w: u64) -> Result<(), Memory>
    ensures { OnOk result (Adds code.old code.new (found_code w)) }
{
    put_word(code, temp(0), w)?;
    put_break(code)?;
    Ok(())
}

/// A `break`.
pub fn put_broken(code: &mut Items<FlatStmt>, around: Around) -> Result<(), Memory>
    ensures { OnOk result (Adds code.old code.new (break_code around)) }
{
    match around {
        Around::Nowhere => put_break(code),
        Around::Loop => put_break(code),
        Around::Switch => put_break(code),
        Around::SwitchInLoop => put_left(code, 0),
    }
}

/// A `continue`.
pub fn put_continued(code: &mut Items<FlatStmt>, around: Around) -> Result<(), Memory>
    ensures { OnOk result (Adds code.old code.new (continue_code around)) }
{
    match around {
        Around::Nowhere => put_continue(code),
        Around::Loop => put_continue(code),
        Around::Switch => put_continue(code),
        Around::SwitchInLoop => put_left(code, 1),
    }
}

// A `continue` on its own.
fn continued(alloc: Global, around: Around) -> Result<Items<FlatStmt>, Memory>
    ensures { IfOk result (λ code. code_of code ≡ continue_code around) }
{
    let mut code = Items::new(alloc);
    put_continued(&mut code, around)?;
    Ok(code)
}

// A `continue` that has left a switch goes on.
fn put_going_on(code: &mut Items<FlatStmt>, alloc: Global, around: Around) -> Result<(), Memory>
    ensures { OnOk result (Adds code.old code.new
        (only (flat.If (Arg.Var (operations.temp 0)) (continue_code around) flat.Nop))) }
{
    let yes = continued(alloc, around)?;
    put_if(code, Arg::Var(temp(0)), yes, Items::new(alloc))?;
    Ok(())
}

/// What follows a switch.
#[tactic(auto, using(crate::proofs::Emits::nothing))]
fn put_behind(code: &mut Items<FlatStmt>, alloc: Global, around: Around) -> Result<(), Memory>
    ensures { OnOk result (Adds code.old code.new (behind_code around)) }
{
    match around {
        Around::Nowhere => Ok(()),
        Around::Loop => put_going_on(code, alloc, Around::Loop),
        Around::Switch => Ok(()),
        Around::SwitchInLoop => put_going_on(code, alloc, Around::SwitchInLoop),
    }
}

/// Whether `default` is among the labels of a section.
fn has_default(labels: &[Option<u64>]) -> bool
    ensures { result ≡ switches.has_default labels.now }
{
    for label in labels {
        if label.is_none() {
            return true;
        }
    }
    false
}

/// How many sections are skipped where no label is equal.
fn default_at(sections: &[TypedSection]) -> u64
    ensures { result ≡ switches.default_at 0 (section_count (sections_in sections.now))
        (sections_in sections.now) }
{
    let mut other = sections.len() as u64;
    let mut n: u64 = 0;
    for section in sections {
        if has_default(section.labels.as_slice()) {
            other = n;
        }
        n += 1;
    }
    other
}

// How many sections are skipped, in a loop's body on its own.
fn comparing(alloc: Global, sections: &[TypedSection]) -> Result<Items<FlatStmt>, Memory>
    ensures { IfOk result (λ code. code_of code ≡ Then (compared_code 0 (sections_in sections.now))
        (found_code (switches.default_at 0 (section_count (sections_in sections.now))
        (sections_in sections.now)))) }
{
    let mut code = Items::new(alloc);
    put_compared(&mut code, alloc, sections)?;
    put_left(&mut code, default_at(sections))?;
    Ok(code)
}

// How many sections are skipped, where the labels are compared.
fn put_searched(
    code: &mut Items<FlatStmt>,
    alloc: Global,
    sections: &[TypedSection],
) -> Result<(), Memory>
    ensures { OnOk result (Adds code.old code.new (searched_code (sections_in sections.now))) }
{
    let body = comparing(alloc, sections)?;
    put_loop(code, body, Items::new(alloc))?;
    Ok(())
}

// Whether a section has one label, and this is the word.
fn is_label(w: u64, labels: &[Option<u64>]) -> bool
    ensures { result ≡ switches.is_label w labels.now }
{
    match labels {
        [Some(v)] => *v == w,
        _ => false,
    }
}

// Whether a section has one label, and this is `default`.
fn is_default(labels: &[Option<u64>]) -> bool
    ensures { result ≡ switches.is_default labels.now }
{
    match labels {
        [None] => true,
        _ => false,
    }
}

// Whether a section is the last and that of `default`, where so many are left behind it.
fn ends(labels: &[Option<u64>], left: usize) -> bool
    ensures { result ≡ cond (switches.is_default labels.now) (nat_eq left 0) false }
{
    if is_default(labels) { left == 0 } else { false }
}

// Whether the labels are the words from this one on.
fn are_dense(low: u64, sections: &[TypedSection]) -> bool
    ensures { result ≡ switches.are_dense low (sections_in sections.now) }
{
    let mut w = low;
    let mut left = sections.len();
    for section in sections {
        left -= 1;
        if !is_label(w, section.labels.as_slice()) {
            return ends(section.labels.as_slice(), left);
        }
        w = w.wrapping_add(1);
    }
    true
}

// The first of some labels, where it is that of a case.
fn first_case(labels: &[Option<u64>]) -> Option<u64>
    ensures { result ≡ switches.first_case labels.now }
{
    match labels {
        [] => None,
        [label, ..] => *label,
    }
}

// The first label of the first section.
fn first_label(sections: &[TypedSection]) -> Option<u64>
    ensures { result ≡ switches.first_label (sections_in sections.now) }
{
    match sections {
        [] => None,
        [section, ..] => first_case(section.labels.as_slice()),
    }
}

// The first label, where the labels are dense.
fn dense_from(sections: &[TypedSection]) -> Option<u64>
    ensures { result ≡ switches.dense_from (sections_in sections.now) }
{
    let low = first_label(sections)?;
    if are_dense(low, sections) {
        Some(low)
    } else {
        None
    }
}

// How many sections are skipped, where n labels begin with this one.
fn put_dense(code: &mut Items<FlatStmt>, alloc: Global, low: u64, n: u64) -> Result<(), Memory>
    ensures { OnOk result (Adds code.old code.new (dense_code low n)) }
{
    let mut all = Items::new(alloc);
    put_word(&mut all, temp(0), n)?;
    put_let(code, temp(0), Op::Sub, Arg::Var(temp(0)), Arg::Const(low))?;
    put_let(code, scratch(0), Op::Tltu, Arg::Var(temp(0)), Arg::Const(n))?;
    put_if(code, Arg::Var(scratch(0)), Items::new(alloc), all)?;
    Ok(())
}

// How many sections are skipped, by the value in temporary 0.
fn put_chosen(
    code: &mut Items<FlatStmt>,
    alloc: Global,
    sections: &[TypedSection],
) -> Result<(), Memory>
    ensures { OnOk result (Adds code.old code.new (chosen_code (sections_in sections.now))) }
{
    match dense_from(sections) {
        None => put_searched(code, alloc, sections),
        Some(low) => put_dense(code, alloc, low, default_at(sections)),
    }
}

/// The statements of the section behind n others are emitted: it is skipped, or run, and then no other is skipped.
pub fn put_section_of(
    code: &mut Items<FlatStmt>,
    alloc: Global,
    n: u64,
    mut body: Items<FlatStmt>,
) -> Result<(), Memory>
    ensures { OnOk result (Adds code.old code.new (section_code n (code_of body))) }
{
    put_word(&mut body, temp(0), 0)?;
    put_let(code, scratch(0), Op::Tgtu, Arg::Var(temp(0)), Arg::Const(n))?;
    put_if(code, Arg::Var(scratch(0)), Items::new(alloc), body)?;
    Ok(())
}

// The loop of the sections, which are emitted.
fn put_run(
    code: &mut Items<FlatStmt>,
    alloc: Global,
    around: Around,
    mut body: Items<FlatStmt>,
) -> Result<(), Memory>
    ensures { OnOk result (Adds code.old code.new
        (only (flat.Loop (Then (code_of body) (break_code (switches.in_switch around))) flat.Nop))) }
{
    put_broken(&mut body, in_switch(around))?;
    put_loop(code, body, Items::new(alloc))?;
    Ok(())
}

/// A switch whose sections are emitted, behind its test.
pub fn put_switched(
    code: &mut Items<FlatStmt>,
    alloc: Global,
    around: Around,
    sections: &[TypedSection],
    body: Items<FlatStmt>,
) -> Result<(), Memory>
    ensures { OnOk result (Adds code.old code.new
        (switched_code around (sections_in sections.now) (code_of body))) }
{
    put_chosen(code, alloc, sections)?;
    put_run(code, alloc, around, body)?;
    put_behind(code, alloc, around)?;
    Ok(())
}
