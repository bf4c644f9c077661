//! Numbers of blocks, statements and calls, forward, with the notes of the loops.

ghost use Rattle.std.specs.Prelude.{◌≡◌, ◌+◌, ◌-◌, ◌++◌, ◌∷◌, [], map, IfOk, OnOk};
ghost use Rattle.ir_forms.specs.inside.FlatViews.{code_of, step_of, function_of};
ghost use Rattle.hyper_build.specs.inside.Parts as parts;
ghost use Rattle.hyper_build.specs.inside.Ground as ground;
ghost use Rattle.hyper_build.specs.inside.Forward as forward;

use crate::counting::{
    arguments_size, cut_size, groups_size, parameters_size, plus, steps_in, steps_of,
};
use crate::emitting::Note;
use crate::exits::{exit_of, goes_on};
use crate::ground::Site;
use crate::merging::{is_last, is_loop_test};
use crate::posts::is_bare;
use crate::straight::is_if_item;
use base::{Items, Memory};
use ir_forms::{Arg, FlatFunc, FlatStmt};
use std::alloc::Global;

/// How many blocks, statements and calls stand before, and the notes of the loops that were passed, in
/// the order in which they end.
#[derive(Drop)]
pub struct Numbering {
    pub label: u32,
    pub place: u32,
    pub calls: u32,
    pub notes: Items<Note>,
}

/// So many blocks more stand before.
fn count_blocks(numbering: &mut Numbering, blocks: u32) -> Result<(), Memory>
    ensures { OnOk result (numbering.new ≡ forward.with_blocks blocks numbering.old) }
{
    numbering.label = plus(numbering.label, blocks)?;
    Ok(())
}

/// A statement more stands before.
fn count_statement(numbering: &mut Numbering) -> Result<(), Memory>
    ensures { OnOk result (numbering.new ≡ forward.with_statement numbering.old) }
{
    numbering.place = plus(numbering.place, 1)?;
    Ok(())
}

/// So many statements more stand before.
fn count_statements(numbering: &mut Numbering, statements: u32) -> Result<(), Memory>
    ensures { OnOk result (numbering.new ≡ forward.with_statements statements numbering.old) }
{
    numbering.place = plus(numbering.place, statements)?;
    Ok(())
}

/// A call more stands before.
fn count_call(numbering: &mut Numbering) -> Result<(), Memory>
    ensures { OnOk result (numbering.new ≡ forward.with_call numbering.old) }
{
    numbering.calls = plus(numbering.calls, 1)?;
    Ok(())
}

/// Behind a statement that begins so many blocks.
fn count_behind(numbering: &mut Numbering, blocks: u32) -> Result<(), Memory>
    ensures { OnOk result (numbering.new
        ≡ forward.with_statement (forward.with_blocks blocks numbering.old)) }
{
    count_blocks(numbering, blocks)?;
    count_statement(numbering)
}

/// A loop ends.
fn add_note(numbering: &mut Numbering, note: Note) -> Result<(), Memory>
    ensures { OnOk result (numbering.new ≡ forward.with_note note numbering.old) }
{
    numbering.notes.push(note)?;
    Ok(())
}

/// Behind a statement that begins a block only where the plan cuts.
fn number_single(numbering: &mut Numbering, site: &Site) -> Result<(), Memory>
    ensures { OnOk result (numbering.new
        ≡ forward.single (ground.plan site.now) numbering.old) }
{
    let blocks = cut_size(site.cuts(numbering.place));
    count_behind(numbering, blocks)
}

/// Behind a statement that is items alone.
fn number_items(numbering: &mut Numbering, site: &Site, s: &FlatStmt) -> Result<(), Memory>
    ensures { OnOk result (numbering.new
        ≡ forward.number_items (ground.plan site.now) (step_of s.now) numbering.old) }
{
    let blocks = cut_size(site.cuts(numbering.place));
    let statements = steps_in(s)?;
    count_blocks(numbering, blocks)?;
    count_statements(numbering, statements)
}

/// The blocks that a call begins, by its numbers.
fn call_size(site: &Site, place: u32, calls: u32, args: &[Arg]) -> Result<u32, Memory>
    ensures { IfOk result (λ n. n ≡ forward.call_size (ground.plan site.now) place calls args.now) }
{
    let small = site.cuts(place);
    let groups = groups_size(small, site.groups_of(calls))?;
    let arguments = arguments_size(small, args)?;
    let back = plus(1, plus(groups, cut_size(small))?)?;
    plus(groups, plus(arguments, back)?)
}

fn number_call(numbering: &mut Numbering, site: &Site, args: &[Arg]) -> Result<(), Memory>
    ensures { OnOk result (numbering.new ≡ forward.with_call (forward.with_statement
        (forward.with_blocks (forward.call_size (ground.plan site.now) numbering.old.place
        numbering.old.calls args.now) numbering.old))) }
{
    let blocks = call_size(site, numbering.place, numbering.calls, args)?;
    count_behind(numbering, blocks)?;
    count_call(numbering)
}

fn number_get(numbering: &mut Numbering, site: &Site) -> Result<(), Memory>
    ensures { OnOk result (numbering.new ≡ forward.with_statement (forward.with_blocks
        (1 + parts.cut_size ((ground.plan site.now).cut numbering.old.place)) numbering.old)) }
{
    let blocks = plus(1, cut_size(site.cuts(numbering.place)))?;
    count_behind(numbering, blocks)
}

/// A leg that has blocks begins with one.
fn count_leg(numbering: &mut Numbering, leg: &[FlatStmt]) -> Result<(), Memory>
    ensures { OnOk result (numbering.new ≡ forward.led (code_of leg.now) numbering.old) }
{
    match exit_of(leg, 0, 0, 0) {
        None => count_blocks(numbering, 1),
        Some(_) => Ok(()),
    }
}

/// Numbers behind a statement; `last` says whether it is the last one of a loop's body, `on` whether the code
/// behind it goes on.
#[cycle(number)]
fn number_stmt(
    s: &FlatStmt,
    numbering: &mut Numbering,
    site: &Site,
    last: bool,
    on: bool,
) -> Result<(), Memory>
    ensures { OnOk result (numbering.new
        ≡ forward.number_part (ground.plan site.now) last on (step_of s.now) numbering.old) }
{
    match s {
        FlatStmt::Let { .. } => number_single(numbering, site)?,
        FlatStmt::Frame { .. } => number_single(numbering, site)?,
        FlatStmt::Load { .. } => number_single(numbering, site)?,
        FlatStmt::Save { .. } => number_single(numbering, site)?,
        FlatStmt::Call { args, .. } => number_call(numbering, site, args.as_slice())?,
        FlatStmt::Put(_) => count_behind(numbering, 1)?,
        FlatStmt::Get { .. } => number_get(numbering, site)?,
        FlatStmt::If { yes, no, .. } => {
            let joined = site.joins(numbering.place);
            if is_loop_test(last, joined, no.as_slice()) {
                let blocks = cut_size(site.cuts(numbering.place));
                count_statement(numbering)?;
                number_stmts(yes.as_slice(), numbering, site)?;
                count_statement(numbering)?;
                count_blocks(numbering, blocks)?;
            } else if is_if_item(joined, yes.as_slice(), no.as_slice()) {
                number_items(numbering, site, s)?;
            } else {
                count_statement(numbering)?;
                count_leg(numbering, yes.as_slice())?;
                number_stmts(yes.as_slice(), numbering, site)?;
                count_leg(numbering, no.as_slice())?;
                number_stmts(no.as_slice(), numbering, site)?;
                count_blocks(numbering, 1)?;
            }
        }
        FlatStmt::Loop { body, post } => {
            let head = numbering.label;
            let place = numbering.place;
            let ends = site.cuts(place);
            count_behind(numbering, 1)?;
            number_turn(body.as_slice(), numbering, site)?;
            if is_bare(ends, body.as_slice(), post.as_slice()) {
                let statements = steps_of(post.as_slice())?;
                count_statements(numbering, statements)?;
                count_blocks(numbering, 1)?;
                let next = head;
                add_note(numbering, Note { head, place, next })?;
            } else {
                let next = numbering.label;
                count_blocks(numbering, 1)?;
                number_stmts(post.as_slice(), numbering, site)?;
                count_blocks(numbering, 1)?;
                add_note(numbering, Note { head, place, next })?;
            }
        }
        FlatStmt::Break => count_behind(numbering, cut_size(on))?,
        FlatStmt::Continue => count_behind(numbering, cut_size(on))?,
        FlatStmt::Return(_) => count_behind(numbering, cut_size(on))?,
        FlatStmt::Halt(_) => count_behind(numbering, cut_size(on))?,
    }
    Ok(())
}

/// Numbers behind a loop's body.
#[cycle(number)]
fn number_turn(stmts: &[FlatStmt], numbering: &mut Numbering, site: &Site) -> Result<(), Memory>
    ensures { OnOk result (numbering.new
        ≡ forward.number_turn (ground.plan site.now) (code_of stmts.now) numbering.old) }
{
    let mut at = 0;
    while at < stmts.len() {
        let s = &stmts[at];
        at += 1;
        number_stmt(s, numbering, site, is_last(stmts, at), goes_on(stmts, at))?;
    }
    Ok(())
}

/// Numbers behind statements.
#[cycle(number)]
fn number_stmts(stmts: &[FlatStmt], numbering: &mut Numbering, site: &Site) -> Result<(), Memory>
    ensures { OnOk result (numbering.new
        ≡ forward.number (ground.plan site.now) (code_of stmts.now) numbering.old) }
{
    let mut at = 0;
    while at < stmts.len() {
        let s = &stmts[at];
        at += 1;
        number_stmt(s, numbering, site, false, goes_on(stmts, at))?;
    }
    Ok(())
}

/// The blocks of a function before its body.
fn way_in_size(small: bool, params: u8) -> Result<u32, Memory>
    ensures { IfOk result (λ n. n ≡ forward.way_in_size small params) }
{
    let parameters = parameters_size(small, params)?;
    plus(plus(2, parameters)?, cut_size(small))
}

fn number_function(f: &FlatFunc, numbering: &mut Numbering, site: &Site) -> Result<(), Memory>
    ensures { OnOk result (numbering.new
        ≡ forward.number_function (ground.plan site.now) (function_of f.now) numbering.old) }
{
    let blocks = way_in_size(site.cuts(numbering.place), f.params)?;
    count_behind(numbering, blocks)?;
    number_stmts(f.body.as_slice(), numbering, site)
}

/// Numbers behind functions; gives the label of each.
pub fn number_functions(
    functions: &[FlatFunc],
    numbering: &mut Numbering,
    site: &Site,
    alloc: Global,
) -> Result<Items<u32>, Memory>
    ensures numbers { OnOk result (numbering.new
        ≡ forward.number_all (ground.plan site.now) (map function_of functions.now) numbering.old) }
    ensures entries { IfOk result (λ entries. entries
        ≡ forward.entries_from (ground.plan site.now) (map function_of functions.now) numbering.old) }
{
    let mut entries = Items::new(alloc);
    for f in functions {
        entries.push(numbering.label)?;
        number_function(f, numbering, site)?;
    }
    Ok(entries)
}
