//! Calls before what is put out.

ghost use Rattle.std.specs.Prelude.{◌≡◌, ◌+◌, OnOk, IfOk};
ghost use Rattle.ir_forms.specs.inside.Frames.{argument_register};
ghost use Rattle.hyper_build.specs.inside.Passing.{saving, restoring, result_then};
ghost use Rattle.hyper_build.specs.inside.Passing as passing;
ghost use Rattle.hyper_build.specs.inside.Backward as back;
ghost use Rattle.hyper_build.specs.inside.BackwardStatements as code;
ghost use Rattle.hyper_build.specs.inside.Backward.{emission_of};
ghost use Rattle.hyper_build.specs.inside.Ground as ground;

use crate::emitting::{Emitting, cut, fall_call, put_move, put_out, put_rest};
use crate::ground::Site;
use crate::operands::{put_restoring, put_saving, register_of, source};
use crate::singles::{before, leave};
use base::{Items, Memory};
use ir_forms::{Arg, Exit, Source};
use std::alloc::Global;

/// A group is saved; behind it the block ends, or does not.
fn put_save_part(
    emitting: &mut Emitting,
    alloc: Global,
    small: bool,
    frame: u64,
    group: &[u16],
) -> Result<(), Memory>
    ensures { OnOk result (emission_of emitting.new
        ≡ code.parted small (saving frame group.now) (emission_of emitting.old)) }
{
    cut(emitting, alloc, small)?;
    put_saving(&mut emitting.rest, frame, group)
}

/// A group is restored; behind it the block ends, or does not.
fn put_restore_part(
    emitting: &mut Emitting,
    alloc: Global,
    small: bool,
    frame: u64,
    group: &[u16],
) -> Result<(), Memory>
    ensures { OnOk result (emission_of emitting.new
        ≡ code.parted small (restoring frame group.now) (emission_of emitting.old)) }
{
    cut(emitting, alloc, small)?;
    put_restoring(&mut emitting.rest, frame, group)
}

/// Groups are saved; behind each the block ends, or does not.
fn put_saves(
    emitting: &mut Emitting,
    alloc: Global,
    small: bool,
    frame: u64,
    groups: &[Items<u16>],
) -> Result<(), Memory>
    ensures { OnOk result (emission_of emitting.new
        ≡ code.chained small (saving frame) groups.now (emission_of emitting.old)) }
{
    let mut at = groups.len();
    while at > 0 {
        at -= 1;
        put_save_part(emitting, alloc, small, frame, groups[at].as_slice())?;
    }
    Ok(())
}

/// Groups are restored; behind each the block ends, or does not.
fn put_restores(
    emitting: &mut Emitting,
    alloc: Global,
    small: bool,
    frame: u64,
    groups: &[Items<u16>],
) -> Result<(), Memory>
    ensures { OnOk result (emission_of emitting.new
        ≡ code.chained small (restoring frame) groups.now (emission_of emitting.old)) }
{
    let mut at = groups.len();
    while at > 0 {
        at -= 1;
        put_restore_part(emitting, alloc, small, frame, groups[at].as_slice())?;
    }
    Ok(())
}

/// The register of an argument.
pub fn argument_at(i: usize) -> Result<u8, Memory>
    ensures { IfOk result (λ r. r ≡ argument_register i) }
{
    if i < 200 {
        Ok(4 + i as u8)
    } else {
        Err(Memory)
    }
}

/// Whether a call that is cut small ends a block behind an argument.
pub fn argument_cuts(small: bool, i: usize) -> bool
    ensures { result ≡ passing.argument_cuts small i }
{
    small && (i == 2 || i == 5)
}

/// An argument goes to its register.
fn put_argument(
    emitting: &mut Emitting,
    alloc: Global,
    small: bool,
    i: usize,
    arg: Arg,
) -> Result<(), Memory>
    ensures { OnOk result (emission_of emitting.new
        ≡ code.argument_out small i arg (emission_of emitting.old)) }
{
    cut(emitting, alloc, argument_cuts(small, i))?;
    put_move(emitting, argument_at(i)?, source(arg)?)
}

/// All arguments go to their registers.
fn put_arguments(
    emitting: &mut Emitting,
    alloc: Global,
    small: bool,
    args: &[Arg],
) -> Result<(), Memory>
    ensures { OnOk result (emission_of emitting.new
        ≡ code.moving (passing.argument_cuts small) 0 (passing.argument_moves 0 args.now)
        (emission_of emitting.old)) }
{
    let mut at = args.len();
    while at > 0 {
        at -= 1;
        put_argument(emitting, alloc, small, at, args[at])?;
    }
    Ok(())
}

/// The result, where it is wanted, comes from register 3.
fn put_result(emitting: &mut Emitting, to: Option<u16>) -> Result<(), Memory>
    ensures { OnOk result (emission_of emitting.new
        ≡ back.with_rest (result_then to (emission_of emitting.old).rest)
        (emission_of emitting.old)) }
{
    match to {
        None => Ok(()),
        Some(to) => put_move(emitting, register_of(to)?, Source::Reg(3)),
    }
}

/// The block that a call comes back to.
pub fn put_back(
    emitting: &mut Emitting,
    alloc: Global,
    site: &Site,
    to: Option<u16>,
) -> Result<(), Memory>
    ensures { OnOk result (emission_of emitting.new
        ≡ code.back_out (ground.plan site.now) site.now.frame to (emission_of emitting.old)) }
{
    fall_call(emitting);
    before(emitting, alloc, site)?;
    let groups = site.groups_of(emitting.calls);
    let small = site.cuts(emitting.place);
    put_result(emitting, to)?;
    put_restores(emitting, alloc, small, site.frame, groups)?;
    put_out(emitting, alloc)
}

/// The call, before the block that it comes back to.
pub fn put_call(
    emitting: &mut Emitting,
    alloc: Global,
    site: &Site,
    function: u32,
    args: &[Arg],
) -> Result<(), Memory>
    ensures { OnOk result (emission_of emitting.new
        ≡ code.call_out (ground.plan site.now) site.now.frame
        (ground.entry_at site.now.entries function) args.now (emission_of emitting.old)) }
{
    let to = site.entry(function);
    let groups = site.groups_of(emitting.calls);
    let small = site.cuts(emitting.place);
    let back = emitting.label;
    put_rest(emitting, leave(alloc, Exit::Call { to, back }));
    put_arguments(emitting, alloc, small, args)?;
    put_saves(emitting, alloc, small, site.frame, groups)
}
