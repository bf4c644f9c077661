//! Single statements before what is put out.

ghost use Rattle.std.specs.Prelude.{◌≡◌, ◌-◌, OnOk, IfOk, Some, None};
ghost use Rattle.ir_forms.specs.inside.HyperRuns as hyper;
ghost use Rattle.hyper_build.specs.inside.Entries as entries;
ghost use Rattle.hyper_build.specs.inside.Backward as back;
ghost use Rattle.hyper_build.specs.inside.BackwardStatements as code;
ghost use Rattle.hyper_build.specs.inside.Backward.{emission_of};
ghost use Rattle.hyper_build.specs.inside.Emitted.{rest_of};
ghost use Rattle.hyper_build.specs.inside.Ground as ground;

use crate::emitting::{Emitting, cut, fall, fall_by, put_move, put_out, put_rest};
use crate::ground::Site;
use crate::operands::{capped, register_of, source};
use crate::rest::{Rest, jump, put_load, put_save, put_set};
use base::{Items, Memory};
use ir_forms::{Arg, Exit, Source, Tail};
use std::alloc::Global;
use trips_isa::Op;

/// The block that main comes back to, which ends the run with its result.
pub const END: u32 = 1;

/// Before a statement behind which the plan may cut.
pub fn before(emitting: &mut Emitting, alloc: Global, site: &Site) -> Result<(), Memory>
    ensures { OnOk result (emission_of emitting.new
        ≡ back.before (ground.plan site.now) (emission_of emitting.old)) }
{
    fall(emitting);
    let ends = site.cuts(emitting.place);
    cut(emitting, alloc, ends)
}

/// Before a statement that has so many, itself and those in it, behind which the plan may cut.
pub fn before_by(
    emitting: &mut Emitting,
    alloc: Global,
    site: &Site,
    statements: u32,
) -> Result<(), Memory>
    ensures { OnOk result (emission_of emitting.new
        ≡ back.before_by (ground.plan site.now) statements (emission_of emitting.old)) }
{
    fall_by(emitting, statements);
    let ends = site.cuts(emitting.place);
    cut(emitting, alloc, ends)
}

/// A variable becomes what an operation gives.
pub fn put_let(
    emitting: &mut Emitting,
    alloc: Global,
    site: &Site,
    to: u16,
    op: Op,
    a: Arg,
    b: Arg,
) -> Result<(), Memory>
    ensures { OnOk result (emission_of emitting.new
        ≡ code.let_out (ground.plan site.now) to op a b (emission_of emitting.old)) }
{
    before(emitting, alloc, site)?;
    put_set(
        &mut emitting.rest,
        register_of(to)?,
        op,
        source(a)?,
        source(b)?,
    )
}

/// How far a place of the arrays lies before their end.
pub fn below_arrays(arrays: u64, at: u32) -> u64
    ensures { result ≡ arrays - at }
{
    if (at as u64) < arrays {
        arrays - at as u64
    } else {
        0
    }
}

/// A variable becomes the address of a byte of the arrays.
pub fn put_frame(
    emitting: &mut Emitting,
    alloc: Global,
    site: &Site,
    to: u16,
    at: u32,
) -> Result<(), Memory>
    ensures { OnOk result (emission_of emitting.new
        ≡ code.frame_out (ground.plan site.now) site.now.arrays to at (emission_of emitting.old)) }
{
    before(emitting, alloc, site)?;
    let below = capped(below_arrays(site.arrays, at));
    put_set(
        &mut emitting.rest,
        register_of(to)?,
        Op::Sub,
        Source::Reg(1),
        Source::Const(below),
    )
}

/// A variable becomes what a load gives.
pub fn put_loading(
    emitting: &mut Emitting,
    alloc: Global,
    site: &Site,
    to: u16,
    op: Op,
    address: Arg,
) -> Result<(), Memory>
    ensures { OnOk result (emission_of emitting.new
        ≡ code.load_out (ground.plan site.now) to op address (emission_of emitting.old)) }
{
    before(emitting, alloc, site)?;
    put_load(&mut emitting.rest, register_of(to)?, op, source(address)?)
}

/// A store.
pub fn put_storing(
    emitting: &mut Emitting,
    alloc: Global,
    site: &Site,
    op: Op,
    address: Arg,
    value: Arg,
) -> Result<(), Memory>
    ensures { OnOk result (emission_of emitting.new
        ≡ code.save_out (ground.plan site.now) op address value (emission_of emitting.old)) }
{
    before(emitting, alloc, site)?;
    put_save(&mut emitting.rest, op, source(address)?, source(value)?)
}

/// The end of a block that puts out a byte and goes on at a label.
fn byte_rest(alloc: Global, value: Arg, label: u32) -> Result<Rest, Memory>
    ensures { IfOk result (λ rest. rest_of rest ≡ code.put_byte value label) }
{
    let mut rest = leave(alloc, Exit::System(label));
    put_set(&mut rest, 3, Op::Mov, source(value)?, Source::Const(0))?;
    put_set(&mut rest, 0, Op::Mov, Source::Const(1), Source::Const(0))?;
    Ok(rest)
}

/// A block's end alone.
#[tactic(auto, using(crate::proofs::Emits::leave_is))]
pub fn leave(alloc: Global, exit: Exit) -> Rest
    ensures { rest_of result ≡ code.left_by exit }
{
    Rest {
        items: Items::new(alloc),
        tail: Tail::Leave(exit),
    }
}

/// The end of a block that takes in a byte.
fn input_rest(alloc: Global, label: u32) -> Result<Rest, Memory>
    ensures { IfOk result (λ rest. rest_of rest ≡ code.get_byte label) }
{
    let mut rest = leave(alloc, Exit::System(label));
    put_set(&mut rest, 0, Op::Mov, Source::Const(2), Source::Const(0))?;
    Ok(rest)
}

/// A byte is put out.
pub fn put_byte(emitting: &mut Emitting, alloc: Global, value: Arg) -> Result<(), Memory>
    ensures { OnOk result (emission_of emitting.new
        ≡ code.byte_out value (emission_of emitting.old)) }
{
    fall(emitting);
    put_out(emitting, alloc)?;
    let rest = byte_rest(alloc, value, emitting.label)?;
    put_rest(emitting, rest);
    Ok(())
}

/// A byte is taken in.
pub fn put_get(emitting: &mut Emitting, alloc: Global, site: &Site, to: u16) -> Result<(), Memory>
    ensures { OnOk result (emission_of emitting.new
        ≡ code.byte_in (ground.plan site.now) to (emission_of emitting.old)) }
{
    before(emitting, alloc, site)?;
    put_move(emitting, register_of(to)?, Source::Reg(3))?;
    put_out(emitting, alloc)?;
    let rest = input_rest(alloc, emitting.label)?;
    put_rest(emitting, rest);
    Ok(())
}

/// A jump, behind which nothing is reached; what goes on there has a block of its own.
pub fn put_jump(emitting: &mut Emitting, alloc: Global, label: u32, on: bool) -> Result<(), Memory>
    ensures { OnOk result (emission_of emitting.new
        ≡ code.leaving (hyper.jump label) (back.cut_at on (emission_of emitting.old))) }
{
    cut(emitting, alloc, on)?;
    fall(emitting);
    put_rest(emitting, jump(alloc, label));
    Ok(())
}

/// What a return goes on with.
pub fn left(alloc: Global, frame: u64) -> Result<Rest, Memory>
    ensures { IfOk result (λ rest. rest_of rest ≡ ground.left frame) }
{
    let mut rest = leave(alloc, Exit::Return);
    put_load(&mut rest, 2, Op::Ld, Source::Reg(1))?;
    put_set(
        &mut rest,
        1,
        Op::Sub,
        Source::Reg(1),
        Source::Const(capped(frame)),
    )?;
    Ok(rest)
}

/// A value goes to register 3, before a rest.
fn put_given(rest: &mut Rest, value: Option<Arg>) -> Result<(), Memory>
    ensures { OnOk result (rest_of rest.new ≡ entries.give value (rest_of rest.old)) }
{
    match value {
        None => Ok(()),
        Some(value) => put_set(rest, 3, Op::Mov, source(value)?, Source::Const(0)),
    }
}

/// A return, with its value; what goes on behind it has a block of its own.
pub fn put_return(
    emitting: &mut Emitting,
    alloc: Global,
    site: &Site,
    value: Option<Arg>,
    on: bool,
) -> Result<(), Memory>
    ensures { OnOk result (emission_of emitting.new
        ≡ code.leaving (entries.give value (ground.left site.now.frame))
        (back.cut_at on (emission_of emitting.old))) }
{
    cut(emitting, alloc, on)?;
    fall(emitting);
    let mut rest = left(alloc, site.frame)?;
    put_given(&mut rest, value)?;
    put_rest(emitting, rest);
    Ok(())
}

/// The end of the whole run, with its value; what goes on behind it has a block of its own.
pub fn put_halt(emitting: &mut Emitting, alloc: Global, value: Arg, on: bool) -> Result<(), Memory>
    ensures { OnOk result (emission_of emitting.new
        ≡ code.leaving (entries.give (Some value) (hyper.jump entries.end_label))
        (back.cut_at on (emission_of emitting.old))) }
{
    cut(emitting, alloc, on)?;
    fall(emitting);
    let mut rest = jump(alloc, END);
    put_given(&mut rest, Some(value))?;
    put_rest(emitting, rest);
    Ok(())
}
