//! Functions before what is put out.

ghost use Rattle.std.specs.Prelude.{◌≡◌, map, OnOk, IfOk};
ghost use Rattle.ir_forms.specs.inside.FlatViews.{code_of, function_of};
ghost use Rattle.ir_forms.specs.inside.Frames as frames;
ghost use Rattle.hyper_build.specs.inside.Passing as passing;
ghost use Rattle.hyper_build.specs.inside.BackwardStatements as statements;
ghost use Rattle.hyper_build.specs.inside.BackwardProgram as program;
ghost use Rattle.hyper_build.specs.inside.Backward.{emission_of};
ghost use Rattle.hyper_build.specs.inside.Emitted.{rest_of};

use crate::calling::argument_at;
use crate::code::put_stmts;
use crate::emitting::{Emitting, cut, put_move, put_out, put_rest};
use crate::ground::Site;
use crate::operands::{capped, register_of};
use crate::rest::{Rest, put_save, put_set};
use crate::singles::{before, left};
use base::{Boxed, Items, Memory};
use ir_forms::{Exit, FlatFunc, FlatStmt, Source, Tail};
use std::alloc::Global;
use trips_isa::Op;

/// The block that a full stack leads to.
const FULL: u32 = 2;

/// A way in that is cut small ends a block behind its first, fourth and seventh parameter.
pub fn parameter_cuts(small: bool, i: usize) -> bool
    ensures { result ≡ passing.parameter_cuts small i }
{
    small && (i == 0 || (i == 3 || i == 6))
}

/// A parameter comes from its register.
fn put_parameter(emitting: &mut Emitting, alloc: Global, small: bool, i: u8) -> Result<(), Memory>
    ensures { OnOk result (emission_of emitting.new
        ≡ program.parameter_out small i (emission_of emitting.old)) }
{
    cut(emitting, alloc, parameter_cuts(small, i as usize))?;
    let from = argument_at(i as usize)?;
    put_move(emitting, register_of(i as u16)?, Source::Reg(from))
}

/// The first parameters of a function.
#[tactic(auto, using(crate::proofs::FunctionsOut::parameters_from))]
fn put_parameters(
    emitting: &mut Emitting,
    alloc: Global,
    small: bool,
    params: u8,
) -> Result<(), Memory>
    ensures { OnOk result (emission_of emitting.new
        ≡ statements.moving (passing.parameter_cuts small) 0 (passing.parameter_moves 0 params)
        (emission_of emitting.old)) }
{
    let mut at = params;
    while at > 0 {
        at -= 1;
        put_parameter(emitting, alloc, small, at)?;
    }
    Ok(())
}

/// The way into a frame, before a rest.
fn put_entering(rest: &mut Rest, frame: u64) -> Result<(), Memory>
    ensures { OnOk result (rest_of rest.new ≡ program.entering frame (rest_of rest.old)) }
{
    let bytes = Source::Const(capped(frame));
    put_set(rest, 1, Op::Add, Source::Reg(1), bytes)?;
    put_save(rest, Op::Sd, Source::Reg(1), Source::Reg(2))
}

/// A test of register 0 alone.
#[tactic(auto, using(crate::proofs::FunctionsOut::forked_is))]
fn forked(alloc: Global, one: u32, other: u32) -> Result<Rest, Memory>
    ensures { IfOk result (λ rest. rest_of rest ≡ program.forked one other) }
{
    let yes = Boxed::new(alloc, Tail::Leave(Exit::Jump(one)))?;
    let no = Boxed::new(alloc, Tail::Leave(Exit::Jump(other)))?;
    Ok(Rest {
        items: Items::new(alloc),
        tail: Tail::Test {
            test: Source::Reg(0),
            yes,
            no,
        },
    })
}

/// Whether a frame's end lies behind the end of all frames.
fn stack_test(alloc: Global, end: u64, frame: u64, way_in: u32) -> Result<Rest, Memory>
    ensures { IfOk result (λ rest. rest_of rest ≡ program.testing end frame way_in) }
{
    let mut rest = forked(alloc, FULL, way_in)?;
    put_set(&mut rest, 0, Op::Tltu, Source::Const(end), Source::Reg(0))?;
    let bytes = Source::Const(capped(frame));
    put_set(&mut rest, 0, Op::Add, Source::Reg(1), bytes)?;
    Ok(rest)
}

/// A function's body.
fn put_body(
    emitting: &mut Emitting,
    alloc: Global,
    site: &Site,
    body: &[FlatStmt],
) -> Result<(), Memory>
    ensures { OnOk result (emission_of emitting.new
        ≡ program.body_out site.now (code_of body.now) (emission_of emitting.old)) }
{
    let rest = left(alloc, site.frame)?;
    put_rest(emitting, rest);
    put_stmts(body, emitting, alloc, site, 0, 0)
}

/// The parameters, before a body.
fn put_moves(emitting: &mut Emitting, alloc: Global, site: &Site, params: u8) -> Result<(), Memory>
    ensures { OnOk result (emission_of emitting.new
        ≡ program.parameters_out site.now params (emission_of emitting.old)) }
{
    before(emitting, alloc, site)?;
    let small = site.cuts(emitting.place);
    put_parameters(emitting, alloc, small, params)
}

/// The way in, and the test of the stack, each a block of its own.
fn put_way_in(emitting: &mut Emitting, alloc: Global, end: u64, frame: u64) -> Result<(), Memory>
    ensures { OnOk result (emission_of emitting.new
        ≡ program.way_in_out end frame (emission_of emitting.old)) }
{
    put_entering(&mut emitting.rest, frame)?;
    put_out(emitting, alloc)?;
    let rest = stack_test(alloc, end, frame, emitting.label)?;
    put_rest(emitting, rest);
    put_out(emitting, alloc)
}

/// The bytes of a function's frame.
fn frame_bytes(f: &FlatFunc) -> u64
    ensures { result ≡ frames.frame_of (function_of f.now) }
{
    8 * (18 + f.scalars as u64) + f.arrays as u64
}

/// A function, where the frames end at `end`.
fn put_function(
    f: &FlatFunc,
    emitting: &mut Emitting,
    alloc: Global,
    site: &Site,
    end: u64,
) -> Result<(), Memory>
    ensures { OnOk result (emission_of emitting.new
        ≡ program.function_out end site.now (function_of f.now) (emission_of emitting.old)) }
{
    let frame = frame_bytes(f);
    let inner = Site {
        plan: site.plan,
        groups: site.groups,
        entries: site.entries,
        frame,
        arrays: f.arrays as u64,
    };
    put_body(emitting, alloc, &inner, f.body.as_slice())?;
    put_moves(emitting, alloc, &inner, f.params)?;
    put_way_in(emitting, alloc, end, frame)
}

/// Functions before what is put out.
pub fn put_functions(
    functions: &[FlatFunc],
    emitting: &mut Emitting,
    alloc: Global,
    site: &Site,
    end: u64,
) -> Result<(), Memory>
    ensures { OnOk result (emission_of emitting.new
        ≡ program.functions_out end site.now (map function_of functions.now)
        (emission_of emitting.old)) }
{
    let mut at = functions.len();
    while at > 0 {
        at -= 1;
        put_function(&functions[at], emitting, alloc, site, end)?;
    }
    Ok(())
}
