//! Registers, slots and operands.

ghost use Rattle.std.specs.Prelude.{◌≡◌, [], ◌∷◌, IfOk, OnOk};
ghost use Rattle.ir_forms.specs.inside.Frames as frames;
ghost use Rattle.hyper_build.specs.inside.Parts as parts;
ghost use Rattle.hyper_build.specs.inside.Passing as passing;
ghost use Rattle.hyper_build.specs.inside.Emitted.{rest_of};

use crate::rest::{Rest, put_load, put_save, put_set};
use base::Memory;
use ir_forms::{Arg, Source};
use trips_isa::Op;

/// The register of a variable, where there is one.
#[tactic(auto, using(crate::proofs::Registers::register_lasting, crate::proofs::Registers::register_scratch))]
pub fn register_of(v: u16) -> Result<u8, Memory>
    ensures { IfOk result (λ r. r ≡ frames.register_of v) }
{
    if v < 80 {
        Ok((12 + v) as u8)
    } else if v <= 331 {
        Ok((v - 76) as u8)
    } else {
        Err(Memory)
    }
}

/// The byte of a frame where a scalar or a temporary is kept.
#[tactic(auto, using(crate::proofs::Registers::slot_scalar, crate::proofs::Registers::slot_temporary))]
fn slot_of(v: u16) -> u64
    ensures { result ≡ frames.slot_of v }
{
    if v < 64 {
        8 * (17 + v as u64)
    } else {
        8 * (v as u64 - 63)
    }
}

/// A number of bytes as a constant of the code.
#[tactic(auto, unfolding(ir_forms::specs::inside::Frames::frame_limit))]
pub fn capped(n: u64) -> u64
    ensures { result ≡ parts.capped n }
{
    if n < 1_048_584 { n } else { 1_048_584 }
}

/// Where the value of an operand is.
pub fn source(arg: Arg) -> Result<Source, Memory>
    ensures { IfOk result (λ s. s ≡ parts.source arg) }
{
    match arg {
        Arg::Const(w) => Ok(Source::Const(w)),
        Arg::Var(v) => {
            let register = register_of(v)?;
            Ok(Source::Reg(register))
        }
    }
}

/// How far a variable's slot lies before the end of a frame.
fn below_end(frame: u64, v: u16) -> u64
    ensures { result ≡ passing.below_end frame v }
{
    let slot = slot_of(v);
    if slot < frame {
        capped(frame - slot)
    } else {
        capped(0)
    }
}

/// A variable is saved to its slot, before a rest.
fn put_saved(rest: &mut Rest, frame: u64, v: u16) -> Result<(), Memory>
    ensures { OnOk result (rest_of rest.new
        ≡ passing.saving frame (v ∷ []) (rest_of rest.old)) }
{
    put_save(rest, Op::Sd, Source::Reg(0), Source::Reg(register_of(v)?))?;
    put_set(
        rest,
        0,
        Op::Sub,
        Source::Reg(1),
        Source::Const(below_end(frame, v)),
    )?;
    Ok(())
}

/// And is loaded from there.
fn put_restored(rest: &mut Rest, frame: u64, v: u16) -> Result<(), Memory>
    ensures { OnOk result (rest_of rest.new
        ≡ passing.restoring frame (v ∷ []) (rest_of rest.old)) }
{
    put_load(rest, register_of(v)?, Op::Ld, Source::Reg(0))?;
    put_set(
        rest,
        0,
        Op::Sub,
        Source::Reg(1),
        Source::Const(below_end(frame, v)),
    )?;
    Ok(())
}

/// A group is saved, before a rest.
pub fn put_saving(rest: &mut Rest, frame: u64, group: &[u16]) -> Result<(), Memory>
    ensures { OnOk result (rest_of rest.new
        ≡ passing.saving frame group.now (rest_of rest.old)) }
{
    let mut at = group.len();
    while at > 0 {
        at -= 1;
        put_saved(rest, frame, group[at])?;
    }
    Ok(())
}

/// A group is restored, before a rest.
pub fn put_restoring(rest: &mut Rest, frame: u64, group: &[u16]) -> Result<(), Memory>
    ensures { OnOk result (rest_of rest.new
        ≡ passing.restoring frame group.now (rest_of rest.old)) }
{
    let mut at = group.len();
    while at > 0 {
        at -= 1;
        put_restored(rest, frame, group[at])?;
    }
    Ok(())
}
