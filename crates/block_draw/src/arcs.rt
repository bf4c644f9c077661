//! The arcs of a drawing.

ghost use Rattle.std.specs.Prelude.{◌≡◌, ◌≤◌, ◌++◌, OnOk, length};
ghost use Rattle.target_asm_spec.specs.Numbers.{numbered};
ghost use Rattle.block_draw.specs.Arcs as arcs;

use crate::positions::{
    Port, exit_port, guard_port, leave_port, left_port, load_port, memory_port, read_port,
    result_port, right_port, store_port, write_port,
};
use crate::shapes::put_curve;
use std::alloc::AllocError;
use trips_isa::{Form, Inst, ReadSlot, Spot, form_of};

// Writes the arc to a spot, if a token goes there.
fn put_spot_arc(out: &mut Vec<u8>, from: Port, spot: Spot) -> Result<(), AllocError>
    ensures ok { OnOk result (out.new.items ≡ out.old.items ++ arcs.spot_arc from spot) }
{
    match spot {
        Spot::Left(slot) => put_curve(out, b"left", from, left_port(slot)),
        Spot::Right(slot) => put_curve(out, b"right", from, right_port(slot)),
        Spot::Pred(slot) => put_curve(out, b"guard", from, guard_port(slot)),
        Spot::Write(write) => put_curve(out, b"write", from, write_port(write)),
        Spot::Read(_) | Spot::Inst(_) | Spot::Store(_) => Ok(()),
    }
}

// Writes the arc to a spot that may not be there.
fn put_target_arc(out: &mut Vec<u8>, from: Port, target: Option<Spot>) -> Result<(), AllocError>
    ensures ok { OnOk result (out.new.items ≡ out.old.items ++ arcs.target_arc from target) }
{
    match target {
        None => Ok(()),
        Some(spot) => put_spot_arc(out, from, spot),
    }
}

// Writes the arcs of a read.
#[tactic(auto, unfolding(crate::specs::Arcs::read_arcs))]
fn put_read_arcs(out: &mut Vec<u8>, number: u8, read: ReadSlot) -> Result<(), AllocError>
    ensures ok { OnOk result (out.new.items ≡ out.old.items ++ arcs.read_arcs number read) }
{
    let from = read_port(number);
    put_spot_arc(out, from, read.first)?;
    put_target_arc(out, from, read.second)
}

/// Writes the arcs of all reads.
pub fn put_reads_arcs(out: &mut Vec<u8>, reads: &[ReadSlot]) -> Result<(), AllocError>
    requires { length reads.now ≤ 32 }
    ensures ok { OnOk result (out.new.items ≡ out.old.items ++ numbered arcs.read_arcs 0 reads.now) }
{
    for (number, read) in reads.iter().enumerate() {
        put_read_arcs(out, number as u8, *read)?;
    }
    Ok(())
}

// Writes the arc of an instruction from memory, to memory or to its exit, if it has one.
fn put_form_arc(out: &mut Vec<u8>, form: Form, slot: u8, number: u8) -> Result<(), AllocError>
    ensures ok { OnOk result (out.new.items ≡ out.old.items ++ arcs.form_arc form slot number) }
{
    match form {
        Form::Load => put_curve(out, b"load", memory_port(number), load_port(slot)),
        Form::Store => put_curve(out, b"store", store_port(slot), memory_port(number)),
        Form::Branch => put_curve(out, b"leave", leave_port(slot), exit_port(number)),
        Form::General | Form::Immediate | Form::Constant => Ok(()),
    }
}

// Writes the arcs of an instruction.
#[tactic(auto, unfolding(crate::specs::Arcs::inst_arcs))]
fn put_inst_arcs(out: &mut Vec<u8>, slot: u8, inst: Inst) -> Result<(), AllocError>
    ensures ok { OnOk result (out.new.items ≡ out.old.items ++ arcs.inst_arcs slot inst) }
{
    let from = result_port(slot);
    put_target_arc(out, from, inst.first)?;
    put_target_arc(out, from, inst.second)?;
    put_form_arc(out, form_of(inst.op), slot, inst.number)
}

// Writes the arcs of a slot.
fn put_slot_arcs(out: &mut Vec<u8>, slot: u8, inst: Option<Inst>) -> Result<(), AllocError>
    ensures ok { OnOk result (out.new.items ≡ out.old.items ++ arcs.slot_arcs slot inst) }
{
    match inst {
        None => Ok(()),
        Some(inst) => put_inst_arcs(out, slot, inst),
    }
}

/// Writes the arcs of all slots.
pub fn put_slots_arcs(out: &mut Vec<u8>, slots: &[Option<Inst>]) -> Result<(), AllocError>
    requires { length slots.now ≤ 128 }
    ensures ok { OnOk result (out.new.items ≡ out.old.items ++ numbered arcs.slot_arcs 0 slots.now) }
{
    for (slot, inst) in slots.iter().enumerate() {
        put_slot_arcs(out, slot as u8, *inst)?;
    }
    Ok(())
}
