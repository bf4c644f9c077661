//! The boxes of a drawing.

ghost use Rattle.std.specs.Prelude.{◌≡◌, ◌≤◌, ◌++◌, OnOk, codes, get_or, length};
ghost use Rattle.std.specs.Fmt.{decimal};
ghost use Rattle.target_asm_spec.specs.Fields.{sense_text};
ghost use Rattle.target_asm_spec.specs.Numbers.{numbered};
ghost use Rattle.isa_table.specs.Spots.{indexed};
ghost use Rattle.block_draw.specs.Shapes.{letters_text};
ghost use Rattle.block_draw.specs.Boxes as boxes;

use crate::positions::{exit_y, list_x, memory_y, read_y, slot_x, slot_y, write_y};
use crate::shapes::{Frame, close_letters, open_letters, put_box, put_circle, put_letters};
use isa_table::{mnemonic_of, put_indexed, put_number, put_signed};
use std::alloc::AllocError;
use trips_isa::{Form, Inst, Op, ReadSlot, Sense, form_of};

// Writes a letter with a number, as a line of letters.
#[tactic(auto, unfolding(crate::specs::Shapes::letters_text))]
fn put_indexed_letters(
    out: &mut Vec<u8>,
    class: &[u8],
    x: u16,
    y: u16,
    letter: u8,
    n: u8,
) -> Result<(), AllocError>
    ensures ok { OnOk result (out.new.items ≡ out.old.items ++ letters_text class.now x y (indexed letter n)) }
{
    open_letters(out, class, x, y)?;
    put_indexed(out, letter, n as u64)?;
    close_letters(out)
}

// Writes a name with a number, as a line of letters.
#[tactic(auto, unfolding(crate::specs::Shapes::letters_text))]
fn put_named_letters(
    out: &mut Vec<u8>,
    x: u16,
    y: u16,
    name: &[u8],
    n: u64,
) -> Result<(), AllocError>
    ensures ok { OnOk result (out.new.items ≡ out.old.items
        ++ letters_text (codes "name") x y (name.now ++ decimal n)) }
{
    open_letters(out, b"name", x, y)?;
    out.extend_from_slice(name)?;
    put_number(out, n)?;
    close_letters(out)
}

// Writes a register in a box.
#[tactic(auto, unfolding(crate::specs::Boxes::register_box))]
fn put_register(
    out: &mut Vec<u8>,
    class: &[u8],
    x: u16,
    y: u16,
    register: u8,
) -> Result<(), AllocError>
    requires left { x ≤ 1005 }
    requires high { y ≤ 1520 }
    ensures ok { OnOk result (out.new.items ≡ out.old.items ++ boxes.register_box class.now x y register) }
{
    let frame = Frame {
        x,
        y,
        width: 48,
        height: 24,
        round: 0,
    };
    put_box(out, class, frame)?;
    put_indexed_letters(out, b"name", x + 24, y + 16, b'G', register)
}

// Writes the box of a read.
fn put_read(out: &mut Vec<u8>, number: u8, read: ReadSlot) -> Result<(), AllocError>
    ensures ok { OnOk result (out.new.items ≡ out.old.items ++ boxes.read_box number read) }
{
    put_register(out, b"read", list_x(number), read_y(number), read.register)
}

/// Writes the boxes of all reads.
pub fn put_reads(out: &mut Vec<u8>, reads: &[ReadSlot]) -> Result<(), AllocError>
    requires { length reads.now ≤ 32 }
    ensures ok { OnOk result (out.new.items ≡ out.old.items ++ numbered boxes.read_box 0 reads.now) }
{
    for (i, read) in reads.iter().enumerate() {
        put_read(out, i as u8, *read)?;
    }
    Ok(())
}

// Writes the box of a write.
fn put_write(out: &mut Vec<u8>, number: u8, register: u8) -> Result<(), AllocError>
    ensures ok { OnOk result (out.new.items ≡ out.old.items ++ boxes.write_box number register) }
{
    put_register(out, b"write", list_x(number), write_y(number), register)
}

/// Writes the boxes of all writes.
pub fn put_writes(out: &mut Vec<u8>, writes: &[u8]) -> Result<(), AllocError>
    requires { length writes.now ≤ 32 }
    ensures ok { OnOk result (out.new.items ≡ out.old.items ++ numbered boxes.write_box 0 writes.now) }
{
    for (i, register) in writes.iter().enumerate() {
        put_write(out, i as u8, *register)?;
    }
    Ok(())
}

// Writes what stands under a load/store number.
#[tactic(auto, unfolding(crate::specs::Boxes::memory_box))]
fn put_memory(out: &mut Vec<u8>, kind: &[u8], number: u8) -> Result<(), AllocError>
    ensures ok { OnOk result (out.new.items ≡ out.old.items ++ boxes.memory_box kind.now number) }
{
    let y = memory_y(number);
    let frame = Frame {
        x: 10,
        y,
        width: 90,
        height: 18,
        round: 0,
    };
    put_box(out, b"memory", frame)?;
    put_named_letters(out, 55, y + 13, kind, number as u64)
}

// Writes where a branch goes.
fn put_goal(out: &mut Vec<u8>, op: Op, goal: u32) -> Result<(), AllocError>
    ensures ok { OnOk result (out.new.items ≡ out.old.items ++ boxes.goal_text op goal) }
{
    match op {
        Op::Bro | Op::Callo => {
            out.extend_from_slice(b"block ")?;
            put_number(out, goal as u64)
        }
        Op::Scall => out.extend_from_slice(b"system call"),
        _ => out.extend_from_slice(b"by address"),
    }
}

// Writes it as a line of letters.
#[tactic(auto, unfolding(crate::specs::Shapes::letters_text))]
fn put_goal_letters(out: &mut Vec<u8>, y: u16, op: Op, goal: u32) -> Result<(), AllocError>
    ensures ok { OnOk result (out.new.items ≡ out.old.items
        ++ letters_text (codes "name") 1150 y (boxes.goal_text op goal)) }
{
    open_letters(out, b"name", 1150, y)?;
    put_goal(out, op, goal)?;
    close_letters(out)
}

// Writes an exit and where its branch goes.
#[tactic(auto, unfolding(crate::specs::Boxes::exit_box))]
fn put_exit(out: &mut Vec<u8>, number: u8, op: Op, goal: u32) -> Result<(), AllocError>
    ensures ok { OnOk result (out.new.items ≡ out.old.items ++ boxes.exit_box number op goal) }
{
    let y = exit_y(number);
    let frame = Frame {
        x: 1090,
        y,
        width: 120,
        height: 30,
        round: 0,
    };
    put_box(out, b"exit", frame)?;
    put_named_letters(out, 1150, y + 12, b"exit ", number as u64)?;
    put_goal_letters(out, y + 25, op, goal)
}

// Writes what belongs to an instruction beside its slot.
fn put_beside(out: &mut Vec<u8>, form: Form, inst: Inst, goal: u32) -> Result<(), AllocError>
    ensures ok { OnOk result (out.new.items ≡ out.old.items ++ boxes.form_box form inst goal) }
{
    match form {
        Form::Load => put_memory(out, b"load ", inst.number),
        Form::Store => put_memory(out, b"store ", inst.number),
        Form::Branch => put_exit(out, inst.number, inst.op, goal),
        Form::General | Form::Immediate | Form::Constant => Ok(()),
    }
}

// The class of the box of an instruction, by when it fires.
fn class_of(sense: Sense) -> &'static [u8]
    ensures { result.now ≡ boxes.class_of sense }
{
    match sense {
        Sense::Always => b"op",
        Sense::OnTrue => b"yes",
        Sense::OnFalse => b"no",
    }
}

// Writes the mark at the predicate of a slot.
fn put_guard(out: &mut Vec<u8>, sense: Sense, slot: u8) -> Result<(), AllocError>
    ensures ok { OnOk result (out.new.items ≡ out.old.items ++ boxes.guard_mark sense slot) }
{
    match sense {
        Sense::Always => Ok(()),
        Sense::OnTrue => put_circle(out, b"on", slot_x(slot), slot_y(slot) + 14, 4),
        Sense::OnFalse => put_circle(out, b"off", slot_x(slot), slot_y(slot) + 14, 4),
    }
}

// Writes the round line inside the box of an instruction that gives the null token.
fn put_null(out: &mut Vec<u8>, op: Op, slot: u8) -> Result<(), AllocError>
    ensures ok { OnOk result (out.new.items ≡ out.old.items ++ boxes.null_mark op slot) }
{
    match op {
        Op::Null => {
            let frame = Frame {
                x: slot_x(slot) + 3,
                y: slot_y(slot) + 3,
                width: 85,
                height: 22,
                round: 11,
            };
            put_box(out, b"null", frame)
        }
        _ => Ok(()),
    }
}

// Writes the box of a slot with its marks.
#[tactic(auto, unfolding(crate::specs::Boxes::inst_frame))]
fn put_frame(out: &mut Vec<u8>, slot: u8, inst: Inst) -> Result<(), AllocError>
    ensures ok { OnOk result (out.new.items ≡ out.old.items ++ boxes.inst_frame slot inst) }
{
    let frame = Frame {
        x: slot_x(slot),
        y: slot_y(slot),
        width: 91,
        height: 28,
        round: 0,
    };
    put_box(out, class_of(inst.sense), frame)?;
    put_null(out, inst.op, slot)?;
    put_guard(out, inst.sense, slot)
}

// Writes how a mnemonic ends under a predicate.
#[tactic(auto, unfolding(target_asm_spec::specs::Fields::sense_text))]
fn put_sense(out: &mut Vec<u8>, sense: Sense) -> Result<(), AllocError>
    ensures ok { OnOk result (out.new.items ≡ out.old.items ++ sense_text sense) }
{
    match sense {
        Sense::Always => Ok(()),
        Sense::OnTrue => out.extend_from_slice(b"_t"),
        Sense::OnFalse => out.extend_from_slice(b"_f"),
    }
}

// Writes the immediate, the offset or the constant.
fn put_immediate(out: &mut Vec<u8>, form: Form, imm: i32) -> Result<(), AllocError>
    ensures ok { OnOk result (out.new.items ≡ out.old.items ++ boxes.number_text form imm) }
{
    match form {
        Form::General | Form::Branch => Ok(()),
        Form::Immediate | Form::Load | Form::Store | Form::Constant => {
            out.extend_from_slice(b" ")?;
            put_signed(out, imm)
        }
    }
}

// Writes the operation with its predicate and its number.
#[tactic(auto, unfolding(crate::specs::Boxes::op_text))]
fn put_op(out: &mut Vec<u8>, inst: Inst) -> Result<(), AllocError>
    ensures ok { OnOk result (out.new.items ≡ out.old.items ++ boxes.op_text inst) }
{
    out.extend_from_slice(mnemonic_of(inst.op))?;
    put_sense(out, inst.sense)?;
    put_immediate(out, form_of(inst.op), inst.imm)
}

// Writes it as a line of letters.
#[tactic(auto, unfolding(crate::specs::Shapes::letters_text))]
fn put_op_letters(out: &mut Vec<u8>, x: u16, y: u16, inst: Inst) -> Result<(), AllocError>
    ensures ok { OnOk result (out.new.items ≡ out.old.items
        ++ letters_text (codes "name") x y (boxes.op_text inst)) }
{
    open_letters(out, b"name", x, y)?;
    put_op(out, inst)?;
    close_letters(out)
}

// Writes what stands in the box of a slot.
#[tactic(auto, unfolding(crate::specs::Boxes::inst_letters))]
fn put_inst_letters(out: &mut Vec<u8>, slot: u8, inst: Inst) -> Result<(), AllocError>
    ensures ok { OnOk result (out.new.items ≡ out.old.items ++ boxes.inst_letters slot inst) }
{
    let x = slot_x(slot) + 45;
    let y = slot_y(slot);
    put_op_letters(out, x, y + 12, inst)?;
    put_indexed_letters(out, b"slot", x, y + 23, b'N', slot)
}

// Writes all of the instruction in a slot.
#[tactic(auto, unfolding(crate::specs::Boxes::inst_box))]
fn put_inst(out: &mut Vec<u8>, slot: u8, inst: Inst, goal: u32) -> Result<(), AllocError>
    ensures ok { OnOk result (out.new.items ≡ out.old.items ++ boxes.inst_box slot inst goal) }
{
    put_frame(out, slot, inst)?;
    put_inst_letters(out, slot, inst)?;
    put_beside(out, form_of(inst.op), inst, goal)
}

// The block to which the offset of a slot leads, as it is told.
fn goal_of(goals: &[u32], slot: u8) -> u32
    ensures { result ≡ get_or goals.now slot 0 }
{
    let at = slot as usize;
    if at < goals.len() { goals[at] } else { 0 }
}

// Writes all of a slot.
fn put_slot(
    out: &mut Vec<u8>,
    goals: &[u32],
    slot: u8,
    inst: Option<Inst>,
) -> Result<(), AllocError>
    ensures ok { OnOk result (out.new.items ≡ out.old.items ++ boxes.slot_box goals.now slot inst) }
{
    match inst {
        None => Ok(()),
        Some(inst) => put_inst(out, slot, inst, goal_of(goals, slot)),
    }
}

/// Writes all slots of a block.
pub fn put_slots(out: &mut Vec<u8>, goals: &[u32], slots: &[Option<Inst>]) -> Result<(), AllocError>
    requires { length slots.now ≤ 128 }
    ensures ok { OnOk result (out.new.items ≡ out.old.items
        ++ numbered (boxes.slot_box goals.now) 0 slots.now) }
{
    for (slot, inst) in slots.iter().enumerate() {
        put_slot(out, goals, slot as u8, *inst)?;
    }
    Ok(())
}
