//! The words of instructions and the fields of headers: made.
ghost use Rattle.std.specs.Prelude.{◌≡◌, ◌+◌, ◌*◌, ◌<◌, ◌≤◌, ◌^◌, drop, All, Some};
ghost use Rattle.trips_isa.specs.declared.form.Form.TheVariants as forms;
ghost use Rattle.trips_isa.specs.Fits.{FitsTarget, FitsSigned, FitsForm, FitsInst, FitsSlot};
ghost use Rattle.trips_isa.specs.Fits.{FitsOperand, FitsRead};
ghost use Rattle.isa_table.specs.inside.Codes.{GoodCode};
ghost use Rattle.block_image.specs.Words.{target_number, sense_number, signed_number, form_word};
ghost use Rattle.block_image.specs.Words.{inst_word, slot_word};
ghost use Rattle.block_image.specs.Headers.{first_of, operand_number, read_fields, write_field};

use isa_table::{Code, code_of};
use trips_isa::{Form, Inst, ReadSlot, Sense, Spot, form_of};

fn sense(sense: Sense) -> u32
    ensures value { result ≡ sense_number sense }
    ensures bound { result < 4 }
{
    match sense {
        Sense::Always => 0,
        Sense::OnFalse => 2,
        Sense::OnTrue => 3,
    }
}

fn target(target: Option<Spot>) -> u32
    requires { FitsTarget target }
    ensures value { result ≡ target_number target }
    ensures bound { result < 512 }
{
    match target {
        None => 0,
        Some(Spot::Write(w)) => 32 + w as u32,
        Some(Spot::Pred(s)) => 128 + s as u32,
        Some(Spot::Left(s)) => 256 + s as u32,
        Some(Spot::Right(s)) => 384 + s as u32,
        Some(_) => 1,
    }
}

/// A number that may be negative, in a field of so many values.
fn signed(values: u32, number: i32) -> u32
    requires few { values ≤ 2 ^ 20 }
    requires fits { FitsSigned values number }
    ensures value { result ≡ signed_number values number }
    ensures bound { result < values }
{
    if number < 0 {
        (number + values as i32) as u32
    } else {
        number as u32
    }
}

fn general(code: Code, inst: Inst) -> u32
    requires code { GoodCode forms.General code }
    requires fits { FitsForm forms.General inst }
    ensures value { result ≡ form_word forms.General code inst }
{
    code.opcode * 33554432
        + (sense(inst.sense) * 8388608
            + (code.extended * 262144 + (target(inst.second) * 512 + target(inst.first))))
}

#[tactic(auto, using(crate::proofs::Widths::wider))]
fn immediate(code: Code, inst: Inst) -> u32
    requires code { GoodCode forms.Immediate code }
    requires fits { FitsForm forms.Immediate inst }
    ensures value { result ≡ form_word forms.Immediate code inst }
{
    code.opcode * 33554432
        + (sense(inst.sense) * 8388608
            + (code.extended * 262144 + (signed(512, inst.imm) * 512 + target(inst.first))))
}

#[tactic(auto, using(crate::proofs::Widths::wider))]
fn load(code: Code, inst: Inst) -> u32
    requires code { GoodCode forms.Load code }
    requires fits { FitsForm forms.Load inst }
    ensures value { result ≡ form_word forms.Load code inst }
{
    code.opcode * 33554432
        + (sense(inst.sense) * 8388608
            + (inst.number as u32 * 262144 + (signed(512, inst.imm) * 512 + target(inst.first))))
}

#[tactic(auto, using(crate::proofs::Widths::wider))]
fn store(code: Code, inst: Inst) -> u32
    requires code { GoodCode forms.Store code }
    requires fits { FitsForm forms.Store inst }
    ensures value { result ≡ form_word forms.Store code inst }
{
    code.opcode * 33554432
        + (sense(inst.sense) * 8388608
            + (inst.number as u32 * 262144 + signed(512, inst.imm) * 512))
}

#[tactic(auto, using(crate::proofs::Widths::offset_fits))]
fn branch(code: Code, inst: Inst) -> u32
    requires code { GoodCode forms.Branch code }
    requires fits { FitsForm forms.Branch inst }
    ensures value { result ≡ form_word forms.Branch code inst }
{
    code.opcode * 33554432
        + (sense(inst.sense) * 8388608 + (inst.number as u32 * 1048576 + signed(1048576, inst.imm)))
}

#[tactic(auto, using(crate::proofs::Widths::constant_fits))]
fn constant(code: Code, inst: Inst) -> u32
    requires code { GoodCode forms.Constant code }
    requires fits { FitsForm forms.Constant inst }
    ensures value { result ≡ form_word forms.Constant code inst }
{
    code.opcode * 33554432 + (signed(65536, inst.imm) * 512 + target(inst.first))
}

fn formed(form: Form, code: Code, inst: Inst) -> u32
    requires code { GoodCode form code }
    requires fits { FitsForm form inst }
    ensures value { result ≡ form_word form code inst }
{
    match form {
        Form::General => general(code, inst),
        Form::Immediate => immediate(code, inst),
        Form::Load => load(code, inst),
        Form::Store => store(code, inst),
        Form::Branch => branch(code, inst),
        Form::Constant => constant(code, inst),
    }
}

fn inst_word(inst: Inst) -> u32
    requires { FitsInst inst }
    ensures value { result ≡ inst_word inst }
{
    formed(form_of(inst.op), code_of(inst.op), inst)
}

/// The word of a slot.
pub(crate) fn slot_word(slot: Option<Inst>) -> u32
    requires { FitsSlot slot }
    ensures value { result ≡ slot_word slot }
{
    match slot {
        None => 0,
        Some(inst) => inst_word(inst),
    }
}

fn operand(spot: Spot) -> u32
    requires { FitsOperand spot }
    ensures value { result ≡ operand_number spot }
    ensures bound { result < 256 }
{
    match spot {
        Spot::Left(s) => s as u32,
        Spot::Right(s) => 128 + s as u32,
        _ => 0,
    }
}

fn fields(read: ReadSlot) -> u32
    requires { FitsRead read }
    ensures value { result ≡ read_fields (Some read) }
    ensures bound { result < 8388608 }
{
    let first = operand(read.first);
    let second = match read.second {
        None => first,
        Some(spot) => operand(spot),
    };
    read.register as u32 * 65536 + (second * 256 + first)
}

/// The fields of a read, or 0 past the last one.
pub(crate) fn fields_at(reads: &[ReadSlot], i: usize) -> u32
    requires { All FitsRead reads.now }
    ensures value { result ≡ read_fields (first_of (drop i reads.now)) }
    ensures bound { result < 8388608 }
{
    if i < reads.len() { fields(reads[i]) } else { 0 }
}

/// The register of a write, or 0 past the last one.
pub(crate) fn write_at(writes: &[u8], i: usize) -> u32
    requires { All (λ w. w < 128) writes.now }
    ensures value { result ≡ write_field (first_of (drop i writes.now)) }
    ensures bound { result < 128 }
{
    if i < writes.len() {
        writes[i] as u32
    } else {
        0
    }
}
