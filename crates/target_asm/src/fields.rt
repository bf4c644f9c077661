//! The fields of a line, written.
ghost use Rattle.std.specs.Prelude.{◌≡◌, ◌<◌, ◌++◌, ◌∷◌, [], OnOk};
ghost use Rattle.std.specs.Fmt.{decimal, signed_decimal};
ghost use Rattle.target_asm_spec.specs.Numbers.{hex_digit, hex_byte, hex_word};
ghost use Rattle.isa_table.specs.Spots.{spot_text};
ghost use Rattle.target_asm_spec.specs.Fields.{target_text, sense_text};
ghost use Rattle.target_asm_spec.specs.Fields.{goal_text, branch_text, numbers_text};

use isa_table::{put_number, put_signed, put_spot};
use std::alloc::AllocError;
use trips_isa::{Form, Inst, Op, Sense, Spot};

fn digit(d: u8) -> u8
    requires { d < 16 }
    ensures value { result ≡ hex_digit d }
{
    if d < 10 { 48 + d } else { 87 + d }
}

/// Writes a byte as two hexadecimal digits.
pub fn put_byte(out: &mut Vec<u8>, byte: u8) -> Result<(), AllocError>
    ensures ok { OnOk result (out.new.items ≡ out.old.items ++ hex_byte byte) }
{
    let digits = [digit(byte / 16), digit(byte % 16)];
    out.extend_from_slice(&digits)
}

/// Writes a word as eight hexadecimal digits.
#[tactic(auto, unfolding(target_asm_spec::specs::Numbers::hex_word))]
pub fn put_word(out: &mut Vec<u8>, word: u32) -> Result<(), AllocError>
    ensures ok { OnOk result (out.new.items ≡ out.old.items ++ hex_word word) }
{
    put_byte(out, (word / 16777216) as u8)?;
    put_byte(out, (word / 65536 % 256) as u8)?;
    put_byte(out, (word / 256 % 256) as u8)?;
    put_byte(out, (word % 256) as u8)?;
    Ok(())
}

/// Writes a target, if there is one, after a space.
pub fn put_target(out: &mut Vec<u8>, target: Option<Spot>) -> Result<(), AllocError>
    ensures ok { OnOk result (out.new.items ≡ out.old.items ++ target_text target) }
{
    match target {
        None => Ok(()),
        Some(spot) => {
            out.push(b' ')?;
            put_spot(out, spot)
        }
    }
}

/// Writes how a mnemonic ends under a predicate.
#[tactic(auto, unfolding(target_asm_spec::specs::Fields::sense_text))]
pub fn put_sense(out: &mut Vec<u8>, sense: Sense) -> Result<(), AllocError>
    ensures ok { OnOk result (out.new.items ≡ out.old.items ++ sense_text sense) }
{
    match sense {
        Sense::Always => Ok(()),
        Sense::OnTrue => out.extend_from_slice(b"_t"),
        Sense::OnFalse => out.extend_from_slice(b"_f"),
    }
}

fn put_goal(out: &mut Vec<u8>, goal: Option<u32>, offset: i32) -> Result<(), AllocError>
    ensures ok { OnOk result (out.new.items ≡ out.old.items ++ goal_text goal offset) }
{
    match goal {
        Some(block) => {
            out.push(b'@')?;
            put_number(out, block as u64)
        }
        None => {
            out.push(b'!')?;
            put_signed(out, offset)
        }
    }
}

fn put_branch(out: &mut Vec<u8>, op: Op, goal: Option<u32>, offset: i32) -> Result<(), AllocError>
    ensures ok { OnOk result (out.new.items ≡ out.old.items ++ branch_text op goal offset) }
{
    match op {
        Op::Bro | Op::Callo => {
            out.push(b' ')?;
            put_goal(out, goal, offset)
        }
        _ => Ok(()),
    }
}

fn put_spaced(out: &mut Vec<u8>, n: i32) -> Result<(), AllocError>
    ensures ok { OnOk result (out.new.items ≡ out.old.items ++ 32 ∷ signed_decimal n) }
{
    out.push(b' ')?;
    put_signed(out, n)
}

fn put_spaced_count(out: &mut Vec<u8>, n: u8) -> Result<(), AllocError>
    ensures ok { OnOk result (out.new.items ≡ out.old.items ++ 32 ∷ decimal n) }
{
    out.push(b' ')?;
    put_number(out, n as u64)
}

/// Writes the numbers of an instruction, each after a space.
pub fn put_numbers(
    out: &mut Vec<u8>,
    form: Form,
    inst: Inst,
    goal: Option<u32>,
) -> Result<(), AllocError>
    ensures ok { OnOk result (out.new.items ≡ out.old.items ++ numbers_text form inst goal) }
{
    match form {
        Form::General => Ok(()),
        Form::Immediate | Form::Constant => put_spaced(out, inst.imm),
        Form::Load | Form::Store => {
            put_spaced_count(out, inst.number)?;
            put_spaced(out, inst.imm)
        }
        Form::Branch => {
            put_spaced_count(out, inst.number)?;
            put_branch(out, inst.op, goal, inst.imm)
        }
    }
}
