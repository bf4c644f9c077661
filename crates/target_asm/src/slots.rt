//! The lines of a block's instructions, one after the other.
ghost use Rattle.std.specs.Prelude.{◌≡◌, ◌≤◌, ◌<◌, ◌^◌, ◌+◌, ◌++◌, length, IfOk, []};
ghost use Rattle.target_asm_spec.specs.inside.Blocks.{in_turn, one_inst, gap, slots_in};
ghost use Rattle.target_asm.specs.inside.Taking.{Returns, seen};

use crate::branches::{Known, aimed};
use crate::instruction::inst_line;
use crate::judging::judged;
use crate::line_fields::field;
use crate::rows::begins;
use arrayvec::ArrayVec;
use target_asm_spec::AsmFault;
use trips_isa::Inst;

/// Whether a slot is none of those before `next`, which hold instructions or are passed.
fn in_turn(next: usize, slot: i32) -> bool
    ensures value { result ≡ in_turn next slot }
{
    if slot < 0 {
        next == 0
    } else {
        next <= slot as usize
    }
}

/// The slot and the instruction of a line.
#[tactic(auto, using(crate::proofs::Filling::turn_after), unfolding(target_asm_spec::specs::inside::Blocks::one_inst))]
fn one_inst<'a>(
    known: Known<'_>,
    here: u32,
    next: usize,
    line: u32,
    text: &'a [u8],
) -> Result<(u8, Inst, &'a [u8]), AsmFault>
    requires { here < 2 ^ 30 }
    ensures value { Returns (λ r. (r.0, r.1, r.2.now)) result
        (one_inst (seen known.entry) here next line text.now) }
    ensures room { IfOk result (λ r. r.0 < 128) }
    ensures later { IfOk result (λ r. next ≤ r.0) }
{
    let Some(spelled) = inst_line(text) else {
        return Err(AsmFault::Syntax(line));
    };
    if !in_turn(next, spelled.0.slot) {
        return Err(AsmFault::Syntax(line));
    }
    let Some(slot) = field(spelled.0.slot, 128) else {
        return Err(AsmFault::Range(line));
    };
    let Some(inst) = judged(spelled.0) else {
        return Err(AsmFault::Range(line));
    };
    if 524288 < here + 2 + slot as u32 / 32 {
        return Err(AsmFault::Range(line));
    }
    match aimed(known, here, line, spelled.0.numbers.goal, inst.imm) {
        Err(fault) => Err(fault),
        Ok(imm) => Ok((slot, Inst { imm, ..inst }, spelled.1)),
    }
}

/// Appends empty slots, up to a number of them.
fn pad(out: &mut ArrayVec<Option<Inst>, 128>, to: usize)
    requires within { to ≤ 128 }
    requires before { length out.old.items ≤ to }
    ensures value { out.new.items ≡ out.old.items ++ gap (length out.old.items) to }
    ensures size { length out.new.items ≡ to }
{
    for _ in out.len()..to {
        out.push(None);
    }
}

/// The lines of a block's instructions: the number of the next line and what is left. The slots of
/// which no line tells are empty.
pub fn slots<'a>(
    out: &mut ArrayVec<Option<Inst>, 128>,
    known: Known<'_>,
    here: u32,
    line: u32,
    text: &'a [u8],
) -> Result<(u32, &'a [u8]), AsmFault>
    requires empty { out.old.items ≡ [] }
    requires line { line < 2 ^ 31 + 2 ^ 10 }
    requires here { here < 2 ^ 30 }
    ensures read { Returns (λ r. (out.new.items, r.0, r.1.now)) result
        (slots_in (seen known.entry) here 129 0 line text.now) }
    ensures few { IfOk result (λ r. r.0 ≤ line + 129) }
    ensures size { length out.new.items ≤ 128 }
{
    let mut rest = text;
    for turn in 0..129 {
        if !begins(rest, b"N[") {
            pad(out, 128);
            return Ok((line + turn, rest));
        }
        match one_inst(known, here, out.len(), line + turn, rest) {
            Err(fault) => return Err(fault),
            Ok(placed) => {
                pad(out, placed.0 as usize);
                out.push(Some(placed.1));
                rest = placed.2;
            }
        }
    }
    Err(AsmFault::Syntax(line + 129))
}
