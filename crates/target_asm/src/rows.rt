//! The lines of reads and of writes, one after the other.
ghost use Rattle.std.specs.Prelude.{◌≡◌, ◌≤◌, ◌<◌, ◌^◌, ◌+◌, IfOk, []};
ghost use Rattle.target_asm_spec.specs.inside.Blocks.{begins, is_place, one_read, reads_in, one_write};
ghost use Rattle.target_asm_spec.specs.inside.Blocks.{writes_in};
ghost use Rattle.target_asm.specs.inside.Taking.{Returns};

use crate::line_fields::{after, field};
use crate::registers::{judged_read, read_line, write_line};
use arrayvec::ArrayVec;
use target_asm_spec::AsmFault;
use trips_isa::ReadSlot;

/// Whether the text begins with a word.
pub fn begins(text: &[u8], front: &[u8]) -> bool
    ensures value { result ≡ begins front.now text.now }
{
    match after(text, front) {
        None => false,
        Some(_) => true,
    }
}

/// Whether a number is the one that its place fixes.
pub fn is_place(n: i32, place: usize) -> bool
    ensures value { result ≡ is_place n place }
{
    0 <= n && n as usize == place
}

/// The line of read i.
#[tactic(auto, unfolding(target_asm_spec::specs::inside::Blocks::one_read))]
fn one_read(i: usize, line: u32, text: &[u8]) -> Result<(ReadSlot, &[u8]), AsmFault>
    ensures value { Returns (λ r. (r.0, r.1.now)) result (one_read i line text.now) }
    ensures room { IfOk result (λ r. i < 32) }
{
    let Some(spelled) = read_line(text) else {
        return Err(AsmFault::Syntax(line));
    };
    if !is_place(spelled.0.number, i) {
        return Err(AsmFault::Syntax(line));
    }
    if 32 <= i {
        return Err(AsmFault::Range(line));
    }
    match judged_read(spelled.0) {
        None => Err(AsmFault::Range(line)),
        Some(read) => Ok((read, spelled.1)),
    }
}

/// The lines of reads: the number of the next line and what is left.
#[tactic(auto, unfolding(target_asm_spec::specs::inside::Blocks::reads_in))]
pub fn reads<'a>(
    out: &mut ArrayVec<ReadSlot, 32>,
    line: u32,
    text: &'a [u8],
) -> Result<(u32, &'a [u8]), AsmFault>
    requires empty { out.old.items ≡ [] }
    requires line { line < 2 ^ 31 + 2 ^ 10 }
    ensures read { Returns (λ r. (out.new.items, r.0, r.1.now)) result (reads_in line text.now) }
    ensures few { IfOk result (λ r. r.0 ≤ line + 33) }
{
    let mut rest = text;
    for i in 0..33 {
        if !begins(rest, b"R[") {
            return Ok((line + i as u32, rest));
        }
        match one_read(i, line + i as u32, rest) {
            Err(fault) => return Err(fault),
            Ok(read) => {
                out.push(read.0);
                rest = read.1;
            }
        }
    }
    Err(AsmFault::Syntax(line + 33))
}

/// The line of write i.
#[tactic(auto, unfolding(target_asm_spec::specs::inside::Blocks::one_write))]
fn one_write(i: usize, line: u32, text: &[u8]) -> Result<(u8, &[u8]), AsmFault>
    ensures value { Returns (λ r. (r.0, r.1.now)) result (one_write i line text.now) }
    ensures room { IfOk result (λ r. i < 32) }
{
    let Some(spelled) = write_line(text) else {
        return Err(AsmFault::Syntax(line));
    };
    if !is_place(spelled.0.number, i) {
        return Err(AsmFault::Syntax(line));
    }
    if 32 <= i {
        return Err(AsmFault::Range(line));
    }
    match field(spelled.0.register, 128) {
        None => Err(AsmFault::Range(line)),
        Some(register) => Ok((register, spelled.1)),
    }
}

/// The lines of writes: the number of the next line and what is left.
#[tactic(auto, unfolding(target_asm_spec::specs::inside::Blocks::writes_in))]
pub fn writes<'a>(
    out: &mut ArrayVec<u8, 32>,
    line: u32,
    text: &'a [u8],
) -> Result<(u32, &'a [u8]), AsmFault>
    requires empty { out.old.items ≡ [] }
    requires line { line < 2 ^ 31 + 2 ^ 10 }
    ensures read { Returns (λ r. (out.new.items, r.0, r.1.now)) result (writes_in line text.now) }
    ensures few { IfOk result (λ r. r.0 ≤ line + 33) }
{
    let mut rest = text;
    for i in 0..33 {
        if !begins(rest, b"W[") {
            return Ok((line + i as u32, rest));
        }
        match one_write(i, line + i as u32, rest) {
            Err(fault) => return Err(fault),
            Ok(write) => {
                out.push(write.0);
                rest = write.1;
            }
        }
    }
    Err(AsmFault::Syntax(line + 33))
}
