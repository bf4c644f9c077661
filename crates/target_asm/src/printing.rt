//! Images as text.
ghost use Rattle.std.specs.Prelude.{◌≡◌, ◌+◌, ◌≤◌, ◌<◌, ℕ, length, take, All, IfOk, OnOk, ◌++◌};
ghost use Rattle.std.specs.Prelude.{Some, pos, ◌+ℤ◌, ◌^◌};
ghost use Rattle.std.specs.List.{sum_by};
ghost use Rattle.isa_table.specs.Mnemonics.{mnemonic_of};
ghost use Rattle.trips_isa.specs.Fits.{FitsBlock};
ghost use Rattle.trips_isa.specs.Images.{FitsImage, chunks, chunk_of};
ghost use Rattle.target_asm_spec.specs.Numbers.{numbered};
ghost use Rattle.target_asm_spec.specs.Text.{goal_of};
ghost use Rattle.target_asm_spec.specs.inside.Chunks.{goal_in, start_rows};
ghost use Rattle.target_asm_spec.specs.Text.{TargetText, image_text, head_lines, byte_text, block_text};
ghost use Rattle.target_asm_spec.specs.Text.{block_line, read_line, write_line, inst_line, op_text};
ghost use Rattle.target_asm_spec.specs.Text.{targets_text, slot_text, block_in};

use crate::fields::{put_byte, put_numbers, put_sense, put_target, put_word};
use crate::tables::{goal, starts};
use base::Memory;
use isa_table::{mnemonic_of, put_indexed, put_number};
use std::alloc::{AllocError, Global};
use trips_isa::{Block, Image, Inst, ReadSlot, chunks, form_of};

#[tactic(auto, unfolding(target_asm_spec::specs::Text::read_line))]
fn put_read(out: &mut Vec<u8>, i: u64, read: ReadSlot) -> Result<(), AllocError>
    ensures ok { OnOk result (out.new.items ≡ out.old.items ++ read_line i read) }
{
    put_indexed(out, b'R', i)?;
    out.extend_from_slice(b" read ")?;
    put_indexed(out, b'G', read.register as u64)?;
    put_target(out, Some(read.first))?;
    put_target(out, read.second)?;
    out.push(b'\n')?;
    Ok(())
}

#[tactic(auto, unfolding(target_asm_spec::specs::Text::write_line))]
fn put_write(out: &mut Vec<u8>, i: u64, register: u8) -> Result<(), AllocError>
    ensures ok { OnOk result (out.new.items ≡ out.old.items ++ write_line i register) }
{
    put_indexed(out, b'W', i)?;
    out.extend_from_slice(b" write ")?;
    put_indexed(out, b'G', register as u64)?;
    out.push(b'\n')?;
    Ok(())
}

#[tactic(auto, unfolding(target_asm_spec::specs::Text::op_text))]
fn put_op(out: &mut Vec<u8>, inst: Inst, goal: Option<u32>) -> Result<(), AllocError>
    ensures ok { OnOk result (out.new.items ≡ out.old.items ++ op_text inst goal) }
{
    out.extend_from_slice(mnemonic_of(inst.op))?;
    put_sense(out, inst.sense)?;
    put_numbers(out, form_of(inst.op), inst, goal)?;
    Ok(())
}

#[tactic(auto, unfolding(target_asm_spec::specs::Text::targets_text))]
fn put_targets(out: &mut Vec<u8>, inst: Inst) -> Result<(), AllocError>
    ensures ok { OnOk result (out.new.items ≡ out.old.items ++ targets_text inst) }
{
    put_target(out, inst.first)?;
    put_target(out, inst.second)?;
    out.push(b'\n')?;
    Ok(())
}

#[tactic(auto, unfolding(target_asm_spec::specs::Text::inst_line))]
fn put_inst(out: &mut Vec<u8>, slot: u64, inst: Inst, goal: Option<u32>) -> Result<(), AllocError>
    ensures ok { OnOk result (out.new.items ≡ out.old.items ++ inst_line slot inst goal) }
{
    put_indexed(out, b'N', slot)?;
    out.push(b' ')?;
    put_op(out, inst, goal)?;
    put_targets(out, inst)?;
    Ok(())
}

fn put_reads(out: &mut Vec<u8>, reads: &[ReadSlot]) -> Result<(), AllocError>
    ensures ok { OnOk result (out.new.items ≡ out.old.items ++ numbered read_line 0 reads.now) }
{
    for (i, read) in reads.iter().enumerate() {
        put_read(out, i as u64, *read)?;
    }
    Ok(())
}

fn put_writes(out: &mut Vec<u8>, writes: &[u8]) -> Result<(), AllocError>
    ensures ok { OnOk result (out.new.items ≡ out.old.items ++ numbered write_line 0 writes.now) }
{
    for (i, register) in writes.iter().enumerate() {
        put_write(out, i as u64, *register)?;
    }
    Ok(())
}

#[tactic(auto, unfolding(target_asm_spec::specs::Text::block_line))]
fn put_block_line(out: &mut Vec<u8>, k: u64, mask: u32) -> Result<(), AllocError>
    ensures ok { OnOk result (out.new.items ≡ out.old.items ++ block_line k mask) }
{
    out.extend_from_slice(b"block ")?;
    put_number(out, k)?;
    out.extend_from_slice(b" mask ")?;
    put_word(out, mask)?;
    out.push(b'\n')?;
    Ok(())
}

#[tactic(auto, unfolding(target_asm_spec::specs::Text::head_lines))]
fn put_head(out: &mut Vec<u8>, count: u64) -> Result<(), AllocError>
    ensures ok { OnOk result (out.new.items ≡ out.old.items ++ head_lines count) }
{
    out.extend_from_slice(b"trips 1\ndata ")?;
    put_number(out, count)?;
    out.push(b'\n')?;
    Ok(())
}

#[tactic(auto, unfolding(target_asm_spec::specs::Text::byte_text))]
fn put_data_byte(out: &mut Vec<u8>, count: usize, at: usize, byte: u8) -> Result<(), AllocError>
    requires { at < count }
    ensures ok { OnOk result (out.new.items ≡ out.old.items ++ byte_text count at byte) }
{
    put_byte(out, byte)?;
    if (at + 1) % 32 == 0 || at + 1 == count {
        out.push(b'\n')?;
    }
    Ok(())
}

fn put_data(out: &mut Vec<u8>, bytes: &[u8]) -> Result<(), AllocError>
    ensures ok { OnOk result (out.new.items ≡ out.old.items
        ++ numbered (byte_text (length bytes.now)) 0 bytes.now) }
{
    let count = bytes.len();
    for (at, byte) in bytes.iter().enumerate() {
        put_data_byte(out, count, at, *byte)?;
    }
    Ok(())
}

fn put_slot(
    out: &mut Vec<u8>,
    starts: &[u32],
    here: u32,
    slot: usize,
    inst: Option<Inst>,
) -> Result<(), AllocError>
    ensures ok { OnOk result (out.new.items ≡ out.old.items
        ++ slot_text (goal_in starts.now) here slot inst) }
{
    match inst {
        None => Ok(()),
        Some(inst) => put_inst(out, slot as u64, inst, goal(starts, here, inst.imm)),
    }
}

fn put_slots(
    out: &mut Vec<u8>,
    starts: &[u32],
    here: u32,
    slots: &[Option<Inst>],
) -> Result<(), AllocError>
    ensures ok { OnOk result (out.new.items ≡ out.old.items
        ++ numbered (slot_text (goal_in starts.now) here) 0 slots.now) }
{
    for (slot, inst) in slots.iter().enumerate() {
        put_slot(out, starts, here, slot, *inst)?;
    }
    Ok(())
}

/// Writes a block that begins at the chunk `here`.
#[tactic(auto, unfolding(target_asm_spec::specs::Text::block_text))]
fn put_block(
    out: &mut Vec<u8>,
    starts: &[u32],
    here: u32,
    k: usize,
    block: &Block,
) -> Result<(), AllocError>
    ensures ok { OnOk result (out.new.items ≡ out.old.items
        ++ block_text (goal_in starts.now) here k block.now) }
{
    put_block_line(out, k as u64, block.mask)?;
    put_reads(out, block.reads.as_slice())?;
    put_writes(out, block.writes.as_slice())?;
    put_slots(out, starts, here, block.insts.as_slice())?;
    Ok(())
}

fn put_blocks(out: &mut Vec<u8>, starts: &[u32], blocks: &[Block]) -> Result<(), AllocError>
    requires fit { All FitsBlock blocks.now }
    requires few { sum_by chunks blocks.now < 2 ^ 32 }
    ensures ok { OnOk result (out.new.items ≡ out.old.items
        ++ numbered (λ k b. block_text (goal_in starts.now) (chunk_of blocks.now k) k b) 0
        blocks.now) }
{
    let mut here = 0;
    for (k, block) in blocks.iter().enumerate() {
        put_block(out, starts, here, k, block)?;
        here += chunks(block);
    }
    Ok(())
}

/// The text of an image that fits: its one spelling (docs/MACHINE.md, "Target text").
pub fn print(alloc: Global, image: &Image) -> Result<Vec<u8>, Memory>
    requires { FitsImage image.now }
    ensures ok { IfOk result (λ text. TargetText image.now text.items) }
{
    let starts = starts(alloc, image.blocks.as_slice())?;
    let mut out = Vec::new(alloc);
    put_head(&mut out, image.bytes.len() as u64)?;
    put_data(&mut out, image.bytes.as_slice())?;
    put_blocks(&mut out, &starts, image.blocks.as_slice())?;
    Ok(out)
}
