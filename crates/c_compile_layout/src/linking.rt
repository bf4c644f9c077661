//! The immediates of an image's instructions, once each block stands somewhere.
ghost use Rattle.std.specs.Prelude.{◌≡◌, ◌≤◌, All, get_or, length, map, [], ◌/◌, ◌%◌, ◌*◌};
ghost use Rattle.c_compile_layout.specs.inside.Linking as spec;
ghost use Rattle.std.specs.Prelude.{OnOk, IfErr, IfOk};
ghost use Rattle.std.specs.List.{sum_by};
ghost use Rattle.trips_isa.specs.Images.{chunks};
ghost use Rattle.trips_isa.specs.Limits.{most_chunks};
ghost use Rattle.c_compile_layout.specs.inside.Layouts.{AreFew, begins, linked};

use std::alloc::{AllocError, Global};
use std::vec::Vec;
use trips_isa::{Block, Inst, Op};

/// The way from one chunk to another, as a branch holds it.
pub fn offset(here: u32, there: u32) -> i32
    requires here { here ≤ most_chunks }
    requires there { there ≤ most_chunks }
    ensures value { result ≡ spec.offset here there }
{
    if here <= there {
        (there - here) as i32
    } else {
        -1 - (here - there - 1) as i32
    }
}

// The label that an immediate holds.
fn label(imm: i32) -> usize
    ensures value { result ≡ spec.label_in imm }
{
    if imm < 0 { 0 } else { imm as usize }
}

// The chunk where a block begins; behind the last block it is the end of all.
fn chunk(starts: &[u32], end: u32, label: usize) -> u32
    requires starts { All (λ c. c ≤ most_chunks) starts.now }
    requires end { end ≤ most_chunks }
    ensures value { result ≡ get_or starts.now label end }
    ensures low { result ≤ most_chunks }
{
    if label < starts.len() {
        starts[label]
    } else {
        end
    }
}

// The high half of a label's address, where a constant holds a label.
fn high(starts: &[u32], end: u32, imm: i32) -> i32
    requires starts { All (λ c. c ≤ most_chunks) starts.now }
    requires end { end ≤ most_chunks }
    ensures value { result ≡ spec.half_of (λ l. 128 * get_or starts.now l end / 65536) imm }
{
    if imm < 65536 {
        imm
    } else {
        (128 * chunk(starts, end, label(imm - 65536)) / 65536) as i32
    }
}

// The low half.
fn low(starts: &[u32], end: u32, imm: i32) -> i32
    requires starts { All (λ c. c ≤ most_chunks) starts.now }
    requires end { end ≤ most_chunks }
    ensures value { result ≡ spec.half_of (λ l. 128 * get_or starts.now l end % 65536) imm }
{
    if imm < 65536 {
        imm
    } else {
        (128 * chunk(starts, end, label(imm - 65536)) % 65536) as i32
    }
}

// The way from a block to a label's block.
fn way(starts: &[u32], end: u32, k: usize, imm: i32) -> i32
    requires starts { All (λ c. c ≤ most_chunks) starts.now }
    requires end { end ≤ most_chunks }
    ensures value { result ≡ spec.offset (get_or starts.now k end)
        (get_or starts.now (spec.label_in imm) end) }
{
    offset(chunk(starts, end, k), chunk(starts, end, label(imm)))
}

/// What an immediate of block `k` becomes, where the blocks begin at these chunks and end at `end`.
pub fn resolved_imm(starts: &[u32], end: u32, k: usize, op: Op, imm: i32) -> i32
    requires starts { All (λ c. c ≤ most_chunks) starts.now }
    requires end { end ≤ most_chunks }
    ensures value { result ≡ spec.by_both (λ l. get_or starts.now l end) k op imm }
{
    match op {
        Op::Bro => way(starts, end, k, imm),
        Op::Callo => way(starts, end, k, imm),
        Op::Genu => high(starts, end, imm),
        Op::App => low(starts, end, imm),
        _ => imm,
    }
}

// Resolves the immediate of a slot.
fn resolve_slot(slot: &mut Option<Inst>, starts: &[u32], end: u32, k: usize)
    requires starts { All (λ c. c ≤ most_chunks) starts.now }
    requires end { end ≤ most_chunks }
    ensures value { slot.new
        ≡ spec.resolved_slot (spec.by_both (λ l. get_or starts.now l end) k) slot.old }
{
    match slot {
        Some(inst) => {
            inst.imm = resolved_imm(starts, end, k, inst.op, inst.imm);
        }
        None => {}
    }
}

// Resolves the immediate of each slot.
fn resolve_slots(slots: &mut [Option<Inst>], starts: &[u32], end: u32, k: usize)
    requires starts { All (λ c. c ≤ most_chunks) starts.now }
    requires end { end ≤ most_chunks }
    ensures value { slots.new
        ≡ map (spec.resolved_slot (spec.by_both (λ l. get_or starts.now l end) k)) slots.old }
{
    for i in 0..slots.len() {
        resolve_slot(&mut slots[i], starts, end, k);
    }
}

/// Resolves the labels of block `k`.
pub fn resolve(starts: &[u32], end: u32, k: usize, block: &mut Block)
    requires starts { All (λ c. c ≤ most_chunks) starts.now }
    requires end { end ≤ most_chunks }
    ensures value { block.new
        ≡ spec.resolved_block (spec.by_both (λ l. get_or starts.now l end) k) block.old }
{
    resolve_slots(block.insts.as_mut_slice(), starts, end, k);
}

/// Resolves the labels of all blocks, which begin at these chunks and end at `end`.
pub fn link(starts: &[u32], end: u32, blocks: &mut [Block])
    requires starts { All (λ c. c ≤ most_chunks) starts.now }
    requires end { end ≤ most_chunks }
    ensures value { blocks.new ≡ spec.linked_from (λ l. get_or starts.now l end) 0 blocks.old }
{
    for k in 0..blocks.len() {
        resolve(starts, end, k, &mut blocks[k]);
    }
}

// The chunks where blocks begin, and the end of all.
fn starts(out: &mut Vec<u32>, blocks: &[Block]) -> Result<u32, AllocError>
    requires empty { out.old.items ≡ [] }
    requires sizes { All (λ b. length b.insts.items ≤ 128) blocks.now }
    requires few { AreFew blocks.now }
    ensures starts { OnOk result (out.new.items ≡ begins 0 blocks.now) }
    ensures end { IfOk result (λ e. e ≡ sum_by chunks blocks.now) }
{
    let mut here = 0;
    for block in blocks {
        out.push(here)?;
        here += trips_isa::chunks(block);
    }
    Ok(here)
}

/// Resolves the labels of the blocks of an image where they stand. Want of memory is the only error,
/// and leaves the blocks.
pub fn link_all(alloc: Global, blocks: &mut [Block]) -> Result<(), AllocError>
    requires sizes { All (λ b. length b.insts.items ≤ 128) blocks.old }
    requires few { AreFew blocks.old }
    ensures ok { OnOk result (blocks.new ≡ linked blocks.old) }
    ensures err { IfErr result (λ e. blocks.new ≡ blocks.old) }
{
    let mut table = Vec::new(alloc);
    let end = starts(&mut table, blocks)?;
    link(table.as_slice(), end, blocks);
    Ok(())
}
