//! Blocks: read.
ghost use Rattle.std.specs.Prelude.{◌≡◌, ◌+◌, ◌-◌, ◌*◌, ◌<◌, ◌≤◌, ◌^◌, ◌++◌, length, drop};
ghost use Rattle.std.specs.Prelude.{replicate, IfOk, OnOk, None, true, []};
ghost use Rattle.block_image.specs.HeaderReading.{is_good_info, chunks_in};
ghost use Rattle.block_image.specs.inside.WordReading.{slot_of_word};
ghost use Rattle.block_image.specs.Spelling.{chunks_of};
ghost use Rattle.block_image.specs.Reading.{all_empty};
ghost use Rattle.block_image.specs.inside.Reading.{chunk_at, slots_at, slot_or_fault, body_at};
ghost use Rattle.block_image.specs.inside.Reading.{header_at, least_at, rest_at, parts_from};
ghost use Rattle.block_image.specs.inside.ImageReading.{Decodes, Adds};
ghost use Rattle.trips_isa.specs.Limits.{most_chunks};

use crate::fault::ImageFault;
use crate::header::{add_reads, add_writes, bad_word, info, words_of};
use crate::word::slot_of;
use arrayvec::ArrayVec;
use trips_isa::{Block, Inst};

#[tactic(auto, unfolding(crate::specs::inside::Reading::chunk_at))]
pub(crate) fn chunk(bytes: &[u8], at: usize) -> Result<[u32; 32], ImageFault>
    requires { at < 2 ^ 63 }
    ensures value { result ≡ chunk_at at bytes.now }
{
    if bytes.len() < at + 128 {
        return Err(ImageFault::Truncated(bytes.len() as u64));
    }
    Ok(words_of(&bytes[at..at + 128]))
}

fn slot(word: u32, at: usize) -> Result<Option<Inst>, ImageFault>
    ensures value { result ≡ slot_or_fault at (slot_of_word word) }
{
    match slot_of(word) {
        None => Err(ImageFault::BadField(at as u64)),
        Some(slot) => Ok(slot),
    }
}

/// Adds the slots of a chunk.
fn slots(out: &mut ArrayVec<Option<Inst>, 128>, words: &[u32], at: usize) -> Result<(), ImageFault>
    requires place { at < 2 ^ 63 }
    requires words { length words.now ≡ 32 }
    requires room { length out.old.items + 32 ≤ 128 }
    ensures read { Adds out.old.items out.new.items result (slots_at at words.now) }
    ensures size { length out.new.items ≤ length out.old.items + 32 }
{
    for i in 0..words.len() {
        match slot(words[i], at + 4 * i) {
            Err(fault) => return Err(fault),
            Ok(slot) => out.push(slot),
        }
    }
    Ok(())
}

/// Adds the slots of the body's chunks.
fn body(
    out: &mut ArrayVec<Option<Inst>, 128>,
    bytes: &[u8],
    at: usize,
    chunks: usize,
) -> Result<(), ImageFault>
    requires place { at < 2 ^ 62 }
    requires chunks { chunks ≤ 4 }
    requires empty { length out.old.items ≡ 0 }
    ensures read { Adds out.old.items out.new.items result (body_at chunks at bytes.now) }
    ensures size { length out.new.items ≤ 128 }
    ensures full { OnOk result (length out.new.items ≡ 32 * chunks) }
{
    for k in 0..chunks {
        let words = match chunk(bytes, at + 128 * k) {
            Err(fault) => return Err(fault),
            Ok(words) => words,
        };
        match slots(out, &words, at + 128 * k) {
            Err(fault) => return Err(fault),
            Ok(()) => (),
        }
    }
    Ok(())
}

#[tactic(auto, unfolding(crate::specs::inside::Reading::header_at))]
pub(crate) fn header(total: u32, at: usize, words: &[u32]) -> Result<u64, ImageFault>
    requires place { at < 2 ^ 62 }
    requires total { total ≤ most_chunks }
    requires words { length words.now ≡ 32 }
    ensures read { result ≡ header_at total at words.now }
    ensures good { IfOk result (λ info. is_good_info info ≡ true) }
{
    let info = info(words);
    let chunks = (info / 131072 % 8) as u32;
    if total + 1 + chunks > 524288 {
        return Err(ImageFault::BadField(at as u64));
    }
    match bad_word(info, words) {
        Some(i) => Err(ImageFault::BadField((at + 4 * i) as u64)),
        None => Ok(info),
    }
}

fn are_empty(slots: &[Option<Inst>]) -> bool
    ensures value { result ≡ all_empty slots.now }
{
    for slot in slots {
        if let Some(_) = slot {
            return false;
        }
    }
    true
}

#[tactic(auto, unfolding(crate::specs::inside::Reading::least_at))]
fn least(at: usize, chunks: usize, slots: &[Option<Inst>]) -> Result<(), ImageFault>
    requires place { at < 2 ^ 62 }
    requires chunks { chunks ≤ 4 }
    requires all { 32 * (chunks - 1) ≤ length slots.now }
    ensures { Decodes (λ u. slots.now) result (least_at at chunks slots.now) }
{
    if 1 < chunks && are_empty(&slots[32 * (chunks - 1)..]) {
        return Err(ImageFault::BadField((at + 64) as u64));
    }
    Ok(())
}

fn pad(insts: &mut ArrayVec<Option<Inst>, 128>)
    requires { length insts.old.items ≤ 128 }
    ensures { insts.new.items ≡ insts.old.items ++ replicate (128 - length insts.old.items) None }
{
    for _ in insts.len()..128 {
        insts.push(None);
    }
}

/// A block without reads, writes and slots.
pub(crate) fn blank() -> Block
    ensures reads { result.reads.items ≡ [] }
    ensures writes { result.writes.items ≡ [] }
    ensures insts { result.insts.items ≡ [] }
{
    Block {
        reads: ArrayVec::new(),
        writes: ArrayVec::new(),
        mask: 0,
        insts: ArrayVec::new(),
    }
}

/// Fills a blank block from the words of its header and the body that follows it at a place, and tells
/// its chunks.
#[tactic(auto, unfolding(crate::specs::inside::Reading::parts_from))]
pub(crate) fn fill(
    block: &mut Block,
    words: &[u32],
    bytes: &[u8],
    total: u32,
    at: usize,
) -> Result<u32, ImageFault>
    requires place { at < 2 ^ 61 }
    requires total { total ≤ most_chunks }
    requires words { length words.now ≡ 32 }
    requires reads { block.old.reads.items ≡ [] }
    requires writes { block.old.writes.items ≡ [] }
    requires insts { block.old.insts.items ≡ [] }
    ensures read { Decodes (λ size. block.new) result (rest_at total at bytes.now words.now) }
    ensures size { IfOk result (λ size. (size ≡ 1 + chunks_of block.new.insts.items)
        × (total + size ≤ most_chunks)) }
{
    let info = match header(total, at, words) {
        Err(fault) => return Err(fault),
        Ok(info) => info,
    };
    let chunks = (info / 131072 % 8) as usize;
    if let Err(fault) = body(&mut block.insts, bytes, at + 128, chunks) {
        return Err(fault);
    }
    if let Err(fault) = least(at, chunks, block.insts.as_slice()) {
        return Err(fault);
    }
    pad(&mut block.insts);
    add_reads(&mut block.reads, words, (info / 67108864 % 64) as usize);
    add_writes(&mut block.writes, words, (info / 1048576 % 64) as usize);
    block.mask = (info / 4294967296) as u32;
    Ok(1 + chunks as u32)
}
