//! Images: written.
ghost use Rattle.std.specs.Prelude.{◌≡◌, ◌+◌, ◌-◌, ◌*◌, ◌/◌, ◌<◌, ◌≤◌, ◌^◌, ◌++◌, length, take};
ghost use Rattle.std.specs.Prelude.{map, All, IfOk, OnOk};
ghost use Rattle.byteorder.specs.Endian.{big_bytes};
ghost use Rattle.trips_isa.specs.Fits.{FitsSlot, FitsRead, FitsBlock};
ghost use Rattle.trips_isa.specs.Images.{FitsImage};
ghost use Rattle.block_image.specs.Words.{slot_word};
ghost use Rattle.block_image.specs.Headers.{words_from};
ghost use Rattle.block_image.specs.Spelling.{words_bytes, block_bytes, chunks_of, spelling};
ghost use Rattle.block_image.specs.Spelling.{ImageBytes};

use crate::field::{fields_at, slot_word, write_at};
use base::Memory;
use byteorder::{BigEndian, ByteOrder};
use std::alloc::{AllocError, Global};
use trips_isa::{Block, Image, Inst, ReadSlot, chunks};

fn put(out: &mut Vec<u8>, word: u32) -> Result<(), AllocError>
    ensures { OnOk result (out.new.items ≡ out.old.items ++ big_bytes 4 word) }
{
    let mut bytes = [0; 4];
    BigEndian::write_u32(&mut bytes, word);
    out.extend_from_slice(&bytes)
}

fn put_chunk(out: &mut Vec<u8>, words: &[u32]) -> Result<(), AllocError>
    requires { length words.now ≡ 32 }
    ensures { OnOk result (out.new.items ≡ out.old.items ++ words_bytes words.now) }
{
    let mut bytes = [0; 128];
    BigEndian::write_u32_into(words, &mut bytes);
    out.extend_from_slice(&bytes)
}

/// The words of 32 slots.
fn chunk_words(insts: &[Option<Inst>]) -> [u32; 32]
    requires size { length insts.now ≡ 32 }
    requires fits { All FitsSlot insts.now }
    ensures value { result ≡ map slot_word insts.now }
{
    let mut words = [0; 32];
    for i in 0..32 {
        words[i] = slot_word(insts[i]);
    }
    words
}

/// Writes the slots of the first chunks.
fn put_slots(out: &mut Vec<u8>, insts: &[Option<Inst>], chunks: usize) -> Result<(), AllocError>
    requires fits { All FitsSlot insts.now }
    requires few { chunks ≤ 4 }
    requires size { length insts.now ≡ 128 }
    ensures { OnOk result (out.new.items
        ≡ out.old.items ++ words_bytes (map slot_word (take (32 * chunks) insts.now))) }
{
    for k in 0..chunks {
        let words = chunk_words(&insts[32 * k..32 * k + 32]);
        put_chunk(out, &words)?;
    }
    Ok(())
}

/// The words of a header, from its info bits, reads and writes.
fn header_words(info: u64, reads: &[ReadSlot], writes: &[u8]) -> [u32; 32]
    requires reads { All FitsRead reads.now }
    requires writes { All (λ w. w < 128) writes.now }
    ensures value { result ≡ words_from 32 info reads.now writes.now }
{
    let mut words = [0; 32];
    // the info bits that are left, from the top
    let mut info = info;
    for i in 0..32 {
        let pair = (info / 4611686018427387904) as u32;
        words[i] = pair * 1073741824 + (fields_at(reads, i) * 128 + write_at(writes, i));
        info = info % 4611686018427387904 * 4;
    }
    words
}

#[tactic(auto, unfolding(crate::specs::Spelling::block_bytes, crate::specs::Spelling::chunks_of))]
fn put_block(out: &mut Vec<u8>, block: &Block) -> Result<(), AllocError>
    requires { FitsBlock block.now }
    ensures { OnOk result (out.new.items ≡ out.old.items ++ block_bytes block.now) }
{
    let chunks = chunks(block) - 1;
    let counts = block.reads.len() as u64 * 67108864
        + (block.writes.len() as u64 * 1048576 + chunks as u64 * 131072);
    let info = block.mask as u64 * 4294967296 + counts;
    put_chunk(
        out,
        &header_words(info, block.reads.as_slice(), block.writes.as_slice()),
    )?;
    put_slots(out, block.insts.as_slice(), chunks as usize)
}

fn bytes_of(alloc: Global, image: &Image) -> Result<Vec<u8>, AllocError>
    requires { FitsImage image.now }
    ensures { IfOk result (λ bytes. bytes.items ≡ spelling image.now) }
{
    let mut out = Vec::new(alloc);
    out.extend_from_slice(b"TRIPSIMG")?;
    put(&mut out, 1)?;
    put(&mut out, image.blocks.len() as u32)?;
    put(&mut out, image.bytes.len() as u32)?;
    out.extend_from_slice(image.bytes.as_slice())?;
    for block in image.blocks.as_slice() {
        put_block(&mut out, block)?;
    }
    Ok(out)
}

/// The one spelling of an image. Want of memory is the only error.
pub fn encode(alloc: Global, image: &Image) -> Result<Vec<u8>, Memory>
    requires { FitsImage image.now }
    ensures ok { IfOk result (λ bytes. ImageBytes image.now bytes.items) }
{
    match bytes_of(alloc, image) {
        Err(_) => Err(Memory),
        Ok(bytes) => Ok(bytes),
    }
}
