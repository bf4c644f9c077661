ghost use Rattle.std.specs.Prelude.{◌≡◌, ◌<◌, ◌≤◌, ◌+◌, ◌^◌, [], ◌∷◌, ◌++◌, Some, All, length};
ghost use Rattle.std.specs.Prelude.{slice_get, List, sum_by};
ghost use Rattle.trips_isa.specs.declared.block.Block.{Block};
ghost use Rattle.std.specs.Prelude.{IfOk, IfErr, OnOk};
ghost use Rattle.trips_isa.specs.Fits.{FitsBlock};
ghost use Rattle.trips_isa.specs.Alu.{word};
ghost use Rattle.trips_isa.specs.Images.{chunks, chunk_of, starting_at, block_at, FitsImage};
ghost use Rattle.trips_isa.specs.Outcomes.{to_following, to_offset};
ghost use Rattle.trips_isa.specs.Limits.{most_chunks};
ghost use Rattle.block_check.specs.Faults.{IsLowestFault};
ghost use Rattle.block_check.specs.inside.IsChecked.{IsChecked};
ghost use Rattle.block_check.specs.inside.Images.{IsCheckedImage, IsRefusal};
ghost use Rattle.block_check.specs.inside.Holds.{IsBadBlock};

use crate::checked_block::{CheckedBlock, check};
use crate::refusal::ImageRefusal;
use arrayvec::ArrayVec;
use base::{Items, Memory, Queue};
use std::alloc::{AllocError, Global};
use std::marker::Model;
use trips_isa::{Block, Image, Inst, ReadSlot, chunks};

/// An image whose blocks were all checked, seen as the image.
///
/// It keeps where each block begins, so that a block is found by its chunk in logarithmic time.
#[derive(Debug, Drop)]
pub struct CheckedImage {
    blocks: Vec<CheckedBlock>,
    starts: Vec<u32>,
    bytes: Items<u8>,
}

impl Model for CheckedImage {
    ghost use Rattle.trips_isa.specs.declared.block.Image.{Image};
    ghost use Rattle.block_check.specs.inside.Holds.{image_of, IsIndexed};

    ghost Value = { Image };

    ghost view = { λ i. image_of i.blocks.items i.bytes };

    ghost invariant = { λ i. IsIndexed i.blocks.items i.starts.items i.bytes };
}

/// Keeps one block more, the first of whose chunks is `start`.
fn keep(
    blocks: &mut Vec<CheckedBlock>,
    starts: &mut Vec<u32>,
    start: u32,
    block: CheckedBlock,
) -> Result<(), AllocError>
    ensures blocks { OnOk result (blocks.new.items ≡ blocks.old.items ++ block ∷ []) }
    ensures starts { OnOk result (starts.new.items ≡ starts.old.items ++ start ∷ []) }
{
    blocks.push(block)?;
    starts.push(start)?;
    Ok(())
}

/// Checks one block more, the first of whose chunks is `start`, and gives the chunk after it.
fn add(
    blocks: &mut Vec<CheckedBlock>,
    starts: &mut Vec<u32>,
    start: u32,
    block: Block,
) -> Result<u32, ImageRefusal>
    requires fits { FitsBlock block }
    requires count { length blocks.old.items < 2 ^ 32 }
    requires room { start + 5 < 2 ^ 32 }
    ensures blocks { OnOk result (blocks.new.items ≡ blocks.old.items ++ block ∷ []) }
    ensures starts { OnOk result (starts.new.items ≡ starts.old.items ++ start ∷ []) }
    ensures next { IfOk result (λ next. next ≡ start + chunks block) }
    ensures checked { OnOk result (IsChecked block) }
    ensures bad { IfErr result (IsBadBlock block (length blocks.old.items)) }
{
    let size = chunks(&block);
    match check(block) {
        Ok(checked) => {
            keep(blocks, starts, start, checked)?;
            Ok(start + size)
        }
        Err((_, fault)) => Err(ImageRefusal::Bad(blocks.len() as u32, fault)),
    }
}

fn copy_reads(reads: &ArrayVec<ReadSlot, 32>) -> ArrayVec<ReadSlot, 32>
    ensures { result ≡ reads.now }
{
    let mut copy = ArrayVec::new();
    let _ = copy.try_extend_from_slice(reads.as_slice());
    copy
}

fn copy_writes(writes: &ArrayVec<u8, 32>) -> ArrayVec<u8, 32>
    ensures { result ≡ writes.now }
{
    let mut copy = ArrayVec::new();
    let _ = copy.try_extend_from_slice(writes.as_slice());
    copy
}

fn copy_insts(insts: &ArrayVec<Option<Inst>, 128>) -> ArrayVec<Option<Inst>, 128>
    ensures { result ≡ insts.now }
{
    let mut copy = ArrayVec::new();
    let _ = copy.try_extend_from_slice(insts.as_slice());
    copy
}

fn copy_block(block: &Block) -> Block
    ensures { result ≡ block.now }
{
    Block {
        reads: copy_reads(&block.reads),
        writes: copy_writes(&block.writes),
        mask: block.mask,
        insts: copy_insts(&block.insts),
    }
}

fn copy_blocks(alloc: Global, blocks: &[CheckedBlock]) -> Result<Vec<Block>, AllocError>
    ensures ok { IfOk result (λ copy. copy.items ≡ blocks.now) }
{
    let mut copy = Vec::with_capacity(alloc, blocks.len())?;
    for block in blocks {
        copy.push(copy_block(block.block()))?;
    }
    Ok(copy)
}

// The chunk, or one at which no block of an image starts where none starts at this one.
fn capped(chunk: u64) -> u32
    ensures { (blocks : List Block) → sum_by chunks blocks ≤ most_chunks
        → block_at blocks result ≡ block_at blocks chunk }
{
    if chunk < 524_288 {
        chunk as u32
    } else {
        524_288
    }
}

impl CheckedImage {
    /// Checks the blocks of an image in their order.
    pub fn make(alloc: Global, image: Image) -> Result<CheckedImage, ImageRefusal>
        requires fits { FitsImage image }
        ensures same { IfOk result (λ checked. checked ≡ image) }
        ensures checked { OnOk result (IsCheckedImage image) }
        ensures err { IfErr result (IsRefusal image) }
    {
        let Image {
            blocks: rest,
            bytes,
        } = image;
        let mut blocks = Vec::with_capacity(alloc, rest.len())?;
        let mut starts = Vec::with_capacity(alloc, rest.len())?;
        let mut queue = Queue::from_items(rest);
        let mut next = 0;
        while let Some(block) = queue.pop() {
            next = add(&mut blocks, &mut starts, next, block)?;
        }
        Ok(CheckedImage {
            blocks,
            starts,
            bytes,
        })
    }

    /// How many blocks there are.
    pub fn count(&self) -> u32
        ensures value { result ≡ length self.now.blocks }
        ensures image { IsCheckedImage self.now }
    {
        self.blocks.len() as u32
    }

    /// The block of a number.
    pub fn at(&self, number: u32) -> &CheckedBlock
        requires number { number < length self.now.blocks }
        ensures value { slice_get self.now.blocks number ≡ Some result.now }
        ensures checked { IsChecked result.now }
        ensures image { IsCheckedImage self.now }
    {
        &self.blocks[number as usize]
    }

    /// The first chunk of a block.
    pub fn address(&self, number: u32) -> u32
        requires number { number < length self.now.blocks }
        ensures value { result ≡ chunk_of self.now.blocks number }
        ensures image { IsCheckedImage self.now }
    {
        self.starts[number as usize]
    }

    /// The block whose first chunk this is; none exactly where no block starts there.
    pub fn starting_at(&self, chunk: u32) -> Option<u32>
        ensures value { result ≡ starting_at self.now.blocks chunk }
        ensures image { IsCheckedImage self.now }
    {
        match self.starts.as_slice().binary_search(&chunk) {
            Ok(number) => Some(number as u32),
            Err(_) => None,
        }
    }

    /// The block whose first chunk this is; where no block starts there, block 0.
    pub fn block_at(&self, chunk: u64) -> u32
        ensures value { result ≡ block_at self.now.blocks chunk }
        ensures within { result < length self.now.blocks }
        ensures image { IsCheckedImage self.now }
    {
        self.starting_at(capped(chunk)).unwrap_or(0)
    }

    /// The block after this one; after the last, block 0.
    pub fn following(&self, number: u32) -> u32
        requires number { number < length self.now.blocks }
        ensures value { result ≡ to_following self.now.blocks number }
        ensures within { result < length self.now.blocks }
        ensures image { IsCheckedImage self.now }
    {
        let last = self.count() - 1;
        if number < last { number + 1 } else { 0 }
    }

    /// The block whose first chunk lies so many chunks after that of this one; where none starts there,
    /// block 0.
    pub fn at_offset(&self, number: u32, offset: i32) -> u32
        requires number { number < length self.now.blocks }
        ensures value { result ≡ to_offset self.now.blocks number (word offset) }
        ensures within { result < length self.now.blocks }
        ensures image { IsCheckedImage self.now }
    {
        let chunk = self.address(number) as u64;
        self.block_at(chunk.wrapping_add((offset as i64).cast_unsigned()))
    }

    /// The start of data memory.
    pub fn bytes(&self) -> &[u8]
        ensures value { result.now ≡ self.now.bytes }
        ensures image { IsCheckedImage self.now }
    {
        self.bytes.as_slice()
    }

    /// A copy of the image that this was made from.
    pub fn copy_out(&self, alloc: Global) -> Result<Image, Memory>
        ensures ok { IfOk result (λ copy. copy ≡ self.now) }
        ensures image { IsCheckedImage self.now }
    {
        let blocks = copy_blocks(alloc, &self.blocks)?;
        let bytes = Items::from_slice(alloc, self.bytes.as_slice())?;
        Ok(Image {
            blocks: Items::from_vec(blocks),
            bytes,
        })
    }
}
