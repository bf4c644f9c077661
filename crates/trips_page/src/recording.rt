//! The exports that tell a run cycle for cycle. Each answers how many bytes its answer takes, and puts as many of
//! them as there is room for; 0 for want of memory, and where the bytes are no image of good blocks or no block is
//! allowed.

ghost use Rattle.std.specs.Prelude.{◌≡◌, ◌<◌, ◌≤◌, All, IfOk, IfSome, length, take};
ghost use Rattle.block_check.specs.Faults.{IsGood};
ghost use Rattle.block_image.specs.Spelling.{ImageBytes};
ghost use Rattle.trips_page.specs.Recorded.{TellsMemory, TellsRun};

use crate::answering::put;
use block_check::CheckedImage;
use block_image::decode;
use std::alloc::{AllocError, Global};

// The image of these bytes, where all its blocks are good.
fn checked(alloc: Global, bytes: &[u8]) -> Option<CheckedImage>
    ensures { IfSome result (λ image. ImageBytes image bytes.now × All IsGood image.blocks) }
{
    let Ok(image) = decode(alloc, bytes) else {
        return None;
    };
    match CheckedImage::make(alloc, image) {
        Ok(image) => Some(image),
        Err(_) => None,
    }
}

// The input in a place of its own.
fn copied(alloc: Global, input: &[u8]) -> Result<Vec<u8>, AllocError>
    ensures { IfOk result (λ copy. copy.items ≡ input.now) }
{
    Vec::from_slice(alloc, input)
}

// The record of a run.
fn recorded(
    alloc: Global,
    image: &[u8],
    input: &[u8],
    seed: u64,
    most: u32,
    first: u32,
    count: u32,
) -> Option<Vec<u8>>
    requires some { 0 < most }
    ensures { IfSome result (λ told. TellsRun image.now input.now most seed first count told.items) }
{
    let image = checked(alloc, image)?;
    let Ok(input) = copied(alloc, input) else {
        return None;
    };
    match grid_record::record_image(alloc, image, input, most, seed, first, count) {
        Ok(told) => Some(told),
        Err(_) => None,
    }
}

// A part of the memory of a run.
fn remembered(
    alloc: Global,
    image: &[u8],
    input: &[u8],
    seed: u64,
    most: u32,
    cycle: u32,
    from: u32,
    count: u32,
) -> Option<Vec<u8>>
    requires some { 0 < most }
    ensures { IfSome result (λ told. TellsMemory image.now input.now most seed cycle from count told.items) }
{
    let image = checked(alloc, image)?;
    let Ok(input) = copied(alloc, input) else {
        return None;
    };
    match grid_record::memory_of(alloc, image, input, most, seed, cycle, from, count) {
        Ok(told) => Some(told),
        Err(_) => None,
    }
}

/// The record of an image's run on an input, on the grid of a seed: the grid after `first` cycles, and after each of
/// `count` more, or fewer where the run ends before.
#[unsafe(no_mangle)]
pub extern "C" fn page_record(
    alloc: Global,
    image: &[u8],
    input: &[u8],
    seed: u64,
    most: u32,
    first: u32,
    count: u32,
    out: &mut [u8],
) -> usize
    ensures { 0 < result → result ≤ length out.old
        → TellsRun image.now input.now most seed first count (take result out.new) }
{
    if most == 0 {
        return 0;
    }
    match recorded(alloc, image, input, seed, most, first, count) {
        Some(told) => put(told.as_slice(), out),
        None => 0,
    }
}

/// So many bytes of the committed memory of the same run, from an address on, after so many cycles: behind a byte 1.
#[unsafe(no_mangle)]
pub extern "C" fn page_memory(
    alloc: Global,
    image: &[u8],
    input: &[u8],
    seed: u64,
    most: u32,
    cycle: u32,
    from: u32,
    count: u32,
    out: &mut [u8],
) -> usize
    ensures { 0 < result → result ≤ length out.old
        → TellsMemory image.now input.now most seed cycle from count (take result out.new) }
{
    if most == 0 {
        return 0;
    }
    match remembered(alloc, image, input, seed, most, cycle, from, count) {
        Some(told) => put(told.as_slice(), out),
        None => 0,
    }
}
