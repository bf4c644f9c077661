//! Images: read.
ghost use Rattle.std.specs.Prelude.{◌≡◌, ◌+◌, ◌*◌, ◌<◌, ◌≤◌, ◌^◌, IfOk, IfErr, MatchResult};
ghost use Rattle.trips_isa.specs.declared.block.Image.{Image};
ghost use Rattle.trips_isa.specs.Images.{last_byte};
ghost use Rattle.block_image.specs.declared.fault.ImageFault.{ImageFault};
ghost use Rattle.block_image.specs.Spelling.{ImageBytes};
ghost use Rattle.block_image.specs.FirstFault.{FirstFault};
ghost use Rattle.block_image.specs.inside.ImageReading.{Decodes, DecodesOrMemory, IsMemory, IsMemoryOr, number_at};
ghost use Rattle.block_image.specs.inside.ImageReading.{magic_at, version_at, count_at, size_at, data_at};
ghost use Rattle.block_image.specs.inside.ImageReading.{blocks_at, image_at};

use crate::body::{blank, chunk, fill};
use crate::fault::ImageFault;
use base::Items;
use byteorder::{BigEndian, ByteOrder};
use std::alloc::Global;
use trips_isa::{Block, Image};

#[tactic(auto, unfolding(crate::specs::inside::ImageReading::number_at))]
fn number(bytes: &[u8], at: usize) -> Result<u32, ImageFault>
    requires { at < 2 ^ 32 }
    ensures value { result ≡ number_at at bytes.now }
{
    if bytes.len() < at + 4 {
        return Err(ImageFault::Truncated(bytes.len() as u64));
    }
    Ok(BigEndian::read_u32(&bytes[at..]))
}

#[tactic(auto, unfolding(crate::specs::inside::ImageReading::magic_at))]
fn has_magic(bytes: &[u8]) -> Result<(), ImageFault>
    ensures { Decodes (λ u. tt) result (magic_at bytes.now) }
{
    if bytes.len() < 8 {
        return Err(ImageFault::Truncated(bytes.len() as u64));
    }
    if &bytes[..8] == b"TRIPSIMG".as_slice() {
        Ok(())
    } else {
        Err(ImageFault::Magic)
    }
}

#[tactic(auto, unfolding(crate::specs::inside::ImageReading::version_at))]
fn has_version(bytes: &[u8]) -> Result<(), ImageFault>
    ensures { Decodes (λ u. tt) result (version_at bytes.now) }
{
    match number(bytes, 8) {
        Err(fault) => Err(fault),
        Ok(version) => if version == 1 {
            Ok(())
        } else {
            Err(ImageFault::Version)
        },
    }
}

#[tactic(auto, unfolding(crate::specs::inside::ImageReading::count_at))]
fn count(bytes: &[u8]) -> Result<u32, ImageFault>
    ensures value { result ≡ count_at bytes.now }
{
    match number(bytes, 12) {
        Err(fault) => Err(fault),
        Ok(count) => if 0 < count {
            Ok(count)
        } else {
            Err(ImageFault::BadField(12))
        },
    }
}

#[tactic(auto, unfolding(crate::specs::inside::ImageReading::size_at))]
fn size(bytes: &[u8]) -> Result<u32, ImageFault>
    ensures value { result ≡ size_at bytes.now }
    ensures few { IfOk result (λ n. n ≤ 4194304) }
{
    match number(bytes, 16) {
        Err(fault) => Err(fault),
        Ok(size) => if size <= 4194304 {
            Ok(size)
        } else {
            Err(ImageFault::BadField(16))
        },
    }
}

fn last(bytes: &[u8]) -> u8
    ensures value { result ≡ last_byte bytes.now }
{
    if bytes.len() == 0 {
        1
    } else {
        bytes[bytes.len() - 1]
    }
}

#[tactic(auto, unfolding(crate::specs::inside::ImageReading::data_at))]
fn data_part(bytes: &[u8], size: usize) -> Result<&[u8], ImageFault>
    requires { size ≤ 4194304 }
    ensures { Decodes (λ x. x.now) result (data_at size bytes.now) }
{
    if bytes.len() < 20 + size {
        return Err(ImageFault::Truncated(bytes.len() as u64));
    }
    let data = &bytes[20..20 + size];
    if 0 < last(data) {
        Ok(data)
    } else {
        Err(ImageFault::BadField(19 + size as u64))
    }
}

fn blocks(alloc: Global, bytes: &[u8], count: u32, at: usize) -> Result<Vec<Block>, ImageFault>
    requires { at < 2 ^ 60 }
    ensures { DecodesOrMemory (λ v. v.items) result (blocks_at count 0 at bytes.now) }
{
    let mut blocks = Vec::new(alloc);
    let mut total = 0;
    for k in 0..count {
        let place = at + 128 * total as usize;
        let words = match chunk(bytes, place) {
            Err(fault) => return Err(fault),
            Ok(words) => words,
        };
        if let Err(_) = blocks.push(blank()) {
            return Err(ImageFault::Memory);
        }
        match fill(&mut blocks[k as usize], &words, bytes, total, place) {
            Err(fault) => return Err(fault),
            Ok(size) => total += size,
        }
    }
    let end = at + 128 * total as usize;
    if end != bytes.len() {
        return Err(ImageFault::Trailing(end as u64));
    }
    Ok(blocks)
}

#[tactic(auto, unfolding(crate::specs::inside::ImageReading::image_at))]
fn image(alloc: Global, bytes: &[u8]) -> Result<Image, ImageFault>
    ensures { DecodesOrMemory (λ v. v) result (image_at bytes.now) }
{
    if let Err(fault) = has_magic(bytes) {
        return Err(fault);
    }
    if let Err(fault) = has_version(bytes) {
        return Err(fault);
    }
    let count = match count(bytes) {
        Err(fault) => return Err(fault),
        Ok(count) => count,
    };
    let size = match size(bytes) {
        Err(fault) => return Err(fault),
        Ok(size) => size as usize,
    };
    let data = match data_part(bytes, size) {
        Err(fault) => return Err(fault),
        Ok(data) => data,
    };
    let blocks = match blocks(alloc, bytes, count, 20 + size) {
        Err(fault) => return Err(fault),
        Ok(blocks) => blocks,
    };
    match Items::from_slice(alloc, data) {
        Err(_) => Err(ImageFault::Memory),
        Ok(data) => Ok(Image {
            blocks: Items::from_vec(blocks),
            bytes: data,
        }),
    }
}

/// The image that the bytes spell, all of them, or their first fault.
///
/// The bytes are read once, and no memory is taken for blocks that are not there.
pub fn decode(alloc: Global, bytes: &[u8]) -> Result<Image, ImageFault>
    ensures ok { IfOk result (λ image. ImageBytes image bytes.now) }
    ensures only_ok { (image : Image) → ImageBytes image bytes.now
        → MatchResult result (λ v. v ≡ image) IsMemory }
    ensures err { IfErr result (IsMemoryOr (FirstFault bytes.now)) }
    ensures only_err { (fault : ImageFault) → FirstFault bytes.now fault
        → MatchResult result (λ v. ⊥) (IsMemoryOr (λ e. e ≡ fault)) }
{
    image(alloc, bytes)
}
