//! The tools.

ghost use Rattle.std.specs.Prelude.{◌≡◌, ◌∷◌, [], ◌⊎◌, List, ℕ, IfOk};
ghost use Rattle.trips_isa.specs.declared.block.Image.{Image};
ghost use Rattle.trips_isa.specs.Images.{FitsImage};
ghost use Rattle.block_image.specs.Spelling.{ImageBytes};
ghost use Rattle.target_file.specs.Files.{TargetFile};
ghost use Rattle.trips_tools.specs.Tools.{IsAssembled, IsOneImage, good_report, IsGoodImage};
ghost use Rattle.trips_tools.specs.inside.Tools.{IsNoText};
ghost use Rattle.trips_tools.specs.inside.Tools.{IsNoImage, IsBadImage, Makes};

use crate::made::Made;
use base::{Items, Memory};
use block_check::{CheckedImage, ImageRefusal};
use block_image::{ImageFault, decode, encode};
use isa_table::put_number;
use std::alloc::{AllocError, Global};
use target_asm::{AsmFault, print};
use target_file::assemble_file;
use trips_isa::Image;
use trips_report::Said;

// The bytes of an image that a text has.
fn encoded(alloc: Global, image: &Image) -> Result<Made, Memory>
    requires { FitsImage image.now }
    ensures { IfOk result (λ made. (text : List ℕ) → TargetFile image.now text
        → Makes (IsAssembled text) (IsNoText text) made) }
{
    let bytes = encode(alloc, image)?;
    Ok(Made::Bytes(Items::from_vec(bytes)))
}

/// The bytes of the image that a user's file of target text tells, or its first fault. The blocks are not checked.
pub fn assembled(alloc: Global, text: &[u8]) -> Result<Made, Memory>
    ensures ok { IfOk result (Makes (IsAssembled text.now) (IsNoText text.now)) }
{
    match assemble_file(alloc, text) {
        Ok(image) => encoded(alloc, &image),
        Err(AsmFault::Memory) => Err(Memory),
        Err(fault) => Ok(Made::Refused(Said::Asm(fault))),
    }
}

// The target text of an image that these bytes are.
fn printed(alloc: Global, image: &Image) -> Result<Made, Memory>
    requires { FitsImage image.now }
    ensures { IfOk result (λ made. (bytes : List ℕ) → ImageBytes image.now bytes
        → Makes (λ text. IsOneImage text bytes) (IsNoImage bytes) made) }
{
    let text = print(alloc, image)?;
    Ok(Made::Bytes(Items::from_vec(text)))
}

/// The target text of the image that the bytes are, or the bytes' first fault. The blocks are not
/// checked.
pub fn disassembled(alloc: Global, bytes: &[u8]) -> Result<Made, Memory>
    ensures ok { IfOk result (Makes (λ text. IsOneImage text bytes.now) (IsNoImage bytes.now)) }
{
    match decode(alloc, bytes) {
        Ok(image) => printed(alloc, &image),
        Err(ImageFault::Memory) => Err(Memory),
        Err(fault) => Ok(Made::Refused(Said::Image(fault))),
    }
}

// The report on an image of so many good blocks.
fn good_text(alloc: Global, count: u32) -> Result<Vec<u8>, AllocError>
    ensures { IfOk result (λ text. text.items ≡ good_report count) }
{
    let mut text = Vec::from_slice(alloc, b"good ")?;
    put_number(&mut text, count as u64)?;
    text.extend_from_slice(b" blocks\n")?;
    Ok(text)
}

// The report on an image that was checked.
fn found_good(alloc: Global, image: &CheckedImage) -> Result<Made, Memory>
    ensures { IfOk result (λ made. (bytes : List ℕ) → ImageBytes image.now bytes
        → Makes (IsGoodImage bytes) (λ s. IsNoImage bytes s ⊎ IsBadImage bytes s) made) }
{
    let text = good_text(alloc, image.count())?;
    Ok(Made::Bytes(Items::from_vec(text)))
}

// The report on an image, or its first block that is not good.
fn judged(alloc: Global, image: Image) -> Result<Made, Memory>
    requires { FitsImage image }
    ensures { IfOk result (λ made. (bytes : List ℕ) → ImageBytes image bytes
        → Makes (IsGoodImage bytes) (λ s. IsNoImage bytes s ⊎ IsBadImage bytes s) made) }
{
    match CheckedImage::make(alloc, image) {
        Ok(checked) => found_good(alloc, &checked),
        Err(ImageRefusal::Bad(number, fault)) => Ok(Made::Refused(Said::Check(number, fault))),
        Err(ImageRefusal::Memory) => Err(Memory),
    }
}

/// The report `good B blocks` on the image that the bytes are, or the bytes' first fault, or the
/// first block that is not good.
pub fn checked(alloc: Global, bytes: &[u8]) -> Result<Made, Memory>
    ensures ok { IfOk result (Makes (IsGoodImage bytes.now)
        (λ s. IsNoImage bytes.now s ⊎ IsBadImage bytes.now s)) }
{
    match decode(alloc, bytes) {
        Ok(image) => judged(alloc, image),
        Err(ImageFault::Memory) => Err(Memory),
        Err(fault) => Ok(Made::Refused(Said::Image(fault))),
    }
}
