//! Saved states: opened.
ghost use Rattle.std.specs.Prelude.{◌≡◌, ◌<◌, ◌≤◌, ◌+◌, ◌⊎◌, ℕ, List, [], All, IfOk, IfErr, OnOk, MatchResult};
ghost use Rattle.std.specs.Prelude.{length};
ghost use Rattle.trips_isa.specs.declared.block.Image.{Image};
ghost use Rattle.trips_isa.specs.Images.{FitsImage};
ghost use Rattle.trips_isa.specs.Machine.{State};
ghost use Rattle.block_check.specs.Faults.{IsGood};
ghost use Rattle.block_image.specs.declared.fault.ImageFault.TheVariants as faults;
ghost use Rattle.block_image.specs.FirstFault.{FirstFault};
ghost use Rattle.machine_save.specs.declared.fault.SaveFault.{SaveFault};
ghost use Rattle.machine_save.specs.Limits.{most_memory, most_output, most_rest};
ghost use Rattle.machine_save.specs.Spelling.{SaveBytes};
ghost use Rattle.machine_save.specs.FirstFault.{FirstSaveFault};
ghost use Rattle.machine_save.specs.inside.Opening.{IsMemory, IsMemoryOr, IsGoodImage, IsNoImage, IsBadIn};
ghost use Rattle.machine_save.specs.inside.Opening.{IsOpened, IsOutside, state_in};
ghost use Rattle.machine_save.specs.inside.Reading.{Decodes, front_at, lists_of, next_in, registers_in};

use crate::fault::SaveFault;
use crate::reading::{Lists, front};
use base::Memory;
use block_atomic::Arch;
use block_check::{CheckedImage, ImageRefusal};
use block_image::{ImageFault, decode};
use byteorder::{BigEndian, ByteOrder};
use std::alloc::Global;
use trips_isa::Image;

// The image, whose blocks are checked.
fn checked(alloc: Global, image: Image) -> Result<CheckedImage, SaveFault>
    requires { FitsImage image }
    ensures same { IfOk result (λ checked. checked ≡ image) }
    ensures good { OnOk result (All IsGood image.blocks) }
    ensures err { IfErr result (IsMemoryOr (IsBadIn image)) }
{
    match CheckedImage::make(alloc, image) {
        Ok(checked) => Ok(checked),
        Err(ImageRefusal::Bad(number, fault)) => Err(SaveFault::Bad(number, fault)),
        Err(ImageRefusal::Memory) => Err(SaveFault::Memory),
    }
}

// A fault of the image's bytes.
fn image_fault(fault: ImageFault) -> SaveFault
    ensures { (part : List ℕ) → (fault ≡ faults.Memory) ⊎ FirstFault part fault
        → IsMemoryOr (IsNoImage part) result }
{
    match fault {
        ImageFault::Memory => SaveFault::Memory,
        _ => SaveFault::Image(fault),
    }
}

// The image that the bytes spell, of good blocks.
fn image(alloc: Global, bytes: &[u8]) -> Result<CheckedImage, SaveFault>
    ensures ok { IfOk result (IsGoodImage bytes.now) }
    ensures err { IfErr result (IsMemoryOr (IsNoImage bytes.now)) }
{
    match decode(alloc, bytes) {
        Ok(image) => checked(alloc, image),
        Err(fault) => Err(image_fault(fault)),
    }
}

// The registers, behind the next block.
fn registers(bytes: &[u8]) -> [u64; 128]
    requires { 1040 ≤ length bytes.now }
    ensures value { result ≡ registers_in bytes.now }
{
    let mut registers = [0; 128];
    BigEndian::read_u64_into(&bytes[16..1040], &mut registers);
    registers
}

// The machine of an image in the state that the bytes and the lists say.
fn restored(
    alloc: Global,
    image: &CheckedImage,
    bytes: &[u8],
    output: &[u8],
    stored: &[u8],
    rest: &[u8],
    budget: u32,
) -> Result<Arch, Memory>
    requires head { 1040 ≤ length bytes.now }
    requires memory { length stored.now ≤ most_memory }
    requires next { next_in bytes.now < length image.now.blocks }
    ensures state { IfOk result (λ arch. arch.state ≡ state_in bytes.now output.now stored.now rest.now) }
    ensures budget { IfOk result (λ arch. arch.budget ≡ budget) }
{
    let next = BigEndian::read_u32(&bytes[12..]);
    let registers = registers(bytes);
    let rest = Vec::from_slice(alloc, rest)?;
    let output = Vec::from_slice(alloc, output)?;
    Arch::restore(alloc, image, &registers, stored, next, rest, output, budget)
}

// The machine, where its next block is in the image.
fn machine(
    alloc: Global,
    image: &CheckedImage,
    bytes: &[u8],
    output: &[u8],
    stored: &[u8],
    rest: &[u8],
    budget: u32,
) -> Result<Arch, SaveFault>
    requires head { 1040 ≤ length bytes.now }
    requires memory { length stored.now ≤ most_memory }
    ensures state { IfOk result (λ arch. arch.state ≡ state_in bytes.now output.now stored.now rest.now) }
    ensures budget { IfOk result (λ arch. arch.budget ≡ budget) }
    ensures next { OnOk result (next_in bytes.now < length image.now.blocks) }
    ensures err { IfErr result (IsMemoryOr (IsOutside bytes.now image.now)) }
{
    if image.count() <= BigEndian::read_u32(&bytes[12..]) {
        return Err(SaveFault::BadField(12));
    }
    match restored(alloc, image, bytes, output, stored, rest, budget) {
        Ok(arch) => Ok(arch),
        Err(_) => Err(SaveFault::Memory),
    }
}

// What stands before the image, which is inside the bytes, or the first fault of it.
fn front_lists(bytes: &[u8]) -> Result<Lists<'_>, SaveFault>
    ensures read { Decodes (λ l. lists_of l.output.now l.stored.now l.rest.now) result (front_at bytes.now) }
    ensures few_output { IfOk result (λ l. length l.output.now ≤ most_output) }
    ensures few_stored { IfOk result (λ l. length l.stored.now ≤ most_memory) }
    ensures few_rest { IfOk result (λ l. length l.rest.now ≤ most_rest) }
    ensures inside { IfOk result
        (λ l. 1052 + length l.output.now + length l.stored.now + length l.rest.now ≤ length bytes.now) }
    ensures err { IfErr result (FirstSaveFault bytes.now) }
{
    front(bytes)
}

// What the bytes save, or their first fault.
fn opened(alloc: Global, bytes: &[u8], budget: u32) -> Result<(CheckedImage, Arch), SaveFault>
    ensures ok { IfOk result (λ p. IsOpened bytes.now budget p.0 p.1) }
    ensures err { IfErr result (IsMemoryOr (FirstSaveFault bytes.now)) }
{
    let lists = match front_lists(bytes) {
        Err(fault) => return Err(fault),
        Ok(lists) => lists,
    };
    // the state lies before this place, which is inside the bytes
    let place = 1052 + lists.output.len() + lists.stored.len() + lists.rest.len();
    let image = match image(alloc, &bytes[place..]) {
        Err(fault) => return Err(fault),
        Ok(image) => image,
    };
    match machine(
        alloc,
        &image,
        bytes,
        lists.output,
        lists.stored,
        lists.rest,
        budget,
    ) {
        Err(fault) => Err(fault),
        Ok(arch) => Ok((image, arch)),
    }
}

/// The image and the machine that the bytes save, all of them, or their first fault. The machine has an empty trace
/// and room for `budget` steps, and it can go on or be saved again.
///
/// The bytes are read once, and no memory is taken for lists or blocks that are not there.
pub fn open_save(
    alloc: Global,
    bytes: &[u8],
    budget: u32,
) -> Result<(CheckedImage, Arch), SaveFault>
    ensures ok { IfOk result (λ p. SaveBytes p.0 p.1.state bytes.now) }
    ensures trace { IfOk result (λ p. p.1.state.trace ≡ []) }
    ensures budget { IfOk result (λ p. p.1.budget ≡ budget) }
    ensures next { IfOk result (λ p. p.1.state.next < length p.0.blocks) }
    ensures output { IfOk result (λ p. length p.1.state.output ≤ most_output) }
    ensures rest { IfOk result (λ p. length p.1.state.rest ≤ most_rest) }
    ensures only_ok { (image : Image) (s : State) → SaveBytes image s bytes.now
        → MatchResult result (λ p. (p.0 ≡ image) × (p.1.state ≡ record s { trace = [] })) IsMemory }
    ensures err { IfErr result (IsMemoryOr (FirstSaveFault bytes.now)) }
    ensures only_err { (fault : SaveFault) → FirstSaveFault bytes.now fault
        → MatchResult result (λ p. ⊥) (IsMemoryOr (λ e. e ≡ fault)) }
{
    opened(alloc, bytes, budget)
}
