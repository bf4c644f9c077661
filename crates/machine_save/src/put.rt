//! Saved states: written.
ghost use Rattle.std.specs.Prelude.{◌≡◌, ◌-◌, ◌<◌, ◌≤◌, ◌^◌, ◌++◌, All, IfOk, OnOk, length, replicate};
ghost use Rattle.std.specs.List.{flat_map};
ghost use Rattle.byteorder.specs.Endian.{big_bytes};
ghost use Rattle.trips_isa.specs.declared.block.Image.{Image};
ghost use Rattle.trips_isa.specs.Images.{last_byte};
ghost use Rattle.block_check.specs.Faults.{IsGood};
ghost use Rattle.block_image.specs.Spelling.{ImageBytes};
ghost use Rattle.machine_save.specs.Limits.{most_output, most_rest};
ghost use Rattle.machine_save.specs.Spelling.{magic, head, listed, SaveBytes};

use base::Memory;
use block_atomic::Arch;
use block_check::CheckedImage;
use block_image::encode;
use byteorder::{BigEndian, ByteOrder};
use std::alloc::{AllocError, Global};

fn put_number(out: &mut Vec<u8>, number: u32) -> Result<(), AllocError>
    ensures { OnOk result (out.new.items ≡ out.old.items ++ big_bytes 4 number) }
{
    let mut bytes = [0; 4];
    BigEndian::write_u32(&mut bytes, number);
    out.extend_from_slice(&bytes)
}

fn put_words(out: &mut Vec<u8>, words: &[u64]) -> Result<(), AllocError>
    requires { length words.now ≡ 128 }
    ensures { OnOk result (out.new.items ≡ out.old.items ++ flat_map (big_bytes 8) words.now) }
{
    let mut bytes = [0; 1024];
    BigEndian::write_u64_into(words, &mut bytes);
    out.extend_from_slice(&bytes)
}

// A list with the number of its bytes.
fn put_list(out: &mut Vec<u8>, bytes: &[u8]) -> Result<(), AllocError>
    requires { length bytes.now < 2 ^ 32 }
    ensures { OnOk result (out.new.items ≡ out.old.items ++ (big_bytes 4 (length bytes.now) ++ bytes.now)) }
{
    put_number(out, bytes.len() as u32)?;
    out.extend_from_slice(bytes)
}

// The words of all registers.
fn words(arch: &Arch) -> [u64; 128]
    ensures value { result ≡ arch.now.state.registers }
{
    let mut words = [0; 128];
    // it tells that there are 128
    let _ = arch.register(0);
    for r in 0..128u8 {
        words[r as usize] = arch.register(r);
    }
    words
}

// Words have eight bytes each.
fn are_words(words: &[u64])
    ensures { All (λ w. w < 2 ^ 64) words.now }
{}

// The bytes that data memory begins with, up to the last one that is not 0.
fn stored(memory: &[u8]) -> &[u8]
    ensures begins { memory.now ≡ result.now ++ replicate (length memory.now - length result.now) 0 }
    ensures last { last_byte result.now ≡ 0 → ⊥ }
    ensures few { length result.now ≤ length memory.now }
{
    let mut count = memory.len();
    while 0 < count && memory[count - 1] == 0 {
        count -= 1;
    }
    &memory[..count]
}

// What stands before the lists.
fn put_head(out: &mut Vec<u8>, next: u32, registers: &[u64]) -> Result<(), AllocError>
    requires { length registers.now ≡ 128 }
    ensures { OnOk result (out.new.items ≡ ((out.old.items ++ magic ++ big_bytes 4 1) ++ big_bytes 4 next)
        ++ flat_map (big_bytes 8) registers.now) }
{
    out.extend_from_slice(b"TRIPSSAV")?;
    put_number(out, 1)?;
    put_number(out, next)?;
    put_words(out, registers)
}

// The bytes of a state whose registers hold these words, and those of an image.
fn state_bytes(
    alloc: Global,
    arch: &Arch,
    registers: &[u64],
    stored: &[u8],
    image: &[u8],
) -> Result<Vec<u8>, AllocError>
    requires registers { length registers.now ≡ 128 }
    requires output { length arch.now.state.output ≤ most_output }
    requires rest { length arch.now.state.rest ≤ most_rest }
    requires stored { length stored.now < 2 ^ 32 }
    ensures { IfOk result (λ bytes. bytes.items ≡ head arch.now.state.next registers.now
        (listed arch.now.state.output (listed stored.now (listed arch.now.state.rest image.now)))) }
{
    let mut out = Vec::new(alloc);
    put_head(&mut out, arch.next(), registers)?;
    put_list(&mut out, arch.output())?;
    put_list(&mut out, stored)?;
    put_list(&mut out, arch.rest())?;
    out.extend_from_slice(image)?;
    Ok(out)
}

/// The one spelling of a state and an image whose bytes were made before, whatever the state's trace. It wants at
/// most 4,000,000 bytes of output and at most 1,048,576 of input that was not read. Want of memory is the only error.
pub fn save_with(alloc: Global, image: &[u8], arch: &Arch) -> Result<Vec<u8>, Memory>
    requires output { length arch.now.state.output ≤ most_output }
    requires rest { length arch.now.state.rest ≤ most_rest }
    ensures ok { IfOk result (λ bytes. (of : Image) → ImageBytes of image.now → All IsGood of.blocks
        → arch.now.state.next < length of.blocks → SaveBytes of arch.now.state bytes.items) }
{
    // it tells that the number has four bytes
    let _ = arch.next();
    let registers = words(arch);
    are_words(&registers);
    let stored = stored(arch.memory());
    let bytes = state_bytes(alloc, arch, &registers, stored, image)?;
    Ok(bytes)
}

/// The bytes of an image whose blocks were checked. Want of memory is the only error.
pub fn image_bytes(alloc: Global, image: &CheckedImage) -> Result<Vec<u8>, Memory>
    ensures ok { IfOk result (λ bytes. ImageBytes image.now bytes.items) }
    ensures good { All IsGood image.now.blocks }
{
    let _count = image.count();
    let copy = image.copy_out(alloc)?;
    encode(alloc, &copy)
}

/// The one spelling of an image and a state of it, whatever its trace. It wants a next block of the image, at most
/// 4,000,000 bytes of output and at most 1,048,576 of input that was not read. Want of memory is the only error.
pub fn save(alloc: Global, image: &CheckedImage, arch: &Arch) -> Result<Vec<u8>, Memory>
    requires next { arch.now.state.next < length image.now.blocks }
    requires output { length arch.now.state.output ≤ most_output }
    requires rest { length arch.now.state.rest ≤ most_rest }
    ensures ok { IfOk result (λ bytes. SaveBytes image.now arch.now.state bytes.items) }
{
    let part = image_bytes(alloc, image)?;
    save_with(alloc, &part, arch)
}
