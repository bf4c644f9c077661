//! The bytes of globals and where they lie.

ghost use Rattle.std.specs.Prelude.{◌≡◌, ◌+◌, ◌*◌, ◌/◌, ◌%◌, ◌^◌, ◌<◌, ◌≤◌, ◌++◌, map, replicate};
ghost use Rattle.std.specs.Prelude.{OnOk, IfOk};
ghost use Rattle.c_meaning_spec.specs.Eval as eval;
ghost use Rattle.flat_lower.specs.inside.Objects as objects;
ghost use Rattle.flat_lower.specs.inside.Statements.{word_bytes, init_bytes, global_image, globals_image};
ghost use Rattle.flat_lower.specs.inside.Emitted.{starts_from};

use base::{Items, Memory};
use c_constant::bytes;
use c_tree::TypedGlobal;
use std::alloc::Global;

// How many values a global holds.
fn length_of(length: Option<u32>) -> u32
    ensures { result ≡ eval.length_of length }
{
    match length {
        None => 1,
        Some(length) => length,
    }
}

/// The bytes of a global, in whole words.
fn global_bytes(global: &TypedGlobal) -> u64
    ensures { result ≡ objects.global_bytes global.now }
{
    let filled = length_of(global.length) as u64 * bytes(global.kind) as u64;
    (filled + 7) / 8 * 8
}

// An address some bytes further.
fn further(at: u64, by: u64) -> Result<u64, Memory>
    ensures { IfOk result (λ n. n ≡ at + by) }
{
    if by <= u64::MAX - at {
        Ok(at + by)
    } else {
        Err(Memory)
    }
}

/// The address of each global.
pub fn addresses_of(alloc: Global, globals: &[TypedGlobal]) -> Result<Items<u64>, Memory>
    ensures { IfOk result (λ found. found ≡ starts_from 0 (map objects.global_bytes globals.now)) }
{
    let mut found = Items::new(alloc);
    let mut at = 0;
    for global in globals {
        found.push(at)?;
        at = further(at, global_bytes(global))?;
    }
    Ok(found)
}

/// Byte n of a word, counted from the least significant.
#[tactic(auto, using(crate::proofs::EmitImages::powers))]
fn byte_of(w: u64, n: u32) -> u8
    requires { n < 8 }
    ensures { result ≡ (w / 256 ^ n) % 256 }
{
    ((w >> (8 * n)) % 256) as u8
}

/// The low bytes of a word, the most significant first.
fn put_word(bytes: &mut Items<u8>, size: u32, w: u64) -> Result<(), Memory>
    requires { size ≤ 8 }
    ensures { OnOk result (bytes.new ≡ bytes.old ++ word_bytes size w) }
{
    if size == 0 {
        Ok(())
    } else {
        bytes.push(byte_of(w, size - 1))?;
        put_word(bytes, size - 1, w)?;
        Ok(())
    }
}

// The bytes of the values given.
fn put_init(bytes: &mut Items<u8>, size: u32, init: &[u64]) -> Result<(), Memory>
    requires { size ≤ 8 }
    ensures { OnOk result (bytes.new ≡ bytes.old ++ init_bytes size init.now) }
{
    for w in init {
        put_word(bytes, size, *w)?;
    }
    Ok(())
}

// Some bytes of zero.
fn put_zeros(bytes: &mut Items<u8>, count: u64) -> Result<(), Memory>
    ensures { OnOk result (bytes.new ≡ bytes.old ++ replicate count 0) }
{
    for _i in 0..count {
        bytes.push(0)?;
    }
    Ok(())
}

/// The bytes of the values given.
fn given(count: usize, size: u32) -> Result<u64, Memory>
    requires { size ≤ 8 }
    ensures { IfOk result (λ n. n ≡ count * size) }
{
    if count <= 4294967295 {
        Ok(count as u64 * size as u64)
    } else {
        Err(Memory)
    }
}

/// The values given, and then zeros up to whole words.
fn put_global(image: &mut Items<u8>, global: &TypedGlobal) -> Result<(), Memory>
    ensures { OnOk result (image.new ≡ image.old ++ global_image global.now) }
{
    let size = bytes(global.kind);
    let given = given(global.init.len(), size)?;
    put_init(image, size, global.init.as_slice())?;
    put_zeros(image, global_bytes(global).saturating_sub(given))?;
    Ok(())
}

/// The start of data memory.
pub fn image_of(alloc: Global, globals: &[TypedGlobal]) -> Result<Items<u8>, Memory>
    ensures { IfOk result (λ bytes. bytes ≡ globals_image globals.now) }
{
    let mut bytes = Items::new(alloc);
    for global in globals {
        put_global(&mut bytes, global)?;
    }
    Ok(bytes)
}
