//! A whole text: its head, its data bytes and its blocks.
ghost use Rattle.std.specs.Prelude.{◌≡◌, ◌≤◌, ◌<◌, ◌^◌, ℕ, length, All, IfOk, IfSome, MatchResult};
ghost use Rattle.std.specs.Prelude.{Ok};
ghost use Rattle.trips_isa.specs.declared.block.Image.{Image};
ghost use Rattle.trips_isa.specs.Images.{last_byte};
ghost use Rattle.target_asm_spec.specs.Text.{TargetText};
ghost use Rattle.target_asm_spec.specs.declared.fault.AsmFault.TheVariants.{Syntax};
ghost use Rattle.target_asm_spec.specs.inside.Reading.{ReadsAs};
ghost use Rattle.target_asm_spec.specs.inside.Whole.{count_in, bytes_limit, front_in, feed_in};
ghost use Rattle.target_asm_spec.specs.inside.Whole.{data_byte_in, byte_fault, bytes_in, data_in, body_in};
ghost use Rattle.target_asm_spec.specs.inside.Whole.{image_in};
ghost use Rattle.target_asm.specs.inside.Taking.{Returns, ReturnsOrMemory, IsMemory, places_in, after_front};
ghost use Rattle.target_asm.specs.inside.Taking.{place_table, steps_in};

use crate::body::body;
use crate::branches::Known;
use crate::line_fields::{after, byte, number};
use crate::tables::{chunk_list, starts};
use base::Items;
use std::alloc::Global;
use target_asm_spec::AsmFault;
use trips_isa::Image;

/// The number of data bytes that their line tells.
#[tactic(auto, unfolding(target_asm_spec::specs::inside::Whole::count_in))]
fn count_line(text: &[u8]) -> Option<(i32, &[u8])>
    ensures { ReadsAs (λ r. (r.0, r.1.now)) result (count_in text.now) }
{
    let Some(rest) = after(text, b"data ") else {
        return None;
    };
    let Some(n) = number(rest) else {
        return None;
    };
    match after(n.1, b"\n") {
        None => None,
        Some(rest) => Some((n.0, rest)),
    }
}

#[tactic(auto, unfolding(target_asm_spec::specs::inside::Whole::bytes_limit))]
fn limit(n: i32) -> Option<u32>
    ensures value { result ≡ bytes_limit n }
    ensures few { IfSome result (λ n. n ≤ 4194304) }
{
    if 0 <= n && n <= 4194304 {
        Some(n as u32)
    } else {
        None
    }
}

/// The first two lines, which tell the number of data bytes.
#[tactic(auto, unfolding(target_asm_spec::specs::inside::Whole::front_in))]
fn front(text: &[u8]) -> Result<(u32, &[u8]), AsmFault>
    ensures value { Returns (λ r. (r.0, r.1.now)) result (front_in text.now) }
    ensures few { IfOk result (λ r. r.0 ≤ 4194304) }
{
    let Some(rest) = after(text, b"trips 1\n") else {
        return Err(AsmFault::Syntax(1));
    };
    let Some(n) = count_line(rest) else {
        return Err(AsmFault::Syntax(2));
    };
    match limit(n.0) {
        None => Err(AsmFault::Range(2)),
        Some(count) => Ok((count, n.1)),
    }
}

/// A line feed after each 32nd byte and after the last of `count`.
fn feed(count: usize, at: usize, text: &[u8]) -> Option<&[u8]>
    requires { at < 2 ^ 32 }
    ensures { ReadsAs (λ r. r.now) result (feed_in count at text.now) }
{
    if (at + 1) % 32 == 0 || at + 1 == count {
        after(text, b"\n")
    } else {
        Some(text)
    }
}

/// The byte at a place of so many.
#[tactic(auto, unfolding(target_asm_spec::specs::inside::Whole::data_byte_in))]
fn data_byte(count: usize, at: usize, text: &[u8]) -> Option<(u8, &[u8])>
    requires { at < 2 ^ 32 }
    ensures { ReadsAs (λ r. (r.0, r.1.now)) result (data_byte_in count at text.now) }
{
    let Some(b) = byte(text) else {
        return None;
    };
    match feed(count, at, b.1) {
        None => None,
        Some(rest) => Some((b.0, rest)),
    }
}

/// The line of a fault at a byte.
fn byte_line(at: usize) -> u32
    requires { at < 2 ^ 32 }
    ensures value { byte_fault at ≡ Syntax result }
{
    3 + (at / 32) as u32
}

/// The data bytes.
fn bytes(alloc: Global, count: usize, text: &[u8]) -> Result<(Vec<u8>, &[u8]), AsmFault>
    requires { count ≤ 4194304 }
    ensures { ReturnsOrMemory (λ r. (r.0.items, r.1.now)) result (bytes_in count count 0 text.now) }
{
    let mut bytes = Vec::new(alloc);
    let mut rest = text;
    for at in 0..count {
        match data_byte(count, at, rest) {
            None => return Err(AsmFault::Syntax(byte_line(at))),
            Some(b) => {
                if let Err(_) = bytes.push(b.0) {
                    return Err(AsmFault::Memory);
                }
                rest = b.1;
            }
        }
    }
    Ok((bytes, rest))
}

fn last(bytes: &[u8]) -> u8
    ensures value { result ≡ last_byte bytes.now }
{
    if bytes.len() == 0 {
        1
    } else {
        bytes[bytes.len() - 1]
    }
}

/// The data bytes, of which the last is not zero.
#[tactic(auto, unfolding(target_asm_spec::specs::inside::Whole::data_in))]
fn data(alloc: Global, count: usize, text: &[u8]) -> Result<(Vec<u8>, &[u8]), AsmFault>
    requires { count ≤ 4194304 }
    ensures { ReturnsOrMemory (λ r. (r.0.items, r.1.now)) result (data_in count text.now) }
{
    match bytes(alloc, count, text) {
        Err(fault) => Err(fault),
        Ok(read) => if 0 < last(&read.0) {
            Ok(read)
        } else {
            Err(AsmFault::Range(2 + (count as u32 + 31) / 32))
        },
    }
}

/// Where blocks begin.
#[derive(Drop)]
struct Places {
    chunks: Vec<u32>,
    starts: Vec<u32>,
}

/// Where the blocks of a text begin, from a first reading.
fn find_places(alloc: Global, line: u32, text: &[u8]) -> Result<Places, AsmFault>
    requires { line < 2 ^ 30 }
    ensures { ReturnsOrMemory place_table result (places_in line text.now) }
{
    let nowhere = Known {
        known: false,
        chunks: &[],
        starts: &[],
    };
    let first = match body(alloc, nowhere, line, text) {
        Err(fault) => return Err(fault),
        Ok(first) => first,
    };
    let chunks = match chunk_list(alloc, &first) {
        Err(_) => return Err(AsmFault::Memory),
        Ok(chunks) => chunks,
    };
    match starts(alloc, &first) {
        Err(_) => Err(AsmFault::Memory),
        Ok(starts) => Ok(Places { chunks, starts }),
    }
}

/// The image of a text whose first two lines are read.
fn after_front(alloc: Global, count: u32, text: &[u8]) -> Result<Image, AsmFault>
    requires { count ≤ 4194304 }
    ensures value { ReturnsOrMemory (λ v. v) result (after_front (count, text.now)) }
    ensures short { IfOk result (λ v. All (λ b. length b.insts.items ≤ 128) v.blocks) }
    ensures few { IfOk result (λ v. length v.blocks ≤ 262145) }
{
    let data = match data(alloc, count as usize, text) {
        Err(fault) => return Err(fault),
        Ok(data) => data,
    };
    let lines = (count + 31) / 32;
    if data.1.is_empty() {
        return Err(AsmFault::Syntax(3 + lines));
    }
    let places = match find_places(alloc, 3 + lines, data.1) {
        Err(fault) => return Err(fault),
        Ok(places) => places,
    };
    let known = Known {
        known: true,
        chunks: &places.chunks,
        starts: &places.starts,
    };
    match body(alloc, known, 3 + lines, data.1) {
        Err(fault) => Err(fault),
        Ok(blocks) => Ok(Image {
            blocks: Items::from_vec(blocks),
            bytes: Items::from_vec(data.0),
        }),
    }
}

fn steps(alloc: Global, text: &[u8]) -> Result<Image, AsmFault>
    ensures value { ReturnsOrMemory (λ v. v) result (steps_in text.now) }
    ensures short { IfOk result (λ v. All (λ b. length b.insts.items ≤ 128) v.blocks) }
    ensures few { IfOk result (λ v. length v.blocks ≤ 262145) }
{
    match front(text) {
        Err(fault) => Err(fault),
        Ok(head) => after_front(alloc, head.0, head.1),
    }
}

/// The image that a text tells, or its first fault, as the definition of reading has it; so each text
/// of an image is read.
pub fn read_image(alloc: Global, text: &[u8]) -> Result<Image, AsmFault>
    ensures value { ReturnsOrMemory (λ v. v) result (image_in text.now) }
    ensures only_ok { (image : Image) → TargetText image text.now
        → MatchResult result (λ v. v ≡ image) IsMemory }
    ensures short { IfOk result (λ v. All (λ b. length b.insts.items ≤ 128) v.blocks) }
    ensures few { IfOk result (λ v. length v.blocks ≤ 262145) }
{
    steps(alloc, text)
}
