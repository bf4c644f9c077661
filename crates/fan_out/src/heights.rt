//! How far ways go on behind the uses of a source, and the uses in this order.
ghost use Rattle.std.specs.Prelude.{◌≡◌, ◌++◌, replicate, slice_get, IfOk, OnOk};
ghost use Rattle.fan_out.specs.inside.Heights as spec;

use crate::{Wire, fans};
use base::{Items, Memory};
use ir_forms::FlowSource;
use std::alloc::Global;
use trips_isa::Spot;

// The heights of a block stand in one list: those of its nodes, then of their guards, of its writes, and of the reads
// of all registers.
const GUARDS: usize = 128;

const WRITES: usize = 256;

const READS: usize = 288;

const HEIGHTS: usize = 416;

fn above(h: u8) -> u8
    ensures { result ≡ spec.above h }
{
    if h < 200 { h + 1 } else { h }
}

fn at(heights: &[u8], i: usize) -> u8
    ensures { result ≡ spec.or_zero (slice_get heights.now i) }
{
    match heights.get(i) {
        None => 0,
        Some(h) => *h,
    }
}

fn height(heights: &[u8], spot: Spot) -> u8
    ensures { result ≡ spec.height heights.now spot }
{
    match spot {
        Spot::Left(j) => at(heights, j as usize),
        Spot::Right(j) => at(heights, j as usize),
        Spot::Pred(j) => at(heights, GUARDS + j as usize),
        Spot::Write(w) => at(heights, WRITES + w as usize),
        Spot::Read(_) => 0,
        Spot::Inst(_) => 0,
        Spot::Store(_) => 0,
    }
}

// The height at a place is h, where there is such a place.
fn put(heights: &mut Items<u8>, i: usize, h: u8)
    ensures { heights.new ≡ spec.put_at (slice_get heights.old i) heights.old i h }
{
    if heights.get(i).is_some() {
        heights.set(i, h);
    }
}

// The height at a place is at least h, where there is such a place.
fn raise_at(heights: &mut Items<u8>, i: usize, h: u8)
    ensures { heights.new ≡ spec.raised_from (slice_get heights.old i) heights.old i h }
{
    let old = match heights.get(i) {
        None => return,
        Some(old) => *old,
    };
    if old < h {
        heights.set(i, h);
    }
}

fn guard_height(note: u8, h: u8) -> u8
    ensures { result ≡ spec.guard_height note h }
{
    if note == 0 {
        h
    } else if h > 1 {
        1
    } else {
        h
    }
}

fn write_height(h: u8) -> u8
    ensures { result ≡ spec.write_height h }
{
    above(above(above(h)))
}

// The heights of a guard and of a write are what is noted of them.
fn judge(heights: &mut Items<u8>, spot: Spot, note: u8)
    ensures { heights.new ≡ spec.judged spot note heights.old }
{
    match spot {
        Spot::Left(_) => {}
        Spot::Right(_) => {}
        Spot::Pred(j) => {
            let h = guard_height(note, at(heights.as_slice(), j as usize));
            put(heights, GUARDS + j as usize, h);
        }
        Spot::Write(w) => {
            let h = write_height(at(heights.as_slice(), READS + note as usize));
            put(heights, WRITES + w as usize, h);
        }
        Spot::Read(_) => {}
        Spot::Inst(_) => {}
        Spot::Store(_) => {}
    }
}

fn raise(heights: &mut Items<u8>, source: FlowSource, h: u8)
    ensures { heights.new ≡ spec.raised source heights.old h }
{
    match source {
        FlowSource::Read(r) => raise_at(heights, READS + r as usize, h),
        FlowSource::Node(j) => raise_at(heights, j as usize, h),
    }
}

// The source of a wire is above its spot.
fn raise_by(heights: &mut Items<u8>, wire: Wire)
    ensures { heights.new ≡ spec.raised_by wire heights.old }
{
    judge(heights, wire.spot, wire.note);
    let h = above(height(heights.as_slice(), wire.spot));
    raise(heights, wire.source, h);
}

fn zeros(alloc: Global) -> Result<Items<u8>, Memory>
    ensures ok { IfOk result (λ hs. hs ≡ replicate spec.places 0) }
{
    Ok(Items::from_vec(vec![in alloc; 0u8; HEIGHTS]?))
}

fn raise_all(heights: &mut Items<u8>, wires: &[Wire])
    ensures { heights.new ≡ spec.risen_by wires.now heights.old }
{
    let mut left = wires.len();
    while left > 0 {
        left -= 1;
        raise_by(heights, wires[left]);
    }
}

/// The heights of a block with these wires. Want of memory is the only error.
pub fn heights(alloc: Global, wires: &[Wire]) -> Result<Items<u8>, Memory>
    ensures ok { IfOk result (λ hs. hs ≡ spec.heights wires.now) }
{
    let mut heights = zeros(alloc)?;
    raise_all(&mut heights, wires);
    raise_all(&mut heights, wires);
    raise_all(&mut heights, wires);
    Ok(heights)
}

fn put_in(to: &mut Items<Spot>, heights: &[u8], spot: Spot, spots: &[Spot]) -> Result<(), Memory>
    ensures ok { OnOk result (to.new ≡ to.old ++ spec.put_in heights.now spot spots.now) }
{
    match spots {
        [] => Ok(to.push(spot)?),
        [a, rest @ ..] => {
            if height(heights, spot) < height(heights, *a) {
                to.push(*a)?;
                put_in(to, heights, spot, rest)
            } else {
                to.push(spot)?;
                fans::copied(to, spots)
            }
        }
    }
}

// Some spots, the highest first.
fn ordered(alloc: Global, heights: &[u8], spots: &[Spot]) -> Result<Items<Spot>, Memory>
    ensures ok { IfOk result (λ ts. ts ≡ spec.ordered heights.now spots.now) }
{
    match spots {
        [] => Ok(Items::new(alloc)),
        [a, rest @ ..] => {
            let lower = ordered(alloc, heights, rest)?;
            let mut to = Items::new(alloc);
            put_in(&mut to, heights, *a, lower.as_slice())?;
            Ok(to)
        }
    }
}

// Whether no spot is higher than the one before it.
fn falls(heights: &[u8], spots: &[Spot]) -> bool
    ensures { result ≡ spec.falls 255 heights.now spots.now }
{
    let mut last = 255;
    for spot in spots {
        let h = height(heights, *spot);
        if last < h {
            return false;
        }
        last = h;
    }
    true
}

/// Some spots, the highest first: mostly they stand so. Want of memory is the only error.
#[tactic(auto, using(crate::proofs::Heightened::falls_ordered))]
pub fn in_height(alloc: Global, heights: &[u8], spots: Items<Spot>) -> Result<Items<Spot>, Memory>
    ensures ok { IfOk result (λ ts. ts ≡ spec.ordered heights.now spots) }
{
    if falls(heights, spots.as_slice()) {
        return Ok(spots);
    }
    ordered(alloc, heights, spots.as_slice())
}

/// Whether the first of some spots is above the second by two or more.
pub fn leads(heights: &[u8], spots: &[Spot]) -> bool
    ensures { result ≡ spec.leads heights.now spots.now }
{
    match spots {
        [] => false,
        [_] => false,
        [a, b, ..] => above(height(heights, *b)) < height(heights, *a),
    }
}
