//! Bytes that come one after another.
ghost use Rattle.std.specs.Prelude.{◌≡◌, ◌<◌, ◌≤◌, length, take};
ghost use Rattle.trace_verify.specs.Reading.{feeds, take_byte};
ghost use Rattle.trace_verify.specs.inside.Verifying.{reading_of, IsHeld};
ghost use Rattle.trace_verify.specs.inside.Within.{IsWithin};

use crate::parts::Parts;
use crate::skipping::{record_ahead, skip_record};
use crate::taking::take;

// A byte more, where so few have come that their number fits.
#[tactic(auto, using(crate::proofs::HeldBounds::held_low, crate::proofs::HeldBounds::taken_within))]
fn take_one(parts: &mut Parts, byte: u8)
    requires held { IsHeld parts.old }
    requires within { IsWithin parts.old }
    ensures held { IsHeld parts.new }
    ensures within { IsWithin parts.new }
    ensures read { reading_of parts.new
        ≡ take_byte parts.old.image.blocks parts.old.budget (reading_of parts.old) byte }
    ensures image { parts.new.image ≡ parts.old.image }
    ensures budget { parts.new.budget ≡ parts.old.budget }
{
    take(parts, byte);
}

// Takes a byte, or a record where the one that is wanted lies ahead, and says how many bytes.
#[tactic(auto, using(crate::proofs::HeldBounds::held_low))]
fn take_some(parts: &mut Parts, ahead: &[u8]) -> usize
    requires some { 0 < length ahead.now }
    requires held { IsHeld parts.old }
    requires within { IsWithin parts.old }
    ensures some { 0 < result }
    ensures bound { result ≤ length ahead.now }
    ensures held { IsHeld parts.new }
    ensures within { IsWithin parts.new }
    ensures read { reading_of parts.new ≡ feeds parts.old.image.blocks parts.old.budget (reading_of parts.old)
        (take result ahead.now) }
    ensures image { parts.new.image ≡ parts.old.image }
    ensures budget { parts.new.budget ≡ parts.old.budget }
{
    match record_ahead(parts, ahead) {
        Some((slot, size)) => {
            skip_record(parts, slot, size);
            size
        }
        None => {
            take_one(parts, ahead[0]);
            1
        }
    }
}

/// Bytes more, one after another.
pub fn feed(parts: &mut Parts, piece: &[u8])
    requires held { IsHeld parts.old }
    requires within { IsWithin parts.old }
    ensures held { IsHeld parts.new }
    ensures within { IsWithin parts.new }
    ensures read { reading_of parts.new
        ≡ feeds parts.old.image.blocks parts.old.budget (reading_of parts.old) piece.now }
    ensures image { parts.new.image ≡ parts.old.image }
    ensures budget { parts.new.budget ≡ parts.old.budget }
{
    let mut done = 0;
    while done < piece.len() {
        done += take_some(parts, &piece[done..]);
    }
}
