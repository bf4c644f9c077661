//! Whole records at once.
ghost use Rattle.std.specs.Prelude.{◌≡◌, ◌<◌, ◌≤◌, ◌+◌, ◌^◌, [], ℕ, List, IfSome, length, take, true};
ghost use Rattle.trace_verify.specs.declared.parts.Stage.TheVariants as stage;
ghost use Rattle.trace_verify.specs.Reading.{feeds};
ghost use Rattle.trace_verify.specs.inside.Verifying.{reading_of, IsAhead, IsHeld};

use crate::parts::{Parts, Stage};
use crate::taking::{next_slot, wanted};

// Whether bytes begin with others.
#[tactic(auto, using(crate::proofs::Beginnings::one_more, crate::proofs::Beginnings::all_same))]
fn begins(ahead: &[u8], want: &[u8]) -> bool
    ensures long { result ≡ true → length want.now ≤ length ahead.now }
    ensures same { result ≡ true → take (length want.now) ahead.now ≡ want.now }
{
    if ahead.len() < want.len() {
        return false;
    }
    let mut same = 0;
    while same < want.len() && ahead[same] == want[same] {
        same += 1;
    }
    same == want.len()
}

// The slot and the size of the record of a slot of which nothing has come, where the bytes begin with it.
fn fresh_record(parts: &Parts, slot: u8, ahead: &[u8]) -> Option<(u8, usize)>
    requires held { IsHeld parts.now }
    requires stage { parts.now.stage ≡ stage.Slot slot }
    requires none { parts.now.seen.items ≡ [] }
    ensures { IfSome result (λ found. IsAhead parts.now found.0 found.1 ahead.now) }
{
    let want = wanted(parts, slot);
    let size = want.len();
    if begins(ahead, want.as_slice()) {
        Some((slot, size))
    } else {
        None
    }
}

// The same, if nothing of it has come.
#[tactic(auto, using(crate::proofs::WholeRecords::none_seen))]
fn record_at(parts: &Parts, slot: u8, ahead: &[u8]) -> Option<(u8, usize)>
    requires held { IsHeld parts.now }
    requires stage { parts.now.stage ≡ stage.Slot slot }
    ensures { IfSome result (λ found. IsAhead parts.now found.0 found.1 ahead.now) }
{
    if parts.seen.is_empty() {
        fresh_record(parts, slot, ahead)
    } else {
        None
    }
}

/// The slot and the size of the record that is wanted, where none of it has come and the bytes begin with it.
pub fn record_ahead(parts: &Parts, ahead: &[u8]) -> Option<(u8, usize)>
    requires { IsHeld parts.now }
    ensures { IfSome result (λ found. IsAhead parts.now found.0 found.1 ahead.now) }
{
    match parts.stage {
        Stage::Slot(slot) => record_at(parts, slot, ahead),
        Stage::Front => None,
        Stage::Number => None,
        Stage::Exit => None,
        Stage::Whole => None,
        Stage::Stopped(_) => None,
    }
}

// Counts the bytes of a record.
fn pass(parts: &mut Parts, size: usize)
    requires at { parts.old.at < 2 ^ 63 }
    requires few { size ≤ 9 }
    ensures { parts.new ≡ record (parts.old) { at = parts.old.at + size } }
{
    parts.at += size as u64;
}

/// Takes the bytes of the record that is wanted.
pub fn skip_record(parts: &mut Parts, slot: u8, size: usize)
    requires at { parts.old.at < 2 ^ 63 }
    requires few { size ≤ 9 }
    requires low { slot < 128 }
    requires held { IsHeld parts.old }
    requires stage { parts.old.stage ≡ stage.Slot slot }
    ensures held { IsHeld parts.new }
    ensures read { (ahead : List ℕ) → IsAhead parts.old slot size ahead
        → reading_of parts.new ≡ feeds parts.old.image.blocks parts.old.budget (reading_of parts.old)
        (take size ahead) }
    ensures image { parts.new.image ≡ parts.old.image }
    ensures budget { parts.new.budget ≡ parts.old.budget }
{
    pass(parts, size);
    next_slot(parts, slot + 1);
}
