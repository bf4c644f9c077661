//! Targets that a read or a slot may not name.
ghost use Rattle.std.specs.Prelude.{◌≡◌, ◌<◌, ◌≤◌, true, None, length, MatchOption};
ghost use Rattle.trips_isa.specs.Fits.{FitsBlock};
ghost use Rattle.block_cases.specs.Blocks.{takes_left, takes_right};
ghost use Rattle.block_cases.specs.Orders.{is_guarded, slot_of, target_good, targets_good};
ghost use Rattle.block_cases.specs.Orders.{bad_read, bad_inst, NoneBelow};
ghost use Rattle.block_cases.specs.inside.Orders.{IsLeast};
ghost use Rattle.block_check.specs.inside.Used.{IsEmptyFrom};

use trips_isa::{Block, Inst, Role, Sense, Spot, role_of};

fn takes_left(role: Role) -> bool
    ensures { result ≡ takes_left role }
{
    match role {
        Role::Copy | Role::One | Role::Both => true,
        _ => false,
    }
}

fn takes_right(role: Role) -> bool
    ensures { result ≡ takes_right role }
{
    match role {
        Role::Both => true,
        _ => false,
    }
}

fn is_guarded(sense: Sense) -> bool
    ensures { result ≡ is_guarded sense }
{
    match sense {
        Sense::Always => false,
        _ => true,
    }
}

/// What a slot holds.
pub(crate) fn slot_of(block: &Block, slot: u8) -> Option<Inst>
    ensures { result ≡ slot_of block.now slot }
{
    let insts = block.insts.as_slice();
    let slot = slot as usize;
    if slot < insts.len() {
        insts[slot]
    } else {
        None
    }
}

fn is_target_good(block: &Block, spot: Spot) -> bool
    ensures { result ≡ target_good block.now spot }
{
    match spot {
        Spot::Left(s) => match slot_of(block, s) {
            None => false,
            Some(i) => takes_left(role_of(i.op)),
        },
        Spot::Right(s) => match slot_of(block, s) {
            None => false,
            Some(i) => takes_right(role_of(i.op)),
        },
        Spot::Pred(s) => match slot_of(block, s) {
            None => false,
            Some(i) => is_guarded(i.sense),
        },
        Spot::Write(w) => (w as usize) < block.writes.len(),
        _ => false,
    }
}

fn are_targets_good(block: &Block, spot: Option<Spot>) -> bool
    ensures { result ≡ targets_good block.now spot }
{
    match spot {
        None => true,
        Some(s) => is_target_good(block, s),
    }
}

fn is_bad_read(block: &Block, i: usize) -> bool
    requires { i < length block.now.reads.items }
    ensures { result ≡ bad_read block.now i }
{
    let read = block.reads.as_slice()[i];
    !(is_target_good(block, read.first) && are_targets_good(block, read.second))
}

fn is_bad_inst(block: &Block, j: u8) -> bool
    ensures { result ≡ bad_inst block.now j }
{
    match slot_of(block, j) {
        None => false,
        Some(i) => !(are_targets_good(block, i.first) && are_targets_good(block, i.second)),
    }
}

/// The first read with a bad target.
pub(crate) fn find_bad_read(block: &Block) -> Option<u8>
    requires { FitsBlock block.now }
    ensures { let count = length block.now.reads.items in
        MatchOption result
        (NoneBelow (bad_read block.now) count) (IsLeast (bad_read block.now) count) }
{
    for i in 0..block.reads.len() {
        if is_bad_read(block, i) {
            return Some(i as u8);
        }
    }
    None
}

fn is_free(block: &Block, j: u8) -> bool
    ensures { result ≡ true → slot_of block.now j ≡ None }
{
    match slot_of(block, j) {
        None => true,
        Some(_) => false,
    }
}

/// How many slots stand before the empty ones at the end.
pub(crate) fn used_slots(block: &Block) -> u8
    requires { FitsBlock block.now }
    ensures within { result ≤ 128 }
    ensures empty { IsEmptyFrom block.now result }
{
    let mut used: u8 = 128;
    while used > 0 && is_free(block, used - 1) {
        used -= 1;
    }
    used
}

// The first slot below `used` with a bad target.
fn find_bad_used(block: &Block, used: u8) -> Option<u8>
    ensures { MatchOption result (NoneBelow (bad_inst block.now) used)
        (IsLeast (bad_inst block.now) used) }
{
    for j in 0..used {
        if is_bad_inst(block, j) {
            return Some(j);
        }
    }
    None
}

/// The first slot with a bad target.
pub(crate) fn find_bad_inst(block: &Block, used: u8) -> Option<u8>
    requires within { used ≤ 128 }
    requires empty { IsEmptyFrom block.now used }
    ensures { MatchOption result (NoneBelow (bad_inst block.now) 128)
        (IsLeast (bad_inst block.now) 128) }
{
    find_bad_used(block, used)
}
