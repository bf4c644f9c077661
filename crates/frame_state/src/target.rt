//! Where the tokens of a block's nodes go.
ghost use Rattle.std.specs.Prelude.{◌≡◌, ◌<◌, ℕ, Some, true, false, length, option_copied, slice_get};
ghost use Rattle.trips_isa.specs.Forms.{form_of};
ghost use Rattle.trips_isa.specs.Places.{place_of, place_at, first_place, inst_node, read_node, nodes_of};
ghost use Rattle.commit_flush_spec.specs.Frames.{named_at, slot_node, target};
ghost use Rattle.block_cases.specs.Orders.{slot_of};

use trips_isa::{Block, EXIT, FIRST_STORE, FIRST_WRITE, Inst, NO_PLACE, Op, ReadSlot, Spot};

// How many slots a block has at most.
const SLOTS: usize = 128;

/// The number of a place.
#[inline(always)]
pub fn place(spot: Spot) -> usize
    ensures value { result ≡ place_of spot }
{
    match spot {
        Spot::Left(s) => s as usize,
        Spot::Right(s) => 128 + s as usize,
        Spot::Pred(s) => 256 + s as usize,
        Spot::Write(w) => FIRST_WRITE as usize + w as usize,
        Spot::Store(n) => FIRST_STORE as usize + n as usize,
        _ => NO_PLACE as usize,
    }
}

/// The number of a target's place.
#[inline(always)]
pub fn place_at(spot: Option<Spot>) -> usize
    ensures value { result ≡ place_at spot }
{
    match spot {
        Some(spot) => place(spot),
        None => NO_PLACE as usize,
    }
}

// The first place that an operation names which has this number and this first target.
#[inline(always)]
fn first_of(op: Op, number: u8, first: Option<Spot>) -> usize
    ensures { result ≡ first_place (form_of op) number first }
{
    match op {
        Op::Sb | Op::Sh | Op::Sw | Op::Sd => FIRST_STORE as usize + number as usize,
        Op::Bro | Op::Callo | Op::Br | Op::Ret | Op::Scall => EXIT as usize,
        _ => place_at(first),
    }
}

/// The first place that an instruction names: a store names its number and a branch the exit.
#[inline(always)]
pub fn first_place(inst: &Inst) -> usize
    ensures value { result ≡ first_place (form_of inst.now.op) inst.now.number inst.now.first }
{
    first_of(inst.op, inst.number, inst.first)
}

/// The instruction of a slot, where it stands.
#[inline]
pub fn inst_at(block: &Block, slot: usize) -> Option<&Inst>
    ensures value { option_copied result ≡ slot_of block.now slot }
{
    let insts = block.insts.as_slice();
    if slot < SLOTS && slot < insts.len() {
        insts[slot].as_ref()
    } else {
        None
    }
}

/// What a slot holds.
pub fn slot_of(block: &Block, slot: usize) -> Option<Inst>
    ensures value { result ≡ slot_of block.now slot }
{
    let insts = block.insts.as_slice();
    if slot < insts.len() {
        insts[slot]
    } else {
        None
    }
}

// The first place that what a slot holds names.
#[inline(always)]
fn first_named(inst: &Option<Inst>) -> usize
    ensures { (s : ℕ) → result ≡ (inst_node s inst.now).first }
{
    match inst {
        None => NO_PLACE as usize,
        Some(inst) => first_place(inst),
    }
}

// The second place that what a slot holds names.
#[inline(always)]
fn second_named(inst: &Option<Inst>) -> usize
    ensures { (s : ℕ) → result ≡ (inst_node s inst.now).second }
{
    match inst {
        None => NO_PLACE as usize,
        Some(inst) => place_at(inst.second),
    }
}

// The place that what a slot holds names first or second.
#[inline(always)]
fn inst_target(inst: &Option<Inst>, first: bool) -> usize
    ensures { (s : ℕ) → result ≡ named_at (Some (inst_node s inst.now)) first }
{
    if first {
        first_named(inst)
    } else {
        second_named(inst)
    }
}

// The place that a slot of the block names first or second; its instruction stays where it is.
#[inline(always)]
fn slot_target(block: &Block, slot: usize, first: bool) -> usize
    ensures { result ≡ named_at (slice_get (nodes_of block.now) (slot_node block.now slot)) first }
{
    let insts = block.insts.as_slice();
    if slot < insts.len() {
        inst_target(&insts[slot], first)
    } else {
        NO_PLACE as usize
    }
}

// The place that a read names first or second.
fn read_target(read: ReadSlot, first: bool) -> usize
    ensures { result ≡ named_at (Some (read_node read)) first }
{
    if first {
        place(read.first)
    } else {
        place_at(read.second)
    }
}

// The place that a node of the block names first or second.
#[inline(always)]
fn node_target(block: &Block, node: usize, first: bool) -> usize
    ensures { result ≡ named_at (slice_get (nodes_of block.now) node) first }
{
    let reads = block.reads.as_slice();
    if node < reads.len() {
        read_target(reads[node], first)
    } else {
        slot_target(block, node - reads.len(), first)
    }
}

// The same, for a token of a read, of which fewer come than of tokens of slots.
#[cold]
#[inline(never)]
fn far_target(block: &Block, node: usize, first: bool) -> usize
    ensures { result ≡ named_at (slice_get (nodes_of block.now) node) first }
{
    node_target(block, node, first)
}

/// The places that a read names first and second.
pub fn read_targets(block: &Block, read: usize) -> (usize, usize)
    ensures first { result.0 ≡ named_at (slice_get (nodes_of block.now) read) true }
    ensures second { result.1 ≡ named_at (slice_get (nodes_of block.now) read) false }
{
    (
        node_target(block, read, true),
        node_target(block, read, false),
    )
}

/// The place of the block at which a token in place p is delivered.
#[tactic(auto, using(crate::proofs::TargetFacts::low_target, crate::proofs::TargetFacts::high_target))]
#[inline(always)]
pub fn target(block: &Block, p: usize) -> usize
    ensures value { result ≡ target block.now p }
{
    if p < 256 {
        slot_target(block, p / 2, p % 2 == 0)
    } else {
        far_target(block, (p - 256) / 2, p % 2 == 0)
    }
}
