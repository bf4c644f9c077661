//! What a frame in flight tells to those who move the window.
ghost use Rattle.std.specs.Prelude.{◌≡◌, Bool, slice_get};
ghost use Rattle.trips_isa.specs.declared.block.Block.{Block};
ghost use Rattle.commit_flush_spec.specs.Older.{is_serial, makes_call, successor_of};
ghost use Rattle.frame_state.specs.inside.Held.{as_frame, taken_if, exit_of};
ghost use Rattle.frame_state.specs.inside.Phases.{HasBlock, frame_in};
ghost use Rattle.frame_state.specs.inside.Told.{block_in, is_serial_in, register_of, read_register, token_in};
ghost use Rattle.frame_state.specs.inside.Told.{finds_room, write_at, register_to, taken_by, waiting_load, stored_by};
ghost use Rattle.frame_state.specs.inside.Told.{waiting_store};
ghost use Rattle.frame_state.specs.inside.Told.{exit_come, leads_to, is_sealed_in, cause_in, outputs_in};

use crate::body::Body;
use crate::exits::departure;
use crate::flights::{flying, sealed_in};
use crate::outputs::Outputs;
use crate::parts::{Departure, Took};
use crate::phase::Phase;
use block_check::CheckedImage;
use trips_isa::{Block, FIRST_WRITE, Inst, NO_MARK, Op, Stored, Token};

// Whether what a slot holds is a system call.
fn makes_call(inst: Option<Inst>) -> bool
    ensures { result ≡ makes_call inst }
{
    match inst {
        None => false,
        Some(inst) => matches!(inst.op, Op::Scall),
    }
}

/// Whether a block may make a system call.
pub fn is_serial(block: &Block) -> bool
    ensures { result ≡ is_serial block.now }
{
    let insts = block.insts.as_slice();
    for inst in insts {
        if makes_call(*inst) {
            return true;
        }
    }
    false
}

/// The register of the write at a place of a block, if a write is there.
pub(crate) fn write_at(block: &Block, place: usize) -> Option<u8>
    ensures { result ≡ write_at block.now.writes.items place }
{
    if place < FIRST_WRITE as usize {
        return None;
    }
    let writes = block.writes.as_slice();
    let write = place - FIRST_WRITE as usize;
    if write < writes.len() {
        Some(writes[write])
    } else {
        None
    }
}

/// The number of its block.
pub fn block_in(phase: &Phase, image: &CheckedImage) -> Option<u32>
    requires block { HasBlock image.now.blocks phase.now }
    ensures value { result ≡ block_in (frame_in image.now.blocks phase.now) }
{
    match flying(phase, image) {
        None => None,
        Some((held, _)) => Some(held.block()),
    }
}

/// Whether its block may make a system call.
pub fn is_serial_in(phase: &Phase, image: &CheckedImage) -> bool
    requires block { HasBlock image.now.blocks phase.now }
    ensures value { result ≡ is_serial_in (frame_in image.now.blocks phase.now) }
{
    match flying(phase, image) {
        None => false,
        Some((_, block)) => is_serial(block),
    }
}

// The register of a declared read of a block.
fn read_of(block: &Block, read: u8) -> Option<u8>
    ensures { result ≡ register_of (slice_get block.now.reads.items read) }
{
    let reads = block.reads.as_slice();
    if (read as usize) < reads.len() {
        Some(reads[read as usize].register)
    } else {
        None
    }
}

/// The register of one of its reads.
pub fn read_register(phase: &Phase, image: &CheckedImage, read: u8) -> Option<u8>
    requires block { HasBlock image.now.blocks phase.now }
    ensures value { result ≡ read_register read (frame_in image.now.blocks phase.now) }
{
    match flying(phase, image) {
        None => None,
        Some((_, block)) => read_of(block, read),
    }
}

/// The token on its way in a place.
pub fn token_in(phase: &Phase, image: &CheckedImage, place: u16) -> Option<Token>
    requires block { HasBlock image.now.blocks phase.now }
    ensures value { result ≡ token_in place (frame_in image.now.blocks phase.now) }
{
    match flying(phase, image) {
        None => None,
        Some((held, _)) => held.place(place as usize),
    }
}

/// Whether the place of the block is empty to which the token in a place goes; so where no frame is in flight.
pub fn finds_room(phase: &Phase, image: &CheckedImage, place: u16) -> bool
    requires block { HasBlock image.now.blocks phase.now }
    ensures value { result ≡ finds_room place (frame_in image.now.blocks phase.now) }
{
    match flying(phase, image) {
        None => true,
        Some((held, block)) => held.finds_room(block, place),
    }
}

/// The register of the write to which the token in a place goes, if it goes to one.
pub fn register_to(phase: &Phase, image: &CheckedImage, place: u16) -> Option<u8>
    requires block { HasBlock image.now.blocks phase.now }
    ensures value { result ≡ register_to place (frame_in image.now.blocks phase.now) }
{
    match flying(phase, image) {
        None => None,
        Some((held, block)) => write_at(block, held.target_of(block, place)),
    }
}

// What the load of a slot takes.
fn taken_by(held: &Body, request: Option<(u8, Inst)>) -> Option<Took>
    ensures { (b : Block) (sealed : Bool) → taken_if result ≡ taken_by (as_frame sealed b held.now) request }
{
    match request {
        None => None,
        Some((slot, inst)) => Some(held.took(inst, slot)),
    }
}

/// What the load that waits with a number takes.
pub fn waiting_load(phase: &Phase, image: &CheckedImage, number: u8) -> Option<Took>
    requires block { HasBlock image.now.blocks phase.now }
    ensures value { taken_if result ≡ waiting_load number (frame_in image.now.blocks phase.now) }
{
    match flying(phase, image) {
        None => None,
        Some((held, block)) => taken_by(held, held.request(block, number)),
    }
}

// What the store of a slot is resolved to.
fn stored_by(held: &Body, request: Option<(u8, Inst)>) -> Option<Stored>
    ensures { (b : Block) (sealed : Bool) → result ≡ stored_by (as_frame sealed b held.now) request }
{
    match request {
        None => None,
        Some((slot, inst)) => held.would_store(inst, slot),
    }
}

/// What the store that waits with a number will be resolved to.
pub fn waiting_store(phase: &Phase, image: &CheckedImage, number: u8) -> Option<Stored>
    requires block { HasBlock image.now.blocks phase.now }
    ensures value { result ≡ waiting_store number (frame_in image.now.blocks phase.now) }
{
    match flying(phase, image) {
        None => None,
        Some((held, block)) => stored_by(held, held.request(block, number)),
    }
}

/// The exit that has come.
pub fn exit_come(phase: &Phase, image: &CheckedImage) -> Option<Departure>
    requires block { HasBlock image.now.blocks phase.now }
    ensures value { exit_of result ≡ exit_come (frame_in image.now.blocks phase.now) }
{
    match flying(phase, image) {
        None => None,
        Some((held, _)) => held.exit(),
    }
}

// The block that an exit makes known.
fn successor_of(exit: Option<Departure>) -> Option<u32>
    ensures { result ≡ successor_of (exit_of exit) }
{
    match exit {
        None => None,
        Some(exit) => Some(exit.successor),
    }
}

/// The block to which the waiting branch leads.
pub fn leads_to(phase: &Phase, image: &CheckedImage) -> Option<u32>
    requires block { HasBlock image.now.blocks phase.now }
    ensures value { result ≡ leads_to image.now.blocks (frame_in image.now.blocks phase.now) }
{
    match flying(phase, image) {
        None => None,
        Some((held, block)) => {
            let exit = departure(image, held.block(), held.branch(block));
            successor_of(exit)
        }
    }
}

/// Whether the frame is sealed.
pub fn is_sealed_in(phase: &Phase, image: &CheckedImage) -> bool
    requires block { HasBlock image.now.blocks phase.now }
    ensures value { result ≡ is_sealed_in (frame_in image.now.blocks phase.now) }
{
    sealed_in(phase, image).is_some()
}

/// The least mark of what a sealed frame hands to its commit, or none.
pub fn cause_in(phase: &Phase, image: &CheckedImage) -> u8
    requires block { HasBlock image.now.blocks phase.now }
    ensures value { result ≡ cause_in (frame_in image.now.blocks phase.now) }
{
    match sealed_in(phase, image) {
        None => NO_MARK,
        Some((sealed, block)) => sealed.cause(block),
    }
}

/// What a sealed frame hands to its commit.
pub fn outputs_in(phase: &Phase, image: &CheckedImage) -> Option<Outputs>
    requires block { HasBlock image.now.blocks phase.now }
    ensures value { result ≡ outputs_in (frame_in image.now.blocks phase.now) }
{
    match sealed_in(phase, image) {
        None => None,
        Some((sealed, block)) => Some(sealed.outputs(block)),
    }
}
