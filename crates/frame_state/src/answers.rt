//! What the events of one frame are answered.
ghost use Rattle.std.specs.Prelude.{◌≡◌, slice_get};
ghost use Rattle.trips_isa.specs.Forms.{is_load, is_store};
ghost use Rattle.trips_isa.specs.declared.block.Block.{Block};
ghost use Rattle.commit_flush_spec.specs.Causes as causes;
ghost use Rattle.commit_flush_spec.specs.Older.{Older};
ghost use Rattle.commit_flush_spec.specs.Frames.{is_target};
ghost use Rattle.commit_flush_spec.specs.Dataflow.{read_seen, can_read, can_fire, can_deliver};
ghost use Rattle.commit_flush_spec.specs.Memory.{is_request, can_load, can_store};
ghost use Rattle.commit_flush_spec.specs.Ends.{can_exit, can_seal};
ghost use Rattle.frame_state.specs.inside.Held.{running};
ghost use Rattle.frame_state.specs.Events.{as_happened};
ghost use Rattle.frame_state.specs.inside.Phases.{HasBlock, answered, frame_in};
ghost use Rattle.frame_state.specs.inside.Changes.{IsSeen};

use crate::body::Body;
use crate::event::{Cause, Happened};
use crate::flights::running_in;
use crate::phase::Phase;
use block_check::CheckedImage;
use trips_isa::{Block, FIRST_STORE, Form, Inst, form_of};

// What Read of a read is answered at a frame that runs, where this is known of its register.
fn read_answer(held: &Body, block: &Block, read: u8, word: Option<u64>) -> Happened
    ensures { (o : Older) → word ≡ read_seen o (slice_get block.now.reads.items read)
        → as_happened result ≡ can_read read o (running block.now held.now) }
{
    if !held.has_read(block, read) {
        Happened::NotNow(Cause::NoRead)
    } else if word.is_none() {
        Happened::NotNow(Cause::NotYet)
    } else {
        Happened::Done
    }
}

// What Fire of a slot is answered at a frame that runs.
fn fire_answer(held: &Body, block: &Block, slot: u8) -> Happened
    ensures { (o : Older) → as_happened result ≡ can_fire slot o (running block.now held.now) }
{
    if !held.has_inst(block, slot) {
        Happened::NotNow(Cause::NoInst)
    } else if held.token_at(block, slot).is_none() {
        Happened::NotNow(Cause::NotReady)
    } else {
        Happened::Done
    }
}

/// Whether tokens are delivered to a place of a block.
pub(crate) fn is_target(place: usize) -> bool
    ensures { result ≡ is_target place }
{
    place < FIRST_STORE as usize
}

// What Deliver of a place is answered at a frame that runs.
fn deliver_answer(held: &Body, block: &Block, place: u16) -> Happened
    ensures { (o : Older) → as_happened result ≡ can_deliver place o (running block.now held.now) }
{
    if !held.has_token(place as usize) || !is_target(held.target_of(block, place)) {
        Happened::NotNow(Cause::NoToken)
    } else {
        Happened::Done
    }
}

// Whether a load waits.
fn is_load_request(request: Option<(u8, Inst)>) -> bool
    ensures { result ≡ is_request is_load request }
{
    match request {
        None => false,
        Some((_, inst)) => form_of(inst.op) == Form::Load,
    }
}

// Whether a store waits.
fn is_store_request(request: Option<(u8, Inst)>) -> bool
    ensures { result ≡ is_request is_store request }
{
    match request {
        None => false,
        Some((_, inst)) => form_of(inst.op) == Form::Store,
    }
}

// What Load of a number is answered at a frame that runs.
fn load_answer(held: &Body, block: &Block, number: u8) -> Happened
    ensures { (o : Older) → as_happened result ≡ can_load number o (running block.now held.now) }
{
    if is_load_request(held.request(block, number)) {
        Happened::Done
    } else {
        Happened::NotNow(Cause::NoRequest)
    }
}

// What Store of a number is answered at a frame that runs.
fn store_answer(held: &Body, block: &Block, number: u8) -> Happened
    ensures { (o : Older) → as_happened result ≡ can_store number o (running block.now held.now) }
{
    if is_store_request(held.request(block, number)) {
        Happened::Done
    } else {
        Happened::NotNow(Cause::NoRequest)
    }
}

// What Exit is answered at a frame that runs.
fn exit_answer(held: &Body) -> Happened
    ensures { (b : Block) (o : Older) → as_happened result ≡ can_exit o (running b held.now) }
{
    match held.leaving() {
        None => Happened::NotNow(Cause::NoExit),
        Some(_) => Happened::Done,
    }
}

// What Seal is answered at a frame that runs.
fn seal_answer(held: &Body, block: &Block) -> Happened
    ensures { (o : Older) → as_happened result ≡ can_seal o (running block.now held.now) }
{
    if held.is_complete(block) {
        Happened::Done
    } else {
        Happened::NotNow(Cause::Missing)
    }
}

/// What Read of a read is answered at a frame, where this is known of its register.
pub fn can_read(phase: &Phase, image: &CheckedImage, read: u8, word: Option<u64>) -> Happened
    requires block { HasBlock image.now.blocks phase.now }
    ensures value { (o : Older) → IsSeen o read word (frame_in image.now.blocks phase.now) → as_happened result
        ≡ answered (causes.NotNow causes.NoFrame) (can_read read) o (frame_in image.now.blocks phase.now) }
{
    match running_in(phase, image) {
        None => Happened::NotNow(Cause::NoFrame),
        Some((held, block)) => read_answer(held, block, read, word),
    }
}

/// What Fire of a slot is answered at a frame.
pub fn can_fire(phase: &Phase, image: &CheckedImage, slot: u8) -> Happened
    requires block { HasBlock image.now.blocks phase.now }
    ensures value { (o : Older) → as_happened result
        ≡ answered (causes.NotNow causes.NoFrame) (can_fire slot) o (frame_in image.now.blocks phase.now) }
{
    match running_in(phase, image) {
        None => Happened::NotNow(Cause::NoFrame),
        Some((held, block)) => fire_answer(held, block, slot),
    }
}

/// What Deliver of a place is answered at a frame.
pub fn can_deliver(phase: &Phase, image: &CheckedImage, place: u16) -> Happened
    requires block { HasBlock image.now.blocks phase.now }
    ensures value { (o : Older) → as_happened result
        ≡ answered (causes.NotNow causes.NoToken) (can_deliver place) o (frame_in image.now.blocks phase.now) }
{
    match running_in(phase, image) {
        None => Happened::NotNow(Cause::NoToken),
        Some((held, block)) => deliver_answer(held, block, place),
    }
}

/// What Load of a number is answered at a frame.
pub fn can_load(phase: &Phase, image: &CheckedImage, number: u8) -> Happened
    requires block { HasBlock image.now.blocks phase.now }
    ensures value { (o : Older) → as_happened result
        ≡ answered (causes.NotNow causes.NoFrame) (can_load number) o (frame_in image.now.blocks phase.now) }
{
    match running_in(phase, image) {
        None => Happened::NotNow(Cause::NoFrame),
        Some((held, block)) => load_answer(held, block, number),
    }
}

/// What Store of a number is answered at a frame.
pub fn can_store(phase: &Phase, image: &CheckedImage, number: u8) -> Happened
    requires block { HasBlock image.now.blocks phase.now }
    ensures value { (o : Older) → as_happened result
        ≡ answered (causes.NotNow causes.NoFrame) (can_store number) o (frame_in image.now.blocks phase.now) }
{
    match running_in(phase, image) {
        None => Happened::NotNow(Cause::NoFrame),
        Some((held, block)) => store_answer(held, block, number),
    }
}

/// What Exit is answered at a frame.
pub fn can_exit(phase: &Phase, image: &CheckedImage) -> Happened
    requires block { HasBlock image.now.blocks phase.now }
    ensures value { (o : Older) → as_happened result
        ≡ answered (causes.NotNow causes.NoFrame) can_exit o (frame_in image.now.blocks phase.now) }
{
    match running_in(phase, image) {
        None => Happened::NotNow(Cause::NoFrame),
        Some((held, _)) => exit_answer(held),
    }
}

/// What Seal is answered at a frame.
pub fn can_seal(phase: &Phase, image: &CheckedImage) -> Happened
    requires block { HasBlock image.now.blocks phase.now }
    ensures value { (o : Older) → as_happened result
        ≡ answered (causes.NotNow causes.NoFrame) can_seal o (frame_in image.now.blocks phase.now) }
{
    match running_in(phase, image) {
        None => Happened::NotNow(Cause::NoFrame),
        Some((held, block)) => seal_answer(held, block),
    }
}
