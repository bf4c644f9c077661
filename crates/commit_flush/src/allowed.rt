//! Which steps a running frame may take, by what it holds.
ghost use Rattle.std.specs.Prelude.{◌≡◌, ◌<◌};
ghost use Rattle.trips_isa.specs.Forms.{is_load, is_store};
ghost use Rattle.trips_isa.specs.Machine.{State};
ghost use Rattle.trips_isa.specs.Places.{in_mask};
ghost use Rattle.commit_flush_spec.specs.Ends.{store_came};
ghost use Rattle.commit_flush_spec.specs.Frames.{is_target};
ghost use Rattle.commit_flush_spec.specs.Memory.{is_request};
ghost use Rattle.commit_flush_spec.specs.Older.{committed};
ghost use Rattle.frame_state.specs.inside.Held.{running};
ghost use Rattle.commit_flush_spec.specs.inside.NextEvent.{stores_came};
ghost use Rattle.commit_flush.specs.inside.Steps.{count_of, is_next};
ghost use Rattle.commit_flush.specs.declared.step.Step.TheVariants as step;

use crate::step::Step;
use frame_state::Body;
use trips_isa::{Block, FIRST_STORE, Form, Inst, form_of, in_mask};

// Whether tokens are delivered to a place of a block.
fn is_target(place: usize) -> bool
    ensures { result ≡ is_target place }
{
    place < FIRST_STORE as usize
}

// Whether the token in a place can be delivered.
fn is_token(held: &Body, block: &Block, place: u16) -> bool
    ensures { (s : State) → result ≡ is_next step.Token (committed s) (running block.now held.now) place }
{
    if held.has_token(place as usize) {
        is_target(held.target_of(block, place))
    } else {
        false
    }
}

// Whether a slot is ready.
#[tactic(auto, using(crate::proofs::StepFacts::fired_there, crate::proofs::StepFacts::not_fired))]
fn is_ready(held: &Body, block: &Block, slot: u8) -> bool
    ensures { (s : State) → result ≡ is_next step.Firing (committed s) (running block.now held.now) slot }
{
    if held.has_inst(block, slot) {
        held.token_at(block, slot).is_some()
    } else {
        false
    }
}

// Whether a read can be answered: the oldest frame sees every register.
fn is_unread(held: &Body, block: &Block, read: u8) -> bool
    ensures { (s : State) → result ≡ is_next step.Read (committed s) (running block.now held.now) read }
{
    held.has_read(block, read)
}

// Whether a load waits.
fn is_load_request(request: Option<(u8, Inst)>) -> bool
    ensures { result ≡ is_request is_load request }
{
    match request {
        None => false,
        Some((_, inst)) => form_of(inst.op) == Form::Load,
    }
}

// Whether a store waits.
fn is_store_request(request: Option<(u8, Inst)>) -> bool
    ensures { result ≡ is_request is_store request }
{
    match request {
        None => false,
        Some((_, inst)) => form_of(inst.op) == Form::Store,
    }
}

// Whether the store of a number waits and has not come.
#[tactic(auto, using(crate::proofs::StepFacts::asked_and, crate::proofs::StepFacts::not_asked))]
fn is_store(held: &Body, block: &Block, number: u8) -> bool
    ensures { (s : State) → result ≡ is_next step.Store (committed s) (running block.now held.now) number }
{
    if is_store_request(held.request(block, number)) {
        held.stored(number).is_none()
    } else {
        false
    }
}

// Whether a number has its store, or wants none.
fn store_came(held: &Body, block: &Block, number: u8) -> bool
    ensures { result ≡ store_came (running block.now held.now) number }
{
    !in_mask(block.mask, number) || held.stored(number).is_some()
}

// Whether every store of a lower number has come.
fn stores_came(held: &Body, block: &Block, number: u8) -> bool
    ensures { result ≡ stores_came (running block.now held.now) number }
{
    for lower in 0..number {
        if !store_came(held, block, lower) {
            return false;
        }
    }
    true
}

// Whether the load of a number waits for no store.
#[tactic(auto, using(crate::proofs::StepFacts::asked_and, crate::proofs::StepFacts::not_asked))]
fn is_load(held: &Body, block: &Block, number: u8) -> bool
    ensures { (s : State) → result ≡ is_next step.Load (committed s) (running block.now held.now) number }
{
    if is_load_request(held.request(block, number)) {
        stores_came(held, block, number)
    } else {
        false
    }
}

/// Whether the oldest frame, which runs, may take the step of a number.
#[inline(always)]
pub fn is_next(held: &Body, block: &Block, step: Step, number: u16) -> bool
    requires { number < count_of step }
    ensures { (s : State) → result ≡ is_next step (committed s) (running block.now held.now) number }
{
    match step {
        Step::Token => is_token(held, block, number),
        Step::Firing => is_ready(held, block, number as u8),
        Step::Read => is_unread(held, block, number as u8),
        Step::Store => is_store(held, block, number as u8),
        Step::Load => is_load(held, block, number as u8),
    }
}
