//! The lowest number of a step that a running frame may take.
ghost use Rattle.std.specs.Prelude.{◌≡◌, ◌<◌, ◌≤◌, ◌-◌, IfSome, length};
ghost use Rattle.trips_isa.specs.Machine.{State};
ghost use Rattle.commit_flush_spec.specs.Older.{committed};
ghost use Rattle.frame_state.specs.inside.Held.{running};
ghost use Rattle.frame_state.specs.inside.Shapes.{IsShape};
ghost use Rattle.commit_flush_spec.specs.inside.NextEvent.{lowest};
ghost use Rattle.commit_flush.specs.inside.Bits.{IsLowestBit};
ghost use Rattle.commit_flush.specs.inside.Steps.{count_of, is_next};
ghost use Rattle.commit_flush.specs.declared.step.Step.TheVariants as step;

use crate::allowed::is_next;
use crate::step::Step;
use frame_state::{Body, Shape};
use trips_isa::Block;

/// How many bits a word has.
const BITS: u16 = 64;

// The lowest bit of a word that is 1; 64 where there is none.
#[inline]
fn lowest_bit(word: u64) -> u16
    ensures { IsLowestBit word result }
{
    if word == 0 {
        BITS
    } else {
        word.trailing_zeros() as u16
    }
}

// The lowest number from one up to another whose step may be taken.
#[inline(always)]
fn between(held: &Body, block: &Block, step: Step, from: u16, to: u16) -> Option<u16>
    requires order { from ≤ to }
    requires within { to ≤ count_of step }
    ensures value { (s : State) → result
        ≡ lowest (is_next step (committed s) (running block.now held.now)) (to - from) from }
    ensures within { IfSome result (λ n. n < count_of step) }
{
    for number in from..to {
        if is_next(held, block, step, number) {
            return Some(number);
        }
    }
    None
}

// The lowest place of which the token can be delivered, found by words: a place without a token is passed over.
fn lowest_place(held: &Body, block: &Block) -> Option<u16>
    ensures value { (s : State) → result
        ≡ lowest (is_next step.Token (committed s) (running block.now held.now)) (count_of step.Token) 0 }
    ensures within { IfSome result (λ n. n < count_of step.Token) }
{
    let places = held.places();
    for word in 0..5u16 {
        let bit = lowest_bit(places.word(word as usize));
        if bit < BITS {
            return between(held, block, Step::Token, BITS * word + bit, 320);
        }
    }
    None
}

// The lowest ready slot, by the shape of the block.
fn lowest_ready(held: &Body, block: &Block, shape: &Shape) -> Option<u16>
    requires { IsShape block.now shape.now }
    ensures value { (s : State) → result
        ≡ lowest (is_next step.Firing (committed s) (running block.now held.now)) (count_of step.Firing) 0 }
    ensures within { IfSome result (λ n. n < count_of step.Firing) }
{
    let low = lowest_bit(held.ready(shape, 0));
    if low < BITS {
        return Some(low);
    }
    let high = lowest_bit(held.ready(shape, 1));
    if high < BITS { Some(BITS + high) } else { None }
}

// The lowest ready slot, by the shape where it is known.
fn lowest_slot(held: &Body, block: &Block, shape: Option<&Shape>) -> Option<u16>
    requires { IfSome shape (λ x. IsShape block.now x.now) }
    ensures value { (s : State) → result
        ≡ lowest (is_next step.Firing (committed s) (running block.now held.now)) (count_of step.Firing) 0 }
    ensures within { IfSome result (λ n. n < count_of step.Firing) }
{
    match shape {
        Some(shape) => lowest_ready(held, block, shape),
        None => between(held, block, Step::Firing, 0, 128),
    }
}

// How many reads a block declares.
fn reads_of(block: &Block) -> u16
    ensures value { result ≡ length block.now.reads.items }
    ensures within { result ≤ 32 }
{
    let reads = block.reads.as_slice();
    reads.len() as u16
}

// The lowest read that can be answered, which is one of the block's.
fn lowest_read(held: &Body, block: &Block) -> Option<u16>
    ensures value { (s : State) → result
        ≡ lowest (is_next step.Read (committed s) (running block.now held.now)) (count_of step.Read) 0 }
    ensures within { IfSome result (λ n. n < count_of step.Read) }
{
    let reads = reads_of(block);
    between(held, block, Step::Read, 0, reads)
}

// The lowest store that may come; without a request there is none.
fn lowest_store(held: &Body, block: &Block) -> Option<u16>
    ensures value { (s : State) → result
        ≡ lowest (is_next step.Store (committed s) (running block.now held.now)) (count_of step.Store) 0 }
    ensures within { IfSome result (λ n. n < count_of step.Store) }
{
    if held.requests().word(0) == 0 {
        None
    } else {
        between(held, block, Step::Store, 0, 32)
    }
}

// The lowest load that may be answered; without a request there is none.
fn lowest_load(held: &Body, block: &Block) -> Option<u16>
    ensures value { (s : State) → result
        ≡ lowest (is_next step.Load (committed s) (running block.now held.now)) (count_of step.Load) 0 }
    ensures within { IfSome result (λ n. n < count_of step.Load) }
{
    if held.requests().word(0) == 0 {
        None
    } else {
        between(held, block, Step::Load, 0, 32)
    }
}

/// The lowest number of a step that the oldest frame may take, where it runs, by the shape of its block where that is
/// known.
pub fn lowest(held: &Body, block: &Block, shape: Option<&Shape>, step: Step) -> Option<u16>
    requires shape { IfSome shape (λ x. IsShape block.now x.now) }
    ensures value { (s : State) → result
        ≡ lowest (is_next step (committed s) (running block.now held.now)) (count_of step) 0 }
    ensures within { IfSome result (λ n. n < count_of step) }
{
    match step {
        Step::Token => lowest_place(held, block),
        Step::Firing => lowest_slot(held, block, shape),
        Step::Read => lowest_read(held, block),
        Step::Store => lowest_store(held, block),
        Step::Load => lowest_load(held, block),
    }
}
