//! What is told of a frame that runs: what waits, what it lacks, and what may happen next.
ghost use Rattle.std.specs.Prelude.{◌≡◌, ◌≤◌, ◌<◌, ◌||◌, ℕ, Bool, is_none, is_some, length, not, slice_get};
ghost use Rattle.std.specs.Prelude.{slice_index_or, false};
ghost use Rattle.trips_isa.specs.Alu.{word};
ghost use Rattle.trips_isa.specs.Stores.{address_of};
ghost use Rattle.trips_isa.specs.declared.block.Block.{Block};
ghost use Rattle.base.specs.Rows.{has_bit};
ghost use Rattle.commit_flush_spec.specs.Memory.{is_request, request};
ghost use Rattle.commit_flush_spec.specs.Window as event;
ghost use Rattle.commit_flush_spec.specs.Window.{can};
ghost use Rattle.frame_state.specs.inside.Held.{as_frame, running};
ghost use Rattle.frame_state.specs.Events as events;
ghost use Rattle.frame_state.specs.inside.Events as inside_events;
ghost use Rattle.commit_flush.specs.inside.Places.{frame_of};
ghost use Rattle.commit_flush.specs.Observed.{is_whole_in, lack_in};
ghost use Rattle.commit_flush.specs.inside.Observed.{address_by, address_in, is_access};
ghost use Rattle.commit_flush.specs.inside.Observed.{token_address, unread_in, waits_in};

use crate::bits::{with_bit, with_wide_bit};
use crate::window::Window;
use frame_state::{Body, Event, Happened, Lack};
use trips_isa::{Block, Form, Inst, Token, form_of};

// Whether what waits is a load or a store.
fn is_access(request: Option<(u8, Inst)>) -> bool
    ensures { result ≡ is_request is_access request }
{
    match request {
        None => false,
        Some((_, inst)) => match form_of(inst.op) {
            Form::Load => true,
            Form::Store => true,
            _ => false,
        },
    }
}

// The numbers with which a load or a store of a frame waits.
fn asked_in(held: &Body, block: &Block) -> u32
    ensures { (k : ℕ) → k < 32
        → has_bit result k ≡ is_request is_access (request (running block.now held.now) k) }
{
    let mut bits = 0;
    for number in 0..32u8 {
        bits = with_bit(bits, number, is_access(held.request(block, number)));
    }
    bits
}

// How many reads a block declares.
fn declared(block: &Block) -> u8
    ensures value { result ≡ length block.now.reads.items }
    ensures within { result ≤ 32 }
{
    block.reads.len() as u8
}

// The reads of a frame that are declared and not answered.
fn unread_in(held: &Body, block: &Block) -> u32
    ensures { (r : ℕ) → r < 32 → has_bit result r ≡ not (is_none (slice_get block.now.reads.items r)
        || slice_index_or held.now.reads r false) }
{
    let count = declared(block);
    let mut bits = 0;
    for read in 0..count {
        bits = with_bit(bits, read, held.has_read(block, read));
    }
    bits
}

// An immediate as a word.
fn immediate(imm: i32) -> u64
    ensures { result ≡ word imm }
{
    (imm as i64).cast_unsigned()
}

// The address of a load or a store, of the word of its left operand.
fn address_of(inst: Inst, left: u64) -> u64
    ensures { result ≡ address_of inst left }
{
    left.wrapping_add(immediate(inst.imm))
}

// The address of a load or a store, of the token at its left operand.
fn token_address(inst: Inst, left: Option<Token>) -> Option<Token>
    ensures { result ≡ token_address inst left }
{
    match left {
        None => None,
        Some(Token::Null) => Some(Token::Null),
        Some(Token::Word(word)) => Some(Token::Word(address_of(inst, word))),
    }
}

// The address of what waits, where that is a load or a store.
fn address_by(held: &Body, request: Option<(u8, Inst)>) -> Option<Token>
    ensures { (b : Block) (sealed : Bool) → result ≡ address_by (as_frame sealed b held.now) request }
{
    match request {
        None => None,
        Some((slot, inst)) => match form_of(inst.op) {
            Form::Load => token_address(inst, held.spot(slot as usize)),
            Form::Store => token_address(inst, held.spot(slot as usize)),
            _ => None,
        },
    }
}

// Whether an event is done.
fn is_done(happened: Happened) -> bool
    ensures { result ≡ inside_events.is_done (events.as_happened happened) }
{
    match happened {
        Happened::Done => true,
        Happened::NotNow(_) => false,
    }
}

impl Window {
    /// The numbers with which a load or a store of a frame waits, as bits: none unless the frame runs.
    pub fn asked(&self, frame: u8) -> u32
        ensures value { (k : ℕ) → k < 32 → has_bit result k ≡ waits_in k (frame_of frame self.now.window.frames) }
    {
        match self.running(frame) {
            None => 0,
            Some((held, block)) => asked_in(held, block),
        }
    }

    /// The address of the load or the store that waits with a number in a frame: none exactly where none waits.
    /// Of a null operand it is null.
    pub fn address_of(&self, frame: u8, number: u8) -> Option<Token>
        ensures value { result ≡ address_in number (frame_of frame self.now.window.frames) }
        ensures waits { is_some result ≡ waits_in number (frame_of frame self.now.window.frames) }
    {
        self.keeps_invariant();
        match self.running(frame) {
            None => None,
            Some((held, block)) => address_by(held, held.request(block, number)),
        }
    }

    /// The least output that a frame lacks: none exactly where it does not run, or has them all.
    pub fn lacks(&self, frame: u8) -> Option<Lack>
        ensures value { result ≡ lack_in (frame_of frame self.now.window.frames) }
        ensures whole { is_none result ≡ is_whole_in (frame_of frame self.now.window.frames) }
    {
        match self.running(frame) {
            None => None,
            Some((held, block)) => held.lacks(block),
        }
    }

    /// The reads of a frame that are declared and not answered, as bits: none unless the frame runs.
    pub fn unread(&self, frame: u8) -> u32
        ensures value { (r : ℕ) → r < 32
            → has_bit result r ≡ unread_in r (frame_of frame self.now.window.frames) }
    {
        match self.running(frame) {
            None => 0,
            Some((held, block)) => unread_in(held, block),
        }
    }

    // Whether Fire of a slot of a frame would be done.
    fn may_fire(&self, frame: u8, slot: u8) -> bool
        ensures { result ≡ inside_events.is_done (can self.now.image.blocks self.now.budget (event.Fire frame slot)
            self.now.window) }
    {
        is_done(self.can(Event::Fire { frame, slot }))
    }

    /// The slots of a frame of which Fire would be done, as bits.
    pub fn ready(&self, frame: u8) -> u128
        ensures value { (s : ℕ) → s < 128 → has_bit result s ≡ inside_events.is_done (can self.now.image.blocks
            self.now.budget (event.Fire frame s) self.now.window) }
    {
        let mut bits = 0;
        for slot in 0..128u8 {
            bits = with_wide_bit(bits, slot, self.may_fire(frame, slot));
        }
        bits
    }
}
