//! A frame as its states: empty, running and sealed.
ghost use Rattle.std.specs.Prelude.{◌≡◌, ◌<◌, ◌+◌, ◌^◌, Some, true, false, cond, is_none};
ghost use Rattle.std.specs.Prelude.{is_some, length, IfOk, IfErr};
ghost use Rattle.trips_isa.specs.declared.block.Block.{Block};
ghost use Rattle.trips_isa.specs.Stores.{stored_of};
ghost use Rattle.block_cases.specs.Orders.{slot_of};
ghost use Rattle.commit_flush_spec.specs.Frames.{at, fresh, slot_node, target};
ghost use Rattle.commit_flush_spec.specs.Sending.{mark_with};
ghost use Rattle.commit_flush_spec.specs.Older.{Older};
ghost use Rattle.commit_flush_spec.specs.Dataflow.{read_answered, fire, deliver};
ghost use Rattle.commit_flush_spec.specs.Memory as memory;
ghost use Rattle.commit_flush_spec.specs.Memory.{request, load, taken_word, with_store};
ghost use Rattle.commit_flush_spec.specs.Ends.{branch_mark, with_exit, complete, seal, outputs, cause_held};
ghost use Rattle.frame_state.specs.inside.Held.{Stays, exit_of, filled, running, sealed};
ghost use Rattle.frame_state.specs.Lacks.{least_lack};
ghost use Rattle.frame_state.specs.inside.Moves.{KeepsSpots, closed, finds_room, slot_token};

use crate::body::Body;
use crate::outputs::Outputs;
use crate::parts::{Departure, Lack};
use std::alloc::{AllocError, Global};
use std::marker::Model;
use trips_isa::{Block, Inst, Token};

/// A frame that holds no block. Contracts see what it held before, of which only its number and its
/// generation are kept.
#[derive(Drop)]
pub struct Empty {
    body: Box<Body>,
}

impl Model for Empty {
    ghost use Rattle.frame_state.specs.inside.Held.{Held};

    ghost Value = { Held };

    ghost view = { λ f. f.body.value };
}

/// A frame whose tokens come. It has to be sealed or flushed.
pub struct Running {
    body: Box<Body>,
}

impl Model for Running {
    ghost use Rattle.frame_state.specs.inside.Held.{Held};

    ghost Value = { Held };

    ghost view = { λ f. f.body.value };
}

/// A frame that has all its outputs. It has to be flushed.
pub struct Sealed {
    body: Box<Body>,
}

impl Model for Sealed {
    ghost use Rattle.frame_state.specs.inside.Held.{Held};

    ghost Value = { Held };

    ghost view = { λ f. f.body.value };
}

impl Empty {
    /// A frame of a number that was never filled. Want of memory is the only error.
    pub fn make(alloc: Global, number: u8) -> Result<Empty, AllocError>
        ensures number { IfOk result (λ f. f.number ≡ number) }
        ensures generation { IfOk result (λ f. f.generation ≡ 0) }
    {
        Ok(Empty {
            body: Box::new(alloc, Body::none(number))?,
        })
    }

    /// How often the frame was filled.
    pub fn generation(&self) -> u64
        ensures value { result ≡ self.now.generation }
    {
        self.body.generation()
    }

    /// Fills the frame with a block of the image, which raises its generation.
    pub fn fill(self, block: u32) -> Running
        requires { self.generation + 1 < 2 ^ 64 }
        ensures held { result ≡ filled block self }
        ensures frame { (b : Block) → running b result ≡ fresh self.number block b }
    {
        let Empty { body } = self;
        let mut body = body;
        body.fill(block);
        Running { body }
    }
}

impl Running {
    /// What the frame holds.
    pub fn held(&self) -> &Body
        ensures { result.now ≡ self.now }
    {
        &self.body
    }

    /// Puts the word of a declared read on its way.
    pub fn read(&mut self, block: &Block, read: u8, word: u64)
        requires declared { read < length block.now.reads.items }
        ensures value { running block.now self.new ≡ read_answered read (Some word) (running block.now self.old) }
        ensures stays { Stays self.old self.new }
    {
        self.body.read(block, read, word);
    }

    /// Fires what a slot holds: its token goes on its way, or a load, a store or a branch waits.
    pub fn fire(&mut self, block: &Block, slot: u8)
        ensures value { (o : Older) → running block.now self.new ≡ fire slot o (running block.now self.old) }
        ensures stays { Stays self.old self.new }
    {
        self.body.fire(block, slot);
    }

    /// Fires the instruction that a slot holds where it gives a token, and tells whether it does.
    #[inline]
    pub fn fire_if(&mut self, block: &Block, inst: &Inst, slot: u8) -> bool
        requires slot { slot_of block.now slot ≡ Some inst.now }
        ensures fires { result ≡ is_some (slot_token self.old inst.now slot 0) }
        ensures value { (o : Older) → running block.now self.new
            ≡ cond result (fire slot o (running block.now self.old)) (running block.now self.old) }
        ensures same { result ≡ false → self.new ≡ self.old }
        ensures stays { Stays self.old self.new }
    {
        self.body.fire_if(block, inst, slot)
    }

    /// Moves the token in a place to the place of the block that it goes to, which is empty (`Body::finds_room`): no
    /// token is overwritten.
    pub fn deliver(&mut self, block: &Block, place: u16)
        requires free { finds_room block.now place self.old ≡ true }
        ensures value { (o : Older) → running block.now self.new ≡ deliver place o (running block.now self.old) }
        ensures spots { KeepsSpots self.old self.new }
        ensures stays { Stays self.old self.new }
    {
        self.body.deliver(block, place);
    }

    /// Moves the token in a place to this place of the block, which is the one that it goes to and is empty.
    pub fn deliver_to(&mut self, block: &Block, place: u16, to: usize, token: Token)
        requires token { at self.old.places place ≡ Some token }
        requires to { to ≡ target block.now place }
        requires free { finds_room block.now place self.old ≡ true }
        ensures value { (o : Older) → running block.now self.new ≡ deliver place o (running block.now self.old) }
        ensures spots { KeepsSpots self.old self.new }
        ensures stays { Stays self.old self.new }
    {
        self.body.deliver_to(block, place, to, token);
    }

    /// Answers the load that waits with a number, which is the instruction of this slot; `bytes` is the number
    /// that the bytes which it sees make.
    pub fn answer(&mut self, block: &Block, number: u8, slot: u8, inst: Inst, bytes: u64)
        requires request { request (running block.now self.old) number ≡ Some (slot, inst) }
        ensures value { (o : Older)
            → bytes ≡ taken_word o (running block.now self.old) number (memory.taken_of inst (at self.old.spots slot))
            → running block.now self.new ≡ load number o (running block.now self.old) }
        ensures stays { Stays self.old self.new }
    {
        self.body.answer(block, number, slot, inst, bytes);
    }

    /// Resolves the store that waits with a number, which is the instruction of this slot.
    pub fn resolve(&mut self, block: &Block, number: u8, slot: u8, inst: Inst)
        requires slot { slot_of block.now slot ≡ Some inst }
        ensures value { running block.now self.new ≡ with_store number
            (stored_of inst (at self.old.spots slot) (at self.old.spots (128 + slot)))
            (mark_with (running block.now self.old) (slot_node block.now slot)) (running block.now self.old) }
        ensures stays { Stays self.old self.new }
    {
        self.body.resolve(block, number, slot, inst);
    }

    /// Makes an exit known; no branch waits any more.
    pub fn leave(&mut self, block: &Block, exit: Option<Departure>)
        ensures value { running block.now self.new ≡ with_exit (exit_of exit)
            (branch_mark (running block.now self.old) self.old.leaving) (running block.now self.old) }
        ensures stays { Stays self.old self.new }
    {
        self.body.leave(block, exit);
    }

    /// The least output that has not come: none exactly where the frame may be sealed.
    pub fn lacks(&self, block: &Block) -> Option<Lack>
        ensures value { result ≡ least_lack (running block.now self.now) }
        ensures whole { is_none result ≡ complete (running block.now self.now) }
    {
        self.body.lacks(block)
    }

    /// Seals a frame that has all its outputs, and hands back one that lacks some.
    pub fn seal(self, block: &Block) -> Result<Sealed, Running>
        ensures whole { IfOk result (λ f. complete (running block.now self) ≡ true) }
        ensures sealed { IfOk result (λ f. (o : Older) → sealed block.now f ≡ seal o (running block.now self)) }
        ensures kept { IfOk result (λ f. f ≡ closed self) }
        ensures lacks { IfErr result (λ f. complete (running block.now self) ≡ false) }
        ensures same { IfErr result (λ f. f ≡ self) }
    {
        if !self.body.is_complete(block) {
            return Err(self);
        }
        let Running { body } = self;
        let mut body = body;
        body.close();
        Ok(Sealed { body })
    }

    /// Flushes the frame.
    pub fn flush(self) -> Empty
        ensures { result ≡ self }
    {
        let Running { body } = self;
        Empty { body }
    }
}

impl Sealed {
    /// What the frame holds.
    pub fn held(&self) -> &Body
        ensures { result.now ≡ self.now }
    {
        &self.body
    }

    /// What the frame hands to its commit.
    pub fn outputs(&self, block: &Block) -> Outputs
        ensures value { result ≡ outputs (sealed block.now self.now) }
    {
        self.body.outputs(block)
    }

    /// The least mark of the outputs, or none.
    pub fn cause(&self, block: &Block) -> u8
        ensures value { result ≡ cause_held (sealed block.now self.now) }
    {
        self.body.cause(block)
    }

    /// Flushes the frame.
    pub fn flush(self) -> Empty
        ensures { result ≡ self }
    {
        let Sealed { body } = self;
        Empty { body }
    }
}
