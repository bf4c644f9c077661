//! The events of the window on one frame, and the tests that their causes are made of.
ghost use Rattle.std.specs.Prelude.{◌≡◌, ◌||◌, Some, None, cond, false, true, not, is_none, is_some, option_copied};
ghost use Rattle.std.specs.Prelude.{slice_get, slice_index_or, length, ◌<◌, ◌+◌};
ghost use Rattle.trips_isa.specs.Blocks.{leaves_with};
ghost use Rattle.trips_isa.specs.Stores.{stored_of};
ghost use Rattle.block_cases.specs.Orders.{slot_of};
ghost use Rattle.commit_flush_spec.specs.Frames.{at, slot_node, target};
ghost use Rattle.commit_flush_spec.specs.Sending.{mark_with, token_with};
ghost use Rattle.commit_flush_spec.specs.Older.{Older};
ghost use Rattle.commit_flush_spec.specs.Dataflow.{read_answered, fire, deliver};
ghost use Rattle.commit_flush_spec.specs.Memory as memory;
ghost use Rattle.commit_flush_spec.specs.Memory.{request, load, taken_word, with_store};
ghost use Rattle.commit_flush_spec.specs.Ends.{branch_of, branch_mark, with_exit};
ghost use Rattle.frame_state.specs.inside.Held.{Stays, exit_of, running};
ghost use Rattle.frame_state.specs.inside.Moves.{KeepsSpots, finds_room, slot_token};

use crate::body::Body;
use crate::parts::Departure;
use crate::target::{inst_at, read_targets, slot_of, target};
use trips_isa::{Block, Inst, NO_MARK, Token};

// The instruction of a slot with the token that it gives.
fn leaves_with(inst: Option<Inst>, token: Option<Token>) -> Option<(Inst, Token)>
    ensures { result ≡ leaves_with inst token }
{
    let inst = inst?;
    let token = token?;
    Some((inst, token))
}

impl Body {
    /// Whether a slot holds an instruction that has not fired.
    pub fn has_inst(&self, block: &Block, slot: u8) -> bool
        ensures value { result ≡ not (is_none (slot_of block.now slot) || slice_index_or self.now.fired slot false) }
    {
        match slot_of(block, slot as usize) {
            None => false,
            Some(_) => !self.has_fired(slot),
        }
    }

    /// The instruction that a slot holds and that has not fired, where it stands in the block.
    #[inline]
    pub fn waiting_at<'a>(&self, block: &'a Block, slot: u8) -> Option<&'a Inst>
        ensures value { option_copied result
            ≡ cond (slice_index_or self.now.fired slot false) None (slot_of block.now slot) }
    {
        if self.has_fired(slot) {
            None
        } else {
            inst_at(block, slot as usize)
        }
    }

    /// What a slot gives of what has come; a load is taken as answered by 0.
    pub fn token_at(&self, block: &Block, slot: u8) -> Option<Token>
        ensures value { result ≡ token_with (running block.now self.now) (slot_node block.now slot) 0 }
    {
        match slot_of(block, slot as usize) {
            None => None,
            Some(inst) => self.token_of(inst, slot, 0),
        }
    }

    // The mark of what a slot gives.
    fn mark_at(&self, block: &Block, slot: u8) -> u8
        ensures { result ≡ mark_with (running block.now self.now) (slot_node block.now slot) }
    {
        match slot_of(block, slot as usize) {
            None => 0,
            Some(inst) => self.mark_of(inst, slot),
        }
    }

    /// Whether a read is declared and not answered.
    #[tactic(auto, using(crate::proofs::TargetFacts::read_there, crate::proofs::TargetFacts::read_past))]
    pub fn has_read(&self, block: &Block, read: u8) -> bool
        ensures value { result ≡ not (is_none (slice_get block.now.reads.items read)
            || slice_index_or self.now.reads read false) }
    {
        let reads = block.reads.as_slice();
        if (read as usize) < reads.len() {
            !self.is_read(read)
        } else {
            false
        }
    }

    /// What waits with a number: its slot and its instruction.
    pub fn request(&self, block: &Block, number: u8) -> Option<(u8, Inst)>
        ensures value { result ≡ request (running block.now self.now) number }
    {
        let slot = self.asked(number)?;
        let inst = slot_of(block, slot as usize)?;
        Some((slot, inst))
    }

    /// The branch that waits, with its token.
    pub fn branch(&self, block: &Block) -> Option<(Inst, Token)>
        ensures value { result ≡ branch_of (running block.now self.now) self.now.leaving }
    {
        match self.leaving() {
            None => None,
            Some(slot) => leaves_with(slot_of(block, slot as usize), self.token_at(block, slot)),
        }
    }

    // The mark of the branch that waits.
    fn branch_mark(&self, block: &Block) -> u8
        ensures { result ≡ branch_mark (running block.now self.now) self.now.leaving }
    {
        match self.leaving() {
            None => NO_MARK,
            Some(slot) => self.mark_at(block, slot),
        }
    }

    /// The place of the block to which the token in a place goes.
    #[inline]
    pub fn target_of(&self, block: &Block, place: u16) -> usize
        ensures value { result ≡ target block.now place }
    {
        target(block, place as usize)
    }

    /// Whether the place of the block is empty to which the token in a place goes.
    pub fn finds_room(&self, block: &Block, place: u16) -> bool
        ensures value { result ≡ finds_room block.now place self.now }
    {
        let to = self.target_of(block, place);
        self.spot(to).is_none()
    }

    /// Puts the word of a declared read on its way.
    pub(crate) fn read(&mut self, block: &Block, read: u8, word: u64)
        requires { read < length block.now.reads.items }
        ensures value { running block.now self.new ≡ read_answered read (Some word) (running block.now self.old) }
        ensures stays { Stays self.old self.new }
    {
        let targets = read_targets(block, read as usize);
        self.put_read(read, targets, word);
    }

    /// Fires what a slot holds: its token goes on its way, or a load, a store or a branch waits.
    pub(crate) fn fire(&mut self, block: &Block, slot: u8)
        ensures value { (o : Older) → running block.now self.new ≡ fire slot o (running block.now self.old) }
        ensures stays { Stays self.old self.new }
    {
        let inst = slot_of(block, slot as usize);
        self.fire_slot(inst, slot);
    }

    /// Fires the instruction that a slot holds where it gives a token, and tells whether it does.
    #[inline]
    pub(crate) fn fire_if(&mut self, block: &Block, inst: &Inst, slot: u8) -> bool
        requires { slot_of block.now slot ≡ Some inst.now }
        ensures fires { result ≡ is_some (slot_token self.old inst.now slot 0) }
        ensures value { (o : Older) → running block.now self.new
            ≡ cond result (fire slot o (running block.now self.old)) (running block.now self.old) }
        ensures same { result ≡ false → self.new ≡ self.old }
        ensures stays { Stays self.old self.new }
    {
        let _ = block;
        self.fire_ready(inst, slot)
    }

    /// Moves the token in a place to the place of the block that it goes to.
    pub(crate) fn deliver(&mut self, block: &Block, place: u16)
        requires free { finds_room block.now place self.old ≡ true }
        ensures value { (o : Older) → running block.now self.new ≡ deliver place o (running block.now self.old) }
        ensures spots { KeepsSpots self.old self.new }
        ensures stays { Stays self.old self.new }
    {
        let to = target(block, place as usize);
        self.bring_to(place as usize, to);
    }

    /// Moves the token in a place to this place of the block, which is the one that it goes to.
    pub(crate) fn deliver_to(&mut self, block: &Block, place: u16, to: usize, token: Token)
        requires token { at self.old.places place ≡ Some token }
        requires to { to ≡ target block.now place }
        requires free { finds_room block.now place self.old ≡ true }
        ensures value { (o : Older) → running block.now self.new ≡ deliver place o (running block.now self.old) }
        ensures spots { KeepsSpots self.old self.new }
        ensures stays { Stays self.old self.new }
    {
        let _ = block;
        self.bring(place as usize, to, token);
    }

    /// Answers the load that waits with a number, which is the instruction of this slot; `bytes` is the number
    /// that the bytes which it sees make.
    pub(crate) fn answer(&mut self, block: &Block, number: u8, slot: u8, inst: Inst, bytes: u64)
        requires { request (running block.now self.old) number ≡ Some (slot, inst) }
        ensures value { (o : Older)
            → bytes ≡ taken_word o (running block.now self.old) number (memory.taken_of inst (at self.old.spots slot))
            → running block.now self.new ≡ load number o (running block.now self.old) }
        ensures stays { Stays self.old self.new }
    {
        let took = self.took(inst, slot);
        self.note_answer(inst, slot, number, took, bytes);
    }

    /// Resolves the store that waits with a number, which is the instruction of this slot.
    pub(crate) fn resolve(&mut self, block: &Block, number: u8, slot: u8, inst: Inst)
        requires { slot_of block.now slot ≡ Some inst }
        ensures value { running block.now self.new ≡ with_store number
            (stored_of inst (at self.old.spots slot) (at self.old.spots (128 + slot)))
            (mark_with (running block.now self.old) (slot_node block.now slot)) (running block.now self.old) }
        ensures stays { Stays self.old self.new }
    {
        self.note_store(inst, slot, number);
    }

    /// Makes an exit known; no branch waits any more.
    pub(crate) fn leave(&mut self, block: &Block, exit: Option<Departure>)
        ensures value { running block.now self.new ≡ with_exit (exit_of exit)
            (branch_mark (running block.now self.old) self.old.leaving) (running block.now self.old) }
        ensures stays { Stays self.old self.new }
    {
        let mark = self.branch_mark(block);
        self.note_exit(exit, mark);
    }
}
