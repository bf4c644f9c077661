//! What a frame in flight holds, and how it changes where the instruction is at hand.
ghost use Rattle.std.specs.Prelude.{◌≡◌, ◌<◌, ◌+◌, ◌*◌, ◌^◌, Some, None, true, is_some, slice_set};
ghost use Rattle.trips_isa.specs.Forms.{form_of};
ghost use Rattle.trips_isa.specs.Places.{first_place, place_at};
ghost use Rattle.trips_isa.specs.Stores.{stored_of};
ghost use Rattle.trips_isa.specs.declared.block.Token.TheVariants.{Word};
ghost use Rattle.commit_flush_spec.specs.Marks.{mark_stored, mark_left};
ghost use Rattle.commit_flush_spec.specs.Frames.{at};
ghost use Rattle.frame_state.specs.inside.Held.{taken_of, exit_of, filled};
ghost use Rattle.frame_state.specs.inside.Moves.{slot_token, slot_mark, sent_to, sent_by, fired_by, fired_if};
ghost use Rattle.frame_state.specs.inside.Moves.{fired_slot};
ghost use Rattle.frame_state.specs.inside.Moves.{moved, closed};

use crate::giving::slot_gives;
use crate::marks::MarkTable;
use crate::parts::{Departure, Took};
use crate::rule::{can_fault, mark, stored};
use crate::sending::put_both;
use crate::spots::Spots;
use crate::target::{first_place, place_at};
use base::{Flags, Row};
use std::marker::Model;
use trips_isa::{Form, Inst, NO_MARK, Stored, Token, form_of};

/// What a frame in flight holds beside its block.
///
/// It takes 13 KB, so it stays in one place of the heap; some forty words say what is there, and those alone are
/// cleared when the frame is filled again.
#[derive(Drop)]
pub struct Body {
    pub(crate) number: u8,
    pub(crate) block: u32,
    pub(crate) generation: u64,
    pub(crate) spots: Spots,
    pub(crate) places: Row<Token, 320, 5>,
    pub(crate) fired: Flags<128, 2>,
    pub(crate) reads: Flags<32, 1>,
    pub(crate) requests: Row<u8, 32, 1>,
    pub(crate) leaving: Option<u8>,
    pub(crate) loads: Row<Took, 32, 1>,
    pub(crate) stores: Row<Stored, 32, 1>,
    pub(crate) exit: Option<Departure>,
    pub(crate) marks: MarkTable,
}

impl Model for Body {
    ghost use Rattle.frame_state.specs.inside.Held.{Held, all_taken, exit_of};

    ghost Value = { Held };

    ghost view = { λ b. record {
      number = b.number;
      block = b.block;
      generation = b.generation;
      spots = b.spots;
      places = b.places;
      fired = b.fired;
      reads = b.reads;
      requests = b.requests;
      leaving = b.leaving;
      loads = all_taken b.loads;
      stores = b.stores;
      exit = exit_of b.exit;
      marks = b.marks;
    } };
}

impl Body {
    /// A frame of a number that was never filled.
    pub(crate) fn none(number: u8) -> Body
        ensures number { result.number ≡ number }
        ensures generation { result.generation ≡ 0 }
    {
        Body {
            number,
            block: 0,
            generation: 0,
            spots: Spots::none(),
            places: Row::none(Token::Null),
            fired: Flags::none(),
            reads: Flags::none(),
            requests: Row::none(0),
            leaving: None,
            loads: Row::none(Took::Nothing),
            stores: Row::none(Stored {
                number: 0,
                address: 0,
                size: 0,
                value: None,
            }),
            exit: None,
            marks: MarkTable::none(),
        }
    }

    /// How often the frame was filled.
    pub fn generation(&self) -> u64
        ensures value { result ≡ self.now.generation }
    {
        self.generation
    }

    /// Fills the frame with a block: nothing has come.
    #[tactic(auto, using(crate::proofs::MarkFacts::bare))]
    pub(crate) fn fill(&mut self, block: u32)
        requires { self.old.generation + 1 < 2 ^ 64 }
        ensures { self.new ≡ filled block self.old }
    {
        self.block = block;
        self.generation += 1;
        self.spots.clear();
        self.places.clear();
        self.fired.clear();
        self.reads.clear();
        self.requests.clear();
        self.leaving = None;
        self.loads.clear();
        self.stores.clear();
        self.exit = None;
        self.marks.clear();
    }

    /// What the instruction of a slot gives of what has come; `bytes` is the number that a load's bytes make.
    #[inline(always)]
    pub fn token_of(&self, inst: Inst, slot: u8, bytes: u64) -> Option<Token>
        ensures value { result ≡ slot_token self.now inst slot bytes }
    {
        slot_gives(&self.spots, inst, slot, bytes)
    }

    // The mark of that, whatever marks were set.
    #[cold]
    #[inline(never)]
    fn find_mark(&self, inst: &Inst, slot: u8) -> u8
        ensures value { result ≡ slot_mark self.now inst.now slot }
    {
        let slot = slot as usize;
        let left = self.spots.get(slot);
        let right = self.spots.get(128 + slot);
        let predicate = self.spots.get(256 + slot);
        let left_mark = self.marks.spot(slot);
        let right_mark = self.marks.spot(128 + slot);
        let predicate_mark = self.marks.spot(256 + slot);
        mark(
            *inst,
            left,
            right,
            predicate,
            (left_mark, right_mark, predicate_mark),
        )
    }

    // The mark of that, where the instruction stands: none where no mark was set and it cannot fault.
    #[tactic(auto, using(crate::proofs::BareFacts::no_mark))]
    #[inline]
    fn mark_from(&self, inst: &Inst, slot: u8) -> u8
        ensures value { result ≡ slot_mark self.now inst.now slot }
    {
        if self.marks.is_marked() {
            self.find_mark(inst, slot)
        } else if can_fault(inst.op) {
            self.find_mark(inst, slot)
        } else {
            NO_MARK
        }
    }

    /// The mark of what the instruction of a slot gives.
    #[inline]
    pub fn mark_of(&self, inst: Inst, slot: u8) -> u8
        ensures value { result ≡ slot_mark self.now inst slot }
    {
        self.mark_from(&inst, slot)
    }

    // Puts a token with its mark on its way from place p on.
    #[inline(always)]
    fn send(&mut self, p: usize, targets: (usize, usize), token: Token, mark: u8)
        requires { p < 1000 }
        ensures { self.new ≡ sent_to p targets.0 targets.1 token mark self.old }
    {
        put_both(&mut self.places, targets, p, token);
        self.marks.send(p, mark);
    }

    // Puts what the instruction of a slot gives on its way, with its mark.
    fn send_from(&mut self, inst: Inst, slot: u8, token: Option<Token>, mark: u8)
        ensures { self.new ≡ sent_by inst slot token mark self.old }
    {
        if let Some(token) = token {
            let targets = (first_place(&inst), place_at(inst.second));
            self.send(2 * slot as usize, targets, token, mark);
        }
    }

    // Fires what waits no longer: its token goes on its way.
    fn fire_value(&mut self, inst: Inst, slot: u8)
        ensures { self.new
            ≡ sent_by inst slot (slot_token self.old inst slot 0) (slot_mark self.old inst slot) self.old }
    {
        let token = self.token_of(inst, slot, 0);
        let mark = self.mark_of(inst, slot);
        self.send_from(inst, slot, token, mark);
    }

    // Fires an instruction.
    fn fire_inst(&mut self, inst: Inst, slot: u8)
        ensures { self.new ≡ fired_by (form_of inst.op) inst slot self.old }
    {
        match form_of(inst.op) {
            Form::Load | Form::Store => self.requests.put(inst.number as usize, slot),
            Form::Branch => self.leaving = Some(slot),
            Form::General | Form::Immediate | Form::Constant => self.fire_value(inst, slot),
        }
    }

    // Notes that a slot has fired.
    fn note_fired(&mut self, slot: u8)
        ensures { self.new ≡ record self.old { fired = slice_set self.old.fired slot true } }
    {
        self.fired.put(slot as usize);
    }

    /// Fires what a slot holds.
    pub(crate) fn fire_slot(&mut self, inst: Option<Inst>, slot: u8)
        ensures value { self.new
            ≡ fired_slot inst slot (record self.old { fired = slice_set self.old.fired slot true }) }
    {
        self.note_fired(slot);
        if let Some(inst) = inst {
            self.fire_inst(inst, slot);
        }
    }

    // Sends a token with its mark from the instruction of a slot, whose first place is that of its first target.
    #[inline]
    fn send_token(&mut self, inst: &Inst, slot: u8, token: Token, mark: u8)
        requires { first_place (form_of inst.now.op) inst.now.number inst.now.first ≡ place_at inst.now.first }
        ensures { self.new ≡ sent_by inst.now slot (Some token) mark self.old }
    {
        let targets = (place_at(inst.first), place_at(inst.second));
        self.send(2 * slot as usize, targets, token, mark);
    }

    /// Fires a slot that holds this instruction, which gives this token.
    /// That it has fired is noted once its form is known.
    #[inline]
    pub(crate) fn fire_given(&mut self, inst: &Inst, slot: u8, token: Token)
        requires { slot_token self.old inst.now slot 0 ≡ Some token }
        ensures value { self.new ≡ fired_by (form_of inst.now.op) inst.now slot
            (record self.old { fired = slice_set self.old.fired slot true }) }
    {
        match form_of(inst.op) {
            Form::Load | Form::Store => {
                self.note_fired(slot);
                self.requests.put(inst.number as usize, slot);
            }
            Form::Branch => {
                self.note_fired(slot);
                self.leaving = Some(slot);
            }
            Form::General | Form::Immediate | Form::Constant => {
                let mark = self.mark_from(inst, slot);
                self.note_fired(slot);
                self.send_token(inst, slot, token, mark);
            }
        }
    }

    /// Fires the instruction of a slot where it gives a token, and tells whether it does.
    #[inline]
    pub(crate) fn fire_ready(&mut self, inst: &Inst, slot: u8) -> bool
        ensures fires { result ≡ is_some (slot_token self.old inst.now slot 0) }
        ensures value { self.new ≡ fired_if (slot_token self.old inst.now slot 0) inst.now slot self.old }
    {
        match self.token_of(*inst, slot, 0) {
            None => false,
            Some(token) => {
                self.fire_given(inst, slot, token);
                true
            }
        }
    }

    /// Puts the word of a read on its way.
    pub(crate) fn put_read(&mut self, read: u8, targets: (usize, usize), word: u64)
        ensures value { self.new ≡ sent_to (256 + 2 * read) targets.0 targets.1 (Word word) 0
            (record self.old { reads = slice_set self.old.reads read true }) }
    {
        self.reads.put(read as usize);
        self.send(256 + 2 * read as usize, targets, Token::Word(word), 0);
    }

    /// Moves a token from its place on its way to a place of the block.
    pub(crate) fn bring(&mut self, p: usize, q: usize, token: Token)
        ensures { self.new ≡ moved p q (Some token) self.old }
    {
        self.places.take(p);
        self.spots.put(q, token);
        self.marks.deliver(p, q);
    }

    /// Moves the token of a place, if one is there, to a place of the block.
    pub(crate) fn bring_to(&mut self, p: usize, q: usize)
        ensures value { self.new ≡ moved p q (at self.old.places p) self.old }
    {
        if let Some(token) = self.places.get(p) {
            self.bring(p, q, token);
        }
    }

    /// Closes the frame: no token stays on its way and nothing waits.
    pub(crate) fn close(&mut self)
        ensures value { self.new ≡ closed self.old }
    {
        self.places.clear();
        self.requests.clear();
        self.leaving = None;
    }

    // Notes what an answered load took.
    #[tactic(auto, using(crate::proofs::MarkFacts::taken_set))]
    fn note_taken(&mut self, number: u8, took: Took)
        ensures { self.new ≡ record self.old {
          requests = slice_set self.old.requests number None;
          loads = slice_set self.old.loads number (Some (taken_of took));
        } }
    {
        self.requests.take(number as usize);
        self.loads.put(number as usize, took);
    }

    /// Answers the load of a slot that waits with a number: it took these bytes, of which this number is made.
    pub(crate) fn note_answer(&mut self, inst: Inst, slot: u8, number: u8, took: Took, bytes: u64)
        ensures value { self.new
            ≡ sent_by inst slot (slot_token self.old inst slot bytes) (slot_mark self.old inst slot)
            (record self.old {
              requests = slice_set self.old.requests number None;
              loads = slice_set self.old.loads number (Some (taken_of took));
            }) }
    {
        let token = self.token_of(inst, slot, bytes);
        let mark = self.mark_of(inst, slot);
        self.note_taken(number, took);
        self.send_from(inst, slot, token, mark);
    }

    // Keeps a store with its mark.
    fn keep(&mut self, number: u8, stored: Option<Stored>, mark: u8)
        ensures { self.new ≡ record self.old {
          requests = slice_set self.old.requests number None;
          stores = slice_set self.old.stores number stored;
          marks = mark_stored number mark self.old.marks;
        } }
    {
        self.requests.take(number as usize);
        self.stores.set(number as usize, stored);
        self.marks.resolve(number, mark);
    }

    /// Resolves the store of a slot that waits with a number.
    pub(crate) fn note_store(&mut self, inst: Inst, slot: u8, number: u8)
        ensures value { self.new ≡ record self.old {
          requests = slice_set self.old.requests number None;
          stores = slice_set self.old.stores number
              (stored_of inst (at self.old.spots slot) (at self.old.spots (128 + slot)));
          marks = mark_stored number (slot_mark self.old inst slot) self.old.marks;
        } }
    {
        let stored = stored(
            inst,
            self.spots.get(slot as usize),
            self.spots.get(128 + slot as usize),
        );
        let mark = self.mark_of(inst, slot);
        self.keep(number, stored, mark);
    }

    /// Makes an exit known with its mark; no branch waits any more.
    pub(crate) fn note_exit(&mut self, exit: Option<Departure>, mark: u8)
        ensures value { self.new ≡ record self.old {
          leaving = None;
          exit = exit_of exit;
          marks = mark_left mark self.old.marks;
        } }
    {
        self.leaving = None;
        self.exit = exit;
        self.marks.leave(mark);
    }
}
