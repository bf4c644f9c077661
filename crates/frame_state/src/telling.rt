//! What a frame in flight tells of what it holds.
ghost use Rattle.std.specs.Prelude.{◌≡◌, ◌<◌, ◌+◌, ◌*◌, ℕ, is_some, false, slice_index_or};
ghost use Rattle.trips_isa.specs.PlaceNumbers.{first_write};
ghost use Rattle.trips_isa.specs.Stores.{stored_of};
ghost use Rattle.trips_isa.specs.declared.block.Block.{Block};
ghost use Rattle.base.specs.Rows.{has_bit};
ghost use Rattle.commit_flush_spec.specs.Frames.{at};
ghost use Rattle.commit_flush_spec.specs.Memory as memory;
ghost use Rattle.frame_state.specs.inside.Held.{taken_of, taken_if, all_taken, exit_of, running};
ghost use Rattle.frame_state.specs.inside.Shapes.{IsShape, is_ready};

use crate::body::Body;
use crate::parts::{Departure, Took};
use crate::ready::{come, matching, ready, waiting};
use crate::rule::{stored, took};
use crate::shape::Shape;
use base::Row;
use trips_isa::{FIRST_WRITE, Inst, Stored, Token};

impl Body {
    /// The slot that waits with a number.
    pub fn asked(&self, number: u8) -> Option<u8>
        ensures value { result ≡ at self.now.requests number }
    {
        self.requests.get(number as usize)
    }

    /// The slot of the branch that waits.
    pub fn leaving(&self) -> Option<u8>
        ensures value { result ≡ self.now.leaving }
    {
        self.leaving
    }

    /// The token that has come to a place of the block.
    pub fn spot(&self, q: usize) -> Option<Token>
        ensures value { result ≡ at self.now.spots q }
    {
        self.spots.get(q)
    }

    /// What a load of a slot takes.
    pub fn took(&self, inst: Inst, slot: u8) -> Took
        ensures value { taken_of result ≡ memory.taken_of inst (at self.now.spots slot) }
    {
        took(inst, self.spots.get(slot as usize))
    }

    /// Whether a slot has fired.
    pub fn has_fired(&self, slot: u8) -> bool
        ensures value { result ≡ slice_index_or self.now.fired slot false }
    {
        self.fired.has(slot as usize)
    }

    /// Whether a read is answered.
    pub fn is_read(&self, read: u8) -> bool
        ensures value { result ≡ slice_index_or self.now.reads read false }
    {
        self.reads.has(read as usize)
    }

    /// The token on its way in a place.
    pub fn place(&self, p: usize) -> Option<Token>
        ensures value { result ≡ at self.now.places p }
    {
        self.places.get(p)
    }

    /// The store that the store of a slot makes of what has come.
    pub fn would_store(&self, inst: Inst, slot: u8) -> Option<Stored>
        ensures value { result ≡ stored_of inst (at self.now.spots slot) (at self.now.spots (128 + slot)) }
    {
        stored(
            inst,
            self.spots.get(slot as usize),
            self.spots.get(128 + slot as usize),
        )
    }

    /// Whether a token is on its way in a place.
    pub fn has_token(&self, p: usize) -> bool
        ensures value { result ≡ is_some (at self.now.places p) }
    {
        self.places.get(p).is_some()
    }

    /// The token of a write, if it has come.
    pub fn write(&self, write: u8) -> Option<Token>
        ensures value { result ≡ at self.now.spots (first_write + write) }
    {
        self.spots.get(FIRST_WRITE as usize + write as usize)
    }

    /// The store of a number, if it is resolved.
    pub fn stored(&self, number: u8) -> Option<Stored>
        ensures value { result ≡ at self.now.stores number }
    {
        self.stores.get(number as usize)
    }

    /// The resolved stores, by number.
    pub fn stores(&self) -> &Row<Stored, 32, 1>
        ensures value { result.now ≡ self.now.stores }
    {
        &self.stores
    }

    /// The tokens on their way, by place.
    pub fn places(&self) -> &Row<Token, 320, 5>
        ensures value { result.now ≡ self.now.places }
    {
        &self.places
    }

    /// The slots of the loads and the stores that wait, by number.
    pub fn requests(&self) -> &Row<u8, 32, 1>
        ensures value { result.now ≡ self.now.requests }
    {
        &self.requests
    }

    /// What the answered loads took, by number.
    pub fn loads(&self) -> &Row<Took, 32, 1>
        ensures value { all_taken result.now ≡ self.now.loads }
    {
        &self.loads
    }

    /// What the load of a number took, if it is answered.
    #[tactic(auto, using(crate::proofs::MarkFacts::taken_got))]
    pub fn taken(&self, number: u8) -> Option<Took>
        ensures value { taken_if result ≡ at self.now.loads number }
    {
        self.loads.get(number as usize)
    }

    /// The exit, if it has come.
    pub fn exit(&self) -> Option<Departure>
        ensures value { exit_of result ≡ self.now.exit }
    {
        self.exit
    }

    /// The number of its block in the image.
    pub fn block(&self) -> u32
        ensures value { result ≡ self.now.block }
    {
        self.block
    }

    /// Which of the eight frames it is.
    pub fn number(&self) -> u8
        ensures value { result ≡ self.now.number }
    {
        self.number
    }

    /// Which slots from number 64 k on are ready, as bits.
    pub fn ready(&self, shape: &Shape, k: usize) -> u64
        requires { k < 2 }
        ensures value { (b : Block) → IsShape b shape.now → (s : ℕ) → s < 64
            → has_bit result s ≡ is_ready (running b self.now) (64 * k + s) }
    {
        let there = shape.there.word(k);
        let fired = self.fired.word(k);
        let left = shape.left.word(k);
        let left_came = self.spots.word(k);
        let right = shape.right.word(k);
        let right_came = self.spots.word(2 + k);
        let on_true = shape.on_true.word(k);
        let on_false = shape.on_false.word(k);
        let odd = self.spots.odd(k);
        let even = self.spots.even(k);
        let open = waiting(there, fired);
        let has_left = come(left, left_came);
        let has_right = come(right, right_came);
        let matched = matching(on_true, on_false, odd, even);
        ready(open, has_left, has_right, matched)
    }
}
