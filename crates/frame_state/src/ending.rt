//! Whether a frame has all its outputs, what they are, and their marks.
ghost use Rattle.std.specs.Prelude.{◌≡◌, ◌<◌, ◌≤◌, ◌+◌, cond, is_some};
ghost use Rattle.trips_isa.specs.PlaceNumbers.{first_write, first_store};
ghost use Rattle.trips_isa.specs.Places.{in_mask};
ghost use Rattle.trips_isa.specs.Marks.{least_at, writes_to, mask_places};
ghost use Rattle.commit_flush_spec.specs.Marks.{mark_held};
ghost use Rattle.commit_flush_spec.specs.Ends.{complete, outputs, cause_held};
ghost use Rattle.frame_state.specs.inside.Held.{running, sealed};

use crate::body::Body;
use crate::outcome::{stores_came, writes_came};
use crate::outputs::{Outputs, exit_or_first, stores_of, write_tokens};
use trips_isa::{Block, FIRST_WRITE, NO_MARK, in_mask, least};

impl Body {
    // Whether the exit has come.
    fn has_exit(&self) -> bool
        ensures { result ≡ is_some self.now.exit }
    {
        match self.exit {
            Some(_) => true,
            None => false,
        }
    }

    /// Whether every declared write, every number of the mask and the exit have come.
    pub fn is_complete(&self, block: &Block) -> bool
        ensures value { result ≡ complete (running block.now self.now) }
    {
        if self.has_exit() {
            let writes = block.writes.len();
            writes_came(&self.spots, writes) && stores_came(&self.stores, block.mask)
        } else {
            false
        }
    }

    /// The tokens of the writes, the stores in ascending order of number, and the exit.
    pub(crate) fn outputs(&self, block: &Block) -> Outputs
        ensures value { result ≡ outputs (sealed block.now self.now) }
    {
        let count = block.writes.len();
        let writes = write_tokens(&self.spots, count);
        let (stores, store_count) = stores_of(&self.stores);
        let exit = exit_or_first(self.exit);
        Outputs {
            writes,
            write_count: count,
            stores,
            store_count,
            exit: exit.exit,
            system: exit.system,
            successor: exit.successor,
        }
    }

    // The mark of a write.
    #[tactic(auto, using(crate::proofs::LeastFacts::write_held))]
    fn write_mark(&self, w: usize) -> u8
        requires { w < 32 }
        ensures { result ≡ mark_held self.now.marks (first_write + w) }
    {
        self.marks.spot(FIRST_WRITE as usize + w)
    }

    // The mark of a number's store.
    #[tactic(auto, using(crate::proofs::LeastFacts::store_held))]
    fn store_mark(&self, number: u8) -> u8
        requires { number < 32 }
        ensures { result ≡ mark_held self.now.marks (first_store + number) }
    {
        self.marks.store(number as usize)
    }

    // The mark of a number's store, if the mask has it.
    fn number_mark(&self, mask: u32, number: u8) -> u8
        requires { number < 32 }
        ensures { result ≡ cond (in_mask mask number) (mark_held self.now.marks (first_store + number)) 0 }
    {
        if in_mask(mask, number) {
            self.store_mark(number)
        } else {
            NO_MARK
        }
    }

    // The least mark of the first writes.
    fn least_of_writes(&self, count: usize) -> u8
        requires { count ≤ 32 }
        ensures { result ≡ least_at (mark_held self.now.marks) (writes_to count) }
    {
        let mut mark = NO_MARK;
        for w in 0..count {
            mark = least(mark, self.write_mark(w));
        }
        mark
    }

    // The least mark of the mask's numbers.
    fn least_of_numbers(&self, mask: u32) -> u8
        ensures { result ≡ least_at (mark_held self.now.marks) (mask_places mask) }
    {
        let mut mark = NO_MARK;
        let mut number: u8 = 0;
        while number < 32 {
            mark = least(mark, self.number_mark(mask, number));
            number += 1;
        }
        mark
    }

    // The least mark of the outputs, or none, whatever marks were set.
    fn find_cause(&self, block: &Block) -> u8
        ensures value { result ≡ cause_held (sealed block.now self.now) }
    {
        let exit = self.marks.exit();
        let count = block.writes.len();
        let numbers = least(self.least_of_numbers(block.mask), exit);
        least(self.least_of_writes(count), numbers)
    }
    /// The least mark of the outputs, or none.
    #[tactic(auto, using(crate::proofs::BareFacts::no_cause))]
    pub(crate) fn cause(&self, block: &Block) -> u8
        ensures value { result ≡ cause_held (sealed block.now self.now) }
    {
        if self.marks.is_marked() {
            self.find_cause(block)
        } else {
            NO_MARK
        }
    }
}
