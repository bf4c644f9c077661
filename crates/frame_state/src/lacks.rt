//! The least output that a frame lacks.
ghost use Rattle.std.specs.Prelude.{◌≡◌, ◌≤◌, ◌+◌, ◌||◌, is_none, is_some, not};
ghost use Rattle.trips_isa.specs.PlaceNumbers.{first_write};
ghost use Rattle.trips_isa.specs.Places.{in_mask};
ghost use Rattle.commit_flush_spec.specs.Ends.{complete, store_came};
ghost use Rattle.commit_flush_spec.specs.Frames.{at, numbers};
ghost use Rattle.frame_state.specs.inside.Held.{running};
ghost use Rattle.frame_state.specs.Lacks.{exit_lack, first_missing, least_lack, or_store};

use crate::body::Body;
use crate::outcome::{store_came, write_came};
use crate::parts::Lack;
use crate::spots::Spots;
use base::Row;
use trips_isa::{Block, Stored};

// The lowest of the first writes that has no token.
fn first_write(spots: &Spots, count: usize) -> Option<u8>
    requires { count ≤ 32 }
    ensures { result ≡ first_missing (λ w. is_some (at spots.now (first_write + w))) count 0 }
{
    for w in 0..count {
        if !write_came(spots, w) {
            return Some(w as u8);
        }
    }
    None
}

// The lowest number of a mask that has no store.
fn first_store(stores: &Row<Stored, 32, 1>, mask: u32) -> Option<u8>
    ensures { result ≡ first_missing (λ n. not (in_mask mask n) || is_some (at stores.now n)) numbers 0 }
{
    for number in 0..32u8 {
        if !store_came(stores, mask, number) {
            return Some(number);
        }
    }
    None
}

impl Body {
    // The exit, where it has not come.
    fn lacks_exit(&self) -> Option<Lack>
        ensures { result ≡ exit_lack self.now.exit }
    {
        match self.exit {
            None => Some(Lack::Exit),
            Some(_) => None,
        }
    }

    // The least that is lacking behind the writes.
    fn lacks_behind_writes(&self, block: &Block) -> Option<Lack>
        ensures { result ≡ or_store (first_missing (store_came (running block.now self.now)) numbers 0)
            (exit_lack self.now.exit) }
    {
        match first_store(&self.stores, block.mask) {
            Some(number) => Some(Lack::Store(number)),
            None => self.lacks_exit(),
        }
    }

    // The least that is lacking.
    fn lacks_first(&self, block: &Block) -> Option<Lack>
        ensures { result ≡ least_lack (running block.now self.now) }
    {
        let writes = block.writes.len();
        match first_write(&self.spots, writes) {
            Some(write) => Some(Lack::Write(write)),
            None => self.lacks_behind_writes(block),
        }
    }

    /// The least output that has not come: none exactly where the frame is complete.
    pub fn lacks(&self, block: &Block) -> Option<Lack>
        ensures value { result ≡ least_lack (running block.now self.now) }
        ensures whole { is_none result ≡ complete (running block.now self.now) }
    {
        self.lacks_first(block)
    }
}
