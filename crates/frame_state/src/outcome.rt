//! Whether a frame has all its outputs.
ghost use Rattle.std.specs.Prelude.{◌≡◌, ◌<◌, ◌≤◌, ◌+◌, ◌||◌, ℕ, List, cond, length, not, is_some};
ghost use Rattle.trips_isa.specs.PlaceNumbers.{first_write, first_store};
ghost use Rattle.trips_isa.specs.Places.{in_mask};
ghost use Rattle.commit_flush_spec.specs.Frames.{at, numbers};
ghost use Rattle.commit_flush_spec.specs.Ends.{all_below};

use crate::spots::Spots;
use base::Row;
use trips_isa::{FIRST_WRITE, Stored, in_mask};

/// Whether a write has its token.
pub fn write_came(spots: &Spots, w: usize) -> bool
    requires { w < 1000 }
    ensures { result ≡ is_some (at spots.now (first_write + w)) }
{
    spots.get(FIRST_WRITE as usize + w).is_some()
}

/// Whether the first writes have their tokens.
pub fn writes_came(spots: &Spots, count: usize) -> bool
    requires { count ≤ 32 }
    ensures value { result ≡ all_below (λ w. is_some (at spots.now (first_write + w))) count }
{
    for w in 0..count {
        if !write_came(spots, w) {
            return false;
        }
    }
    true
}

/// Whether a number has its store, or wants none.
pub fn store_came(stores: &Row<Stored, 32, 1>, mask: u32, number: u8) -> bool
    ensures { result ≡ (not (in_mask mask number) || is_some (at stores.now number)) }
{
    !in_mask(mask, number) || stores.get(number as usize).is_some()
}

/// Whether every number of a mask has its store.
pub fn stores_came(stores: &Row<Stored, 32, 1>, mask: u32) -> bool
    ensures value { result ≡ all_below (λ n. not (in_mask mask n) || is_some (at stores.now n)) numbers }
{
    for number in 0..32u8 {
        if !store_came(stores, mask, number) {
            return false;
        }
    }
    true
}
