//! What a sealed frame hands to its commit.
ghost use Rattle.std.specs.Prelude.{◌≡◌, ◌≤◌, ◌+◌, ◌++◌, ◌<◌, ℕ, List, length, take};
ghost use Rattle.trips_isa.specs.Stores.{listed};
ghost use Rattle.trips_isa.specs.PlaceNumbers.{first_write};
ghost use Rattle.trips_isa.specs.Outcomes.{or_null, writes_from, all_stores};
ghost use Rattle.commit_flush_spec.specs.Frames.{at};
ghost use Rattle.frame_state.specs.inside.Held.{as_exit, exit_of};
ghost use Rattle.frame_state.specs.inside.Effects.{exit_or_first};

use crate::parts::Departure;
use crate::spots::Spots;
use base::Row;
use std::marker::Model;
use trips_isa::{FIRST_WRITE, Stored, Token};

/// The token of each write, the stores in ascending order of number, the exit, whether a system call follows, and
/// the next block, seen as the machine's effects.
#[derive(Drop)]
pub struct Outputs {
    pub(crate) writes: [Token; 32],
    pub(crate) write_count: usize,
    pub(crate) stores: [Stored; 32],
    pub(crate) store_count: usize,
    pub(crate) exit: u8,
    pub(crate) system: bool,
    pub(crate) successor: u32,
}

impl Model for Outputs {
    ghost use Rattle.std.specs.Prelude.{◌≤◌, take};
    ghost use Rattle.trips_isa.specs.Outcomes.{Effects};

    ghost Value = { Effects };

    ghost view = { λ o. record {
      writes = take o.write_count o.writes;
      stores = take o.store_count o.stores;
      exit = o.exit;
      system = o.system;
      successor = o.successor;
    } };

    ghost invariant = { λ o. (o.write_count ≤ 32) × (o.store_count ≤ 32) };
}

impl Outputs {
    /// The tokens of the writes.
    pub fn writes(&self) -> &[Token]
        ensures value { result.now ≡ self.now.writes }
    {
        &self.writes[..self.write_count]
    }

    /// The stores in ascending order of number.
    pub fn stores(&self) -> &[Stored]
        ensures value { result.now ≡ self.now.stores }
    {
        &self.stores[..self.store_count]
    }

    /// The number of the exit.
    pub fn exit(&self) -> u8
        ensures value { result ≡ self.now.exit }
    {
        self.exit
    }

    /// Whether a system call follows.
    pub fn system(&self) -> bool
        ensures value { result ≡ self.now.system }
    {
        self.system
    }

    /// The number of the next block.
    pub fn successor(&self) -> u32
        ensures value { result ≡ self.now.successor }
    {
        self.successor
    }
}

// The token of a write; one that has not come counts as null.
fn write_token(spots: &Spots, w: usize) -> Token
    requires { w < 32 }
    ensures { result ≡ or_null (at spots.now (first_write + w)) }
{
    match spots.get(FIRST_WRITE as usize + w) {
        Some(token) => token,
        None => Token::Null,
    }
}

/// The tokens of the first writes.
pub fn write_tokens(spots: &Spots, count: usize) -> [Token; 32]
    requires { count ≤ 32 }
    ensures value { (rs : List ℕ) → length rs ≡ count → take count result ≡ writes_from (at spots.now) 0 rs }
{
    let mut tokens = [Token::Null; 32];
    for w in 0..count {
        tokens[w] = write_token(spots, w);
    }
    tokens
}

// Puts a store behind others, if it is there.
#[tactic(auto, using(std::proofs::lemmas::List::take_more_set))]
fn put_behind(kept: &mut [Stored; 32], count: usize, stored: Option<Stored>) -> usize
    requires { count < 32 }
    ensures kept { take result kept.new ≡ take count kept.old ++ listed stored }
    ensures more { result ≤ count + 1 }
    ensures size { length kept.new ≡ 32 }
{
    match stored {
        Some(stored) => {
            kept[count] = stored;
            count + 1
        }
        None => count,
    }
}

/// The stores in ascending order of number, and how many they are.
pub fn stores_of(stores: &Row<Stored, 32, 1>) -> ([Stored; 32], usize)
    ensures value { take result.1 result.0 ≡ all_stores (at stores.now) }
    ensures count { result.1 ≤ 32 }
{
    let blank = Stored {
        number: 0,
        address: 0,
        size: 0,
        value: None,
    };
    let mut kept = [blank; 32];
    let mut count = 0;
    for number in 0..32usize {
        count = put_behind(&mut kept, count, stores.get(number));
    }
    (kept, count)
}

/// An exit, or block 0 at exit 0 where none has come.
pub fn exit_or_first(exit: Option<Departure>) -> Departure
    ensures value { as_exit result ≡ exit_or_first (exit_of exit) }
{
    match exit {
        Some(exit) => exit,
        None => Departure {
            exit: 0,
            system: false,
            successor: 0,
        },
    }
}
