//! The bytes at which a store is the nearest, and the loads that took one of them.
ghost use Rattle.std.specs.Prelude.{◌≡◌, ◌<◌, ◌≤◌, ◌+◌, ◌-◌, ◌&&◌, ℕ, None, not, nat_le, nat_lt};
ghost use Rattle.std.specs.Prelude.{length, is_some};
ghost use Rattle.base.specs.Rows.{has_bit};
ghost use Rattle.commit_flush_spec.specs.Frames.{at, numbers};
ghost use Rattle.commit_flush_spec.specs.Older.{any_touched, covers, passes, nearest, took_touched, violated};
ghost use Rattle.frame_state.specs.inside.Held.{taken_if, all_taken};
ghost use Rattle.lsq_order.specs.inside.Reached.{start};

use crate::masks::next_from;
use base::Row;
use frame_state::Took;
use trips_isa::Stored;

/// Addresses in a row, of which those whose bits are set are reached.
#[derive(Drop)]
pub struct Reach {
    pub(crate) address: u64,
    pub(crate) bits: u64,
}

// The low n bits of a word, and all from 64 on.
fn low_bits(n: u64) -> u64
    ensures { (i : ℕ) → i < 64 → has_bit result i ≡ nat_lt i n }
{
    if n < 64 { (1 << n) - 1 } else { u64::MAX }
}

// A word whose bits are led up by so many.
fn led_up(word: u64, bits: u64) -> u64
    requires { bits < 64 }
    ensures { (i : ℕ) → i < 64 → has_bit result i ≡ (nat_le bits i && has_bit word (i - bits)) }
{
    word << bits
}

// Bits by offset from a base, of so many addresses from one on.
fn bits_of(address: u64, size: u8, base: u64) -> u64
    ensures { (i : ℕ) → i < 64
        → has_bit result i ≡ (nat_le address (base + i) && nat_lt (base + i - address) size) }
{
    if address <= base {
        low_bits((size as u64).saturating_sub(base - address))
    } else if address - base < 64 {
        led_up(low_bits(size as u64), address - base)
    } else {
        0
    }
}

// Bits by offset from a base, of the bytes of a store.
#[tactic(auto, using(crate::proofs::ReachFacts::covered, crate::proofs::ReachFacts::uncovered))]
fn stored_bits(stored: Option<Stored>, base: u64) -> u64
    ensures { (i : ℕ) → i < 64 → has_bit result i ≡ covers stored (base + i) }
{
    match stored {
        None => 0,
        Some(stored) => match stored.value {
            None => 0,
            Some(_) => bits_of(stored.address, stored.size, base),
        },
    }
}

// The first address of a store.
fn start(stored: Option<Stored>) -> u64
    ensures { result ≡ start stored }
{
    match stored {
        Some(stored) => stored.address,
        None => 0,
    }
}

impl Reach {
    ghost use Rattle.lsq_order.specs.inside.Reached.{reached, narrowed, FitsReach};
    ghost use Rattle.lsq_order.specs.inside.Wrong.{Finds};

    /// The addresses of a store's bytes, of which it has at most eight.
    pub fn of(stored: Option<Stored>) -> Reach
        requires size { FitsReach stored }
        ensures reached { (a : ℕ) → reached result a ≡ covers stored a }
    {
        let address = start(stored);
        let bits = stored_bits(stored, address);
        Reach { address, bits }
    }

    // Takes the bytes of a store out.
    fn narrow(&mut self, stored: Option<Stored>)
        ensures { (a : ℕ) → reached self.new a ≡ (not (covers stored a) && reached self.old a) }
    {
        let taken = stored_bits(stored, self.address);
        self.bits &= !taken;
    }

    // Whether one of some bytes from an address on is reached.
    fn has_any(&self, address: u64, size: u8) -> bool
        ensures { result ≡ any_touched (reached self.now) address size }
    {
        let bits = bits_of(address, size, self.address) & self.bits;
        bits != 0
    }

    // Whether an answered load took a byte that is reached.
    fn is_taken(&self, took: Option<Took>) -> bool
        ensures { result ≡ took_touched (reached self.now) (taken_if took) }
    {
        match took {
            None => false,
            Some(took) => match took {
                Took::Nothing => false,
                Took::From(address, size) => self.has_any(address, size),
            },
        }
    }

    /// The lowest answered load from a number on that took a byte which is reached, as the stores of these numbers
    /// leave it. Where there is none, what is left goes on to the next frame.
    pub fn first_wrong(
        &mut self,
        stores: &Row<Stored, 32, 1>,
        loads: &Row<Took, 32, 1>,
        from: u8,
    ) -> Option<u8>
        requires from { from ≤ 32 }
        ensures found { Finds (at stores.now) (all_taken loads.now) (reached self.old) from result }
        ensures left { result ≡ None → (a : ℕ)
            → reached self.new a ≡ narrowed (at stores.now) from numbers (reached self.old) a }
        ensures younger { from ≡ 0 → length (all_taken loads.now) ≡ 32
            → is_some result ≡ violated (λ n. passes (at stores.now) n (reached self.old)) (all_taken loads.now) }
        ensures own { (m : ℕ) → from ≡ m + 1 → ((a : ℕ) → reached self.old a ≡ covers (at stores.now m) a)
            → length (all_taken loads.now) ≡ 32
            → is_some result ≡ violated (nearest (at stores.now) m) (all_taken loads.now) }
        ensures own_passed { (m : ℕ) → from ≡ m + 1 → ((a : ℕ) → reached self.old a ≡ covers (at stores.now m) a)
            → result ≡ None → (a : ℕ) → reached self.new a ≡ nearest (at stores.now) m numbers a }
        ensures passed { from ≡ 0 → result ≡ None → (a : ℕ)
            → reached self.new a ≡ passes (at stores.now) numbers (reached self.old) a }
    {
        let there = ((stores.word(0) | loads.word(0)) % 0x1_0000_0000) as u32;
        let mut n = next_from(there, from as u32);
        while n < 32 {
            if self.is_taken(loads.get(n as usize)) {
                return Some(n as u8);
            }
            self.narrow(stores.get(n as usize));
            n = next_from(there, n + 1);
        }
        None
    }
}
