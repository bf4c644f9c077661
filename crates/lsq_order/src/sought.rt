//! The bytes that a load takes, found among the stores from the nearest one back.
ghost use Rattle.std.specs.Prelude.{◌≡◌, ◌<◌, ◌≤◌, ◌+◌, ◌-◌, ◌*◌, ◌/◌, ◌^◌, ℕ, None, Option};
ghost use Rattle.std.specs.Prelude.{Some, true, cond, nat_lt};
ghost use Rattle.std.specs.Prelude.{slice_index, slice_index_or};
ghost use Rattle.std.specs.Int.{bit_at};
ghost use Rattle.base.specs.Rows.{has_bit};
ghost use Rattle.trips_isa.specs.Stores.{byte_of, byte_seen, byte_stored, bytes_seen, or_byte};

use crate::masks::end_below;
use base::Row;
use trips_isa::Stored;

/// At most eight bytes in a row, of which those whose bits are open are still to be found.
#[derive(Clone, Copy, Drop)]
pub struct Sought {
    pub(crate) end: u64,
    pub(crate) size: u64,
    pub(crate) wanted: u64,
    pub(crate) word: u64,
}

// The bits of the low n bytes of a word, and all from eight on.
fn low_bytes(n: u64) -> u64
    ensures { (i : ℕ) → i < 64 → has_bit result i ≡ nat_lt i (8 * n) }
{
    if n < 8 { (1 << (8 * n)) - 1 } else { u64::MAX }
}

// A word whose bytes are led up by so many.
fn led_up(word: u64, bytes: u64) -> u64
    requires { bytes < 8 }
    ensures { (i : ℕ) → i < 64 → 8 * bytes ≤ i → bit_at result i ≡ bit_at word (i - 8 * bytes) }
{
    word << (8 * bytes)
}

// A word whose bytes are led down by so many.
fn led_down(word: u64, bytes: u64) -> u64
    ensures { (i : ℕ) → bit_at result i ≡ bit_at word (i + 8 * bytes) }
{
    if bytes < 8 { word >> (8 * bytes) } else { 0 }
}

// The bits of a word where a mask is set, and of another elsewhere.
fn merged(word: u64, other: u64, mask: u64) -> u64
    ensures { (i : ℕ) → i < 64 → bit_at result i ≡ cond (has_bit mask i) (bit_at other i) (bit_at word i) }
{
    (word & !mask) | (other & mask)
}

impl Sought {
    ghost use Rattle.lsq_order.specs.inside.Taking.{IsSought, bit_taken, byte_bit, taken};

    /// All bytes of a load are to be found, of which there are at most eight.
    pub fn of(address: u64, size: u8) -> Sought
        requires size { size ≤ 8 }
        requires end { address + size < 2 ^ 64 }
        ensures sound { IsSought result }
        ensures taken { (stores : ℕ → Option Stored) (mem : ℕ → ℕ) (n : ℕ) → ((a : ℕ) → mem a < 256)
            → taken result (byte_seen stores mem n) ≡ bytes_seen stores mem n address size }
    {
        let size = size as u64;
        Sought {
            end: address + size,
            size,
            wanted: low_bytes(size),
            word: 0,
        }
    }

    // Takes those of some bits of a word that are open.
    fn put(self, bits: u64, word: u64) -> Sought
        requires { IsSought self }
        ensures sound { IsSought result }
        ensures taken { (mem : ℕ → ℕ) (i : ℕ) → i < 64 → bit_taken result mem i ≡ cond (has_bit self.wanted i)
            (cond (has_bit bits i) (bit_at word i) (byte_bit self.end mem i)) (bit_at self.word i) }
    {
        let bits = bits & self.wanted;
        Sought {
            end: self.end,
            size: self.size,
            wanted: self.wanted & !bits,
            word: merged(self.word, word, bits),
        }
    }

    // Takes what is open of the bytes of a store of this value.
    fn take_from(self, stored: Stored, value: u64) -> Sought
        requires sound { IsSought self }
        ensures sound { IsSought result }
        ensures taken { (mem : ℕ → ℕ) (i : ℕ) → i < 64 → bit_taken result mem i
            ≡ bit_taken self (λ a. or_byte (byte_stored stored (Some value) a) (mem a)) i }
    {
        if self.end <= stored.address {
            return self;
        }
        let behind = self.end - stored.address;
        let size = stored.size as u64;
        let past = behind.saturating_sub(size);
        if past < 8 {
            let bits = low_bytes(behind) & !low_bytes(past);
            let word = led_down(led_up(value, past), size.saturating_sub(behind));
            self.put(bits, word)
        } else {
            self
        }
    }

    // Takes what is open of the bytes of a store, if it has some.
    fn meet(self, stored: Option<Stored>) -> Sought
        requires { IsSought self }
        ensures sound { IsSought result }
        ensures taken { (mem : ℕ → ℕ) (i : ℕ) → i < 64 → bit_taken result mem i
            ≡ bit_taken self (λ a. or_byte (byte_of stored a) (mem a)) i }
    {
        match stored {
            None => self,
            Some(stored) => match stored.value {
                None => self,
                Some(value) => self.take_from(stored, value),
            },
        }
    }

    /// Whether all bytes are found.
    pub fn is_found(&self) -> bool
        ensures value { result ≡ true → (mem mem' : ℕ → ℕ) → taken self.now mem ≡ taken self.now mem' }
    {
        self.wanted == 0
    }

    // The same as `pass`, where a store may be there.
    #[inline(never)]
    fn search(self, stores: &Row<Stored, 32, 1>, below: u8) -> Sought
        requires { IsSought self }
        ensures sound { IsSought result }
        ensures taken { (mem : ℕ → ℕ)
            → taken result mem ≡ taken self (byte_seen (λ n. slice_index_or stores.now n None) mem below) }
    {
        let there = (stores.word(0) % 0x1_0000_0000) as u32;
        let _all = stores.get(0);
        let mut sought = self;
        let mut end = end_below(there, below.min(32) as u32);
        while end > 0 {
            sought = sought.meet(stores.get(end as usize - 1));
            if sought.wanted == 0 {
                return sought;
            }
            end = end_below(there, end - 1);
        }
        sought
    }

    /// Takes what is still to be found from the stores of numbers below this one, the nearest first: so what is seen
    /// behind these stores is taken. Where no store is there, none is looked at.
    #[inline]
    pub fn pass(self, stores: &Row<Stored, 32, 1>, below: u8) -> Sought
        requires { IsSought self }
        ensures sound { IsSought result }
        ensures taken { (mem : ℕ → ℕ)
            → taken result mem ≡ taken self (byte_seen (λ n. slice_index_or stores.now n None) mem below) }
    {
        let _all = stores.get(0);
        if stores.word(0) == 0 {
            self
        } else {
            self.search(stores, below)
        }
    }

    // The number that memory has at the bytes, where some are still to be found.
    fn rest(&self, memory: &[u8]) -> u64
        requires { IsSought self.now }
        ensures { (i : ℕ) → has_bit self.now.wanted i ≡ true
            → bit_at result i ≡ byte_bit self.now.end (λ a. slice_index memory.now a) i }
    {
        if self.wanted == 0 {
            0
        } else {
            bytes_of(memory, self.end - self.size, self.size)
        }
    }

    /// The number that is taken, where what is still to be found is taken from memory, and 0 past its end.
    pub fn over(&self, memory: &[u8]) -> u64
        requires { IsSought self.now }
        ensures value { result ≡ taken self.now (λ a. slice_index memory.now a) }
        ensures bytes { (a : ℕ) → slice_index memory.now a < 256 }
    {
        let rest = self.rest(memory);
        merged(self.word, rest, self.wanted)
    }
}

// The byte at an address of memory, and 0 past its end.
fn byte_at(memory: &[u8], address: u64) -> u8
    ensures { result ≡ slice_index memory.now address }
{
    if address < memory.len() as u64 {
        memory[address as usize]
    } else {
        0
    }
}

// The number that so many bytes of memory make.
fn bytes_of(memory: &[u8], address: u64, size: u64) -> u64
    requires size { size ≤ 8 }
    requires end { address + size < 2 ^ 64 }
    ensures { result ≡ bytes_seen (λ n. None) (λ a. slice_index memory.now a) 0 address size }
{
    let mut bytes: u64 = 0;
    for k in 0..size {
        let byte = byte_at(memory, address + k);
        bytes = bytes * 256 + byte as u64;
    }
    bytes
}
