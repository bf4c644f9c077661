//! Data memory as bytes.

use std::alloc::{AllocError, Global};
use trips_isa::{Op, loaded, size_of};

/// The bytes of data memory.
pub const DATA_SIZE: usize = 4_194_304;

#[derive(Drop)]
pub struct Bytes {
    bytes: Vec<u8>,
}

impl Bytes {
    /// A program's bytes, and then zeros.
    pub fn of_program(alloc: Global, first: &[u8]) -> Result<Bytes, AllocError> {
        let mut bytes = Vec::from_slice(alloc, first)?;
        bytes.resize(DATA_SIZE, 0)?;
        Ok(Bytes { bytes })
    }

    /// The first byte that a load or a store takes, where its address is good.
    fn place(op: Op, address: u64) -> Option<usize> {
        let size = size_of(op) as u64;
        if size != 0 && address % size == 0 && address < DATA_SIZE as u64 {
            Some(address as usize)
        } else {
            None
        }
    }

    /// What a load gives, where its address is good.
    pub fn load(&self, op: Op, address: u64) -> Option<u64> {
        let from = Bytes::place(op, address)?;
        let mut word: u64 = 0;
        for k in 0..size_of(op) as usize {
            let byte = self.bytes.get(from.saturating_add(k))?;
            word = (word << 8) | *byte as u64;
        }
        Some(loaded(op, word))
    }

    fn put(&mut self, at: usize, byte: u8) {
        if at < self.bytes.len() {
            self.bytes[at] = byte;
        }
    }

    /// Does a store, where its address is good, and says whether it is.
    pub fn save(&mut self, op: Op, address: u64, value: u64) -> bool {
        let Some(from) = Bytes::place(op, address) else {
            return false;
        };
        let size = size_of(op);
        let mut rest = value;
        for k in 0..size {
            self.put(
                from.saturating_add((size - 1 - k) as usize),
                (rest % 256) as u8,
            );
            rest /= 256;
        }
        true
    }
}
