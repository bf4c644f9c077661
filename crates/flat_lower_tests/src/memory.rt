//! Byte memory whose bytes carry what a run may do with them.
use std::alloc::{AllocError, Global};
use trips_isa::{Op, loaded, size_of};

/// The bytes of data memory.
const DATA_SIZE: u64 = 4_194_304;

/// Closed: in no array of an active call; open: in one, and not saved since its call began; held:
/// it may be loaded.
#[derive(Clone, Copy, PartialEq, Eq)]
enum Mark {
    Closed,
    Open,
    Held,
}

#[derive(Clone, Copy)]
struct Cell {
    mark: Mark,
    byte: u8,
}

/// The globals, and the frames as far as an array was in one. Beyond that nothing is permitted.
#[derive(Drop)]
pub struct Cells {
    cells: Vec<Cell>,
}

fn is_good_address(address: u64, size: u8) -> bool {
    size != 0 && address % size as u64 == 0 && address < DATA_SIZE
}

impl Cells {
    /// The globals, in whole words.
    pub fn of_globals(alloc: Global, bytes: &[u8]) -> Result<Cells, AllocError> {
        let mut cells = Vec::new(alloc);
        for byte in bytes {
            cells.push(Cell {
                mark: Mark::Held,
                byte: *byte,
            })?;
        }
        let words = bytes.len().div_ceil(8);
        cells.resize(
            words.saturating_mul(8),
            Cell {
                mark: Mark::Held,
                byte: 0,
            },
        )?;
        Ok(Cells { cells })
    }

    pub fn len(&self) -> usize {
        self.cells.len()
    }

    fn set_mark(&mut self, at: usize, mark: Mark) {
        if at < self.cells.len() {
            let byte = self.cells[at].byte;
            self.cells[at] = Cell { mark, byte };
        }
    }

    /// Arrays of a call that begins.
    pub fn open(&mut self, from: usize, to: usize) -> Result<(), AllocError> {
        if self.cells.len() < to {
            self.cells.resize(
                to,
                Cell {
                    mark: Mark::Closed,
                    byte: 0,
                },
            )?;
        }
        for at in from..to {
            self.set_mark(at, Mark::Open);
        }
        Ok(())
    }

    /// Arrays of a call that ends.
    pub fn close(&mut self, from: usize, to: usize) {
        for at in from..to {
            self.set_mark(at, Mark::Closed);
        }
    }

    /// What a load gives, where it is permitted.
    pub fn load(&self, op: Op, address: u64) -> Option<u64> {
        let size = size_of(op);
        if !is_good_address(address, size) {
            return None;
        }
        let mut word: u64 = 0;
        for k in 0..size {
            let at = address.checked_add(k as u64)?;
            let cell = self.cells.get(at as usize)?;
            if cell.mark != Mark::Held {
                return None;
            }
            word = (word << 8) | cell.byte as u64;
        }
        Some(loaded(op, word))
    }

    fn put(&mut self, at: usize, byte: u8) -> bool {
        if at < self.cells.len() && self.cells[at].mark != Mark::Closed {
            self.cells[at] = Cell {
                mark: Mark::Held,
                byte,
            };
            true
        } else {
            false
        }
    }

    /// Does a store, and says whether it is permitted.
    pub fn save(&mut self, op: Op, address: u64, value: u64) -> bool {
        let size = size_of(op);
        let mut is_permitted = is_good_address(address, size);
        let mut rest = value;
        for k in 0..size {
            let at = address.saturating_add((size - 1 - k) as u64);
            is_permitted = is_permitted && self.put(at as usize, (rest % 256) as u8);
            rest /= 256;
        }
        is_permitted
    }
}
