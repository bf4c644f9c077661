//! What a block comes to as a machine block.
//!
//! An operation is one instruction. Its word goes to the operations that take it and, where it is the last
//! word of its register, to a write. An instruction names two of these, a load or a constant one, and each
//! further one costs a `mov`. So much is exact where no if stands before the block's end.
//!
//! Of an if that is an item both legs stand in the block, and each of their instructions takes the bit of the
//! test. Where one leg alone sets a register, the other lets its word before through a `mov`, or a null goes
//! to its write; and so a null store stands for each store. What these cost is counted high.

use crate::operations::{constant_size, is_move, is_test, takes_right, targets_of};
use crate::producers::{NOTHING, Producer, Producers, REGISTERS};
use ir_forms::Arg;
use trips_isa::Op;

/// The most reads that a block has; so many writes, and so many load/store numbers.
const MOST_PARTS: u32 = 32;

/// What reading a register costs more that a leg keeps: a `mov` under the leg's guard, and what brings both to it.
pub const KEPT: u32 = 3;

/// The most ifs in a block beside a test at its end, each of which may double its cases.
pub const MOST_IFS: u32 = 7;

/// The register in which a loop's test is kept that goes on in the block of the loop's head.
const TEST: usize = 92;

/// The parts of a block so far, without its exit.
#[derive(Clone, Copy)]
pub struct Estimate {
    pub insts: u32,
    pub reads: u32,
    pub writes: u32,
    pub numbers: u32,
    pub ifs: u32,
    /// the ifs around what comes next
    pub depth: u8,
    /// the places that the bit of the innermost one still names, so that guards cost nothing there
    pub free: u8,
    /// the stores in legs so far
    pub stores: u32,
    /// what gives the word of each register
    pub producers: Producers,
}

/// The register of a variable.
pub fn register_of(v: u16) -> usize {
    if v < 80 {
        v as usize + 12
    } else {
        v as usize - 76
    }
}

impl Estimate {
    /// An empty block.
    pub fn empty() -> Estimate {
        Estimate {
            insts: 0,
            reads: 0,
            writes: 0,
            numbers: 0,
            ifs: 0,
            depth: 0,
            free: 0,
            stores: 0,
            producers: Producers {
                all: [NOTHING; REGISTERS],
            },
        }
    }

    /// Whether the block, with an exit of one instruction, is within the limits and has no more
    /// instructions than `room`.
    pub fn fits(&self, room: u32) -> bool {
        self.insts < room
            && self.reads <= MOST_PARTS
            && self.writes <= MOST_PARTS
            && self.numbers <= MOST_PARTS
            && self.ifs <= MOST_IFS
    }

    /// So many instructions more.
    pub fn count(&mut self, insts: u32) {
        self.insts = self.insts.saturating_add(insts);
    }

    /// One instruction more that is no constant.
    pub fn operation(&mut self) {
        self.count(1);
        if self.depth > 0 {
            self.guard();
        }
    }

    /// A guard takes the bit of the innermost test: beyond the places that it names by a `mov`.
    fn guard(&mut self) {
        if self.free > 0 {
            self.free -= 1;
        } else {
            self.count(1);
        }
    }

    /// One operation more takes a register's word.
    pub fn take(&mut self, register: usize) {
        let mut producer = self.producers.get(register);
        if producer.targets == 0 {
            producer.targets = 2;
            self.reads = self.reads.saturating_add(1);
        }
        if producer.uses >= producer.targets {
            self.count(producer.sources as u32);
        }
        if producer.kept > 0 {
            self.count(KEPT * producer.kept as u32);
        }
        producer.uses = producer.uses.saturating_add(1);
        self.producers.put(register, producer);
    }

    /// A register becomes the word of an instruction, which names so many places. The write takes this
    /// word, and no longer the one before.
    fn give(&mut self, register: usize, targets: u8, bit: bool) {
        let before = self.producers.get(register);
        let again = before.is_of_leg(self.depth);
        if !before.set {
            self.count_write();
        } else if again && before.uses > before.targets {
            self.insts = self.insts.saturating_sub(before.sources as u32);
        }
        let producer = Producer {
            set: true,
            bit,
            targets,
            uses: 1,
            sources: 1,
            kept: 0,
            depth: self.depth,
        };
        self.producers.put(register, producer);
    }

    /// One write more; of what is set in legs it is counted behind them.
    pub fn count_write(&mut self) {
        if self.depth == 0 {
            self.writes = self.writes.saturating_add(1);
        }
    }

    /// A constant's instructions.
    pub fn constant(&mut self, word: u64) {
        self.count(constant_size(word));
    }

    fn operand(&mut self, x: Arg) {
        match x {
            Arg::Const(word) => self.constant(word),
            Arg::Var(v) => self.take(register_of(v)),
        }
    }

    /// Whether an operand is a word that is a bit.
    fn is_bit(&self, x: Arg) -> bool {
        match x {
            Arg::Const(_) => false,
            Arg::Var(v) => self.has_bit(register_of(v)),
        }
    }

    /// A register becomes what an operation gives. A copied word keeps its bit.
    pub fn set(&mut self, register: usize, op: Op, a: Arg, b: Arg) {
        let bit = if is_move(op) {
            self.is_bit(a)
        } else {
            is_test(op)
        };
        self.operand(a);
        if takes_right(op) {
            self.operand(b);
        }
        self.operation();
        self.give(register, targets_of(op), bit);
    }

    /// A register becomes a value.
    pub fn put(&mut self, register: usize, from: Arg) {
        self.set(register, Op::Mov, from, Arg::Const(0));
    }

    /// A register becomes another's word.
    pub fn copy(&mut self, register: usize, from: usize) {
        self.take(from);
        self.operation();
        self.give(register, targets_of(Op::Mov), false);
    }

    /// A register becomes the sum or the difference of another's word and a constant.
    pub fn shift(&mut self, register: usize, from: usize, by: u64) {
        self.constant(by);
        self.copy(register, from);
    }

    /// A register becomes what a load gives.
    pub fn load(&mut self, register: usize, address: Arg) {
        self.operand(address);
        self.loaded(register);
    }

    /// A register becomes what a load gives whose address is taken already.
    pub fn loaded(&mut self, register: usize) {
        self.operation();
        self.numbers = self.numbers.saturating_add(1);
        self.give(register, 1, false);
    }

    pub fn save(&mut self, address: Arg, value: Arg) {
        self.operand(address);
        self.operand(value);
        self.saved();
    }

    /// A store whose operands are taken already.
    pub fn saved(&mut self) {
        self.operation();
        self.numbers = self.numbers.saturating_add(1);
        if self.depth > 0 {
            self.stores = self.stores.saturating_add(1);
        }
    }

    /// Whether a register's word is a bit that was set under the same ifs.
    pub fn has_bit(&self, register: usize) -> bool {
        let producer = self.producers.get(register);
        producer.bit && producer.depth == self.depth
    }

    /// A test between two jumps, one of which is the block's exit. It feeds both; where its word is not a
    /// bit, `tnei` gives one, and names one place only.
    pub fn test(&mut self, x: Arg) {
        match x {
            Arg::Const(word) => {
                self.constant(word);
                self.count(3);
            }
            Arg::Var(v) => {
                let at = register_of(v);
                self.take(at);
                if self.has_bit(at) {
                    self.take(at);
                    self.count(1);
                } else {
                    self.count(3);
                }
            }
        }
    }

    /// A loop's test, with which its leg goes on in the same block, and the exit that leaves the loop. A `mov`
    /// keeps the word. A bit is the test of the leg and of both exits; of another word `tnei` gives a bit for the
    /// leg, and one for the exits.
    pub fn merge(&mut self, x: Arg) {
        self.put(TEST, x);
        if self.is_bit(x) {
            self.operand(x);
            self.operand(x);
            self.count(1);
            self.ifs = self.ifs.saturating_add(1);
        } else {
            self.take(TEST);
            self.take(TEST);
            self.count(4);
            self.ifs = self.ifs.saturating_add(2);
        }
    }

    /// What came behind so many instructions stands under a guard: each has the bit brought to it.
    pub fn under_guard(&mut self, before: u32) {
        let added = self.insts.saturating_sub(before);
        self.count(added.saturating_add(1));
    }
}
