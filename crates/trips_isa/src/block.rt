use crate::Op;
use arrayvec::ArrayVec;
use base::Items;

/// What travels from an instruction to its consumers: a null token or a word.
#[derive(Clone, Copy, Debug, PartialEq, Eq)]
pub enum Token {
    Null,
    Word(u64),
}

/// A place in a block, ordered by variant and then by number.
///
/// `Read(r)` and `Inst(s)` name the read and the slot themselves. `Left(s)`, `Right(s)` and `Pred(s)`
/// are the two operands and the predicate of slot s, `Write(w)` is write slot w, and `Store(n)` is the
/// store of number n.
#[derive(Clone, Copy, Debug, PartialEq, Eq, PartialOrd, Ord)]
pub enum Spot {
    Read(u8),
    Inst(u8),
    Left(u8),
    Right(u8),
    Pred(u8),
    Write(u8),
    Store(u8),
}

impl Default for Spot {
    fn default() -> Spot {
        Spot::Left(0)
    }
}

/// When an instruction fires: always, or as its predicate's low bit says.
#[derive(Clone, Copy, Debug, PartialEq, Eq)]
pub enum Sense {
    Always,
    OnTrue,
    OnFalse,
}

/// An instruction, which names the consumers of its result.
///
/// `imm` is the immediate, the constant or the branch's offset in chunks. `number` is the load/store
/// number or the exit. A field that the operation's form does not have is 0, none or `Always`.
#[derive(Clone, Copy, Debug, PartialEq, Eq)]
pub struct Inst {
    pub op: Op,
    pub sense: Sense,
    pub imm: i32,
    pub number: u8,
    pub first: Option<Spot>,
    pub second: Option<Spot>,
}

/// A read of a register, which names one or two operands.
#[derive(Clone, Copy, Debug, PartialEq, Eq, Default)]
pub struct ReadSlot {
    pub register: u8,
    pub first: Spot,
    pub second: Option<Spot>,
}

/// A block: its reads, the registers of its write slots, its store mask and its 128 slots.
///
/// Bit n of `mask` is set where the block resolves the store number n at each execution.
#[derive(Debug, Drop)]
pub struct Block {
    pub reads: ArrayVec<ReadSlot, 32>,
    pub writes: ArrayVec<u8, 32>,
    pub mask: u32,
    pub insts: ArrayVec<Option<Inst>, 128>,
}

/// A resolved store of `size` bytes at `address`. Its value is none where it is a null store.
#[derive(Clone, Copy, Debug, PartialEq, Eq)]
pub struct Stored {
    pub number: u8,
    pub address: u64,
    pub size: u8,
    pub value: Option<u64>,
}

/// A program of the machine: its blocks, counted from 0, and the start of data memory.
#[derive(Debug, Drop)]
pub struct Image {
    pub blocks: Items<Block>,
    pub bytes: Items<u8>,
}
