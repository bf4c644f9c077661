use base::Items;
use ir_forms::{FlowNode, FlowSource, Guard};

/// Where the word of a register comes from: one of the sources that are given, or, under one of the
/// scopes, the register as the block found it.
#[derive(Drop)]
pub struct Entry {
    pub given: Items<FlowSource>,
    pub kept: Items<Option<Guard>>,
}

/// A register's entry from here on.
#[derive(Drop)]
pub struct Named {
    pub register: u8,
    pub entry: Entry,
}

/// Which node's word is a register's from here on, where that is a bit.
#[derive(Clone, Copy, Debug, PartialEq, Eq)]
pub struct Noted {
    pub register: u8,
    pub bit: Option<u32>,
}

/// The nodes so far, and the next number of a load or a store, or of an exit. A node has its number
/// modulo 256.
#[derive(Drop)]
pub struct Work {
    pub nodes: Items<FlowNode>,
    pub number: usize,
}

/// What registers are named: their entries, their bits, and those that were set since the block or
/// the leg began. Of two entries of a register the first counts, and of two bits.
#[derive(Drop)]
pub struct Names {
    pub entries: Items<Named>,
    pub bits: Items<Noted>,
    pub sets: Items<u8>,
}

/// All that a block comes to: its nodes, what registers are named at its end, and how many numbers
/// its loads and stores have and how many exits.
#[derive(Drop)]
pub struct Emitted {
    pub nodes: Items<FlowNode>,
    pub names: Names,
    pub numbers: usize,
    pub exits: usize,
}
