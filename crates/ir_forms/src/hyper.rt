use base::{Boxed, Items};
use trips_isa::Op;

/// An operand of a hyper block: a word, or a register's word.
#[derive(Clone, Copy, Debug, PartialEq, Eq)]
pub enum Source {
    Const(u64),
    Reg(u8),
}

/// An item of a hyper block. Each is done whole before the next.
#[derive(Drop)]
#[cycle(hyper_item)]
pub enum HyperItem {
    /// `to` becomes what an operation on words gives; one that takes one operand takes `a`
    Set {
        to: u8,
        op: Op,
        a: Source,
        b: Source,
    },
    /// `to` becomes what the load `op` gives at an address
    Load {
        to: u8,
        op: Op,
        address: Source,
    },
    /// the store `op` puts a value to an address
    Save {
        op: Op,
        address: Source,
        value: Source,
    },
    /// does `yes` where the word is not 0, else `no`
    If {
        test: Source,
        yes: Items<HyperItem>,
        no: Items<HyperItem>,
    },
}

/// How a hyper block is left. A label is the number of a block.
#[derive(Clone, Copy, Debug, PartialEq, Eq)]
pub enum Exit {
    Jump(u32),
    /// goes to `to`, and register 2 becomes the address of `back`
    Call { to: u32, back: u32 },
    /// goes to the address in register 2
    Return,
    /// makes the system call that register 0 says, and goes to the label
    System(u32),
}

/// The end of a hyper block: a tree of tests with an exit at each leaf.
#[derive(Drop)]
#[cycle(tail)]
pub enum Tail {
    Leave(Exit),
    /// `yes` where the word is not 0, else `no`
    Test {
        test: Source,
        yes: Boxed<Tail>,
        no: Boxed<Tail>,
    },
}

/// A hyper block: its items, in order, and then its tail.
#[derive(Drop)]
pub struct HyperBlock {
    pub items: Items<HyperItem>,
    pub tail: Tail,
}

/// A hyper program. It starts at block 0.
#[derive(Drop)]
pub struct HyperProgram {
    pub blocks: Items<HyperBlock>,
}
