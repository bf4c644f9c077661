use base::Items;
use ir_forms::HyperBlock;

/// Which registers outlast a block.
#[derive(Clone, Copy, Debug, PartialEq, Eq)]
pub enum Lasting {
    Every,
    /// those whose bits are set, register r by bit r; one from 128 on always outlasts it
    Those(u128),
}

/// A hyper block, and which registers outlast it: it writes no other.
#[derive(Drop)]
pub struct NarrowedBlock {
    pub block: HyperBlock,
    pub lasting: Lasting,
}

/// A program of narrowed blocks. It starts at block 0.
#[derive(Drop)]
pub struct NarrowedProgram {
    pub blocks: Items<NarrowedBlock>,
}
