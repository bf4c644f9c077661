use base::Items;
use trips_isa::{Op, Sense};

/// Where a node or a write takes a token from: the read of a register, or a node by its number.
#[derive(Clone, Copy, Debug, PartialEq, Eq)]
pub enum FlowSource {
    Read(u8),
    Node(u32),
}

/// When a node fires: as the low bit of another node's word says. A null token meets neither sense.
#[derive(Clone, Copy, Debug, PartialEq, Eq)]
pub struct Guard {
    pub node: u32,
    pub sense: Sense,
}

/// A node of a flow block: an instruction that names its sources.
///
/// `imm` is the immediate, the constant or, of a branch that names its block, the label; `number`
/// is the load/store number or the exit. An operand takes the token of the first of its sources
/// that gives one.
#[derive(Drop)]
pub struct FlowNode {
    pub op: Op,
    pub imm: i32,
    pub number: u8,
    pub guard: Option<Guard>,
    pub left: Items<FlowSource>,
    pub right: Items<FlowSource>,
}

/// A register that the block writes, and where its token comes from.
#[derive(Drop)]
pub struct FlowWrite {
    pub register: u8,
    pub sources: Items<FlowSource>,
}

/// A flow block: its nodes, counted from 0, the registers that it reads, its writes and its store
/// mask.
#[derive(Drop)]
pub struct FlowBlock {
    pub nodes: Items<FlowNode>,
    pub reads: Items<u8>,
    pub writes: Items<FlowWrite>,
    pub mask: u32,
}
