/// A part of a flow block that its machine block has a limit for. A pass looks at the parts in this
/// order.
#[derive(Clone, Copy, Debug, PartialEq, Eq)]
pub enum Part {
    /// the instructions that the nodes become, at most 128
    Insts,
    /// the registers that are read, at most 32
    Reads,
    /// the registers that are written, at most 32
    Writes,
    /// the load/store numbers, at most 32
    Numbers,
    /// the exits, at most 8
    Exits,
}

/// Why a pass does not give the block that it is asked for.
#[derive(Clone, Copy, Debug, PartialEq, Eq)]
pub enum FlowFault {
    /// a part of that block is above its limit, with its exact count; no earlier part is above its own
    TooBig(Part, usize),
    /// memory is wanting
    Memory,
}
