//! What a report shows.

use trips_requests::Cycles;

/// What the report of a run shows behind its ending.
#[derive(Clone, Copy, Debug, PartialEq, Eq)]
pub struct Show {
    /// the 128 registers
    pub regs: bool,
    /// the committed blocks with their exits
    pub trace: bool,
    /// how many blocks and cycles the run took
    pub cycles: bool,
    /// the statistics of the run
    pub stats: bool,
    /// the cycles whose events are shown, if any are
    pub events: Option<Cycles>,
}
