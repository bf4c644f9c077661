//! The state of the grid beside its window.

use crate::fetch_unit::FetchUnit;
use crate::frame_flags::FrameFlags;
use crate::histories::Histories;
use base::Flags;
use block_predict::Predictor;
use operand_net::Mesh;
use trips_isa::Counts;

/// What is under way in the grid, beside its window, and the weather.
#[derive(Drop)]
pub struct State<W> {
    /// the parcels of all frames
    pub mesh: Mesh,
    /// the requests of each frame that stand at their data tiles, a flag for each load/store number
    pub asked: FrameFlags,
    /// how many cycles the unit of each tile is still busy
    pub units: [u8; 16],
    /// the results of each frame that are in units, a flag for each slot
    pub works: FrameFlags,
    pub fetching: FetchUnit,
    /// the flushed block that stands as the predicted next block
    pub standing: Option<u32>,
    /// the waiting bits of loads
    pub waits: Flags<1024, 16>,
    /// the careful frames
    pub careful: Flags<8, 1>,
    pub histories: Histories,
    pub predictor: Predictor,
    pub weather: W,
    pub counts: Counts,
}
