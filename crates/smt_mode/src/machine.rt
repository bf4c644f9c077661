//! Four programs and what they share.

use crate::turns::Program;

/// Four programs, for how long each tile's unit is busy, the weather of the mesh, and the cycles made. Each program
/// may commit so many blocks.
#[derive(Drop)]
pub struct Machine<W> {
    pub programs: Vec<Program>,
    pub units: [u8; 16],
    pub weather: W,
    pub cycles: u64,
    pub budget: u32,
}
