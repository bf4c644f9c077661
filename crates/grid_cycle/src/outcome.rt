//! What a run of the grid has come to.

use crate::grid::Grid;
use crate::weather::AnyWeather;
use trips_isa::Ending;

/// A grid at the end of a run, and how the run has ended.
#[derive(Drop)]
pub struct Ran {
    pub ending: Ending,
    pub grid: Grid<AnyWeather>,
}
