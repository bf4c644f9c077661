//! The grid.

use crate::state::State;

/// A window of frames in flight, and what moves it.
#[derive(Drop)]
pub struct Grid<V, W> {
    pub window: V,
    pub state: State<W>,
}
