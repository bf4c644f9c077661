//! Rows of a table of driven windows.

use frame_state::Event;
use trips_isa::Ending;

/// A window, and how its run ends.
#[derive(Clone, Copy, Debug)]
pub struct Row {
    /// What the row is about.
    pub name: &'static str,
    /// The image, as target text.
    pub text: &'static str,
    /// How many blocks may be committed.
    pub budget: u32,
    /// What happens in the window before it is driven.
    pub played: &'static [Event],
    /// How the run ends.
    pub ending: Ending,
    /// How many blocks are committed by then.
    pub commits: usize,
}
