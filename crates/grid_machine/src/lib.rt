//! The grid as a machine: made from an image and an input, moved cycle by cycle, and run to its end (docs/GRID.md,
//! "Runs").
//!
//! A cycle and a run go over any window that keeps the contracts of `Windows`; specs/WholeRuns.antt has runs,
//! specs/Endings.antt how they end, and specs/Answered.antt what a run is answered. [`cost`] is what a trace may
//! cost.
//!
//! [`GridWindow`] is the window in code as the grid moves it: each event is the window's own, and what the grid asks
//! of a frame is read off what the frame holds. Beside the window stands the shape of each block of the image
//! (specs/inside/Shaped.antt), so that the slots which may fire are a few operations on words.
#![tactic(auto)]

mod asking;
mod bits;
mod costs;
mod cycling;
mod eager_runs;
mod events;
mod law;
mod made;
mod older;
mod ready;
mod requests;
mod running;
mod runs;
mod shapes;
mod tokens;
mod violations;
mod window;
mod windows;

pub use costs::cost;
pub use cycling::{close, cycle as eager_cycle};
pub use eager_runs::run as eager_run;
pub use law::{runs_are_cycles, runs_come_to_the_machine, runs_count};
pub use made::{make, make_at};
pub use running::{cycle, run};
pub use window::GridWindow;
