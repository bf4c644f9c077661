//! The window in code: eight frames that execute blocks of an image before they are known to be wanted
//! (docs/WINDOW.md).
//!
//! Events come in any order and with any numbers. A contract sees a [`Window`] as its image, its budget and the
//! window of the definitions (crates/commit_flush_spec/specs); specs/Seen.antt says how. Only a commit changes the
//! committed state. The definitions have the frames by age; the code keeps them by number, with an order of the
//! numbers by age and banks of registers beside them (specs/inside/Kept.antt, specs/inside/Banked.antt), which every
//! event leaves fitting together.
//!
//! [`next_event`] finds the event that is next (docs/WINDOW.md, "Driving"), [`drive`] lets one after another happen,
//! and [`run`] tells how the run has ended (specs/inside/Endings.antt).
#![tactic(auto)]

mod ages;
mod allowed;
mod asking;
mod bits;
mod bytes;
mod committing;
mod driving;
mod dropping;
mod filling;
mod happening;
mod known;
mod law;
mod lending;
mod looking;
mod moving;
mod next;
mod observing;
mod orders;
mod parts;
mod running;
mod searching;
mod step;
mod storing;
mod telling;
mod trying;
mod window;

pub use driving::drive;
pub use law::{frames_stay_kept, orders_tell_ages, reads_go_through_banks};
pub use next::next_event;
pub use running::run;
pub use step::Step;
pub use window::Window;
