//! One of the eight frames of the window, whatever it is doing: what an event is answered there, and what it does to
//! it.
//!
//! A frame executes a block before it is known to be wanted (docs/WINDOW.md). [`Empty`] holds no block, [`Running`]
//! gets its tokens, and [`Sealed`] has all its outputs; each call hands one on as the next. Contracts see it as what
//! it holds beside its block (specs/inside/Held.antt), and with the block as the frame of the window's definitions.
//!
//! A [`Phase`] is one of the three, which contracts see with the blocks of its image as the frame in flight that it
//! is, or as none (`frame_in` of specs/inside/Phases.antt). Each call is one equation with the definitions of
//! crates/commit_flush_spec/specs; what a frame sees of the older ones is handed in. specs/inside/Told.antt has what
//! it tells.
#![tactic(auto)]

mod answers;
mod body;
mod changes;
mod ending;
mod event;
mod events;
mod exits;
mod flights;
mod giving;
mod lacks;
mod law;
mod marks;
mod observers;
mod outcome;
mod outputs;
mod parts;
mod phase;
mod ready;
mod rule;
mod sending;
mod shape;
mod spots;
mod states;
mod target;
mod telling;
mod trying;

pub use answers::{can_deliver, can_exit, can_fire, can_load, can_read, can_seal, can_store};
pub use body::Body;
pub use changes::{deliver_in, exit_in, fire_in, load_in, read_in, store_in};
pub use event::{Cause, Event, Happened};
pub use exits::departure;
pub use flights::{block_at, flying, running_in};
pub use law::empty_frames_may_be_filled;
pub use observers::{
    block_in, cause_in, exit_come, finds_room, is_sealed_in, is_serial, is_serial_in, leads_to,
    outputs_in, read_register, register_to, token_in, waiting_load, waiting_store,
};
pub use outputs::Outputs;
pub use parts::{Departure, Lack, Took};
pub use phase::{Phase, empty_in, fill_in, seal_in};
pub use shape::Shape;
pub use states::{Empty, Running, Sealed};
pub use trying::{Arrival, try_deliver, try_fire};
