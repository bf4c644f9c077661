//! The request that the words of a command line make.
//!
//! [`request`] names the command by the first word and has `clap` read the others, as one simple
//! command. What words say, and the request that they make, is defined in `trips_requests`, without
//! a parser.
#![tactic(auto)]

mod asking;
mod reading;

pub use asking::request;
