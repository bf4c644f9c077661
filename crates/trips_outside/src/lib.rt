//! The outside of the program: named files to read, and one place to write to.
//!
//! [`Files`] and [`Sink`] say what may be relied on. Files and sinks in memory tell their bytes and
//! fail exactly where they are told to; real files and the standard output tell nothing, and only
//! count their failures. [`load`] and [`write_all`] serve any of them. [`words`] are those of the
//! command line.
#![tactic(auto)]

mod command_line;
mod memory_files;
mod memory_sinks;
mod system;
mod traits;
mod transfer;

pub use command_line::words;
pub use memory_files::{HonestFiles, MemFiles};
pub use memory_sinks::{HonestSink, MemSink};
pub use system::{OsFiles, OutSink};
pub use traits::{Failed, Files, Sink};
pub use transfer::{LoadFault, WriteFault, load, write_all};
