//! What `record` and `verify` are answered for the bytes of an image's file and of an input: the trace of the image's
//! run, and whether a trace's file holds that of its run. The trace is read in pieces, and none of it is kept.
//!
//! What these bytes are answered stands in specs/TraceAnswers, and the reports in specs/TraceReports.
#![tactic(auto)]

mod answers;
mod judging;
mod opening;
mod reports;

pub use answers::{recorded, verified};
