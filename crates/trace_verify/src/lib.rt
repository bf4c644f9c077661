//! The traces of the sequential machine's runs, and the verifier of a trace that comes in pieces (docs/TRACES.md).
#![tactic(auto)]

mod entry;
mod fault;
mod feeding;
mod fronts;
mod judged;
mod law;
mod opening;
mod parts;
mod record;
mod recorder;
mod skipping;
mod slots;
mod taking;
mod verifier;

pub use fault::VerifyFault;
pub use law::{feeds_join, traces_are_judged, verdicts_are_one};
pub use recorder::record_run;
pub use verifier::Verifier;
