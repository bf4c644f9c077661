//! An answer, and those that need no work.

ghost use Rattle.std.specs.Prelude.{◌≡◌, IfOk};
ghost use Rattle.trips_requests.specs.Texts.{usage_text, read_fault_text, too_large_text, IsFixed};

use crate::status::Status;
use std::alloc::{AllocError, Global};

/// A status and the report that goes with it.
#[derive(Drop)]
pub struct Answer {
    pub status: Status,
    pub report: Vec<u8>,
}

// An answer with a fixed text.
fn fixed(alloc: Global, status: Status, text: &[u8]) -> Result<Answer, AllocError>
    ensures { IfOk result (λ answer. IsFixed status text.now answer.status answer.report.items) }
{
    Ok(Answer {
        status,
        report: Vec::from_slice(alloc, text)?,
    })
}

/// The answer to words that are no request.
#[tactic(auto, unfolding(crate::specs::Texts::usage_text))]
pub fn no_request(alloc: Global) -> Result<Answer, AllocError>
    ensures { IfOk result (λ answer.
        IsFixed Status.Usage usage_text answer.status answer.report.items) }
{
    fixed(alloc, Status::Usage, b"usage\n")
}

/// The answer where a file could not be read.
#[tactic(auto, unfolding(crate::specs::Texts::read_fault_text))]
pub fn unread(alloc: Global) -> Result<Answer, AllocError>
    ensures { IfOk result (λ answer.
        IsFixed Status.ReadFault read_fault_text answer.status answer.report.items) }
{
    fixed(alloc, Status::ReadFault, b"read fault\n")
}

/// The answer where a file has too many bytes.
#[tactic(auto, unfolding(crate::specs::Texts::too_large_text))]
pub fn too_large(alloc: Global) -> Result<Answer, AllocError>
    ensures { IfOk result (λ answer.
        IsFixed Status.Refused too_large_text answer.status answer.report.items) }
{
    fixed(alloc, Status::Refused, b"refused file 2 TooLarge\n")
}
