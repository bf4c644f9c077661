//! What `record` and `verify` are answered.

ghost use Rattle.std.specs.Prelude.{◌≡◌, ◌≤◌, ◌⊎◌, ℕ, List, IfOk};
ghost use Rattle.trips_outside.specs.Outside.{Rose};
ghost use Rattle.trips_trace_answers.specs.TraceAnswers.{IsRecording, IsRefusedImage, IsVerified, TellsTrace};
ghost use Rattle.trips_trace_answers.specs.inside.Judging.{IsTold, IsTraced};
ghost use Rattle.trips_trace_answers.specs.inside.Opening.{IsClosed};

use crate::judging::{Judged, judged_file};
use crate::opening::{Closed, opened};
use crate::reports::{trace_text, verified_text};
use base::Items;
use block_check::CheckedImage;
use std::alloc::{AllocError, Global};
use trace_verify::record_run;
use trips_outside::Files;
use trips_report::status_for;
use trips_requests::{Answer, Status, unread};
use trips_tools::refused;

// The answer where there is no image.
fn closed_answer(alloc: Global, closed: Closed) -> Result<Answer, AllocError>
    ensures { (bytes : List ℕ) → IsClosed bytes closed
        → IfOk result (λ answer. IsRefusedImage bytes answer.status answer.report.items) }
{
    match closed {
        Closed::Refused(said) => refused(alloc, said),
        Closed::Memory => Err(AllocError),
    }
}

// The trace of an image's run.
fn image_recorded(
    alloc: Global,
    image: &CheckedImage,
    input: Items<u8>,
    most: u32,
) -> Result<Answer, AllocError>
    ensures { IfOk result (λ answer. TellsTrace image.now input most answer.status answer.report.items) }
{
    match record_run(alloc, image, input.into_vec(), most) {
        Ok((report, ending, word)) => Ok(Answer {
            status: status_for(ending, word),
            report,
        }),
        Err(_) => Err(AllocError),
    }
}

/// What `record` is answered for the bytes of an image's file and an input: the trace of its run, of at most so many
/// blocks. Want of memory is the only error.
pub fn recorded(
    alloc: Global,
    bytes: &[u8],
    input: Items<u8>,
    most: u32,
) -> Result<Answer, AllocError>
    ensures { IfOk result (λ answer. IsRefusedImage bytes.now answer.status answer.report.items
        ⊎ IsRecording most bytes.now input answer.status answer.report.items) }
{
    match opened(alloc, bytes) {
        Ok(image) => image_recorded(alloc, &image, input, most),
        Err(closed) => closed_answer(alloc, closed),
    }
}

// The answer that tells what a trace's file came to.
fn judged_answer(alloc: Global, judged: Judged) -> Result<Answer, AllocError>
    ensures { IfOk result (λ answer. IsTold judged answer.status answer.report.items) }
{
    match judged {
        Judged::Verified(blocks) => Ok(Answer {
            status: Status::Ended,
            report: verified_text(alloc, blocks)?,
        }),
        Judged::Refused(fault) => Ok(Answer {
            status: Status::Refused,
            report: trace_text(alloc, fault)?,
        }),
        Judged::Unread => unread(alloc),
    }
}

// What a trace's file is answered as that of an image's run.
fn image_verified<F: Files>(
    alloc: Global,
    files: &mut F,
    image: CheckedImage,
    input: Items<u8>,
    trace: &str,
) -> Result<Answer, AllocError>
    ensures answer { IfOk result (λ answer. IsTraced image input (F.held files.old trace.now)
        (Rose (F.faults files.old) (F.faults files.new)) answer.status answer.report.items) }
    ensures kept { F.held files.new ≡ F.held files.old }
    ensures later { F.faults files.old ≤ F.faults files.new }
{
    match judged_file(alloc, files, trace, image, input) {
        Ok(judged) => judged_answer(alloc, judged),
        Err(_) => Err(AllocError),
    }
}

/// What `verify` is answered for the bytes of an image's file, an input and the name of a trace's file, which is read
/// up to its end or to its first fault. Want of memory is the only error.
pub fn verified<F: Files>(
    alloc: Global,
    files: &mut F,
    bytes: &[u8],
    input: Items<u8>,
    trace: &str,
) -> Result<Answer, AllocError>
    ensures answer { IfOk result (λ answer. IsRefusedImage bytes.now answer.status answer.report.items
        ⊎ IsVerified bytes.now input (F.held files.old trace.now)
        (Rose (F.faults files.old) (F.faults files.new)) answer.status answer.report.items) }
    ensures kept { F.held files.new ≡ F.held files.old }
    ensures later { F.faults files.old ≤ F.faults files.new }
{
    match opened(alloc, bytes) {
        Ok(image) => image_verified(alloc, files, image, input, trace),
        Err(closed) => closed_answer(alloc, closed),
    }
}
