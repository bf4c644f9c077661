//! The work of each tool: what is made of the bytes of a file, and why they are refused.

ghost use Rattle.std.specs.Prelude.{IfOk};
ghost use Rattle.trips_requests.specs.declared.commands.Tool.TheVariants as tool;
ghost use Rattle.trips_report.specs.inside.Refusals.{refusal_report};
ghost use Rattle.trips_requests.specs.Texts.{IsFixed};
ghost use Rattle.trips_tools.specs.inside.ToolAnswers.{IsMade, IsToolDone};

use crate::made::Made;
use crate::tools::{assembled, checked, disassembled};
use std::alloc::{AllocError, Global};
use trips_report::{Said, refusal_report};
use trips_requests::{Answer, Status, Tool};

/// The answer that refuses a file, and says why. Want of memory is the only error.
pub fn refused(alloc: Global, said: Said) -> Result<Answer, AllocError>
    ensures { IfOk result (λ answer.
        IsFixed Status.Refused (refusal_report said) answer.status answer.report.items) }
{
    match refusal_report(alloc, said) {
        Ok(report) => Ok(Answer {
            status: Status::Refused,
            report,
        }),
        Err(_) => Err(AllocError),
    }
}

// The answer that tells what was made.
fn made_answer(alloc: Global, made: Made) -> Result<Answer, AllocError>
    ensures { IfOk result (λ answer. IsMade made answer.status answer.report.items) }
{
    match made {
        Made::Bytes(bytes) => Ok(Answer {
            status: Status::Ended,
            report: bytes.into_vec(),
        }),
        Made::Refused(said) => refused(alloc, said),
    }
}

// What is answered for a target text: the bytes of its image.
fn text_assembled(alloc: Global, text: &[u8]) -> Result<Answer, AllocError>
    ensures { IfOk result (λ answer.
        IsToolDone tool.Assemble text.now answer.status answer.report.items) }
{
    match assembled(alloc, text) {
        Ok(made) => made_answer(alloc, made),
        Err(_) => Err(AllocError),
    }
}

// What is answered for the bytes of an image's file: its target text.
fn bytes_disassembled(alloc: Global, bytes: &[u8]) -> Result<Answer, AllocError>
    ensures { IfOk result (λ answer.
        IsToolDone tool.Disassemble bytes.now answer.status answer.report.items) }
{
    match disassembled(alloc, bytes) {
        Ok(made) => made_answer(alloc, made),
        Err(_) => Err(AllocError),
    }
}

// What is answered for the bytes of an image's file: how many good blocks it has.
fn bytes_checked(alloc: Global, bytes: &[u8]) -> Result<Answer, AllocError>
    ensures { IfOk result (λ answer.
        IsToolDone tool.Check bytes.now answer.status answer.report.items) }
{
    match checked(alloc, bytes) {
        Ok(made) => made_answer(alloc, made),
        Err(_) => Err(AllocError),
    }
}

/// What a tool is answered for the bytes of a file. Want of memory is the only error.
pub fn tool_done(alloc: Global, tool: Tool, bytes: &[u8]) -> Result<Answer, AllocError>
    ensures { IfOk result (λ answer.
        IsToolDone tool bytes.now answer.status answer.report.items) }
{
    match tool {
        Tool::Assemble => text_assembled(alloc, bytes),
        Tool::Disassemble => bytes_disassembled(alloc, bytes),
        Tool::Check => bytes_checked(alloc, bytes),
    }
}
