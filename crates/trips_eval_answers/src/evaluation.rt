//! The evaluation of a text of C.

ghost use Rattle.std.specs.Prelude.{◌≡◌, ◌<◌, length, IfOk};
ghost use Rattle.trips_eval_answers.specs.Evaluation.{eval_status, IsEvaluation};
ghost use Rattle.trips_eval_answers.specs.inside.Evaluation.{IsTextEvaluated};

use crate::refusals::stage_refused;
use crate::reports::eval_report;
use c_front::front;
use c_meaning::{Outcome, evaluate};
use c_tree::TypedProgram;
use std::alloc::{AllocError, Global};
use trips_requests::{Answer, Status, end_status};

// The status that tells an outcome.
fn status_for(outcome: &Outcome) -> Status
    ensures { result ≡ eval_status outcome.now }
{
    match outcome {
        Outcome::More { .. } => Status::Budget,
        Outcome::Undefined { .. } => Status::Undefined,
        Outcome::Deep { .. } => Status::StackFull,
        Outcome::Done { result, .. } => end_status(result.cast_unsigned()),
    }
}

// Evaluates the text's program on the input.
fn evaluated(
    alloc: Global,
    text: &[u8],
    program: &TypedProgram,
    input: &[u8],
    steps: u32,
) -> Result<Answer, AllocError>
    requires short { length text.now < 4_294_967_295 }
    ensures { IfOk result (λ answer.
        IsEvaluation text.now program.now input.now steps answer.status answer.report.items) }
{
    let Ok(outcome) = evaluate(alloc, program, input, steps as u64) else {
        return Err(AllocError);
    };
    let report = eval_report(alloc, text, &outcome)?;
    Ok(Answer {
        status: status_for(&outcome),
        report,
    })
}

/// What the evaluation of a text of C on an input is answered, within some steps.
pub fn text_evaluated(
    alloc: Global,
    text: &[u8],
    input: &[u8],
    steps: u32,
) -> Result<Answer, AllocError>
    requires { length text.now < 4_294_967_295 }
    ensures { IfOk result (λ answer.
        IsTextEvaluated steps text.now input.now answer.status answer.report.items) }
{
    match front(alloc, text) {
        Ok(program) => evaluated(alloc, text, &program, input, steps),
        Err(refusal) => stage_refused(alloc, text, refusal),
    }
}
