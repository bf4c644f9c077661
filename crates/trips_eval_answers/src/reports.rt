//! The report of an evaluation.

ghost use Rattle.std.specs.Prelude.{◌≡◌, ◌<◌, IfOk, length, string_bytes};
ghost use Rattle.trips_eval_answers.specs.Evaluation.{done_lines, eval_report};

use crate::stops::undefined_line;
use c_meaning::Outcome;
use std::alloc::{AllocError, Global};
use trips_requests::{end_text, output_text};

// The lines of how the program ended and of how many steps were taken.
fn done_text(alloc: Global, value: i64, steps: u64) -> Result<String, AllocError>
    ensures { IfOk result (λ text. string_bytes text ≡ done_lines value steps) }
{
    let digits = format!(in alloc; "{value}")?;
    let line = end_text(alloc, value.cast_unsigned(), digits.as_str())?;
    format!(in alloc; "{line}\nsteps {steps}")
}

/// The report of an evaluation of a text: its output, result and steps, its output and where and why it is
/// undefined, or the word that says why it has none.
/// Want of memory is the only error.
pub fn eval_report(alloc: Global, text: &[u8], outcome: &Outcome) -> Result<Vec<u8>, AllocError>
    requires short { length text.now < 4_294_967_295 }
    ensures ok { IfOk result (λ report. report.items ≡ eval_report text.now outcome.now) }
{
    match outcome {
        Outcome::More { .. } => Vec::from_slice(alloc, b"more\n"),
        Outcome::Undefined {
            output,
            why,
            at,
            calls,
        } => {
            let line = undefined_line(alloc, text, *why, *at, calls.as_slice())?;
            output_text(alloc, output.as_slice(), line.as_str())
        }
        Outcome::Deep { .. } => Vec::from_slice(alloc, b"deep\n"),
        Outcome::Done {
            output,
            result,
            steps,
        } => {
            let lines = done_text(alloc, *result, *steps)?;
            output_text(alloc, output.as_slice(), lines.as_str())
        }
    }
}
