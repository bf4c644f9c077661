//! How the evaluation of an accepted text ended.

ghost use Rattle.std.specs.Prelude.{◌≡◌, ◌<◌, length, IfOk, string_bytes};
ghost use Rattle.trips_requests.specs.Results.{result_line};
ghost use Rattle.trips_explain_answers.specs.Evaluated.{evaluated_told, outcome_told, reason_told};

use c_meaning::{Outcome, evaluate};
use c_meaning_spec::Fault;
use c_tree::TypedProgram;
use std::alloc::{AllocError, Global};
use trips_eval_answers::sentence;
use trips_explain_endings::{done_text, halted_text, not_done_text, too_deep_text, undefined_text};
use trips_requests::end_text;

// The line of the end of a program, by its number.
fn ending_line(alloc: Global, value: i64) -> Result<String, AllocError>
    ensures { IfOk result (λ line. string_bytes line ≡ result_line value) }
{
    let digits = format!(in alloc; "{value}")?;
    end_text(alloc, value.cast_unsigned(), digits.as_str())
}

// Why it is undefined.
fn reason_text(alloc: Global, why: Fault) -> Result<String, AllocError>
    ensures { IfOk result (λ told. string_bytes told ≡ reason_told why) }
{
    let said = sentence(alloc, why)?;
    format!(in alloc; "undefined: {said}")
}

// What is told of what came of an evaluation within so many steps, of a text whose functions are defined at these
// places.
fn outcome_text(
    alloc: Global,
    file: &str,
    text: &[u8],
    definitions: &[u32],
    steps: u32,
    outcome: &Outcome,
) -> Result<Vec<u8>, AllocError>
    requires short { length text.now < 4_294_967_295 }
    ensures { IfOk result (λ told. told.items
        ≡ outcome_told file.now text.now definitions.now steps outcome.now) }
{
    match outcome {
        Outcome::More { output, at, calls } => {
            let said = not_done_text(alloc, steps)?;
            halted_text(
                alloc,
                file,
                text,
                definitions,
                said.as_str(),
                *at,
                calls.as_slice(),
                output.as_slice(),
            )
        }
        Outcome::Undefined {
            output,
            why,
            at,
            calls,
        } => {
            let said = reason_text(alloc, *why)?;
            undefined_text(
                alloc,
                file,
                text,
                definitions,
                said.as_str(),
                *at,
                calls.as_slice(),
                output.as_slice(),
            )
        }
        Outcome::Deep { output, at, calls } => halted_text(
            alloc,
            file,
            text,
            definitions,
            too_deep_text(),
            *at,
            calls.as_slice(),
            output.as_slice(),
        ),
        Outcome::Done {
            output,
            result,
            steps,
        } => {
            let line = ending_line(alloc, *result)?;
            done_text(alloc, line.as_str(), *steps, output.as_slice())
        }
    }
}

/// What is told of the evaluation of a text's program on an input, within so many steps; the functions of the text are
/// defined at these places.
pub fn evaluated_text(
    alloc: Global,
    file: &str,
    text: &[u8],
    definitions: &[u32],
    program: &TypedProgram,
    input: &[u8],
    steps: u32,
) -> Result<Vec<u8>, AllocError>
    requires short { length text.now < 4_294_967_295 }
    ensures { IfOk result (λ told. told.items
        ≡ evaluated_told file.now text.now definitions.now program.now input.now steps) }
{
    let Ok(outcome) = evaluate(alloc, program, input, steps as u64) else {
        return Err(AllocError);
    };
    outcome_text(alloc, file, text, definitions, steps, &outcome)
}
