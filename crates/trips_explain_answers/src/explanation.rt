//! The explanation of a file: of a text of C, a target text or an image, by its name.

ghost use Rattle.std.specs.Prelude.{◌≡◌, ◌<◌, ◌++◌, ℕ, List, length, IfOk, OnOk};
ghost use Rattle.trips_explain_answers.specs.Explained.{lines_of, typing_of, IsBehindFault, IsSeen};
ghost use Rattle.c_front.specs.Fronts.{HasTree};
ghost use Rattle.trips_explain_answers.specs.inside.Explained.{IsTold, IsCounted, IsEnded, IsExplainedAs, IsExplained};
ghost use Rattle.trips_explain_answers.specs.declared.shape.Shape.TheVariants as shape;

use crate::evaluated::evaluated_text;
use crate::file_explanation::{image_explained, target_explained};
use crate::further::put_more;
use crate::shape::{Shape, shape_named};
use crate::telling::refusal_told;
use c_front::{Refusal, read, type_read};
use c_lex::{lex, line_of};
use c_tree::{Lexeme, Program, TypedProgram};
use c_type::TypeFault;
use std::alloc::{AllocError, Global};
use trips_explain_endings::definitions_of;
use trips_messages::accepted;
use trips_requests::{Answer, Status};

// How many lines a text has.
fn lines_of(text: &[u8]) -> u32
    requires short { length text.now < 4_294_967_295 }
    ensures { result ≡ lines_of text.now }
{
    let size = text.len() as u32;
    if size == 0 {
        line_of(text, 0)
    } else {
        line_of(text, size - 1)
    }
}

// What is told of an accepted text and of its program.
fn counted(
    alloc: Global,
    file: &str,
    text: &[u8],
    program: &TypedProgram,
) -> Result<Vec<u8>, AllocError>
    requires short { length text.now < 4_294_967_295 }
    ensures { IfOk result (λ said. IsCounted file.now text.now program.now said.items) }
{
    let Ok(tokens) = lex(alloc, text) else {
        return Err(AllocError);
    };
    let functions = program.functions.len() as u64;
    accepted(
        alloc,
        file,
        functions,
        lines_of(text) as u64,
        tokens.len() as u64,
    )
}

// That is told, and behind it how the evaluation on an input ends within so many steps, by the places of the functions.
fn ended(
    alloc: Global,
    file: &str,
    text: &[u8],
    definitions: &[u32],
    program: &TypedProgram,
    input: &[u8],
    steps: u32,
) -> Result<Answer, AllocError>
    requires short { length text.now < 4_294_967_295 }
    ensures { IfOk result (λ answer. IsEnded file.now text.now definitions.now program.now input.now steps
        answer.status answer.report.items) }
{
    let mut report = counted(alloc, file, text, program)?;
    let told = evaluated_text(alloc, file, text, definitions, program, input, steps)?;
    report.extend_from_slice(&told)?;
    Ok(Answer {
        status: Status::Ended,
        report,
    })
}

// The tokens of a text that the front end refuses, none where the lexer does.
fn seen(alloc: Global, text: &[u8], refusal: &Refusal) -> Result<Vec<Lexeme>, AllocError>
    requires short { length text.now < 4_294_967_295 }
    ensures { IfOk result (λ tokens. IsSeen refusal.now text.now tokens.items) }
{
    match refusal {
        Refusal::Lex(_) => Ok(Vec::new(alloc)),
        _ => match lex(alloc, text) {
            Ok(tokens) => Ok(tokens),
            Err(_) => Err(AllocError),
        },
    }
}

// The fault of the typing, if it is the typing that refuses a text.
fn typing_of(refusal: &Refusal) -> Option<TypeFault>
    ensures { result ≡ typing_of refusal.now }
{
    match refusal {
        Refusal::Typing(fault) => Some(*fault),
        _ => None,
    }
}

// Writes what is told behind the refusal of a text, by the fault of the typing.
fn put_behind(
    alloc: Global,
    out: &mut Vec<u8>,
    file: &str,
    text: &[u8],
    tokens: &[Lexeme],
    fault: Option<TypeFault>,
) -> Result<(), AllocError>
    requires short { length text.now < 4_294_967_295 }
    ensures ok { OnOk result ((more : List ℕ) × IsBehindFault file.now text.now tokens.now fault more
        × (out.new.items ≡ out.old.items ++ more)) }
{
    match fault {
        None => Ok(()),
        Some(fault) => put_more(alloc, out, file, text, tokens, fault),
    }
}

// What is told of a text that a stage of the front end refuses.
fn refused(alloc: Global, file: &str, text: &[u8], refusal: Refusal) -> Result<Answer, AllocError>
    requires short { length text.now < 4_294_967_295 }
    ensures { IfOk result (λ answer.
        IsTold file.now text.now refusal answer.status answer.report.items) }
{
    let tokens = seen(alloc, text, &refusal)?;
    let fault = typing_of(&refusal);
    let mut report = refusal_told(alloc, file, text, &tokens, refusal)?;
    put_behind(alloc, &mut report, file, text, &tokens, fault)?;
    Ok(Answer {
        status: Status::Refused,
        report,
    })
}

// What the explanation of a text of C is answered that has this tree, with an input and so many steps.
fn tree_explained(
    alloc: Global,
    file: &str,
    text: &[u8],
    tree: Program,
    input: &[u8],
    steps: u32,
) -> Result<Answer, AllocError>
    requires short { length text.now < 4_294_967_295 }
    requires tree { HasTree text.now tree }
    ensures { IfOk result (λ answer.
        IsExplainedAs shape.Source file.now text.now input.now steps answer.status answer.report.items) }
{
    let definitions = definitions_of(alloc, &tree)?;
    match type_read(alloc, tree) {
        Ok(program) => ended(alloc, file, text, &definitions, &program, input, steps),
        Err(refusal) => refused(alloc, file, text, refusal),
    }
}

// What the explanation of a text of C is answered, under the name of its file, with an input and so many steps.
fn text_explained(
    alloc: Global,
    file: &str,
    text: &[u8],
    input: &[u8],
    steps: u32,
) -> Result<Answer, AllocError>
    requires short { length text.now < 4_294_967_295 }
    ensures { IfOk result (λ answer.
        IsExplainedAs shape.Source file.now text.now input.now steps answer.status answer.report.items) }
{
    match read(alloc, text) {
        Ok(tree) => tree_explained(alloc, file, text, tree, input, steps),
        Err(refusal) => refused(alloc, file, text, refusal),
    }
}

/// What the explanation of a file is answered, under its name; a text of C is evaluated on an input, within so many
/// steps. Want of memory is the only error.
pub fn file_explained(
    alloc: Global,
    file: &str,
    bytes: &[u8],
    input: &[u8],
    steps: u32,
) -> Result<Answer, AllocError>
    requires short { length bytes.now < 4_294_967_295 }
    ensures { IfOk result (λ answer.
        IsExplained file.now bytes.now input.now steps answer.status answer.report.items) }
{
    match shape_named(file) {
        Shape::Source => text_explained(alloc, file, bytes, input, steps),
        Shape::Target => target_explained(alloc, file, bytes),
        Shape::Image => image_explained(alloc, file, bytes),
    }
}
