//! The reports of the refusals of texts of C, and the answers with them.

ghost use Rattle.std.specs.Prelude.{◌≡◌, ◌≢◌, ◌<◌, length, IfOk};
ghost use Rattle.c_lex.specs.Bytes.{line_of};
ghost use Rattle.trips_eval_answers.specs.Refusals.{lex_text, pre_text, parse_text, type_text, front_refusal};
ghost use Rattle.trips_eval_answers.specs.inside.Refusals.{IsFault};
ghost use Rattle.trips_requests.specs.Texts.{IsFixed, on_line};

use c_front::Refusal;
use c_lex::{LexFault, line_of};
use c_parse::ParseFault;
use c_pre::PreFault;
use c_type::TypeFault;
use std::alloc::{AllocError, Global};
use trips_requests::{Answer, Status, on_line};

// The line of a fault at an offset of the text.
fn placed(alloc: Global, name: &str, text: &[u8], offset: u32) -> Result<Vec<u8>, AllocError>
    requires short { length text.now < 4_294_967_295 }
    ensures text { IfOk result (λ report. report.items ≡ on_line name.now (line_of text.now offset)) }
{
    on_line(alloc, name, line_of(text, offset))
}

// The refusal of a text that has no tokens.
fn lex_text(alloc: Global, text: &[u8], fault: LexFault) -> Result<Vec<u8>, AllocError>
    requires short { length text.now < 4_294_967_295 }
    ensures text { IfOk result (λ report. report.items ≡ lex_text text.now fault) }
    ensures fault { IfOk result (λ _. fault ≢ LexFault.Memory) }
{
    match fault {
        LexFault::BadByte(offset) => placed(alloc, "refused lex 1 BadByte", text, offset),
        LexFault::BadLiteral(offset) => placed(alloc, "refused lex 2 BadLiteral", text, offset),
        LexFault::Unclosed(offset) => placed(alloc, "refused lex 3 Unclosed", text, offset),
        LexFault::TooManyTokens(offset) => placed(
            alloc,
            "refused lex 4 TooManyTokens",
            text,
            offset,
        ),
        LexFault::Directive(offset) => placed(alloc, "refused lex 5 Directive", text, offset),
        LexFault::Memory => Err(AllocError),
    }
}

// The refusal of a text whose directives are refused.
fn pre_text(alloc: Global, text: &[u8], fault: PreFault) -> Result<Vec<u8>, AllocError>
    requires short { length text.now < 4_294_967_295 }
    ensures text { IfOk result (λ report. report.items ≡ pre_text text.now fault) }
    ensures fault { IfOk result (λ _. fault ≢ PreFault.Memory) }
{
    match fault {
        PreFault::Unbalanced(offset) => {
            placed(alloc, "refused directive 1 Unbalanced", text, offset)
        }
        PreFault::Redefined(offset) => placed(alloc, "refused directive 2 Redefined", text, offset),
        PreFault::BadDefine(offset) => placed(alloc, "refused directive 3 BadDefine", text, offset),
        PreFault::TooManyTokens(offset) => placed(
            alloc,
            "refused directive 4 TooManyTokens",
            text,
            offset,
        ),
        PreFault::Format(offset) => placed(alloc, "refused directive 5 Format", text, offset),
        PreFault::Memory => Err(AllocError),
    }
}

// The refusal of a text whose tokens have no tree.
fn parse_text(alloc: Global, text: &[u8], fault: ParseFault) -> Result<Vec<u8>, AllocError>
    requires short { length text.now < 4_294_967_295 }
    ensures text { IfOk result (λ report. report.items ≡ parse_text text.now fault) }
    ensures fault { IfOk result (λ _. fault ≢ ParseFault.Memory) }
{
    match fault {
        ParseFault::Syntax(offset) => placed(alloc, "refused parse 1 Syntax", text, offset),
        ParseFault::TooDeep(offset) => placed(alloc, "refused parse 2 TooDeep", text, offset),
        ParseFault::Memory => Err(AllocError),
    }
}

// The refusal of a text whose tree has no types.
fn type_text(alloc: Global, text: &[u8], fault: TypeFault) -> Result<Vec<u8>, AllocError>
    requires short { length text.now < 4_294_967_295 }
    ensures text { IfOk result (λ report. report.items ≡ type_text text.now fault) }
    ensures fault { IfOk result (λ _. fault ≢ TypeFault.Memory) }
{
    match fault {
        TypeFault::Unknown(offset) => placed(alloc, "refused type 1 Unknown", text, offset),
        TypeFault::Twice(offset) => placed(alloc, "refused type 2 Twice", text, offset),
        TypeFault::Mismatch(offset) => placed(alloc, "refused type 3 Mismatch", text, offset),
        TypeFault::Arity(offset) => placed(alloc, "refused type 4 Arity", text, offset),
        TypeFault::NoMain => Vec::from_slice(alloc, b"refused type 5 NoMain\n"),
        TypeFault::TooManyScalars(offset) => placed(
            alloc,
            "refused type 6 TooManyScalars",
            text,
            offset,
        ),
        TypeFault::TooManyParams(offset) => placed(
            alloc,
            "refused type 7 TooManyParams",
            text,
            offset,
        ),
        TypeFault::Need(offset) => placed(alloc, "refused type 8 Need", text, offset),
        TypeFault::TooLarge(offset) => placed(alloc, "refused type 9 TooLarge", text, offset),
        TypeFault::Memory => Err(AllocError),
    }
}

// The report of the refusal of a text by the first stage of the front end that refuses it: the
// stage, the number and the name of the fault, and its line. Want of memory is the only error, and
// is answered where the refusal (`memory`) or its fault (`fault`) is one.
fn front_report(alloc: Global, text: &[u8], refusal: Refusal) -> Result<Vec<u8>, AllocError>
    requires short { length text.now < 4_294_967_295 }
    ensures ok { IfOk result (λ report. report.items ≡ front_refusal text.now refusal) }
    ensures memory { IfOk result (λ _. refusal ≢ Refusal.Memory) }
    ensures fault { IfOk result (λ _. IsFault refusal) }
{
    match refusal {
        Refusal::Lex(fault) => lex_text(alloc, text, fault),
        Refusal::Directive(fault) => pre_text(alloc, text, fault),
        Refusal::Parse(fault) => parse_text(alloc, text, fault),
        Refusal::Typing(fault) => type_text(alloc, text, fault),
        Refusal::Memory => Err(AllocError),
    }
}

/// The answer where a stage of the front end refuses a text. Want of memory is no refusal, and stays
/// an error.
pub fn stage_refused(alloc: Global, text: &[u8], refusal: Refusal) -> Result<Answer, AllocError>
    requires short { length text.now < 4_294_967_295 }
    ensures refused { IfOk result (λ answer. (refusal ≢ Refusal.Memory)
        × IsFixed Status.Refused (front_refusal text.now refusal) answer.status answer.report.items) }
    ensures fault { IfOk result (λ _. IsFault refusal) }
{
    Ok(Answer {
        status: Status::Refused,
        report: front_report(alloc, text, refusal)?,
    })
}
