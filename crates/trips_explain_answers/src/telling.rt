//! What is told of the refusals of texts of C, under the name of a file.

ghost use Rattle.std.specs.Prelude.{◌≡◌, ◌≢◌, ◌<◌, length, IfOk};
ghost use Rattle.trips_explain_answers.specs.Told.{placed, lex_told, pre_told, parse_told, type_told, refusal_told};

use c_front::Refusal;
use c_lex::{LexFault, line_of};
use c_parse::ParseFault;
use c_pre::PreFault;
use c_tree::Lexeme;
use c_type::TypeFault;
use std::alloc::{AllocError, Global};
use trips_messages::{Fault, message, message_without_place};

// What is told of a fault at an offset of the text, which has these tokens.
fn placed(
    alloc: Global,
    file: &str,
    text: &[u8],
    tokens: &[Lexeme],
    fault: Fault,
    offset: u32,
) -> Result<Vec<u8>, AllocError>
    requires short { length text.now < 4_294_967_295 }
    ensures text { IfOk result (λ report. report.items ≡ placed file.now text.now tokens.now fault offset) }
{
    message(
        alloc,
        file,
        text,
        tokens,
        line_of(text, offset),
        fault,
        offset,
    )
}

// Of a text that the lexer refuses.
fn lex_told(
    alloc: Global,
    file: &str,
    text: &[u8],
    tokens: &[Lexeme],
    fault: LexFault,
) -> Result<Vec<u8>, AllocError>
    requires short { length text.now < 4_294_967_295 }
    ensures text { IfOk result (λ report. report.items ≡ lex_told file.now text.now tokens.now fault) }
{
    match fault {
        LexFault::BadByte(offset) => placed(alloc, file, text, tokens, Fault::BadByte, offset),
        LexFault::BadLiteral(offset) => placed(
            alloc,
            file,
            text,
            tokens,
            Fault::BadLiteral,
            offset,
        ),
        LexFault::Unclosed(offset) => placed(alloc, file, text, tokens, Fault::Unclosed, offset),
        LexFault::TooManyTokens(offset) => placed(
            alloc,
            file,
            text,
            tokens,
            Fault::TooManyTokens,
            offset,
        ),
        LexFault::Directive(offset) => placed(alloc, file, text, tokens, Fault::Directive, offset),
        LexFault::Memory => Err(AllocError),
    }
}

// Of a text whose directives are refused.
fn pre_told(
    alloc: Global,
    file: &str,
    text: &[u8],
    tokens: &[Lexeme],
    fault: PreFault,
) -> Result<Vec<u8>, AllocError>
    requires short { length text.now < 4_294_967_295 }
    ensures text { IfOk result (λ report. report.items ≡ pre_told file.now text.now tokens.now fault) }
{
    match fault {
        PreFault::Unbalanced(offset) => placed(
            alloc,
            file,
            text,
            tokens,
            Fault::Unbalanced,
            offset,
        ),
        PreFault::Redefined(offset) => placed(alloc, file, text, tokens, Fault::Redefined, offset),
        PreFault::BadDefine(offset) => placed(alloc, file, text, tokens, Fault::BadDefine, offset),
        PreFault::TooManyTokens(offset) => placed(
            alloc,
            file,
            text,
            tokens,
            Fault::TooManyReplaced,
            offset,
        ),
        PreFault::Format(offset) => placed(alloc, file, text, tokens, Fault::Format, offset),
        PreFault::Memory => Err(AllocError),
    }
}

// Of a text whose tokens have no tree.
fn parse_told(
    alloc: Global,
    file: &str,
    text: &[u8],
    tokens: &[Lexeme],
    fault: ParseFault,
) -> Result<Vec<u8>, AllocError>
    requires short { length text.now < 4_294_967_295 }
    ensures text { IfOk result (λ report. report.items ≡ parse_told file.now text.now tokens.now fault) }
{
    match fault {
        ParseFault::Syntax(offset) => placed(alloc, file, text, tokens, Fault::Syntax, offset),
        ParseFault::TooDeep(offset) => placed(alloc, file, text, tokens, Fault::TooDeep, offset),
        ParseFault::Memory => Err(AllocError),
    }
}

/// Of a text whose tree has no types.
pub fn type_told(
    alloc: Global,
    file: &str,
    text: &[u8],
    tokens: &[Lexeme],
    fault: TypeFault,
) -> Result<Vec<u8>, AllocError>
    requires short { length text.now < 4_294_967_295 }
    ensures text { IfOk result (λ report. report.items ≡ type_told file.now text.now tokens.now fault) }
{
    match fault {
        TypeFault::Unknown(offset) => placed(alloc, file, text, tokens, Fault::Unknown, offset),
        TypeFault::Twice(offset) => placed(alloc, file, text, tokens, Fault::Twice, offset),
        TypeFault::Mismatch(offset) => placed(alloc, file, text, tokens, Fault::Mismatch, offset),
        TypeFault::Arity(offset) => placed(alloc, file, text, tokens, Fault::Arity, offset),
        TypeFault::NoMain => message_without_place(alloc, file, Fault::NoMain),
        TypeFault::TooManyScalars(offset) => {
            placed(alloc, file, text, tokens, Fault::TooManyScalars, offset)
        }
        TypeFault::TooManyParams(offset) => placed(
            alloc,
            file,
            text,
            tokens,
            Fault::TooManyParams,
            offset,
        ),
        TypeFault::Need(offset) => placed(alloc, file, text, tokens, Fault::Need, offset),
        TypeFault::TooLarge(offset) => placed(alloc, file, text, tokens, Fault::TooLarge, offset),
        TypeFault::Memory => Err(AllocError),
    }
}

/// What is told of a text by the first stage of the front end that refuses it. Want of memory is no refusal, and
/// stays an error.
pub fn refusal_told(
    alloc: Global,
    file: &str,
    text: &[u8],
    tokens: &[Lexeme],
    refusal: Refusal,
) -> Result<Vec<u8>, AllocError>
    requires short { length text.now < 4_294_967_295 }
    ensures ok { IfOk result (λ report. report.items ≡ refusal_told file.now text.now tokens.now refusal) }
    ensures memory { IfOk result (λ _. refusal ≢ Refusal.Memory) }
{
    match refusal {
        Refusal::Lex(fault) => lex_told(alloc, file, text, tokens, fault),
        Refusal::Directive(fault) => pre_told(alloc, file, text, tokens, fault),
        Refusal::Parse(fault) => parse_told(alloc, file, text, tokens, fault),
        Refusal::Typing(fault) => type_told(alloc, file, text, tokens, fault),
        Refusal::Memory => Err(AllocError),
    }
}
