//! Each program of the rows is refused, and its message begins with the line of its row.

use crate::rows::{MORE_ROWS, ROWS};
use c_front::{Refusal, front};
use c_lex::{LexFault, lex, line_of};
use c_parse::ParseFault;
use c_pre::PreFault;
use c_tree::Lexeme;
use c_type::TypeFault;
use std::alloc::{AllocError, Global};
use std::process::Abort;
use std::test::Fail;
use trips_messages::{Fault, message, message_without_place};

fn lex_fault(fault: LexFault) -> Option<(Fault, u32)> {
    match fault {
        LexFault::BadByte(offset) => Some((Fault::BadByte, offset)),
        LexFault::BadLiteral(offset) => Some((Fault::BadLiteral, offset)),
        LexFault::Unclosed(offset) => Some((Fault::Unclosed, offset)),
        LexFault::TooManyTokens(offset) => Some((Fault::TooManyTokens, offset)),
        LexFault::Directive(offset) => Some((Fault::Directive, offset)),
        LexFault::Memory => None,
    }
}

fn pre_fault(fault: PreFault) -> Option<(Fault, u32)> {
    match fault {
        PreFault::Unbalanced(offset) => Some((Fault::Unbalanced, offset)),
        PreFault::Redefined(offset) => Some((Fault::Redefined, offset)),
        PreFault::BadDefine(offset) => Some((Fault::BadDefine, offset)),
        PreFault::TooManyTokens(offset) => Some((Fault::TooManyReplaced, offset)),
        PreFault::Format(offset) => Some((Fault::Format, offset)),
        PreFault::Memory => None,
    }
}

fn parse_fault(fault: ParseFault) -> Option<(Fault, u32)> {
    match fault {
        ParseFault::Syntax(offset) => Some((Fault::Syntax, offset)),
        ParseFault::TooDeep(offset) => Some((Fault::TooDeep, offset)),
        ParseFault::Memory => None,
    }
}

fn type_fault(fault: TypeFault) -> Option<(Fault, u32)> {
    match fault {
        TypeFault::Unknown(offset) => Some((Fault::Unknown, offset)),
        TypeFault::Twice(offset) => Some((Fault::Twice, offset)),
        TypeFault::Mismatch(offset) => Some((Fault::Mismatch, offset)),
        TypeFault::Arity(offset) => Some((Fault::Arity, offset)),
        TypeFault::NoMain => None,
        TypeFault::TooManyScalars(offset) => Some((Fault::TooManyScalars, offset)),
        TypeFault::TooManyParams(offset) => Some((Fault::TooManyParams, offset)),
        TypeFault::Need(offset) => Some((Fault::Need, offset)),
        TypeFault::TooLarge(offset) => Some((Fault::TooLarge, offset)),
        TypeFault::Memory => None,
    }
}

/// The fault of a refusal and its offset; none for a fault without a place.
fn placed(refusal: Refusal) -> Option<(Fault, u32)> {
    match refusal {
        Refusal::Lex(fault) => lex_fault(fault),
        Refusal::Directive(fault) => pre_fault(fault),
        Refusal::Parse(fault) => parse_fault(fault),
        Refusal::Typing(fault) => type_fault(fault),
        Refusal::Memory => None,
    }
}

/// The tokens of a text, or none where the lexer refuses it.
fn tokens_of(alloc: Global, text: &[u8]) -> Result<Vec<Lexeme>, AllocError> {
    if 10_000 < text.len() {
        return Ok(Vec::new(alloc));
    }
    match lex(alloc, text) {
        Ok(tokens) => Ok(tokens),
        Err(_) => Ok(Vec::new(alloc)),
    }
}

/// What is told of a text, or nothing of one that is accepted.
fn told(alloc: Global, text: &[u8]) -> Result<Vec<u8>, AllocError> {
    if 10_000 < text.len() {
        return Ok(Vec::new(alloc));
    }
    match front(alloc, text) {
        Ok(_) => Ok(Vec::new(alloc)),
        Err(refusal) => match placed(refusal) {
            Some((fault, offset)) => {
                let line = line_of(text, offset);
                let tokens = tokens_of(alloc, text)?;
                message(alloc, "a.c", text, &tokens, line, fault, offset)
            }
            None => message_without_place(alloc, "a.c", Fault::NoMain),
        },
    }
}

/// What stands before the first line feed.
fn first_line(text: &[u8]) -> &[u8] {
    for (i, b) in text.iter().enumerate() {
        if *b == b'\n' {
            return &text[..i];
        }
    }
    text
}

fn assert_row(rt: &impl Abort, alloc: Global, text: &str, want: &str) -> Result<(), AllocError> {
    let all = told(alloc, text.as_bytes())?;
    assert_eq!(rt; first_line(&all), want.as_bytes(), "{text}");
    Ok(())
}

#[test]
fn tells_each_program(rt: HostRuntime) -> Result<(), Fail> {
    for (text, want) in ROWS {
        assert_row(&rt, rt.alloc(), text, want)?;
    }
    Ok(())
}

#[test]
fn tells_each_other_program(rt: HostRuntime) -> Result<(), Fail> {
    for (text, want) in MORE_ROWS {
        assert_row(&rt, rt.alloc(), text, want)?;
    }
    Ok(())
}
