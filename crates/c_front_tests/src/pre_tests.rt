//! Raw tokens with the program or the fault that C17 6.10 gives them.

use crate::pre_rows::{HEADER_ROWS, LITERAL_ROWS, ROWS};
use c_pre::{PreFault, program};
use c_tree::{Form, Key, Kind, Lexeme, Mark, Word};
use std::alloc::{AllocError, Global};
use std::process::Abort;
use std::test::Fail;

/// The form of a word.
fn form_of(alloc: Global, word: &str) -> Result<Form, AllocError> {
    match word.as_bytes() {
        b"int" => Ok(Form::Key(Key::Int)),
        b"long" => Ok(Form::Key(Key::Long)),
        b"sizeof" => Ok(Form::Key(Key::Sizeof)),
        b"+" => Ok(Form::Mark(Mark::Plus)),
        b"*" => Ok(Form::Mark(Mark::Star)),
        b"(" => Ok(Form::Mark(Mark::LeftParen)),
        b";" => Ok(Form::Mark(Mark::Semicolon)),
        b"=" => Ok(Form::Mark(Mark::Assign)),
        b"," => Ok(Form::Mark(Mark::Comma)),
        b"[" => Ok(Form::Mark(Mark::LeftBracket)),
        b"]" => Ok(Form::Mark(Mark::RightBracket)),
        b"{" => Ok(Form::Mark(Mark::LeftBrace)),
        b"}" => Ok(Form::Mark(Mark::RightBrace)),
        b"0" => Ok(number(0)),
        b"1" => Ok(number(1)),
        b"2" => Ok(number(2)),
        b"3" => Ok(number(3)),
        b"4" => Ok(number(4)),
        b";;" => Ok(Form::Name(Word::from_slice(alloc, b"\n")?)),
        bytes => Ok(Form::Name(Word::from_slice(alloc, bytes)?)),
    }
}

/// A constant of type int.
fn number(value: u64) -> Form {
    Form::Number {
        value,
        kind: Kind::Int,
    }
}

/// The raw tokens of words.
fn raw_of(alloc: Global, words: &[&str]) -> Result<Vec<Lexeme>, AllocError> {
    let mut raw = Vec::new(alloc);
    let mut offset = 0u32;
    for word in words {
        let form = form_of(alloc, word)?;
        raw.push(Lexeme { offset, form })?;
        offset = offset.wrapping_add(10);
    }
    Ok(raw)
}

/// The word of a form.
fn word_of(alloc: Global, form: &Form) -> Result<String, AllocError> {
    match form {
        Form::Include => String::from_str(alloc, "include"),
        Form::Key(Key::Int) => String::from_str(alloc, "int"),
        Form::Key(Key::Long) => String::from_str(alloc, "long"),
        Form::Key(Key::Char) => String::from_str(alloc, "char"),
        Form::Key(Key::Bool) => String::from_str(alloc, "_Bool"),
        Form::Key(_) => String::from_str(alloc, "key"),
        Form::Mark(Mark::Plus) => String::from_str(alloc, "+"),
        Form::Mark(Mark::Star) => String::from_str(alloc, "*"),
        Form::Mark(Mark::LeftParen) => String::from_str(alloc, "("),
        Form::Mark(Mark::Semicolon) => String::from_str(alloc, ";"),
        Form::Mark(Mark::Assign) => String::from_str(alloc, "="),
        Form::Mark(Mark::Comma) => String::from_str(alloc, ","),
        Form::Mark(Mark::LeftBracket) => String::from_str(alloc, "["),
        Form::Mark(Mark::RightBracket) => String::from_str(alloc, "]"),
        Form::Mark(Mark::LeftBrace) => String::from_str(alloc, "{"),
        Form::Mark(Mark::RightBrace) => String::from_str(alloc, "}"),
        Form::Mark(_) => String::from_str(alloc, "mark"),
        Form::Number { value, .. } => format!(in alloc; "{value}"),
        Form::Name(name) => match str::from_utf8(name.as_slice()) {
            Ok(text) => String::from_str(alloc, text),
            Err(_) => String::from_str(alloc, "name"),
        },
    }
}

/// The words of a program, or its fault.
fn told(alloc: Global, answer: Result<Vec<Lexeme>, PreFault>) -> Result<String, AllocError> {
    match answer {
        Ok(tokens) => {
            let mut text = String::new(alloc);
            for (i, token) in tokens.iter().enumerate() {
                if 0 < i {
                    text.push_str(" ")?;
                }
                text.push_str(&word_of(alloc, &token.form)?)?;
            }
            Ok(text)
        }
        Err(PreFault::Unbalanced(at)) => format!(in alloc; "Unbalanced {at}"),
        Err(PreFault::Redefined(at)) => format!(in alloc; "Redefined {at}"),
        Err(PreFault::BadDefine(at)) => format!(in alloc; "BadDefine {at}"),
        Err(PreFault::TooManyTokens(at)) => format!(in alloc; "TooManyTokens {at}"),
        Err(PreFault::Format(at)) => format!(in alloc; "Format {at}"),
        Err(PreFault::Memory) => Err(AllocError),
    }
}

fn assert_row(
    rt: &impl Abort,
    alloc: Global,
    number: usize,
    words: &[&str],
    want: &str,
) -> Result<(), AllocError> {
    let raw = raw_of(alloc, words)?;
    if 100 < raw.len() {
        return Ok(());
    }
    let got = told(alloc, program(alloc, raw))?;
    assert_eq!(rt; got.as_str(), want, "row {number}");
    Ok(())
}

#[test]
fn gives_each_program(rt: HostRuntime) -> Result<(), Fail> {
    for (number, (words, want)) in ROWS.iter().enumerate() {
        assert_row(&rt, rt.alloc(), number, words, want)?;
    }
    Ok(())
}

#[test]
fn gives_what_headers_make_known(rt: HostRuntime) -> Result<(), Fail> {
    for (number, (words, want)) in HEADER_ROWS.iter().enumerate() {
        assert_row(&rt, rt.alloc(), number, words, want)?;
    }
    Ok(())
}

#[test]
fn gives_each_unit_of_literals(rt: HostRuntime) -> Result<(), Fail> {
    for (number, (words, want)) in LITERAL_ROWS.iter().enumerate() {
        assert_row(&rt, rt.alloc(), number, words, want)?;
    }
    Ok(())
}
