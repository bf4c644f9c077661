//! Texts with the tokens or the fault that C17 and docs/LANGUAGE.md give them.

use c_lex::{LexFault, MOST_TOKENS, lex};
use c_tree::{Form, Key, Kind, Lexeme, Mark};
use std::alloc::{AllocError, Global};
use std::process::Abort;
use std::test::Fail;

/// What a token has to be, beside its offset.
#[derive(Clone, Copy)]
enum Want {
    Include,
    Key(Key),
    Name(&'static [u8]),
    Number(u64, Kind),
    Mark(Mark),
}

type Row = (&'static [u8], Result<&'static [(u32, Want)], LexFault>);

const ROWS: &[Row] = &[
    (b"", Ok(&[])),
    (b" \t\n\x0B\x0C\r", Ok(&[])),
    (
        b"int main(void)\n{ return 0; }\n",
        Ok(&[
            (0, Want::Key(Key::Int)),
            (4, Want::Name(b"main")),
            (8, Want::Mark(Mark::LeftParen)),
            (9, Want::Key(Key::Void)),
            (13, Want::Mark(Mark::RightParen)),
            (15, Want::Mark(Mark::LeftBrace)),
            (17, Want::Key(Key::Return)),
            (24, Want::Number(0, Kind::Int)),
            (25, Want::Mark(Mark::Semicolon)),
            (27, Want::Mark(Mark::RightBrace)),
        ]),
    ),
    // The longest piece at each place (C17 6.4).
    (
        b"a+++b",
        Ok(&[
            (0, Want::Name(b"a")),
            (1, Want::Mark(Mark::PlusPlus)),
            (3, Want::Mark(Mark::Plus)),
            (4, Want::Name(b"b")),
        ]),
    ),
    (b"<<=", Ok(&[(0, Want::Mark(Mark::ShiftLeftAssign))])),
    (b">>=", Ok(&[(0, Want::Mark(Mark::ShiftRightAssign))])),
    (
        b"<=-",
        Ok(&[
            (0, Want::Mark(Mark::LessEqual)),
            (2, Want::Mark(Mark::Minus)),
        ]),
    ),
    (
        b"whiled _Bool",
        Ok(&[(0, Want::Name(b"whiled")), (7, Want::Key(Key::Bool))]),
    ),
    (b"_x9", Ok(&[(0, Want::Name(b"_x9"))])),
    // A comment is a space.
    (
        b"a/*\n*/b",
        Ok(&[(0, Want::Name(b"a")), (6, Want::Name(b"b"))]),
    ),
    (b"/**/x", Ok(&[(4, Want::Name(b"x"))])),
    (b"/***/x", Ok(&[(5, Want::Name(b"x"))])),
    (b"// \xFF\0 /*\nx", Ok(&[(9, Want::Name(b"x"))])),
    (b"/* // */x", Ok(&[(8, Want::Name(b"x"))])),
    (b"/", Ok(&[(0, Want::Mark(Mark::Slash))])),
    (b"//", Ok(&[])),
    (b"/*\n", Err(LexFault::Unclosed(0))),
    (b"\n\n /*", Err(LexFault::Unclosed(3))),
    (b"/*/", Err(LexFault::Unclosed(0))),
    (b"/* *", Err(LexFault::Unclosed(0))),
    // Integer constants (C17 6.4.4.1).
    (
        b"2147483647",
        Ok(&[(0, Want::Number(2147483647, Kind::Int))]),
    ),
    (
        b"2147483648",
        Ok(&[(0, Want::Number(2147483648, Kind::Long))]),
    ),
    (
        b"0x7fffffff",
        Ok(&[(0, Want::Number(2147483647, Kind::Int))]),
    ),
    (
        b"0x80000000",
        Ok(&[(0, Want::Number(2147483648, Kind::UInt))]),
    ),
    (
        b"0XFFFFFFFF",
        Ok(&[(0, Want::Number(4294967295, Kind::UInt))]),
    ),
    (
        b"0x100000000",
        Ok(&[(0, Want::Number(4294967296, Kind::Long))]),
    ),
    (b"017", Ok(&[(0, Want::Number(15, Kind::Int))])),
    (
        b"037777777777",
        Ok(&[(0, Want::Number(4294967295, Kind::UInt))]),
    ),
    (b"0u", Ok(&[(0, Want::Number(0, Kind::UInt))])),
    (b"1L", Ok(&[(0, Want::Number(1, Kind::Long))])),
    (b"1Ul", Ok(&[(0, Want::Number(1, Kind::ULong))])),
    (b"1lU", Ok(&[(0, Want::Number(1, Kind::ULong))])),
    (
        b"4294967296u",
        Ok(&[(0, Want::Number(4294967296, Kind::ULong))]),
    ),
    (
        b"9223372036854775807",
        Ok(&[(0, Want::Number(9223372036854775807, Kind::Long))]),
    ),
    (
        b"0x8000000000000000",
        Ok(&[(0, Want::Number(9223372036854775808, Kind::ULong))]),
    ),
    (
        b"18446744073709551615u",
        Ok(&[(0, Want::Number(18446744073709551615, Kind::ULong))]),
    ),
    (b"9223372036854775808", Err(LexFault::BadLiteral(0))),
    (b"18446744073709551616", Err(LexFault::BadLiteral(0))),
    (b"18446744073709551616u", Err(LexFault::BadLiteral(0))),
    (
        b"0xE +1",
        Ok(&[
            (0, Want::Number(14, Kind::Int)),
            (4, Want::Mark(Mark::Plus)),
            (5, Want::Number(1, Kind::Int)),
        ]),
    ),
    (b"\n0xE+1", Err(LexFault::BadLiteral(1))),
    (b"0b1", Err(LexFault::BadLiteral(0))),
    (b"08", Err(LexFault::BadLiteral(0))),
    (b"09", Err(LexFault::BadLiteral(0))),
    (b"1.0", Err(LexFault::BadLiteral(0))),
    (b"1e+5", Err(LexFault::BadLiteral(0))),
    (b"0x", Err(LexFault::BadLiteral(0))),
    (b"1uu", Err(LexFault::BadLiteral(0))),
    // Character constants (C17 6.4.4.4).
    (b"'a'", Ok(&[(0, Want::Number(97, Kind::Int))])),
    (b"'\\n'", Ok(&[(0, Want::Number(10, Kind::Int))])),
    (b"'\\''", Ok(&[(0, Want::Number(39, Kind::Int))])),
    (b"'\"'", Ok(&[(0, Want::Number(34, Kind::Int))])),
    (b"'\\0'", Ok(&[(0, Want::Number(0, Kind::Int))])),
    (
        b"'\\377'",
        Ok(&[(0, Want::Number(18446744073709551615, Kind::Int))]),
    ),
    (b"'\\x0000041'", Ok(&[(0, Want::Number(65, Kind::Int))])),
    (b"'\\400'", Err(LexFault::BadLiteral(0))),
    (b"'\\x100'", Err(LexFault::BadLiteral(0))),
    (b"'\\x'", Err(LexFault::BadLiteral(0))),
    (b"'\\q'", Err(LexFault::BadLiteral(0))),
    (b"''", Err(LexFault::BadLiteral(0))),
    (b"'ab'", Err(LexFault::BadLiteral(0))),
    (b"'a", Err(LexFault::BadLiteral(0))),
    (b"\n'\n'", Err(LexFault::BadLiteral(1))),
    // Lines that begin with `#`.
    (b"#include <stdio.h>", Ok(&[(0, Want::Include)])),
    (
        b"\n \t# \tinclude\t <stdio.h> \t\nx",
        Ok(&[(3, Want::Include), (27, Want::Name(b"x"))]),
    ),
    (b"#include<stdio.h>", Ok(&[(0, Want::Include)])),
    (b"#include < stdio.h>", Err(LexFault::Directive(0))),
    (b"#include", Err(LexFault::Directive(0))),
    (b"#pragma once\n", Err(LexFault::Directive(0))),
    (b"x #include <stdio.h>", Err(LexFault::BadByte(2))),
    // Whole texts, and texts that end too early.
    (
        b"int main(void) { return 18446744073709551616; }",
        Err(LexFault::BadLiteral(24)),
    ),
    (
        b"int main(void) { return 0xE+1; }",
        Err(LexFault::BadLiteral(24)),
    ),
    (b"/*", Err(LexFault::Unclosed(0))),
    (b"'", Err(LexFault::BadLiteral(0))),
    (b"x\n'\\", Err(LexFault::BadLiteral(2))),
    (b"\n#", Err(LexFault::Directive(1))),
    (b"/* */ #include <stdio.h>", Err(LexFault::BadByte(6))),
    (b"#include <stdio.h>\r\n", Err(LexFault::Directive(0))),
    // Other bytes.
    (b"\n@", Err(LexFault::BadByte(1))),
    (b"\0", Err(LexFault::BadByte(0))),
    (b"x\x80", Err(LexFault::BadByte(1))),
];

/// Digraphs (C17 6.4.6, paragraph 3) and splices (C17 5.1.1.2).
const SPELLINGS: &[Row] = &[
    (
        b"a<:1:>",
        Ok(&[
            (0, Want::Name(b"a")),
            (1, Want::Mark(Mark::LeftBracket)),
            (3, Want::Number(1, Kind::Int)),
            (4, Want::Mark(Mark::RightBracket)),
        ]),
    ),
    (
        b"<%%>",
        Ok(&[
            (0, Want::Mark(Mark::LeftBrace)),
            (2, Want::Mark(Mark::RightBrace)),
        ]),
    ),
    (
        b"<:::>",
        Ok(&[
            (0, Want::Mark(Mark::LeftBracket)),
            (2, Want::Mark(Mark::Colon)),
            (3, Want::Mark(Mark::RightBracket)),
        ]),
    ),
    (
        b"%:%=",
        Ok(&[
            (0, Want::Mark(Mark::Percent)),
            (1, Want::Mark(Mark::Colon)),
            (2, Want::Mark(Mark::PercentAssign)),
        ]),
    ),
    (
        b"a \\\nb",
        Ok(&[(0, Want::Name(b"a")), (4, Want::Name(b"b"))]),
    ),
    (
        b"a\\\n b",
        Ok(&[(0, Want::Name(b"a")), (4, Want::Name(b"b"))]),
    ),
    (b" \\\n\\\nx", Ok(&[(5, Want::Name(b"x"))])),
    (b"a\\\nb", Err(LexFault::BadByte(1))),
    (b"1\\\n2", Err(LexFault::BadByte(1))),
    (b"a\\\n\\\n b", Err(LexFault::BadByte(1))),
    (b"a \\ \nb", Err(LexFault::BadByte(2))),
    (b"a \\", Err(LexFault::BadByte(2))),
    (b"// a\\\nb\nc", Ok(&[(8, Want::Name(b"c"))])),
    (b"//\\", Ok(&[])),
    (b"x \\\n#include <stdio.h>", Err(LexFault::BadByte(4))),
    (b" \\\n #include <stdio.h>", Ok(&[(4, Want::Include)])),
];

/// Directives (C17 6.10), each with the end of its line, and includes.
const DIRECTIVES: &[Row] = &[
    (
        b"#define N 1\nx",
        Ok(&[
            (0, Want::Name(b"#define")),
            (8, Want::Name(b"N")),
            (10, Want::Number(1, Kind::Int)),
            (11, Want::Name(b"\n")),
            (12, Want::Name(b"x")),
        ]),
    ),
    (
        b"# \tundef N",
        Ok(&[(0, Want::Name(b"#undef")), (9, Want::Name(b"N"))]),
    ),
    (
        b"#else\n#endif\n",
        Ok(&[
            (0, Want::Name(b"#else")),
            (5, Want::Name(b"\n")),
            (6, Want::Name(b"#endif")),
            (12, Want::Name(b"\n")),
        ]),
    ),
    (
        b"#else  \n\n x",
        Ok(&[
            (0, Want::Name(b"#else")),
            (5, Want::Name(b"\n")),
            (10, Want::Name(b"x")),
        ]),
    ),
    (
        b"#ifdef A // b\n",
        Ok(&[
            (0, Want::Name(b"#ifdef")),
            (7, Want::Name(b"A")),
            (13, Want::Name(b"\n")),
        ]),
    ),
    (
        b"#ifndef A /* \n */ B\n",
        Ok(&[
            (0, Want::Name(b"#ifndef")),
            (8, Want::Name(b"A")),
            (18, Want::Name(b"B")),
            (19, Want::Name(b"\n")),
        ]),
    ),
    (
        b"#define A 1 \\\n 2\n",
        Ok(&[
            (0, Want::Name(b"#define")),
            (8, Want::Name(b"A")),
            (10, Want::Number(1, Kind::Int)),
            (15, Want::Number(2, Kind::Int)),
            (16, Want::Name(b"\n")),
        ]),
    ),
    (
        b"#include <limits.h>\nx",
        Ok(&[(0, Want::Name(b"<limits.h>")), (20, Want::Name(b"x"))]),
    ),
    (
        b" # include\t<string.h> \n",
        Ok(&[(1, Want::Name(b"<string.h>"))]),
    ),
    (
        b"#include <stdint.h>",
        Ok(&[(0, Want::Name(b"<stdint.h>"))]),
    ),
    (b"#include <math.h>", Err(LexFault::Directive(0))),
    (b"#include \"limits.h\"", Err(LexFault::Directive(0))),
    (b"#include <limits.h>x", Err(LexFault::Directive(0))),
    (b"x #define A", Err(LexFault::BadByte(2))),
    (b"#define A # B", Err(LexFault::BadByte(10))),
    (b"#defined A", Err(LexFault::Directive(0))),
    (b"#if 1", Err(LexFault::Directive(0))),
    (b"#", Err(LexFault::Directive(0))),
    (b"#include <stdio.h> // a", Err(LexFault::Directive(0))),
];

fn is_wanted(form: &Form, want: Want) -> bool {
    match want {
        Want::Include => match form {
            Form::Include => true,
            _ => false,
        },
        Want::Key(wanted) => match form {
            Form::Key(key) => *key == wanted,
            _ => false,
        },
        Want::Name(wanted) => match form {
            Form::Name(word) => word.as_slice() == wanted,
            _ => false,
        },
        Want::Number(number, wanted) => match form {
            Form::Number { value, kind } => *value == number && *kind == wanted,
            _ => false,
        },
        Want::Mark(wanted) => match form {
            Form::Mark(mark) => *mark == wanted,
            _ => false,
        },
    }
}

fn are_wanted(tokens: &[Lexeme], wants: &[(u32, Want)]) -> bool {
    if tokens.len() != wants.len() {
        return false;
    }
    for (token, (offset, want)) in tokens.iter().zip(wants) {
        if token.offset != *offset || !is_wanted(&token.form, *want) {
            return false;
        }
    }
    true
}

fn is_answered(alloc: Global, text: &[u8], want: Result<&[(u32, Want)], LexFault>) -> bool {
    if 100 < text.len() {
        return false;
    }
    match lex(alloc, text) {
        Ok(tokens) => match want {
            Ok(wants) => are_wanted(&tokens, wants),
            Err(_) => false,
        },
        Err(fault) => match want {
            Ok(_) => false,
            Err(wanted) => fault == wanted,
        },
    }
}

fn assert_rows(rt: &impl Abort, alloc: Global, rows: &[Row]) {
    for (text, want) in rows {
        assert!(rt; is_answered(alloc, text, *want), "{text:?}");
    }
}

/// Suffixes of `long long` (C17 6.4.4.1).
const SUFFIXES: &[Row] = &[
    (b"1ll", Ok(&[(0, Want::Number(1, Kind::Long))])),
    (b"1LLu", Ok(&[(0, Want::Number(1, Kind::ULong))])),
    (
        b"0x8000000000000000ull",
        Ok(&[(0, Want::Number(9223372036854775808, Kind::ULong))]),
    ),
    (b"1lL", Err(LexFault::BadLiteral(0))),
    (b"1lul", Err(LexFault::BadLiteral(0))),
];

#[test]
fn lexes_suffixes_of_two_letters(rt: HostRuntime) {
    assert_rows(&rt, rt.alloc(), SUFFIXES);
}

#[test]
fn lexes_directives_and_the_ends_of_their_lines(rt: HostRuntime) {
    assert_rows(&rt, rt.alloc(), DIRECTIVES);
}

#[test]
fn lexes_digraphs_and_splices(rt: HostRuntime) {
    assert_rows(&rt, rt.alloc(), SPELLINGS);
}

#[test]
fn lexes_each_text_as_the_standard_does(rt: HostRuntime) {
    assert_rows(&rt, rt.alloc(), ROWS);
}

/// A line of so many tokens as may be.
fn full_line(alloc: Global) -> Result<Vec<u8>, AllocError> {
    let mut text = vec![in alloc; b';'; MOST_TOKENS]?;
    text.push(b'\n')?;
    Ok(text)
}

/// The full line, and one byte of a second line.
fn line_and(alloc: Global, next: u8) -> Result<Vec<u8>, AllocError> {
    let mut text = full_line(alloc)?;
    text.push(next)?;
    Ok(text)
}

/// Whether a text has so many tokens.
fn has_tokens(alloc: Global, text: &[u8], count: usize) -> bool {
    if 10_000 <= text.len() {
        return false;
    }
    match lex(alloc, text) {
        Ok(tokens) => tokens.len() == count,
        Err(_) => false,
    }
}

fn assert_full(rt: &impl Abort, alloc: Global) -> Result<(), Fail> {
    let text = full_line(alloc)?;
    assert!(rt; has_tokens(alloc, &text, MOST_TOKENS));
    Ok(())
}

fn assert_past(rt: &impl Abort, alloc: Global, next: u8, fault: LexFault) -> Result<(), Fail> {
    let text = line_and(alloc, next)?;
    assert!(rt; text.len() < 10_000);
    assert_eq!(rt; lex(alloc, &text).err(), Some(fault), "{next}");
    Ok(())
}

type PastRow = (u8, LexFault);

const PAST: &[PastRow] = &[
    (b';', LexFault::TooManyTokens(8_193)),
    (b'@', LexFault::BadByte(8_193)),
    (b'9', LexFault::TooManyTokens(8_193)),
];

fn assert_each_past(rt: &impl Abort, alloc: Global, rows: &[PastRow]) -> Result<(), Fail> {
    for (next, fault) in rows {
        assert_past(rt, alloc, *next, *fault)?;
    }
    Ok(())
}

#[test]
fn refuses_the_first_token_past_the_limit(rt: HostRuntime) -> Result<(), Fail> {
    assert_full(&rt, rt.alloc())?;
    assert_each_past(&rt, rt.alloc(), PAST)
}
