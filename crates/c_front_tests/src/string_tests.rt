//! Texts with string literals (C17 6.4.5), and the names that their tokens have, or the fault.

use c_lex::{LexFault, lex, string_of};
use c_tree::{Form, Lexeme};
use std::alloc::Global;
use std::process::Abort;

/// The names of a text's tokens with their offsets. A literal's is `"` and its values.
type Names = &'static [(u32, &'static [u8])];

const LITERALS: &[(&[u8], Names)] = &[
    (b"\"\"", &[(0, b"\"")]),
    (b"\"ab c\"", &[(0, b"\"ab c")]),
    (b"x \"'\\'\" y", &[(0, b"x"), (2, b"\"''"), (8, b"y")]),
    (b"\"\t ~\"", &[(0, b"\"\t ~")]),
    (b"\"\xC3\xA9\x80\xFF\"", &[(0, b"\"\xC3\xA9\x80\xFF")]),
    (b"\"a\"\"b\"", &[(0, b"\"a"), (3, b"\"b")]),
    // Escape sequences, each as long as it may be.
    (
        b"\"\\n\\t\\r\\a\\b\\f\\v\\\\\\'\\\"\\?\"",
        &[(0, b"\"\n\t\r\x07\x08\x0C\x0B\\'\"?")],
    ),
    (b"\"\\1012\"", &[(0, b"\"A2")]),
    (b"\"\\18\\7\"", &[(0, b"\"\x018\x07")]),
    (b"\"\\0\\00\\0000\"", &[(0, b"\"\0\0\x000")]),
    (b"\"\\377\"", &[(0, b"\"\xFF")]),
    (b"\"\\x41g\"", &[(0, b"\"Ag")]),
    (b"\"\\x0041\"", &[(0, b"\"A")]),
    (b"\"\\xfF\\102\"", &[(0, b"\"\xFFB")]),
    // No comment begins in a literal, and no literal in a comment.
    (b"\"//\" \"/*\"", &[(0, b"\"//"), (5, b"\"/*")]),
    (b"/* \" */a // \"\nb", &[(7, b"a"), (14, b"b")]),
    (b"L\"a\"", &[(0, b"L"), (1, b"\"a")]),
    (
        b"#define S \"a b\"\n",
        &[(0, b"#define"), (8, b"S"), (10, b"\"a b"), (15, b"\n")],
    ),
];

const FAULTS: &[(&[u8], LexFault)] = &[
    (b"\"", LexFault::BadLiteral(0)),
    (b"x \"abc", LexFault::BadLiteral(2)),
    (b"a \"b\" \"c", LexFault::BadLiteral(6)),
    (b"\"a\nb\"", LexFault::BadLiteral(0)),
    (b"\"a\\\nb\"", LexFault::BadLiteral(0)),
    (b"\"a\\\"", LexFault::BadLiteral(0)),
    (b"\"\\q\"", LexFault::BadLiteral(0)),
    (b"\"\\400\"", LexFault::BadLiteral(0)),
    (b"\"\\x100\"", LexFault::BadLiteral(0)),
    (b"\"\\x\"", LexFault::BadLiteral(0)),
    (b"\"\x01\"", LexFault::BadLiteral(0)),
    (b"\"\x7F\"", LexFault::BadLiteral(0)),
    (b"\"\0\"", LexFault::BadLiteral(0)),
];

fn is_named(form: &Form, name: &[u8]) -> bool {
    match form {
        Form::Name(word) => word.as_slice() == name,
        _ => false,
    }
}

fn are_named(tokens: &[Lexeme], names: &[(u32, &[u8])]) -> bool {
    if tokens.len() != names.len() {
        return false;
    }
    for (token, (offset, name)) in tokens.iter().zip(names) {
        if token.offset != *offset || !is_named(&token.form, *name) {
            return false;
        }
    }
    true
}

fn has_names(alloc: Global, text: &[u8], names: &[(u32, &[u8])]) -> bool {
    if 100 < text.len() {
        return false;
    }
    match lex(alloc, text) {
        Ok(tokens) => are_named(&tokens, names),
        Err(_) => false,
    }
}

fn is_refused(alloc: Global, text: &[u8], fault: LexFault) -> bool {
    if 100 < text.len() {
        return false;
    }
    match lex(alloc, text) {
        Ok(_) => false,
        Err(found) => found == fault,
    }
}

fn assert_literals(rt: &impl Abort, alloc: Global, rows: &[(&[u8], Names)]) {
    for (text, names) in rows {
        assert!(rt; has_names(alloc, text, names), "{text:?}");
    }
}

fn assert_faults(rt: &impl Abort, alloc: Global, rows: &[(&[u8], LexFault)]) {
    for (text, fault) in rows {
        assert!(rt; is_refused(alloc, text, *fault), "{text:?}");
    }
}

#[test]
fn lexes_string_literals(rt: HostRuntime) {
    assert_literals(&rt, rt.alloc(), LITERALS);
}

#[test]
fn refuses_what_is_no_string_literal(rt: HostRuntime) {
    assert_faults(&rt, rt.alloc(), FAULTS);
}

/// Whether the tokens of a text have these values, where they are literals.
fn has_values(alloc: Global, text: &[u8], values: &[Option<&[u8]>]) -> bool {
    if 100 < text.len() {
        return false;
    }
    match lex(alloc, text) {
        Ok(tokens) => {
            if tokens.len() != values.len() {
                return false;
            }
            for (token, wanted) in tokens.iter().zip(values) {
                if string_of(&token.form) != *wanted {
                    return false;
                }
            }
            true
        }
        Err(_) => false,
    }
}

#[test]
fn tells_the_values_of_a_literal(rt: HostRuntime) {
    let wanted: [Option<&[u8]>; 4] = [Some(b"a\0"), None, None, Some(b"")];
    assert!(&rt; has_values(rt.alloc(), b"\"a\\0\" 1 b\"\"", &wanted));
}
