//! Each token of two programs replaced, and what stands behind it left out.
use std::alloc::{AllocError, Global};
use std::process::Abort;
use std::test::Fail;
use trips_run::Status;
use trips_run_harness::answer_of;

// Two programs as their tokens, each behind a space.
const DOUBLED: &[&str] = &[
    "long", "a", "[", "9", "]", ";", "int", "main", "(", "void", ")", "{", "int", "i", ";", "a",
    "[", "0", "]", "=", "1", ";", "for", "(", "i", "=", "1", ";", "i", "<", "9", ";", "i", "++",
    ")", "a", "[", "i", "]", "=", "a", "[", "i", "-", "1", "]", "*", "2", ";", "return", "(",
    "int", ")", "a", "[", "8", "]", ";", "}",
];

const WORDS: &[&str] = &[
    "\n#include <stdio.h>\n",
    "int",
    "main",
    "(",
    "void",
    ")",
    "{",
    "int",
    "c",
    ";",
    "int",
    "in",
    "=",
    "0",
    ";",
    "int",
    "words",
    "=",
    "0",
    ";",
    "while",
    "(",
    "(",
    "c",
    "=",
    "getchar",
    "(",
    ")",
    ")",
    "!=",
    "EOF",
    ")",
    "{",
    "if",
    "(",
    "c",
    "==",
    "' '",
    "||",
    "c",
    "==",
    "'\\n'",
    "||",
    "c",
    "==",
    "'\\t'",
    ")",
    "in",
    "=",
    "0",
    ";",
    "else",
    "if",
    "(",
    "!",
    "in",
    ")",
    "{",
    "in",
    "=",
    "1",
    ";",
    "words",
    "++",
    ";",
    "}",
    "}",
    "putchar",
    "(",
    "'0'",
    "+",
    "words",
    ")",
    ";",
    "putchar",
    "(",
    "'\\n'",
    ")",
    ";",
    "return",
    "words",
    ";",
    "}",
];

// The text of the tokens before a place.
fn begin(alloc: Global, tokens: &[&str], end: usize) -> Result<String, AllocError> {
    let mut text = String::new(alloc);
    for token in tokens.iter().take(end) {
        text.push_str(" ")?;
        text.push_str(*token)?;
    }
    Ok(text)
}

// The text with another token at a place.
fn with_token(
    alloc: Global,
    tokens: &[&str],
    at: usize,
    other: &str,
) -> Result<String, AllocError> {
    let mut text = begin(alloc, tokens, at)?;
    text.push_str(" ")?;
    text.push_str(other)?;
    for token in tokens.iter().skip(at).skip(1) {
        text.push_str(" ")?;
        text.push_str(*token)?;
    }
    Ok(text)
}

// The text is refused by the grammar.
fn assert_no_tree(rt: &impl Abort, alloc: Global, text: &str) -> Result<(), AllocError> {
    let (status, written) = answer_of(alloc, &["eval", "a.c"], &[("a.c", text.as_bytes())])?;
    assert_eq!(rt; status, Status::Refused, "{text}");
    assert!(rt;
        written.starts_with(b"refused parse 1 Syntax line "),
        "{text}"
    );
    Ok(())
}

fn assert_tokens_matter(rt: &impl Abort, alloc: Global, tokens: &[&str]) -> Result<(), AllocError> {
    let mut at = 0usize;
    for token in tokens {
        for other in [")", "else"] {
            if *token != other {
                let text = with_token(alloc, tokens, at, other)?;
                assert_no_tree(rt, alloc, text.as_str())?;
            }
        }
        at = at.saturating_add(1);
    }
    Ok(())
}

#[test]
fn refuses_a_parenthesis_or_an_else_in_place_of_any_token(rt: HostRuntime) -> Result<(), Fail> {
    assert_tokens_matter(&rt, rt.alloc(), DOUBLED)?;
    assert_tokens_matter(&rt, rt.alloc(), WORDS)?;
    Ok(())
}

// The text of the tokens before a place is refused so.
fn assert_cut(
    rt: &impl Abort,
    alloc: Global,
    tokens: &[&str],
    end: usize,
    report: &str,
) -> Result<(), AllocError> {
    let text = begin(alloc, tokens, end)?;
    let (status, written) = answer_of(alloc, &["run", "a.c"], &[("a.c", text.as_bytes())])?;
    assert_eq!(rt; status, Status::Refused, "{text}");
    assert_eq!(rt; written.as_slice(), report.as_bytes(), "{text}");
    Ok(())
}

// Behind its declaration the program of one array is a unit without `main`.
fn assert_ends_matter(rt: &impl Abort, alloc: Global, tokens: &[&str]) -> Result<(), AllocError> {
    for end in 0..tokens.len() {
        if end == 6 {
            assert_cut(rt, alloc, tokens, end, "refused type 5 NoMain\n")?;
        } else {
            assert_cut(rt, alloc, tokens, end, "refused parse 1 Syntax line 1\n")?;
        }
    }
    Ok(())
}

#[test]
fn refuses_a_text_that_ends_after_any_of_its_tokens(rt: HostRuntime) -> Result<(), Fail> {
    assert_ends_matter(&rt, rt.alloc(), DOUBLED)?;
    Ok(())
}
