//! What the tokens of a text say to the preprocessor (C17 6.10): names that no word of a text is.

ghost use Rattle.std.specs.Prelude.{◌≡◌, ◌≤◌, ◌+◌, length, codes, IfOk, IfErr};
ghost use Rattle.std.specs.Str.{bytes_eq};
ghost use Rattle.c_lex.specs.Ascii as ascii;
ghost use Rattle.c_lex.specs.declared.fault.LexFault.TheVariants as faults;
ghost use Rattle.c_lex.specs.Directives as directives;
ghost use Rattle.c_lex.specs.Tables.{lookup};
ghost use Rattle.c_lex.specs.inside.Scans as scans;

use crate::fault::LexFault;
use crate::piece::after_blanks;
use crate::scan::{Class, run};
use c_tree::{Form, Word, same_bytes};
use std::alloc::Global;

/// A directive that stands at the start of a line, up to the line's end (C17 6.10).
#[derive(Clone, Copy, Debug, PartialEq, Eq)]
pub enum DirectiveKind {
    Define,
    Undef,
    Ifdef,
    Ifndef,
    Else,
    Endif,
}

/// A header that a text may include (C17 7.1.2).
#[derive(Clone, Copy, Debug, PartialEq, Eq)]
pub enum Header {
    Stdio,
    Limits,
    Stdbool,
    Stddef,
    Stdlib,
    String,
    Ctype,
    Stdint,
}

/// The directive of a word.
fn worded(word: &[u8]) -> Option<DirectiveKind>
    ensures { result ≡ lookup word.now directives.words }
{
    if same_bytes(word, b"define") {
        Some(DirectiveKind::Define)
    } else if same_bytes(word, b"undef") {
        Some(DirectiveKind::Undef)
    } else if same_bytes(word, b"ifdef") {
        Some(DirectiveKind::Ifdef)
    } else if same_bytes(word, b"ifndef") {
        Some(DirectiveKind::Ifndef)
    } else if same_bytes(word, b"else") {
        Some(DirectiveKind::Else)
    } else if same_bytes(word, b"endif") {
        Some(DirectiveKind::Endif)
    } else {
        None
    }
}

/// The name of a directive's token.
pub fn name_of(kind: DirectiveKind) -> &'static [u8]
    ensures { result.now ≡ directives.name_of kind }
{
    match kind {
        DirectiveKind::Define => b"#define",
        DirectiveKind::Undef => b"#undef",
        DirectiveKind::Ifdef => b"#ifdef",
        DirectiveKind::Ifndef => b"#ifndef",
        DirectiveKind::Else => b"#else",
        DirectiveKind::Endif => b"#endif",
    }
}

/// The directive that a name is.
fn named(name: &[u8]) -> Option<DirectiveKind>
    ensures { result ≡ directives.named name.now }
{
    match name {
        [b, word @ ..] => { if *b == b'#' { worded(word) } else { None } }
        [] => None,
    }
}

/// The directive that a token is, if it is one.
pub fn directive_of(form: &Form) -> Option<DirectiveKind>
    ensures { result ≡ directives.directive_of form.now }
{
    match form {
        Form::Name(name) => named(name.as_slice()),
        _ => None,
    }
}

/// Is the token the end of a directive's line?
pub fn is_line_end(form: &Form) -> bool
    ensures { result ≡ directives.is_line_end form.now }
{
    match form {
        Form::Name(name) => same_bytes(name.as_slice(), b"\n"),
        _ => false,
    }
}

/// The directive that a line behind its `#` begins with, and how many bytes of the line that takes.
pub fn directive_at(line: &[u8]) -> Option<(usize, DirectiveKind)>
    ensures { result ≡ scans.directive_at line.now }
{
    let blanks = run(Class::Blank, 0, line);
    let (_, rest) = line.split_at(blanks);
    let count = run(Class::Word, 0, rest);
    let (word, _) = rest.split_at(count);
    match worded(word) {
        Some(kind) => Some((blanks + count, kind)),
        None => None,
    }
}

/// Is this the word of a row?
fn is_word(row: &[u8], word: &[u8]) -> bool
    ensures { result ≡ bytes_eq row.now word.now }
{
    same_bytes(row, word)
}

/// The header with this name in brackets.
#[tactic(auto, unfolding(crate::specs::Directives::headers))]
fn headed(name: &[u8]) -> Option<Header>
    ensures { result ≡ lookup name.now directives.headers }
{
    if is_word(b"<stdio.h>", name) {
        Some(Header::Stdio)
    } else if is_word(b"<limits.h>", name) {
        Some(Header::Limits)
    } else if is_word(b"<stdbool.h>", name) {
        Some(Header::Stdbool)
    } else if is_word(b"<stddef.h>", name) {
        Some(Header::Stddef)
    } else if is_word(b"<stdlib.h>", name) {
        Some(Header::Stdlib)
    } else if is_word(b"<string.h>", name) {
        Some(Header::String)
    } else if is_word(b"<ctype.h>", name) {
        Some(Header::Ctype)
    } else if is_word(b"<stdint.h>", name) {
        Some(Header::Stdint)
    } else {
        None
    }
}

/// The header whose name in brackets a token is, if it is one.
pub fn header_of(form: &Form) -> Option<Header>
    ensures { result ≡ directives.header_of form.now }
{
    match form {
        Form::Name(name) => headed(name.as_slice()),
        _ => None,
    }
}

/// The header that an include line names, where this line stands behind its `#`.
pub fn include_at(line: &[u8]) -> Option<Header>
    ensures { result ≡ scans.include_at line.now }
{
    let a = after_blanks(line);
    if a.len() < 7 {
        return None;
    }
    let (word, more) = a.split_at(7);
    if word != b"include".as_slice() {
        return None;
    }
    let b = after_blanks(more);
    let n = run(Class::Solid, 0, b);
    let (name, end) = b.split_at(n);
    if after_blanks(end).is_empty() {
        headed(name)
    } else {
        None
    }
}

/// The token of an include.
pub fn header_form(alloc: Global, header: Header) -> Result<Form, LexFault>
    ensures ok { IfOk result (λ form. form ≡ directives.header_form header) }
    ensures err { IfErr result (λ e. e ≡ faults.Memory) }
{
    match header {
        Header::Stdio => Ok(Form::Include),
        Header::Limits => Ok(Form::Name(Word::from_slice(alloc, b"<limits.h>")?)),
        Header::Stdbool => Ok(Form::Name(Word::from_slice(alloc, b"<stdbool.h>")?)),
        Header::Stddef => Ok(Form::Name(Word::from_slice(alloc, b"<stddef.h>")?)),
        Header::Stdlib => Ok(Form::Name(Word::from_slice(alloc, b"<stdlib.h>")?)),
        Header::String => Ok(Form::Name(Word::from_slice(alloc, b"<string.h>")?)),
        Header::Ctype => Ok(Form::Name(Word::from_slice(alloc, b"<ctype.h>")?)),
        Header::Stdint => Ok(Form::Name(Word::from_slice(alloc, b"<stdint.h>")?)),
    }
}
