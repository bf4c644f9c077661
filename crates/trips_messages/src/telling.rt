//! What is told of a refusal.

ghost use Rattle.std.specs.Prelude.{◌≡◌, ◌≤◌, ◌++◌, OnOk, IfOk, length, take, drop, string_bytes};
ghost use Rattle.trips_messages.specs.Messages as messages;

use crate::choices::saying;
use crate::fault::{Fault, title};
use crate::hints::{put_ending, said_at};
use crate::marked::put_marked;
use crate::nearest::nearest;
use crate::places::{first_line, last_line, line_length, parted};
use crate::saying::{Saying, sentence};
use crate::words::{is_call, is_seen, word_length};
use c_tree::Lexeme;
use std::alloc::{AllocError, Global};

// How many bytes the word at fault has: the whole line of a directive.
fn word_size(fault: Fault, rest: &[u8]) -> usize
    ensures value { result ≡ messages.word_size fault rest.now }
    ensures within { result ≤ length rest.now }
{
    match fault {
        Fault::Directive | Fault::Unbalanced | Fault::BadDefine => line_length(rest),
        _ => word_length(rest),
    }
}

// Writes the number of a byte.
fn put_number(alloc: Global, out: &mut Vec<u8>, b: u8) -> Result<(), AllocError>
    ensures ok { OnOk result (out.new.items ≡ out.old.items ++ Rattle.std.specs.Prelude.decimal b) }
{
    let text = format!(in alloc; "{b}")?;
    out.extend_from_slice(text.as_bytes())
}

// Writes a word as it is shown.
fn put_shown(alloc: Global, out: &mut Vec<u8>, word: &[u8]) -> Result<(), AllocError>
    ensures ok { OnOk result (out.new.items ≡ out.old.items ++ messages.shown word.now) }
{
    match word {
        [b] => {
            if is_seen(*b) {
                out.extend_from_slice(word)
            } else {
                put_number(alloc, out, *b)
            }
        }
        _ => out.extend_from_slice(word),
    }
}

// Writes the word, and a sentence, which may end with the nearest name.
fn put_sentence(
    alloc: Global,
    out: &mut Vec<u8>,
    word: &[u8],
    said: Saying,
    name: &[u8],
) -> Result<(), AllocError>
    ensures ok { OnOk result (out.new.items ≡ out.old.items ++ messages.sentence_of word.now said name.now) }
{
    out.extend_from_slice(b"'")?;
    put_shown(alloc, out, word)?;
    out.extend_from_slice(b"' ")?;
    let text = sentence(said);
    out.extend_from_slice(text.as_bytes())?;
    put_ending(out, said, name)
}

// Writes what is said at the front of the rest.
fn put_said(
    alloc: Global,
    out: &mut Vec<u8>,
    fault: Fault,
    rest: &[u8],
    offset: u32,
    tokens: &[Lexeme],
) -> Result<(), AllocError>
    ensures ok { OnOk result (out.new.items ≡ out.old.items
        ++ messages.said fault rest.now (messages.word_size fault rest.now) offset tokens.now) }
{
    let (word, behind) = rest.split_at(word_size(fault, rest));
    let said = said_at(fault, word, is_call(behind), offset, tokens);
    put_sentence(alloc, out, word, said, nearest(word, tokens, offset))
}

// The place, and the title.
fn headed(alloc: Global, file: &str, line: u32, at: usize, name: &str) -> Result<String, AllocError>
    ensures { IfOk result (λ text. string_bytes text ≡ messages.headed file.now line at name.now) }
{
    format!(in alloc; "{file}:{line}:{at}: {name}: ")
}

// Writes what is told of a fault between these parts of a text.
fn put_message(
    alloc: Global,
    out: &mut Vec<u8>,
    fault: Fault,
    front: &[u8],
    rest: &[u8],
    offset: u32,
    tokens: &[Lexeme],
) -> Result<(), AllocError>
    ensures ok { OnOk result (out.new.items ≡ out.old.items
        ++ messages.told fault front.now rest.now offset tokens.now) }
{
    put_said(alloc, out, fault, rest, offset, tokens)?;
    out.extend_from_slice(b"\n")?;
    put_marked(out, front, first_line(rest))
}

/// What is told of a fault at a byte of a text, which stands on this line, under the name of the file. The text has
/// these tokens, or none where the lexer refuses it.
pub fn message(
    alloc: Global,
    file: &str,
    text: &[u8],
    tokens: &[Lexeme],
    line: u32,
    fault: Fault,
    offset: u32,
) -> Result<Vec<u8>, AllocError>
    ensures ok { IfOk result (λ told. told.items ≡ messages.message file.now text.now tokens.now line fault offset) }
{
    let (before, rest) = parted(text, offset as usize);
    let front = last_line(before);
    let head = headed(alloc, file, line, front.len() + 1, title(fault))?;
    let mut out = Vec::from_slice(alloc, head.as_bytes())?;
    put_message(alloc, &mut out, fault, front, rest, offset, tokens)?;
    Ok(out)
}

// The file, the title and a sentence.
fn line_text(alloc: Global, file: &str, name: &str, said: &str) -> Result<String, AllocError>
    ensures { IfOk result (λ text. string_bytes text ≡ messages.line_text file.now name.now said.now) }
{
    format!(in alloc; "{file}: {name}: {said}\n")
}

/// What is told of a fault without a place.
pub fn message_without_place(alloc: Global, file: &str, fault: Fault) -> Result<Vec<u8>, AllocError>
    ensures ok { IfOk result (λ told. told.items ≡ messages.message_without_place file.now fault) }
{
    let text = line_text(
        alloc,
        file,
        title(fault),
        sentence(saying(fault, b"", false)),
    )?;
    Vec::from_slice(alloc, text.as_bytes())
}

// The text that tells that a text is accepted.
fn accepted_text(
    alloc: Global,
    file: &str,
    functions: u64,
    lines: u64,
    tokens: u64,
) -> Result<String, AllocError>
    ensures { IfOk result (λ text. string_bytes text ≡ messages.accepted file.now functions lines tokens) }
{
    format!(in alloc; "{file}: accepted, functions {functions}, lines {lines}, tokens {tokens}\n")
}

/// What is told of a text that is accepted: how many functions, lines and tokens it has.
pub fn accepted(
    alloc: Global,
    file: &str,
    functions: u64,
    lines: u64,
    tokens: u64,
) -> Result<Vec<u8>, AllocError>
    ensures ok { IfOk result (λ told. told.items ≡ messages.accepted file.now functions lines tokens) }
{
    let text = accepted_text(alloc, file, functions, lines, tokens)?;
    Vec::from_slice(alloc, text.as_bytes())
}
