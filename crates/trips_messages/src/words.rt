//! Classes of words, by which a refusal is told.

ghost use Rattle.std.specs.Prelude.{◌≡◌, ◌≤◌, length};
ghost use Rattle.trips_messages.specs.Words as words;

/// A letter, `_`, a digit or a point: what a name or a number goes on with.
fn goes_on(b: u8) -> bool
    ensures { result ≡ words.goes_on b }
{
    (b'0' <= b && b <= b'9')
        || ((b'A' <= b && b <= b'Z') || ((b'a' <= b && b <= b'z') || (b == b'_' || b == b'.')))
}

/// A character of ASCII that is seen.
pub fn is_seen(b: u8) -> bool
    ensures { result ≡ words.is_seen b }
{
    b' ' <= b && b <= b'~'
}

/// How many bytes go on.
fn run_length(bytes: &[u8]) -> usize
    ensures value { result ≡ words.run_length bytes.now }
    ensures within { result ≤ length bytes.now }
{
    let mut count = 0usize;
    let mut rest = bytes;
    while let [b, more @ ..] = rest {
        if !goes_on(*b) {
            return count;
        }
        count += 1;
        rest = more;
    }
    count
}

/// How many bytes the word at the front has: a name, a number, or one byte.
pub fn word_length(bytes: &[u8]) -> usize
    ensures value { result ≡ words.word_length bytes.now }
    ensures within { result ≤ length bytes.now }
{
    match bytes {
        [] => 0,
        [b, more @ ..] => {
            if goes_on(*b) && !(*b == b'.') {
                run_length(more) + 1
            } else {
                1
            }
        }
    }
}

/// Does the word hold a point?
pub fn has_point(word: &[u8]) -> bool
    ensures { result ≡ words.has_point word.now }
{
    let mut rest = word;
    while let [b, more @ ..] = rest {
        if *b == b'.' {
            return true;
        }
        rest = more;
    }
    false
}

/// A byte that is no character.
pub fn is_other_byte(word: &[u8]) -> bool
    ensures { result ≡ words.is_other_byte word.now }
{
    match word {
        [b] => !is_seen(*b),
        _ => false,
    }
}

/// Does the call of a function go on so?
pub fn is_call(rest: &[u8]) -> bool
    ensures { result ≡ words.is_call rest.now }
{
    match rest {
        [] => false,
        [b, ..] => *b == b'(',
    }
}

/// Does a line begin so?
#[tactic(auto, using(crate::proofs::Prefixes::too_short))]
fn begins(line: &[u8], word: &[u8]) -> bool
    ensures { result ≡ words.begins word.now line.now }
{
    if line.len() < word.len() {
        return false;
    }
    let (front, _) = line.split_at(word.len());
    front == word
}

/// A line that includes a header.
pub fn is_header(line: &[u8]) -> bool
    ensures { result ≡ words.is_header line.now }
{
    begins(line, b"#include")
}

/// A line that chooses parts of a text by an expression.
pub fn is_conditional(line: &[u8]) -> bool
    ensures { result ≡ words.is_conditional line.now }
{
    begins(line, b"#if") || begins(line, b"#elif")
}

/// A type with members.
pub fn is_aggregate(word: &[u8]) -> bool
    ensures { result ≡ words.is_aggregate word.now }
{
    word == b"struct".as_slice() || word == b"union".as_slice()
}

/// A word that names a type or constants.
pub fn is_new_type(word: &[u8]) -> bool
    ensures { result ≡ words.is_new_type word.now }
{
    word == b"enum".as_slice() || word == b"typedef".as_slice()
}

/// A storage class, or a word of its kind.
pub fn is_storage(word: &[u8]) -> bool
    ensures { result ≡ words.is_storage word.now }
{
    word == b"static".as_slice()
        || (word == b"extern".as_slice()
            || (word == b"register".as_slice()
                || (word == b"auto".as_slice() || word == b"inline".as_slice())))
}

/// A qualifier of a type.
pub fn is_qualifier(word: &[u8]) -> bool
    ensures { result ≡ words.is_qualifier word.now }
{
    word == b"const".as_slice()
        || (word == b"volatile".as_slice()
            || (word == b"restrict".as_slice() || word == b"_Atomic".as_slice()))
}

/// A word of a floating type.
pub fn is_floating(word: &[u8]) -> bool
    ensures { result ≡ words.is_floating word.now }
{
    word == b"float".as_slice()
        || (word == b"double".as_slice()
            || (word == b"_Complex".as_slice() || word == b"_Imaginary".as_slice()))
}

/// An operator that gives a size.
pub fn is_size(word: &[u8]) -> bool
    ensures { result ≡ words.is_size word.now }
{
    word == b"sizeof".as_slice() || word == b"_Alignof".as_slice()
}

/// A function of `<ctype.h>` that asks for a class.
fn is_class(word: &[u8]) -> bool
    ensures { result ≡ words.is_class word.now }
{
    word == b"isdigit".as_slice()
        || (word == b"isalpha".as_slice()
            || (word == b"isalnum".as_slice()
                || (word == b"isspace".as_slice()
                    || (word == b"isupper".as_slice() || word == b"islower".as_slice()))))
}

/// A function of `<ctype.h>`.
pub fn is_classifying(word: &[u8]) -> bool
    ensures { result ≡ words.is_classifying word.now }
{
    is_class(word)
        || (word == b"isxdigit".as_slice()
            || (word == b"ispunct".as_slice()
                || (word == b"isprint".as_slice()
                    || (word == b"toupper".as_slice() || word == b"tolower".as_slice()))))
}

/// A name of `<stdlib.h>`.
pub fn is_general(word: &[u8]) -> bool
    ensures { result ≡ words.is_general word.now }
{
    word == b"abs".as_slice()
        || (word == b"labs".as_slice()
            || (word == b"rand".as_slice()
                || (word == b"srand".as_slice()
                    || (word == b"exit".as_slice() || word == b"RAND_MAX".as_slice()))))
}

/// A function of `<string.h>`.
pub fn is_copying(word: &[u8]) -> bool
    ensures { result ≡ words.is_copying word.now }
{
    word == b"strlen".as_slice()
        || (word == b"strcmp".as_slice()
            || (word == b"strcpy".as_slice()
                || (word == b"memset".as_slice() || word == b"memcpy".as_slice())))
}

/// A function of the library that reads or writes, and is not here.
fn is_reading(word: &[u8]) -> bool
    ensures { result ≡ words.is_reading word.now }
{
    word == b"scanf".as_slice()
        || (word == b"gets".as_slice()
            || (word == b"fgets".as_slice() || word == b"sprintf".as_slice()))
}

/// A name of the library that is not here.
pub fn is_library(word: &[u8]) -> bool
    ensures { result ≡ words.is_library word.now }
{
    is_reading(word)
        || (word == b"malloc".as_slice()
            || (word == b"calloc".as_slice()
                || (word == b"free".as_slice() || word == b"NULL".as_slice())))
}

/// A name of `<stdio.h>`, but for `printf`.
pub fn is_declared(word: &[u8]) -> bool
    ensures { result ≡ words.is_declared word.now }
{
    word == b"getchar".as_slice()
        || (word == b"putchar".as_slice()
            || (word == b"puts".as_slice() || word == b"EOF".as_slice()))
}

/// A word of a label.
pub fn is_label(word: &[u8]) -> bool
    ensures { result ≡ words.is_label word.now }
{
    word == b"case".as_slice() || word == b"default".as_slice()
}

/// A statement that leaves a loop or a turn of it.
pub fn is_leaving(word: &[u8]) -> bool
    ensures { result ≡ words.is_leaving word.now }
{
    word == b"break".as_slice() || word == b"continue".as_slice()
}
