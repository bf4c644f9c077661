//! The tokens of a definition of the library.

ghost use Rattle.std.specs.Prelude.{◌≡◌, ◌<◌, ◌+◌, ◌*◌, ◌-◌, ◌%◌, length, IfOk};
ghost use Rattle.c_lex.specs.Ascii as ascii;
ghost use Rattle.c_lex.specs.Bytes as bytes;
ghost use Rattle.c_lex.specs.Tables.{lookup, keywords, marks};
ghost use Rattle.c_library.specs.Spelled as spelled;

use base::Items;
use c_lex::{find_key, find_mark};
use c_tree::{Form, Kind, Word, same_bytes};
use std::alloc::{AllocError, Global};

/// The number with one more digit, modulo 2^31.
fn next_value(value: u64, digit: u8) -> u64
    requires small { value < 2147483648 }
    ensures value { result ≡ (10 * value + (digit - ascii.digit_0)) % 2147483648 }
    ensures small { result < 2147483648 }
{
    (10 * value + u64::from(digit.saturating_sub(b'0'))) % 2_147_483_648
}

/// The number of the digits, modulo 2^31.
fn decimal(digits: &[u8]) -> u64
    ensures { result ≡ spelled.decimal 0 digits.now }
{
    let mut value = 0u64;
    let mut rest = digits;
    while let [digit, more @ ..] = rest {
        value = next_value(value, *digit);
        rest = more;
    }
    value
}

/// Is it a decimal digit?
fn is_digit(byte: u8) -> bool
    ensures { result ≡ bytes.is_digit byte }
{
    b'0' <= byte && byte <= b'9'
}

/// The token of an include, or else the name.
fn of_name(alloc: Global, word: &[u8]) -> Result<Form, AllocError>
    ensures ok { IfOk result (λ form. form ≡ spelled.of_name word.now) }
{
    if same_bytes(word, b"#include") {
        Ok(Form::Include)
    } else {
        Ok(Form::Name(Word::from_slice(alloc, word)?))
    }
}

/// The token that a word is: a keyword, a punctuator, or else a name.
fn of_these(alloc: Global, word: &[u8]) -> Result<Form, AllocError>
    requires some { 0 < length word.now }
    ensures ok { IfOk result (λ form. form ≡ spelled.of_these word.now (lookup word.now keywords)
        (lookup word.now marks)) }
{
    if let Some(key) = find_key(word) {
        Ok(Form::Key(key))
    } else if let Some(mark) = find_mark(word) {
        Ok(Form::Mark(mark))
    } else {
        of_name(alloc, word)
    }
}

/// The token that a word is. Want of memory is the only error.
fn word_form(alloc: Global, word: &[u8]) -> Result<Form, AllocError>
    ensures ok { IfOk result (λ form. form ≡ spelled.word_form word.now) }
{
    match word {
        [] => Ok(Form::Name(Word::from_slice(alloc, word)?)),
        [first, ..] => {
            if is_digit(*first) {
                Ok(Form::Number {
                    value: decimal(word),
                    kind: Kind::Int,
                })
            } else {
                of_these(alloc, word)
            }
        }
    }
}

/// The tokens of a text of words with a blank between two. Want of memory is the only error.
pub fn forms_of(alloc: Global, text: &[u8]) -> Result<Items<Form>, AllocError>
    ensures ok { IfOk result (λ forms. forms ≡ spelled.forms_of text.now) }
{
    let mut forms = Items::new(alloc);
    let mut word = Items::new(alloc);
    let mut rest = text;
    while let [byte, more @ ..] = rest {
        if *byte == b' ' {
            forms.push(word_form(alloc, word.as_slice())?)?;
            word = Items::new(alloc);
        } else {
            word.push(*byte)?;
        }
        rest = more;
    }
    forms.push(word_form(alloc, word.as_slice())?)?;
    Ok(forms)
}
