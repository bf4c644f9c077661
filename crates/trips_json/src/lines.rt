//! The lines of a report.

ghost use Rattle.std.specs.Prelude.{◌≡◌, ◌≤◌, ◌<◌, length, true, IfSome};
ghost use Rattle.trips_json.specs.Lines.{line_size, first_line, behind_line, is_of_name, name_size, is_spaced};
ghost use Rattle.trips_json.specs.Lines.{is_value, size_told, ended_at, output_size};

use crate::numbers::{is_decimal, number_in};

// How many bytes stand before the first line feed.
#[tactic(auto, unfolding(crate::specs::Lines::line_size))]
fn line_size(text: &[u8]) -> usize
    ensures value { result ≡ line_size text.now }
    ensures within { result ≤ length text.now }
{
    for (i, b) in text.iter().enumerate() {
        if *b == b'\n' {
            return i;
        }
    }
    text.len()
}

/// The first line of a text, without its line feed, and what comes after that.
pub fn first_line(text: &[u8]) -> (&[u8], &[u8])
    ensures line { result.0.now ≡ first_line text.now }
    ensures behind { result.1.now ≡ behind_line text.now }
    ensures less { 0 < length text.now → length result.1.now < length text.now }
{
    let (line, more) = text.split_at(line_size(text));
    match more {
        [_, rest @ ..] => (line, rest),
        [] => (line, more),
    }
}

// A letter, a digit or `_`.
fn is_of_name(byte: u8) -> bool
    ensures { result ≡ is_of_name byte }
{
    (97 <= byte && byte <= 122)
        || (65 <= byte && byte <= 90)
        || (48 <= byte && byte <= 57)
        || byte == 95
}

/// How many letters, digits and `_` stand at the beginning of a line.
#[tactic(auto, unfolding(crate::specs::Lines::name_size))]
pub fn name_size(line: &[u8]) -> usize
    ensures value { result ≡ name_size line.now }
    ensures within { result ≤ length line.now }
{
    for (i, b) in line.iter().enumerate() {
        if !is_of_name(*b) {
            return i;
        }
    }
    line.len()
}

// A space with a number behind it.
fn is_spaced(text: &[u8]) -> bool
    ensures { result ≡ is_spaced text.now }
{
    match text {
        [first, rest @ ..] => *first == b' ' && is_decimal(rest),
        [] => false,
    }
}

/// The line is a name, a space and a number.
#[tactic(auto, unfolding(crate::specs::Lines::is_value))]
pub fn is_value(line: &[u8]) -> bool
    ensures value { result ≡ is_value line.now }
    ensures within { result ≡ true → name_size line.now < length line.now }
{
    let size = name_size(line);
    let (_, rest) = line.split_at(size);
    size != 0 && is_spaced(rest)
}

// How many bytes the program put out by the line of a report.
#[tactic(auto, unfolding(crate::specs::Lines::size_told))]
fn size_told(line: &[u8]) -> Option<u64>
    ensures { result ≡ size_told line.now }
{
    match line.strip_prefix(b"output ") {
        Some(digits) => number_in(digits),
        None => None,
    }
}

// So many bytes with a line feed behind them begin a text.
fn ended_at(text: &[u8], size: u64) -> bool
    ensures { result ≡ ended_at text.now size }
{
    size < text.len() as u64 && text[size as usize] == b'\n'
}

/// How many bytes the program put out of which a report tells, where it tells of them.
pub fn output_size(report: &[u8]) -> Option<u64>
    ensures value { result ≡ output_size report.now }
    ensures within { IfSome result (λ size. size < length (behind_line report.now)) }
{
    let (line, behind) = first_line(report);
    match size_told(line) {
        Some(size) if ended_at(behind, size) => Some(size),
        _ => None,
    }
}
