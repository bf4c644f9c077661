//! Finds a row of a table by a guess: the one row that the bytes may have is compared with them.
//!
//! Row `r` of a table stands at the spread of its bytes. The proof tries this of each row, so that
//! no table and no spread can be changed alone; `bench/marks` writes the tables.

ghost use Rattle.std.specs.Prelude.{◌≡◌, ◌<◌, map, length, slice_index};
ghost use Rattle.c_lex.specs.Tables.{lookup, keywords, marks, digraphs};
ghost use Rattle.c_lex.specs.inside.Guesses.{spread_of, key_guess, mark_guess, row_at};

use crate::table::KEYWORDS;
use c_tree::{Key, MARKS, Mark, same_bytes};

/// For each spread the row of the keyword that may have it, or 255.
pub const KEY_ROWS: [u8; 256] = [
    5, 255, 255, 255, 255, 255, 255, 255, 255, 255, 34, 255, 255, 255, 255, 38, 255, 30, 255, 32,
    255, 255, 255, 255, 255, 255, 255, 255, 19, 15, 20, 255, 255, 7, 255, 255, 255, 255, 255, 255,
    255, 255, 255, 255, 41, 255, 255, 255, 255, 255, 255, 255, 255, 255, 255, 255, 255, 255, 255,
    255, 255, 255, 255, 255, 255, 255, 255, 255, 255, 255, 255, 255, 255, 255, 255, 255, 255, 13,
    255, 255, 255, 255, 17, 255, 255, 255, 255, 255, 255, 255, 255, 255, 255, 255, 40, 255, 255,
    255, 255, 255, 2, 255, 9, 255, 255, 255, 255, 255, 0, 255, 10, 18, 255, 3, 14, 255, 255, 255,
    31, 255, 255, 255, 255, 255, 255, 255, 255, 255, 255, 255, 255, 255, 255, 255, 255, 255, 255,
    255, 255, 255, 255, 255, 37, 255, 1, 255, 255, 255, 255, 255, 255, 255, 255, 255, 4, 255, 255,
    12, 255, 33, 255, 255, 255, 255, 255, 255, 29, 255, 255, 255, 22, 255, 255, 255, 255, 255, 255,
    255, 255, 8, 255, 255, 255, 255, 16, 255, 255, 255, 255, 11, 255, 255, 25, 23, 255, 24, 255,
    27, 43, 255, 255, 255, 21, 255, 255, 255, 255, 255, 255, 26, 255, 36, 255, 255, 255, 255, 255,
    255, 255, 255, 255, 255, 255, 255, 255, 255, 255, 255, 255, 255, 255, 255, 255, 6, 255, 28,
    255, 255, 255, 255, 255, 255, 255, 255, 255, 42, 255, 255, 255, 255, 39, 255, 255, 35, 255,
    255,
];

/// For each spread the row of the punctuator that may have it, or 255.
pub const MARK_ROWS: [u8; 256] = [
    255, 255, 255, 255, 255, 255, 255, 42, 255, 255, 255, 255, 255, 255, 255, 255, 255, 255, 255,
    255, 255, 255, 255, 255, 255, 255, 255, 255, 255, 2, 255, 30, 255, 3, 255, 10, 255, 255, 255,
    255, 255, 255, 255, 255, 255, 255, 255, 255, 255, 255, 255, 255, 255, 255, 255, 255, 255, 255,
    255, 255, 255, 255, 255, 255, 255, 255, 255, 255, 255, 255, 32, 255, 255, 255, 255, 255, 255,
    255, 255, 255, 255, 255, 255, 255, 255, 255, 255, 255, 255, 255, 255, 255, 255, 255, 255, 255,
    255, 255, 255, 255, 255, 255, 255, 255, 255, 11, 255, 255, 255, 255, 255, 255, 255, 17, 255,
    28, 255, 255, 255, 0, 255, 1, 255, 15, 255, 18, 255, 7, 255, 19, 255, 255, 255, 16, 255, 255,
    255, 255, 255, 255, 255, 255, 255, 255, 255, 255, 255, 255, 255, 255, 255, 255, 255, 255, 31,
    9, 255, 6, 255, 22, 255, 12, 255, 23, 13, 8, 255, 255, 14, 255, 255, 255, 27, 255, 255, 255,
    35, 40, 255, 255, 255, 33, 36, 255, 37, 255, 34, 255, 255, 255, 255, 255, 255, 255, 255, 255,
    255, 255, 20, 24, 26, 25, 21, 255, 255, 255, 255, 255, 255, 255, 255, 255, 255, 255, 255, 255,
    255, 255, 255, 255, 255, 4, 255, 255, 255, 5, 255, 29, 255, 255, 255, 255, 255, 41, 255, 255,
    255, 255, 38, 255, 39, 255, 255, 255, 255, 255, 255, 255, 255, 255, 255, 255, 255, 255, 255,
    255,
];

/// A number that no two keywords share, and no two punctuators.
fn spread(text: &[u8]) -> usize
    requires some { 0 < length text.now }
    ensures value { result ≡ spread_of text.now }
    ensures within { result < 256 }
{
    let first = usize::from(text[0]);
    let last = usize::from(text[text.len() - 1]);
    (first + last + text.len() % 16 * 39) % 256
}

fn entry(rows: &[u8], at: usize) -> usize
    requires { at < length rows.now }
    ensures { result ≡ slice_index rows.now at }
{
    usize::from(rows[at])
}

#[tactic(auto, unfolding(crate::specs::inside::Guesses::key_guess))]
fn guess_key(word: &[u8]) -> usize
    requires some { 0 < length word.now }
    ensures { result ≡ key_guess word.now }
{
    entry(&KEY_ROWS, spread(word))
}

#[tactic(auto, unfolding(crate::specs::inside::Guesses::mark_guess))]
fn guess_mark(text: &[u8]) -> usize
    requires some { 0 < length text.now }
    ensures { result ≡ mark_guess text.now }
{
    entry(&MARK_ROWS, spread(text))
}

/// What stands beside the bytes in this row, if the row is theirs.
fn row_at<T: Copy>(table: &[(&[u8], T)], at: usize, bytes: &[u8]) -> Option<T>
    ensures { result ≡ row_at at bytes.now (map (λ row. (row.0.now, row.1)) table.now) }
{
    if table.len() <= at {
        return None;
    }
    let row = &table[at];
    if same_bytes(row.0, bytes) {
        Some(row.1)
    } else {
        None
    }
}

/// The keyword that the word is, if it is one.
#[tactic(auto, using(crate::proofs::Guesses::key_guessed))]
pub fn find_key(word: &[u8]) -> Option<Key>
    requires some { 0 < length word.now }
    ensures { result ≡ lookup word.now keywords }
{
    row_at(&KEYWORDS, guess_key(word), word)
}

/// The punctuator that the bytes are a digraph of (C17 6.4.6, paragraph 3), if they are one.
fn find_digraph(text: &[u8]) -> Option<Mark>
    ensures { result ≡ lookup text.now digraphs }
{
    if same_bytes(text, b"<:") {
        Some(Mark::LeftBracket)
    } else if same_bytes(text, b":>") {
        Some(Mark::RightBracket)
    } else if same_bytes(text, b"<%") {
        Some(Mark::LeftBrace)
    } else if same_bytes(text, b"%>") {
        Some(Mark::RightBrace)
    } else {
        None
    }
}

/// The punctuator that the bytes are, if they are one.
#[tactic(auto, using(crate::proofs::Guesses::mark_guessed, crate::proofs::Guesses::digraph_guessed))]
pub fn find_mark(text: &[u8]) -> Option<Mark>
    requires some { 0 < length text.now }
    ensures { result ≡ lookup text.now marks }
{
    match row_at(&MARKS, guess_mark(text), text) {
        Some(mark) => Some(mark),
        None => find_digraph(text),
    }
}
