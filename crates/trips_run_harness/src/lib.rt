//! What the tests of the program share: calls over files and a sink in memory.
#![tactic(auto)]

ghost use Rattle.std.specs.Prelude.{◌<◌};

use std::alloc::{AllocError, Global};
use trips_outside::{HonestSink, MemFiles, MemSink};
use trips_run::{Status, trips_run};

/// The words of a command line.
pub fn words_of(alloc: Global, texts: &[&str]) -> Result<Vec<String>, AllocError> {
    let mut words = Vec::new(alloc);
    for text in texts {
        words.push(String::from_str(alloc, *text)?)?;
    }
    Ok(words)
}

/// Files of these names and bytes.
pub fn files_of(
    alloc: Global,
    held: &[(&str, &[u8])],
) -> Result<Vec<(String, Vec<u8>)>, AllocError> {
    let mut named = Vec::new(alloc);
    for (name, bytes) in held {
        named.push((
            String::from_str(alloc, *name)?,
            Vec::from_slice(alloc, *bytes)?,
        ))?;
    }
    Ok(named)
}

/// What the words are answered, and what is written, where the files are these and are read in pieces of so many bytes.
pub fn answer_read_in_pieces(
    alloc: Global,
    texts: &[&str],
    held: &[(&str, &[u8])],
    piece: usize,
) -> Result<(Status, Vec<u8>), AllocError>
    requires { 0 < piece }
{
    let words = words_of(alloc, texts)?;
    let mut files = MemFiles::make(files_of(alloc, held)?, piece, Vec::new(alloc));
    let Ok(mut sink) = HonestSink::make(alloc, 65_536) else {
        return Err(AllocError);
    };
    let status = trips_run(alloc, &words, &mut files, &mut sink);
    Ok((status, Vec::from_slice(alloc, sink.written())?))
}

/// What the words are answered, and what is written, where the files are these.
pub fn answer_of(
    alloc: Global,
    texts: &[&str],
    held: &[(&str, &[u8])],
) -> Result<(Status, Vec<u8>), AllocError> {
    answer_read_in_pieces(alloc, texts, held, 65_536)
}

/// How many bytes one call gives or takes at most, and which call fails, counted from 1 (0: none).
#[derive(Clone, Copy)]
pub struct Calls {
    pub piece: usize,
    pub failing: u64,
}

fn numbers_of(alloc: Global, number: u64) -> Result<Vec<u64>, AllocError> {
    let mut numbers = Vec::new(alloc);
    numbers.push(number)?;
    Ok(numbers)
}

/// The same, where the files are read in pieces, the report is written in pieces, and a call of either may fail.
pub fn answer_in_pieces(
    alloc: Global,
    texts: &[&str],
    held: &[(&str, &[u8])],
    reading: Calls,
    writing: Calls,
) -> Result<(Status, Vec<u8>), AllocError>
    requires reads { 0 < reading.piece }
    requires writes { 0 < writing.piece }
{
    let words = words_of(alloc, texts)?;
    let failing = numbers_of(alloc, reading.failing)?;
    let mut files = MemFiles::make(files_of(alloc, held)?, reading.piece, failing);
    let failing = numbers_of(alloc, writing.failing)?;
    let Ok(mut sink) = MemSink::make(alloc, writing.piece, 100, failing) else {
        return Err(AllocError);
    };
    let status = trips_run(alloc, &words, &mut files, &mut sink);
    Ok((status, Vec::from_slice(alloc, sink.written())?))
}
