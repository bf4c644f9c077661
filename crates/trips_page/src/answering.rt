//! What a request is answered, by the command's table of answers, over files in memory.

ghost use Rattle.std.specs.Prelude.{◌≡◌, ◌∷◌, ◌<◌, ◌≤◌, [], Some, IfOk, codes, length, string_bytes, take};
ghost use Rattle.trips_outside.specs.Outside.{Rose};
ghost use Rattle.trips_answers.specs.Answer.{IsAnswer};
ghost use Rattle.trips_answers.specs.inside.Settings.{request_seen};
ghost use Rattle.trips_requests.specs.inside.ExitCodes.{number_of};
ghost use Rattle.trips_requests.specs.Limits.{most_count};
ghost use Rattle.trips_page.specs.Told.{IsTold, held_as};

use std::alloc::{AllocError, Global};
use trips_answers::{Answer, answer_to};
use trips_outside::HonestFiles;
use trips_requests::{Asked, MOST_COUNT};

// A file in memory.
fn file(alloc: Global, name: &str, bytes: &[u8]) -> Result<(String, Vec<u8>), AllocError>
    ensures name { IfOk result (λ f. string_bytes f.0 ≡ name.now) }
    ensures bytes { IfOk result (λ f. f.1.items ≡ bytes.now) }
{
    Ok((
        String::from_str(alloc, name)?,
        Vec::from_slice(alloc, bytes)?,
    ))
}

// A file of this name, and the input.
fn held(alloc: Global, name: &str, text: &[u8], input: &[u8]) -> Result<HonestFiles, AllocError>
    ensures { IfOk result (λ files. files.entries ≡ (name.now, text.now) ∷ (codes "input", input.now) ∷ []) }
{
    let mut files = Vec::new(alloc);
    files.push(file(alloc, name, text)?)?;
    files.push(file(alloc, "input", input)?)?;
    Ok(HonestFiles::make(files))
}

// What a request is answered over these files, which never fail: a row of the command's table.
fn answered(
    alloc: Global,
    asked: Asked<'_>,
    text: &[u8],
    input: &[u8],
) -> Result<Answer, AllocError>
    requires some { 0 < asked.most }
    requires most { asked.most ≤ most_count }
    requires turns { 0 < asked.unroll }
    ensures { IfOk result (λ answer. IsAnswer (Some (request_seen asked.entry))
        (held_as asked.entry.file.now text.now input.now) (Rose 0 0) answer.status answer.report.items) }
{
    let mut files = held(alloc, asked.file, text, input)?;
    answer_to(alloc, &mut files, Some(asked))
}

// The number of the status, and the report.
fn spelled(alloc: Global, answer: &Answer) -> Result<Vec<u8>, AllocError>
    ensures { IfOk result (λ bytes. bytes.items ≡ number_of answer.now.status ∷ answer.now.report.items) }
{
    let mut told = Vec::new(alloc);
    told.push(answer.status as u8)?;
    told.extend_from_slice(answer.report.as_slice())?;
    Ok(told)
}

// What a request is answered, as bytes.
fn told(alloc: Global, asked: Asked<'_>, text: &[u8], input: &[u8]) -> Result<Vec<u8>, AllocError>
    requires some { 0 < asked.most }
    requires most { asked.most ≤ most_count }
    requires turns { 0 < asked.unroll }
    ensures { IfOk result (λ bytes.
        IsTold (request_seen asked.entry) asked.entry.file.now text.now input.now bytes.items) }
{
    let answer = answered(alloc, asked, text, input)?;
    spelled(alloc, &answer)
}

/// Copies as many bytes as fit, and answers how many there are.
pub fn put(bytes: &[u8], out: &mut [u8]) -> usize
    ensures count { result ≡ length bytes.now }
    ensures fits { length bytes.now ≤ length out.old → take (length bytes.now) out.new ≡ bytes.now }
{
    let count = bytes.len().min(out.len());
    out[..count].copy_from_slice(&bytes[..count]);
    bytes.len()
}

/// What a request is answered: how many bytes that takes, and as many of them as there is room for. 0 for want of
/// memory, and where the number of blocks or steps is none that a command takes, or no turn of a loop is allowed.
pub fn answer(alloc: Global, asked: Asked<'_>, text: &[u8], input: &[u8], out: &mut [u8]) -> usize
    ensures { 0 < result → result ≤ length out.old → IsTold (request_seen asked.entry) asked.entry.file.now
        text.now input.now (take result out.new) }
{
    if asked.most == 0 || asked.most > MOST_COUNT || asked.unroll == 0 {
        return 0;
    }
    match told(alloc, asked, text, input) {
        Ok(bytes) => put(bytes.as_slice(), out),
        Err(_) => 0,
    }
}
