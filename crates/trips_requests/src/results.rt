//! How the end of a program is told.

ghost use Rattle.std.specs.Prelude.{◌≡◌, IfOk, string_bytes};
ghost use Rattle.trips_requests.specs.Results as specs;

use crate::status::Status;
use std::alloc::{AllocError, Global};

/// The word that says that a program has aborted: that of the least long, which no int is.
const ABORTED: u64 = 1 << 63;

/// The status of a program that has ended with a word.
pub fn end_status(word: u64) -> Status
    ensures { result ≡ specs.end_status word }
{
    if word == ABORTED {
        Status::Aborted
    } else {
        Status::Ended
    }
}

/// The line of its end, by the digits of the word's number. Want of memory is the only error.
pub fn end_text(alloc: Global, word: u64, digits: &str) -> Result<String, AllocError>
    ensures ok { IfOk result (λ text. string_bytes text ≡ specs.end_line word digits.now) }
{
    if word == ABORTED {
        String::from_str(alloc, "aborted")
    } else {
        format!(in alloc; "result {digits}")
    }
}
