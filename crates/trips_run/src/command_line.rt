//! The request of the words, and what is answered to it.

ghost use Rattle.std.specs.Prelude.{◌≡◌, ◌<◌, ◌≤◌, IfOk, IfSome, option_map};
ghost use Rattle.trips_outside.specs.Outside.{Rose};
ghost use Rattle.trips_requests.specs.Limits.{most_count};
ghost use Rattle.trips_answers.specs.Request.{request_of};
ghost use Rattle.trips_answers.specs.inside.Settings.{request_seen};
ghost use Rattle.trips_answers.specs.Answer.{IsAnswer};

use std::alloc::{AllocError, Global};
use trips_answers::{Answer, answer_to};
use trips_outside::Files;
use trips_requests::Asked;
use trips_words::request;

// The request of the words, and none where they make none. Want of memory is the only error.
fn asked_by(alloc: Global, words: &[String]) -> Result<Option<Asked<'_>>, AllocError>
    ensures asked { IfOk result (λ asked. option_map request_seen asked ≡ request_of words.now) }
    ensures some { IfOk result (λ asked. IfSome asked (λ request. 0 < request.most)) }
    ensures few { IfOk result (λ asked. IfSome asked (λ request. request.most ≤ most_count)) }
    ensures turns { IfOk result (λ asked. IfSome asked (λ request. 0 < request.unroll)) }
{
    match request(alloc, words) {
        Ok(asked) => Ok(asked),
        Err(_) => Err(AllocError),
    }
}

/// What is answered to the words. Nothing is written yet.
pub fn answer_for<F: Files>(
    alloc: Global,
    words: &[String],
    files: &mut F,
) -> Result<Answer, AllocError>
    ensures answer { IfOk result (λ answer. IsAnswer (request_of words.now) (F.held files.old)
        (Rose (F.faults files.old) (F.faults files.new)) answer.status answer.report.items) }
    ensures kept { F.held files.new ≡ F.held files.old }
    ensures later { F.faults files.old ≤ F.faults files.new }
{
    let asked = asked_by(alloc, words)?;
    answer_to(alloc, files, asked)
}
