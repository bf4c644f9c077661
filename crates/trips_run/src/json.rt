//! Answers as JSON.

ghost use Rattle.std.specs.Prelude.{◌≡◌, ◌≤◌, List, ℕ, map, string_bytes};
ghost use Rattle.trips_outside.specs.Outside.{Rose};
ghost use Rattle.trips_requests.specs.Table.{IsWritten};
ghost use Rattle.trips_answers.specs.Answer.{IsAnswer};
ghost use Rattle.trips_answers.specs.Request.{request_of};
ghost use Rattle.trips_json.specs.Objects.{json_text};
ghost use Rattle.trips_json.specs.Words.{has_output};

use crate::command_line::answer_for;
use std::alloc::Global;
use trips_answers::Status;
use trips_json::{has_output, write_json};
use trips_outside::{Files, Sink};

/// Does what the words ask and writes the answer as JSON; its status is that of the answer. The words are those
/// without the one that asks for JSON (`said_json`).
pub fn trips_json<F: Files, K: Sink>(
    alloc: Global,
    words: &[String],
    files: &mut F,
    sink: &mut K,
) -> Status
    // The table of `trips_run`, where in place of a report the object of the status and the report is written.
    ensures answered { IsWritten (λ s text. (report : List ℕ)
        × IsAnswer (request_of words.now) (F.held files.old)
        (Rose (F.faults files.old) (F.faults files.new)) s report
        × (text ≡ json_text (has_output (map (λ word. string_bytes word) words.now)) s report))
        (K.written sink.old) (K.written sink.new) (Rose (K.faults sink.old) (K.faults sink.new)) result }
    ensures kept { F.held files.new ≡ F.held files.old }
    ensures reads_later { F.faults files.old ≤ F.faults files.new }
    ensures writes_later { K.faults sink.old ≤ K.faults sink.new }
{
    let Ok(answer) = answer_for(alloc, words, files) else {
        return Status::Memory;
    };
    write_json(alloc, has_output(words), &answer, sink)
}
