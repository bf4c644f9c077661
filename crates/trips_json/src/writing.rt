//! Writes answers as JSON.

ghost use Rattle.std.specs.Prelude.{◌≢◌, ◌≤◌};
ghost use Rattle.trips_outside.specs.Outside.{Rose};
ghost use Rattle.trips_requests.specs.Table.{IsWritten};
ghost use Rattle.trips_json.specs.Objects.{IsObjectOf};

use crate::objects::json_report;
use std::alloc::Global;
use trips_outside::{Sink, write_all};
use trips_requests::{Answer, Status};

/// Writes an answer as JSON: its object is made before the first byte is written. An answer has neither of the two
/// statuses that tell how its making or its writing failed.
pub fn write_json<K: Sink>(alloc: Global, parts: bool, answer: &Answer, sink: &mut K) -> Status
    ensures answered { answer.now.status ≢ Status.Memory → answer.now.status ≢ Status.WriteFault
        → IsWritten (IsObjectOf parts answer.now.status answer.now.report.items)
        (K.written sink.old) (K.written sink.new) (Rose (K.faults sink.old) (K.faults sink.new)) result }
    ensures writes_later { K.faults sink.old ≤ K.faults sink.new }
{
    let Ok(text) = json_report(alloc, parts, answer.status, &answer.report) else {
        return Status::Memory;
    };
    match write_all(sink, &text) {
        Ok(()) => answer.status,
        Err(_) => Status::WriteFault,
    }
}
