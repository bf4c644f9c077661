//! `record`: traces by hand, of docs/TRACES.md and docs/MACHINE.md.

use crate::tool_tests::{SEVEN_TEXT, image_of_text};
use std::alloc::{AllocError, Global};
use std::process::Abort;
use std::test::Fail;
use trips_run::Status;
use trips_run_harness::answer_of;

/// A block that goes to itself for ever.
pub const FOREVER_TEXT: &str = "trips 1
data 0
block 0 mask 00000000
N[0] bro 5 @0
";

/// A division by zero.
pub const TRAP_TEXT: &str = "trips 1
data 0
block 0 mask 00000000
W[0] write G[3]
N[0] genu 1 N[2,0]
N[1] genu 0 N[2,1]
N[2] divu W[0]
N[3] bro 0 @0
";

/// The trace of the program that returns 7.
pub const SEVEN_TRACE: &[u8] =
    b"TRIPSTRC\0\0\0\x01\0\0\0\0\0\x02\0\0\0\0\0\0\0\x03\x02\0\0\0\0\0\0\0\x07\x01\xff\xff\xff\xff";

const FOREVER_TRACE: &[u8] =
    b"TRIPSTRC\0\0\0\x01\0\0\0\0\x05\x01\0\0\0\0\x05\x01\0\0\0\0\x05\x01\xff\xff\xff\xff";

// A block that traps has no entry.
const TRAP_TRACE: &[u8] = b"TRIPSTRC\0\0\0\x01\xff\xff\xff\xff";

/// A target text, further words, a status and the bytes of a trace.
type Row = (&'static str, &'static [&'static str], Status, &'static [u8]);

const ROWS: &[Row] = &[
    (SEVEN_TEXT, &["record", "b.img"], Status::Ended, SEVEN_TRACE),
    (
        SEVEN_TEXT,
        &["record", "--blocks", "1", "b.img"],
        Status::Ended,
        SEVEN_TRACE,
    ),
    (
        FOREVER_TEXT,
        &["record", "b.img", "--blocks=3"],
        Status::Budget,
        FOREVER_TRACE,
    ),
    (TRAP_TEXT, &["record", "b.img"], Status::Trap, TRAP_TRACE),
];

fn assert_row(rt: &impl Abort, alloc: Global, row: &Row) -> Result<(), AllocError> {
    let (text, words, wanted, trace) = row;
    let image = image_of_text(rt, alloc, text.as_bytes())?;
    let (status, written) = answer_of(alloc, words, &[("b.img", image.as_slice())])?;
    assert!(rt; status == *wanted, "{words:?} {text}");
    assert!(rt; written.as_slice() == *trace, "{words:?} {text}");
    Ok(())
}

fn assert_rows(rt: &impl Abort, alloc: Global, rows: &[Row]) -> Result<(), AllocError> {
    for row in rows {
        assert_row(rt, alloc, row)?;
    }
    Ok(())
}

#[test]
fn runs_are_recorded(rt: HostRuntime) -> Result<(), Fail> {
    assert_rows(&rt, rt.alloc(), ROWS)?;
    Ok(())
}
