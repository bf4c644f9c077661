//! Recorded runs.

use crate::making::{CALLS, DIVIDES, ROW, TURNS, recorded};
use crate::reading::{Asked, assert_verdict};
use std::alloc::Global;
use std::process::Abort;
use std::test::Fail;
use trips_isa::{Ending, TrapCause};

/// The trace of docs/TRACES.md, which was written by hand.
const BY_HAND: &[u8] = &[
    0x54, 0x52, 0x49, 0x50, 0x53, 0x54, 0x52, 0x43, // TRIPSTRC
    0, 0, 0, 1, // version
    0, 0, 0, 0, // entry 0: block 0
    0, // exit 0
    2, 0, 0, 0, 0, 0, 0, 0, 3, // a word
    2, 0, 0, 0, 0, 0, 0, 0, 7, // a word
    1, // a branch that fires
    255, 255, 255, 255, // the end word
];

#[test]
fn a_run_is_recorded_as_by_hand(rt: HostRuntime) -> Result<(), Fail> {
    let (bytes, ending) = recorded(rt.alloc(), ROW, b"", 10)?;
    assert!(&rt; bytes.as_slice() == BY_HAND, "the bytes {bytes:?}");
    assert!(&rt; ending == Ending::Ended, "it ends with {ending:?}");
    Ok(())
}

/// A run, how it ends, and how many blocks its trace has.
struct Row {
    name: &'static str,
    text: &'static str,
    input: &'static [u8],
    budget: u32,
    ending: Ending,
    blocks: u32,
}

const RUNS: &[Row] = &[
    Row {
        name: "no block",
        text: ROW,
        input: b"",
        budget: 0,
        ending: Ending::Budget,
        blocks: 0,
    },
    Row {
        name: "three blocks",
        text: CALLS,
        input: b"B",
        budget: 9,
        ending: Ending::Ended,
        blocks: 3,
    },
    Row {
        name: "the budget is spent",
        text: CALLS,
        input: b"",
        budget: 2,
        ending: Ending::Budget,
        blocks: 2,
    },
    Row {
        name: "a block that faults has no entry",
        text: DIVIDES,
        input: b"",
        budget: 9,
        ending: Ending::Trap {
            block: 1,
            cause: TrapCause::DivisionByZero,
        },
        blocks: 1,
    },
    Row {
        name: "fifty blocks with two exits",
        text: TURNS,
        input: b"",
        budget: 50,
        ending: Ending::Budget,
        blocks: 50,
    },
];

fn assert_run(rt: &impl Abort, alloc: Global, row: &Row) -> Result<(), Fail> {
    let (bytes, ending) = recorded(alloc, row.text, row.input, row.budget)?;
    assert!(rt;
        ending == row.ending,
        "{}: it ends with {ending:?}",
        row.name
    );
    let asked = Asked {
        name: row.name,
        text: row.text,
        input: row.input,
        budget: row.budget,
        want: Ok(row.blocks),
    };
    assert_verdict(rt, alloc, &asked, &bytes)
}

fn assert_runs(rt: &impl Abort, alloc: Global, rows: &[Row]) -> Result<(), Fail> {
    for row in rows {
        assert_run(rt, alloc, row)?;
    }
    Ok(())
}

#[test]
fn what_is_recorded_is_verified(rt: HostRuntime) -> Result<(), Fail> {
    assert_runs(&rt, rt.alloc(), RUNS)
}
