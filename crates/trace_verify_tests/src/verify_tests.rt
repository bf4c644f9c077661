//! Traces with one change.

use crate::making::{CALLS, DIVIDES, ROW, TURNS, recorded};
use crate::reading::{Asked, assert_verdict};
use std::alloc::{AllocError, Global};
use std::process::Abort;
use std::test::Fail;
use trace_verify::VerifyFault;
use trace_verify::VerifyFault::{
    Faulting, Magic, Past, TooLong, Trailing, Truncated, Version, WrongBlock, WrongExit, WrongToken,
};
use trips_isa::Spot;

/// A name, and the bytes that are put for those of a recorded trace from one place up to another; and the first fault.
type Change = (&'static str, usize, &'static [u8], usize, VerifyFault);

/// Of the trace with one entry.
const CHANGES: &[Change] = &[
    ("no byte", 0, &[], 99, Truncated(0)),
    ("seven bytes of the magic", 7, &[], 99, Truncated(7)),
    ("another magic", 7, b"D", 8, Magic),
    ("another version", 11, &[2], 12, Version),
    ("three bytes of the end word", 39, &[], 99, Truncated(39)),
    ("a byte behind the end word", 40, &[0], 99, Trailing(40)),
];

/// The same, of its entry.
const IN_ENTRY: &[Change] = &[
    ("an entry behind the end", 36, &[0, 0, 0, 0], 36, Past(1)),
    ("another word", 34, &[8], 35, WrongToken(0, Spot::Inst(1))),
    (
        "null for a word",
        17,
        &[1],
        18,
        WrongToken(0, Spot::Inst(0)),
    ),
    (
        "nothing for a word",
        17,
        &[0],
        18,
        WrongToken(0, Spot::Inst(0)),
    ),
];

/// The same, of its other records and what stands before them.
const IN_RECORDS: &[Change] = &[
    ("a mark", 26, &[6], 27, WrongToken(0, Spot::Inst(1))),
    (
        "no record begins so",
        35,
        &[3],
        36,
        WrongToken(0, Spot::Inst(2)),
    ),
    ("no mark is 4", 17, &[18], 99, WrongToken(0, Spot::Inst(0))),
    (
        "a branch that waits",
        35,
        &[0],
        36,
        WrongToken(0, Spot::Inst(2)),
    ),
    ("another block", 15, &[1], 16, WrongBlock(0)),
    ("another exit", 16, &[1], 17, WrongExit(0)),
];

/// No change, where the budget is smaller.
const WHOLE: &Change = &("past the budget", 9999, &[], 9999, TooLong(49));

/// An entry of the block that divides by 0, which gives 0 with a mark.
const DIVIDED: &Change = &(
    "an entry of a block that faults",
    27,
    &[
        0, 0, 0, 1, 0, 2, 0, 0, 0, 0, 0, 0, 0, 0, 6, 0, 0, 0, 0, 0, 0, 0, 0, 1,
    ],
    27,
    Faulting(1),
);

// The bytes with a change.
fn changed(alloc: Global, bytes: &[u8], change: &Change) -> Result<Vec<u8>, AllocError> {
    let (_, keep, put, from, _) = change;
    let mut out = Vec::new(alloc);
    for place in 0..bytes.len() {
        if place < *keep {
            out.push(bytes[place])?;
        }
    }
    out.extend_from_slice(put)?;
    for place in 0..bytes.len() {
        if place >= *from {
            out.push(bytes[place])?;
        }
    }
    Ok(out)
}

// The bytes with a change are refused with its fault within a budget.
fn assert_change(
    rt: &impl Abort,
    alloc: Global,
    text: &'static str,
    budget: u32,
    bytes: &[u8],
    change: &Change,
) -> Result<(), Fail> {
    let asked = Asked {
        name: change.0,
        text,
        input: b"",
        budget,
        want: Err(change.4),
    };
    assert_verdict(rt, alloc, &asked, &changed(alloc, bytes, change)?)
}

fn assert_changes(rt: &impl Abort, alloc: Global, changes: &[Change]) -> Result<(), Fail> {
    let (bytes, _ending) = recorded(alloc, ROW, b"", 9)?;
    for change in changes {
        assert_change(rt, alloc, ROW, 9, &bytes, change)?;
    }
    Ok(())
}

#[test]
fn faults_around_the_entries(rt: HostRuntime) -> Result<(), Fail> {
    assert_changes(&rt, rt.alloc(), CHANGES)
}

#[test]
fn faults_of_an_entry(rt: HostRuntime) -> Result<(), Fail> {
    assert_changes(&rt, rt.alloc(), IN_ENTRY)
}

#[test]
fn faults_of_records(rt: HostRuntime) -> Result<(), Fail> {
    assert_changes(&rt, rt.alloc(), IN_RECORDS)
}

#[test]
fn an_entry_past_the_budget(rt: HostRuntime) -> Result<(), Fail> {
    let (bytes, _ending) = recorded(rt.alloc(), TURNS, b"", 50)?;
    assert_change(&rt, rt.alloc(), TURNS, 49, &bytes, WHOLE)
}

#[test]
fn an_entry_of_a_block_that_faults(rt: HostRuntime) -> Result<(), Fail> {
    let (bytes, _ending) = recorded(rt.alloc(), DIVIDES, b"", 9)?;
    assert_change(&rt, rt.alloc(), DIVIDES, 9, &bytes, DIVIDED)
}

/// How many bytes are left of a trace: within each of its fields.
const CUTS: &[usize] = &[0, 11, 16, 25, 35, 39];

#[test]
fn cuts_are_told(rt: HostRuntime) -> Result<(), Fail> {
    let (bytes, _ending) = recorded(rt.alloc(), ROW, b"", 9)?;
    for cut in CUTS {
        let change: Change = ("a cut", *cut, &[], 9999, Truncated(*cut as u64));
        assert_change(&rt, rt.alloc(), ROW, 9, &bytes, &change)?;
    }
    Ok(())
}

#[test]
fn another_input_is_another_trace(rt: HostRuntime) -> Result<(), Fail> {
    let (bytes, _ending) = recorded(rt.alloc(), CALLS, b"B", 9)?;
    let asked = Asked {
        name: "another input",
        text: CALLS,
        input: b"C",
        budget: 9,
        want: Err(WrongToken(2, Spot::Inst(2))),
    };
    assert_verdict(&rt, rt.alloc(), &asked, &bytes)
}
