//! `verify`: traces by hand, of docs/TRACES.md and docs/MACHINE.md, each with its first fault.

ghost use Rattle.std.specs.Prelude.{◌<◌};

use crate::record_tests::{FOREVER_TEXT, SEVEN_TRACE, TRAP_TEXT};
use crate::tool_tests::{SEVEN_TEXT, image_of_text};
use std::alloc::{AllocError, Global};
use std::process::Abort;
use std::test::Fail;
use trips_run::Status;
use trips_run_harness::{answer_of, answer_read_in_pieces};

/// How a trace differs from the one of the program that returns 7.
enum Change {
    None,
    /// this byte at this place
    Byte(usize, u8),
    /// only so many bytes
    Cut(usize),
    /// these bytes behind it
    Behind(&'static [u8]),
}

/// A change, a status and a report.
type Row = (Change, Status, &'static str);

const ROWS: &[Row] = &[
    (Change::None, Status::Ended, "verified 1 blocks\n"),
    (
        Change::Byte(34, 8),
        Status::Refused,
        "refused trace 6 WrongToken N[1] entry 0\n",
    ),
    (
        Change::Cut(39),
        Status::Refused,
        "refused trace 3 Truncated at 39\n",
    ),
    (
        Change::Byte(0, b'X'),
        Status::Refused,
        "refused trace 1 Magic\n",
    ),
    (
        Change::Byte(11, 2),
        Status::Refused,
        "refused trace 2 Version\n",
    ),
    (
        Change::Behind(b"x"),
        Status::Refused,
        "refused trace 4 Trailing at 40\n",
    ),
    (
        Change::Byte(36, 0),
        Status::Refused,
        "refused trace 5 Past entry 1\n",
    ),
    (
        Change::Byte(15, 1),
        Status::Refused,
        "refused trace 7 WrongBlock entry 0\n",
    ),
    (
        Change::Byte(16, 1),
        Status::Refused,
        "refused trace 8 WrongExit entry 0\n",
    ),
    (
        Change::Byte(17, 3),
        Status::Refused,
        "refused trace 6 WrongToken N[0] entry 0\n",
    ),
];

fn changed(alloc: Global, change: &Change) -> Result<Vec<u8>, AllocError> {
    let mut trace = Vec::from_slice(alloc, SEVEN_TRACE)?;
    match change {
        Change::None => {}
        Change::Byte(at, byte) => {
            if let Some(old) = trace.get_mut(*at) {
                *old = *byte;
            }
        }
        Change::Cut(count) => trace.truncate(*count),
        Change::Behind(bytes) => trace.extend_from_slice(bytes)?,
    }
    Ok(trace)
}

// What `verify` answers of a trace, which is read by so many bytes at a time.
fn answer_to<'a>(
    alloc: Global,
    image: &'a [u8],
    trace: &'a [u8],
    piece: usize,
) -> Result<(Status, Vec<u8>), AllocError>
    requires { 0 < piece }
{
    answer_read_in_pieces(
        alloc,
        &["verify", "b.img", "t"],
        &[("b.img", image), ("t", trace)],
        piece,
    )
}

fn assert_row(
    rt: &impl Abort,
    alloc: Global,
    image: &[u8],
    row: &Row,
    piece: usize,
) -> Result<(), AllocError>
    requires { 0 < piece }
{
    let (change, wanted, report) = row;
    let trace = changed(alloc, change)?;
    let (status, written) = answer_to(alloc, image, trace.as_slice(), piece)?;
    assert!(rt; status == *wanted, "{report} {piece}");
    assert!(rt; written.as_slice() == report.as_bytes(), "{report} {piece}");
    Ok(())
}

fn assert_rows(rt: &impl Abort, alloc: Global, rows: &[Row]) -> Result<(), AllocError> {
    let image = image_of_text(rt, alloc, SEVEN_TEXT.as_bytes())?;
    for row in rows {
        assert_row(rt, alloc, image.as_slice(), row, 1)?;
        assert_row(rt, alloc, image.as_slice(), row, 7)?;
        assert_row(rt, alloc, image.as_slice(), row, 65_536)?;
    }
    Ok(())
}

#[test]
fn traces_are_verified(rt: HostRuntime) -> Result<(), Fail> {
    assert_rows(&rt, rt.alloc(), ROWS)?;
    Ok(())
}

// Each beginning of a trace is one that ends too early.
fn assert_beginnings(rt: &impl Abort, alloc: Global) -> Result<(), AllocError> {
    let image = image_of_text(rt, alloc, SEVEN_TEXT.as_bytes())?;
    for count in 0..SEVEN_TRACE.len() {
        let report = format!(in alloc; "refused trace 3 Truncated at {count}\n")?;
        let (status, written) = answer_of(
            alloc,
            &["verify", "b.img", "t"],
            &[("b.img", image.as_slice()), ("t", &SEVEN_TRACE[..count])],
        )?;
        assert!(rt; status == Status::Refused, "{report}");
        assert!(rt; written.as_slice() == report.as_bytes(), "{report}");
    }
    Ok(())
}

#[test]
fn beginnings_are_refused(rt: HostRuntime) -> Result<(), Fail> {
    assert_beginnings(&rt, rt.alloc())?;
    Ok(())
}

// The entry of a block that divides by zero.
const TRAP_ENTRY: &[u8] =
    b"TRIPSTRC\0\0\0\x01\0\0\0\0\0\x02\0\0\0\0\0\0\0\x01\x02\0\0\0\0\0\0\0\0\x06\0\0\0\0\0\0\0\0\x01";

fn assert_verified(
    rt: &impl Abort,
    alloc: Global,
    text: &str,
    trace: &[u8],
    wanted: &str,
) -> Result<(), AllocError> {
    let image = image_of_text(rt, alloc, text.as_bytes())?;
    let (_, written) = answer_to(alloc, image.as_slice(), trace, 65_536)?;
    assert!(rt; written.as_slice() == wanted.as_bytes(), "{wanted}");
    Ok(())
}

// One entry more than a trace may have.
fn long_trace(alloc: Global) -> Result<Vec<u8>, AllocError> {
    let mut trace = Vec::from_slice(alloc, b"TRIPSTRC\0\0\0\x01")?;
    for _ in 0..100_001 {
        trace.extend_from_slice(b"\0\0\0\0\x05\x01")?;
    }
    Ok(trace)
}

#[test]
fn faulting_blocks_have_no_entry(rt: HostRuntime) -> Result<(), Fail> {
    assert_verified(
        &rt,
        rt.alloc(),
        TRAP_TEXT,
        TRAP_ENTRY,
        "refused trace 9 Faulting entry 0\n",
    )?;
    Ok(())
}

#[test]
fn long_traces_are_refused(rt: HostRuntime) -> Result<(), Fail> {
    let trace = long_trace(rt.alloc())?;
    assert_verified(
        &rt,
        rt.alloc(),
        FOREVER_TEXT,
        trace.as_slice(),
        "refused trace 10 TooLong entry 100000\n",
    )?;
    Ok(())
}

#[test]
fn missing_traces_are_read_faults(rt: HostRuntime) -> Result<(), Fail> {
    let alloc = rt.alloc();
    let image = image_of_text(&rt, alloc, SEVEN_TEXT.as_bytes())?;
    let (status, written) = answer_of(
        alloc,
        &["verify", "b.img", "t"],
        &[("b.img", image.as_slice())],
    )?;
    assert!(rt; status == Status::ReadFault);
    assert!(rt; written.as_slice() == "read fault\n".as_bytes());
    Ok(())
}
