//! Endings of the evaluation of one text, its places counted by hand.
ghost use Rattle.std.specs.Prelude.{◌<◌, length};

use crate::endings::{done_text, halted_text, not_done_text, too_deep_text, undefined_text};
use std::alloc::{AllocError, Global};
use std::process::Abort;
use std::test::Fail;

/// The lines begin at 0, 19, 50 and 81: `f` stands at 23, its `/` at 43, `main` at 54, its first `putchar` at 67, and
/// its call of f at 107.
const TEXT: &str =
    "#include <stdio.h>\nint f(int n)\t{ return 1 / n; }\nint main(void) { putchar('a');\n\tputchar('b'); return 1 + f(0); }\n";

/// Where its functions are defined: one of the library, f and main.
const DEFINITIONS: &[u32] = &[0, 23, 54];

/// The place where an evaluation stopped, the open calls, the output, and what is told behind the reason.
struct Row {
    at: Option<u32>,
    calls: &'static [u32],
    output: &'static str,
    undefined: &'static str,
    halted: &'static str,
}

const ROWS: &[Row] = &[
    // the division, called in main
    Row {
        at: Some(43),
        calls: &[107],
        output: "ab",
        undefined: "a.c:2:25: why\nint f(int n)\t{ return 1 / n; }\n            \t           ^\n\
            called in main at a.c:4:27\noutput: 2 bytes\nab",
        halted: "why, at a.c:2:25\nint f(int n)\t{ return 1 / n; }\n            \t           ^\n\
            called in main at a.c:4:27\noutput: 2 bytes\nab",
    },
    // the first byte: of the library, called there and in main
    Row {
        at: Some(0),
        calls: &[0, 67],
        output: "",
        undefined: "a.c:1:1: why\n#include <stdio.h>\n^\ncalled in the library at a.c:1:1\n\
            called in main at a.c:3:18\noutput: 0 bytes\n",
        halted: "why, at a.c:1:1\n#include <stdio.h>\n^\ncalled in the library at a.c:1:1\n\
            called in main at a.c:3:18\noutput: 0 bytes\n",
    },
    // behind the line feed of the third line, a tab
    Row {
        at: Some(81),
        calls: &[],
        output: "a\n",
        undefined: "a.c:4:1: why\n\tputchar('b'); return 1 + f(0); }\n^\noutput: 2 bytes\na\n",
        halted: "why, at a.c:4:1\n\tputchar('b'); return 1 + f(0); }\n^\noutput: 2 bytes\na\n",
    },
    // no place
    Row {
        at: None,
        calls: &[24],
        output: "",
        undefined: "a.c: why\ncalled in f at a.c:2:6\noutput: 0 bytes\n",
        halted: "why\ncalled in f at a.c:2:6\noutput: 0 bytes\n",
    },
];

fn assert_row(rt: &impl Abort, alloc: Global, row: &Row) -> Result<(), AllocError> {
    let text = TEXT.as_bytes();
    if 1_000 < text.len() {
        return Ok(());
    }
    let output = row.output.as_bytes();
    let told = undefined_text(
        alloc,
        "a.c",
        text,
        DEFINITIONS,
        "why",
        row.at,
        row.calls,
        output,
    )?;
    assert_eq!(rt;
        told.as_slice(),
        row.undefined.as_bytes(),
        "{}",
        row.undefined
    );
    let told = halted_text(
        alloc,
        "a.c",
        text,
        DEFINITIONS,
        "why",
        row.at,
        row.calls,
        output,
    )?;
    assert_eq!(rt; told.as_slice(), row.halted.as_bytes(), "{}", row.halted);
    Ok(())
}

#[test]
fn tells_where_an_evaluation_stopped(rt: HostRuntime) -> Result<(), Fail> {
    for row in ROWS {
        assert_row(&rt, rt.alloc(), row)?;
    }
    Ok(())
}

/// Nineteen calls are all that were open, twenty may not be.
const NINETEEN: &[u32] = &[5, 5, 5, 5, 5, 5, 5, 5, 5, 5, 5, 5, 5, 5, 5, 5, 5, 5, 5];

const TWENTY: &[u32] = &[5, 5, 5, 5, 5, 5, 5, 5, 5, 5, 5, 5, 5, 5, 5, 5, 5, 5, 5, 5];

fn calls_end_with(
    rt: &impl Abort,
    alloc: Global,
    calls: &[u32],
    size: usize,
    end: &str,
) -> Result<(), AllocError> {
    let told = halted_text(alloc, "a.c", b"int f(", &[4], "why", None, calls, b"")?;
    assert_eq!(rt; told.len(), size, "{end}");
    assert!(rt; told.as_slice().ends_with(end.as_bytes()), "{end}");
    Ok(())
}

#[test]
fn tells_twenty_calls_at_most(rt: HostRuntime) -> Result<(), Fail> {
    let alloc = rt.alloc();
    // 4 for the reason, 23 for each call, and 16 for the output
    calls_end_with(
        &rt,
        alloc,
        NINETEEN,
        457,
        "called in f at a.c:1:6\noutput: 0 bytes\n",
    )?;
    calls_end_with(
        &rt,
        alloc,
        TWENTY,
        483,
        "called in f at a.c:1:6\n..\noutput: 0 bytes\n",
    )?;
    Ok(())
}

#[test]
fn tells_what_is_done_and_what_is_not(rt: HostRuntime) -> Result<(), Fail> {
    let alloc = rt.alloc();
    let told = done_text(alloc, "result -3", 12, b"ab\n")?;
    assert_eq!(rt;
        told.as_slice(),
        b"result -3 in 12 steps\noutput: 3 bytes\nab\n".as_slice(),
        "done"
    );
    assert_eq!(rt;
        not_done_text(alloc, 9)?.as_str(),
        "not done after 9 steps",
        "steps"
    );
    assert_eq!(rt; too_deep_text(), "the frames are too deep", "frames");
    Ok(())
}
