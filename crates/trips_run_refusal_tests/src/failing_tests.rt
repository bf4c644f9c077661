//! Calls of the files and of the sink that fail, each in turn.
use std::alloc::{AllocError, Global};
use std::process::Abort;
use std::test::Fail;
use trips_run::Status;
use trips_run_harness::{Calls, answer_in_pieces};

/// Which call of the files fails, and which of the sink (0: none), the status, and what was written.
type Row = (u64, u64, Status, &'static str);

// The report of the program that returns 7, to a sink that takes four bytes a call: five calls.
const ROWS: &[Row] = &[
    (0, 1, Status::WriteFault, ""),
    (0, 2, Status::WriteFault, "outp"),
    (0, 3, Status::WriteFault, "output 0"),
    (0, 4, Status::WriteFault, "output 0\n\nre"),
    (0, 5, Status::WriteFault, "output 0\n\nresult"),
    (0, 6, Status::Ended, "output 0\n\nresult 7\n"),
    (1, 0, Status::ReadFault, "read fault\n"),
    (1, 1, Status::WriteFault, ""),
    (1, 3, Status::WriteFault, "read fau"),
];

fn assert_rows(rt: &impl Abort, alloc: Global, rows: &[Row]) -> Result<(), AllocError> {
    for (reading, writing, status, report) in rows {
        let (answered, written) = answer_in_pieces(
            alloc,
            &["run", "a.c"],
            &[("a.c", b"int main(void) { return 7; }")],
            Calls {
                piece: 64,
                failing: *reading,
            },
            Calls {
                piece: 4,
                failing: *writing,
            },
        )?;
        assert_eq!(rt; answered, *status, "{reading} {writing}");
        assert_eq!(rt;
            written.as_slice(),
            report.as_bytes(),
            "{reading} {writing}"
        );
    }
    Ok(())
}

#[test]
fn faults_are_told(rt: HostRuntime) -> Result<(), Fail> {
    assert_rows(&rt, rt.alloc(), ROWS)?;
    Ok(())
}

// Counts the words of its input.
const COUNTER: &str = "#include <stdio.h>
int main(void) {
  int c; int in = 0; int words = 0;
  while ((c = getchar()) != EOF) {
    if (c == ' ' || c == '\\n' || c == '\\t') in = 0;
    else if (!in) { in = 1; words++; }
  }
  putchar('0' + words); putchar('\\n');
  return words;
}
";

// How many calls read it and its input, in pieces of three bytes: one opens a file, and one meets its end.
const CALLS: u64 = 94;

// What the program answers where this call of the files fails, and what is written.
fn answer_failing(
    alloc: Global,
    held: &[(&str, &[u8])],
    failing: u64,
) -> Result<(Status, Vec<u8>), AllocError> {
    answer_in_pieces(
        alloc,
        &["run", "a.c", "--input", "t"],
        held,
        Calls { piece: 3, failing },
        Calls {
            piece: 64,
            failing: 0,
        },
    )
}

fn assert_each_call(rt: &impl Abort, alloc: Global, calls: u64) -> Result<(), AllocError> {
    let held = [("a.c", COUNTER.as_bytes()), ("t", b"a bb\nccc".as_slice())];
    for call in 0..calls {
        let (status, written) = answer_failing(alloc, &held, call.saturating_add(1))?;
        assert_eq!(rt; status, Status::ReadFault, "{call}");
        assert_eq!(rt; written.as_slice(), b"read fault\n".as_slice(), "{call}");
    }
    let (status, written) = answer_failing(alloc, &held, calls.saturating_add(1))?;
    assert_eq!(rt; status, Status::Ended, "no call fails");
    assert_eq!(rt; written.as_slice(), b"output 2\n3\n\nresult 3\n".as_slice());
    Ok(())
}

#[test]
fn each_reading_call_may_fail(rt: HostRuntime) -> Result<(), Fail> {
    assert_each_call(&rt, rt.alloc(), CALLS)?;
    Ok(())
}

#[test]
fn an_input_is_missing(rt: HostRuntime) -> Result<(), Fail> {
    let held = [("a.c", COUNTER.as_bytes())];
    let (status, written) = answer_failing(rt.alloc(), &held, 0)?;
    assert_eq!(rt; status, Status::ReadFault);
    assert_eq!(rt; written.as_slice(), b"read fault\n".as_slice());
    Ok(())
}
