//! `abort` ends a run from any depth of calls, with the output so far, and no int is taken for it.
use std::alloc::{AllocError, Global};
use std::process::Abort;
use std::test::Fail;
use trips_run::Status;
use trips_run_harness::answer_of;

/// A text, the status that it is answered, and its report.
type Row = (&'static str, Status, &'static str);

const ROWS: &[Row] = &[
    // in the third of three calls, with output before it
    (
        "#include <stdio.h>\n#include <stdlib.h>\nint f(int n) { putchar('0' + n); if (n == 0) abort(); \
         return f(n - 1) + 1; }\nint main(void) { int n = f(2); putchar('!'); return n; }",
        Status::Aborted,
        "output 3\n210\naborted\n",
    ),
    (
        "#include <stdlib.h>\nint main(void) { abort(); }",
        Status::Aborted,
        "output 0\n\naborted\n",
    ),
    // a unit's own `abort` stays its own
    (
        "#include <stdlib.h>\nint n; void abort(void) { n = 3; }\nint main(void) { abort(); return n; }",
        Status::Ended,
        "output 0\n\nresult 3\n",
    ),
    // the least int by `exit`, and by the end of main
    (
        "#include <stdlib.h>\nint main(void) { exit(-2147483647 - 1); }",
        Status::Ended,
        "output 0\n\nresult -2147483648\n",
    ),
    (
        "int main(void) { return -2147483647 - 1; }",
        Status::Ended,
        "output 0\n\nresult -2147483648\n",
    ),
    // an int of C has the low bits of the least long
    (
        "int main(void) { return (unsigned long)1 << 63; }",
        Status::Ended,
        "output 0\n\nresult 0\n",
    ),
    (
        "#include <stdlib.h>\nint main(void) { exit((unsigned long)1 << 63); }",
        Status::Ended,
        "output 0\n\nresult 0\n",
    ),
];

// `run` and `eval` say the same, but for the line of the steps.
fn assert_row(rt: &impl Abort, alloc: Global, row: &Row) -> Result<(), AllocError> {
    let (text, status, report) = *row;
    let held = [("a.c", text.as_bytes())];
    let (answered, written) = answer_of(alloc, &["run", "a.c"], &held)?;
    assert_eq!(rt; answered, status, "run {text}");
    assert_eq!(rt; written.as_slice(), report.as_bytes(), "run {text}");
    let (told, evaluated) = answer_of(alloc, &["eval", "a.c"], &held)?;
    assert_eq!(rt; told, status, "eval {text}");
    assert!(rt; evaluated.starts_with(report.as_bytes()), "eval {text}");
    Ok(())
}

#[test]
fn aborts(rt: HostRuntime) -> Result<(), Fail> {
    for row in ROWS.iter() {
        assert_row(&rt, rt.alloc(), row)?;
    }
    Ok(())
}

#[test]
fn four_say_the_first_that_aborts(rt: HostRuntime) -> Result<(), Fail> {
    let alloc = rt.alloc();
    let seven = "int main(void) { return 7; }";
    let held = [("a.c", seven.as_bytes()), ("b.c", ROWS[0].0.as_bytes())];
    let (status, written) = answer_of(alloc, &["four", "a.c", "b.c", "a.c", "a.c"], &held)?;
    assert_eq!(rt; status, Status::Aborted);
    let report = "program 0\noutput 0\n\nresult 7\nprogram 1\noutput 3\n210\naborted\n\
                  program 2\noutput 0\n\nresult 7\nprogram 3\noutput 0\n\nresult 7\n";
    assert_eq!(rt; written.as_slice(), report.as_bytes());
    Ok(())
}
