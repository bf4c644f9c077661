//! The number with which the program ends, by request and file.
use std::alloc::{AllocError, Global};
use std::process::{Abort, ExitCode};
use std::test::Fail;
use trips_outside::{HonestFiles, MemSink};
use trips_run::{exit_code, trips_run};
use trips_run_harness::answer_of;

/// Words, the text of a.c, the number, and how the report begins.
type Row = (&'static [&'static str], &'static str, u8, &'static str);

const SEVEN: &str = "int main(void) { return 7; }";

const FOREVER: &str = "int main(void) { while (1) ; }";

const DIVISION: &str = "int main(void) { int zero = 0; return 7 / zero; }";

// A frame of f takes more than half of the stack, so the second one finds no room.
const DEEP: &str =
    "int f(void) { long a[100000]; a[0] = f(); return 1; } int main(void) { return f(); }";

// The numbers are those of the table of docs/trips.1.
const ROWS: &[Row] = &[
    (&["run", "a.c"], SEVEN, 0, "output 0\n\nresult 7\n"),
    (&["eval", "a.c"], SEVEN, 0, "output 0\n\nresult 7\n"),
    (&["walk", "a.c"], SEVEN, 2, "usage\n"),
    (&["run", "a.c", "--steps", "1"], SEVEN, 2, "usage\n"),
    (&["run", "b.c"], SEVEN, 3, "read fault\n"),
    (&["check", "b.img"], SEVEN, 3, "read fault\n"),
    (&["run", "a.c"], "@", 4, "refused lex 1 BadByte line 1\n"),
    (&["check", "a.c"], SEVEN, 4, "refused image "),
    (
        &["run", "a.c", "--blocks", "9"],
        FOREVER,
        5,
        "output 0\n\nbudget 9\n",
    ),
    (&["eval", "a.c", "--steps", "9"], FOREVER, 5, "more\n"),
    (&["run", "a.c"], DEEP, 6, "output 0\n\nstack full\n"),
    (&["eval", "a.c"], DEEP, 6, "deep\n"),
    (&["run", "a.c"], DIVISION, 9, "output 0\n\ntrap block "),
    (
        &["eval", "a.c"],
        DIVISION,
        10,
        "output 0\n\nundefined at 1:41: the quotient 7 / 0 ",
    ),
];

fn assert_rows(rt: &impl Abort, alloc: Global, rows: &[Row]) -> Result<(), AllocError> {
    for (words, text, number, report) in rows {
        let (status, written) = answer_of(alloc, *words, &[("a.c", text.as_bytes())])?;
        assert_eq!(rt;
            exit_code(status),
            ExitCode::from(*number),
            "{words:?} {text}"
        );
        assert!(rt; written.starts_with(report.as_bytes()), "{words:?} {text}");
    }
    Ok(())
}

#[test]
fn each_ending_has_its_number(rt: HostRuntime) -> Result<(), Fail> {
    assert_rows(&rt, rt.alloc(), ROWS)?;
    Ok(())
}

// A sink that takes no byte ends the program with 7.
#[test]
fn a_failed_write_has_its_number(rt: HostRuntime) -> Result<(), Fail> {
    let alloc = rt.alloc();
    let words: Vec<String> = Vec::new(alloc);
    let mut files = HonestFiles::make(Vec::new(alloc));
    let mut sink = MemSink::make(alloc, 1, 0, Vec::new(alloc))?;
    let status = trips_run(alloc, &words, &mut files, &mut sink);
    assert_eq!(rt; exit_code(status), ExitCode::from(7));
    Ok(())
}
