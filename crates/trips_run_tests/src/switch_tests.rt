//! `switch`, `short` and arrays with two sizes, on `run` and `eval`, and whole programs with them.
use crate::eval_tests::assert_undefined_text;
use crate::larger_rows::{LARGER_COUNTED, LARGER_UNDEFINED, SHORTS, TWO_SIZES};
use crate::programs::{PROGRAMS, Program};
use crate::switch_rows::SWITCHES;
use std::alloc::{AllocError, Global};
use std::process::Abort;
use std::test::Fail;
use trips_run::Status;
use trips_run_harness::answer_of;

// The text puts nothing out and returns this, under `run` as under `eval`.
fn assert_returned(
    rt: &impl Abort,
    alloc: Global,
    rows: &[(&str, &str)],
) -> Result<(), AllocError> {
    for (text, result) in rows {
        let held = [("a.c", text.as_bytes())];
        let report = format!(in alloc; "output 0\n\nresult {result}\n")?;
        let (status, written) = answer_of(alloc, &["run", "a.c"], &held)?;
        assert_eq!(rt; status, Status::Ended, "run {text}");
        assert_eq!(rt; written.as_slice(), report.as_bytes(), "run {text}");
        let (status, written) = answer_of(alloc, &["eval", "a.c"], &held)?;
        assert_eq!(rt; status, Status::Ended, "eval {text}");
        assert!(rt; written.starts_with(report.as_bytes()), "eval {text}");
    }
    Ok(())
}

#[test]
fn switches_go_where_c_says(rt: HostRuntime) -> Result<(), Fail> {
    assert_returned(&rt, rt.alloc(), SWITCHES)?;
    Ok(())
}

#[test]
fn arrays_with_two_sizes_have_rows(rt: HostRuntime) -> Result<(), Fail> {
    assert_returned(&rt, rt.alloc(), TWO_SIZES)?;
    Ok(())
}

#[test]
fn short_types_are_promoted(rt: HostRuntime) -> Result<(), Fail> {
    assert_returned(&rt, rt.alloc(), SHORTS)?;
    Ok(())
}

fn assert_evaluated(
    rt: &impl Abort,
    alloc: Global,
    status: Status,
    rows: &[(&str, &str)],
) -> Result<(), AllocError> {
    for (text, report) in rows {
        let (answered, written) = answer_of(alloc, &["eval", "a.c"], &[("a.c", text.as_bytes())])?;
        assert_eq!(rt; answered, status, "{text}");
        assert_eq!(rt; written.as_slice(), report.as_bytes(), "{text}");
    }
    Ok(())
}

#[test]
fn counts_labels_and_indexes(rt: HostRuntime) -> Result<(), Fail> {
    assert_evaluated(&rt, rt.alloc(), Status::Ended, LARGER_COUNTED)?;
    Ok(())
}

fn assert_undefined(rt: &impl Abort, alloc: Global, texts: &[&str]) -> Result<(), AllocError> {
    for text in texts {
        assert_undefined_text(rt, alloc, text)?;
    }
    Ok(())
}

#[test]
fn is_undefined_outside_of_rows_and_ranges(rt: HostRuntime) -> Result<(), Fail> {
    assert_undefined(&rt, rt.alloc(), LARGER_UNDEFINED)?;
    Ok(())
}

// A switch counts one of its function's scalars: so a frame has 160 bytes, and 6,552 of them have room above that of
// `main`.
const LAST_FRAME: &str =
    "int f(int n) { switch (n) { case 0: return 7; } return f(n - 1); } int main(void) { return f(6551); }";

const FRAME_TOO_MANY: &str =
    "int f(int n) { switch (n) { case 0: return 7; } return f(n - 1); } int main(void) { return f(6552); }";

#[test]
fn a_switch_counts_in_the_frame(rt: HostRuntime) -> Result<(), Fail> {
    let alloc = rt.alloc();
    assert_returned(&rt, alloc, &[(LAST_FRAME, "7")])?;
    assert_evaluated(&rt, alloc, Status::StackFull, &[(FRAME_TOO_MANY, "deep\n")])?;
    Ok(())
}

fn report_of(alloc: Global, program: &Program) -> Result<Vec<u8>, AllocError> {
    let count = program.output.len();
    let result = program.result;
    let mut report = Vec::new(alloc);
    report.extend_from_slice(format!(in alloc; "output {count}\n")?.as_bytes())?;
    report.extend_from_slice(program.output.as_bytes())?;
    report.extend_from_slice(format!(in alloc; "\nresult {result}\n")?.as_bytes())?;
    Ok(report)
}

fn assert_programs(rt: &impl Abort, alloc: Global, programs: &[Program]) -> Result<(), AllocError> {
    for program in programs {
        let name = program.name;
        let held = [
            ("a.c", program.text.as_bytes()),
            ("t", program.input.as_bytes()),
        ];
        let report = report_of(alloc, program)?;
        let (status, written) = answer_of(alloc, &["run", "a.c", "--input", "t"], &held)?;
        assert_eq!(rt; status, Status::Ended, "run {name}");
        assert_eq!(rt; written.as_slice(), report.as_slice(), "run {name}");
        let (status, written) = answer_of(alloc, &["eval", "a.c", "--input", "t"], &held)?;
        assert_eq!(rt; status, Status::Ended, "eval {name}");
        assert!(rt; written.starts_with(report.as_slice()), "eval {name}");
    }
    Ok(())
}

#[test]
fn programs_do_what_a_compiler_of_c_makes_them_do(rt: HostRuntime) -> Result<(), Fail> {
    assert_programs(&rt, rt.alloc(), PROGRAMS)?;
    Ok(())
}
