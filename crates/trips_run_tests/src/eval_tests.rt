//! `eval` on texts of C: outcomes, options, and inputs.
use crate::tables::{COUNTED, DEEP, DEEPER, EDGES, ENDED, UNSET, WORDS};
use crate::undefined_rows::TOLD;
use std::alloc::{AllocError, Global};
use std::process::Abort;
use std::test::Fail;
use trips_run::Status;
use trips_run_harness::answer_of;

// Each text is answered by its whole report.
fn assert_reports(
    rt: &impl Abort,
    alloc: Global,
    status: Status,
    rows: &[(&str, &str)],
) -> Result<(), AllocError> {
    for (text, report) in rows {
        let (answered, written) = answer_of(alloc, &["eval", "a.c"], &[("a.c", text.as_bytes())])?;
        assert_eq!(rt; answered, status, "{text}");
        assert_eq!(rt; written.as_slice(), report.as_bytes(), "{text}");
    }
    Ok(())
}

// The text is answered by a report that begins so.
fn assert_begins(
    rt: &impl Abort,
    alloc: Global,
    text: &str,
    input: &[u8],
    report: &str,
) -> Result<(), AllocError> {
    let (status, written) = answer_of(
        alloc,
        &["eval", "a.c", "--input", "t"],
        &[("a.c", text.as_bytes()), ("t", input)],
    )?;
    assert_eq!(rt; status, Status::Ended, "{text}");
    assert!(rt; written.starts_with(report.as_bytes()), "{text}");
    Ok(())
}

#[test]
fn counts_each_step(rt: HostRuntime) -> Result<(), Fail> {
    assert_reports(&rt, rt.alloc(), Status::Ended, COUNTED)?;
    Ok(())
}

fn assert_each_begins(
    rt: &impl Abort,
    alloc: Global,
    rows: &[(&str, &str)],
) -> Result<(), AllocError> {
    for (text, report) in rows {
        assert_begins(rt, alloc, text, b"", report)?;
    }
    Ok(())
}

#[test]
fn evaluates_as_the_standard_does(rt: HostRuntime) -> Result<(), Fail> {
    assert_each_begins(&rt, rt.alloc(), ENDED)?;
    Ok(())
}

// The text of a program that returns an expression.
pub(crate) fn returning(alloc: Global, expression: &str) -> Result<String, AllocError> {
    let mut text = String::from_str(alloc, "int main(void) { return ")?;
    text.push_str(expression)?;
    text.push_str("; }")?;
    Ok(text)
}

// The text is undefined, and puts nothing out before.
pub(crate) fn assert_undefined_text(
    rt: &impl Abort,
    alloc: Global,
    text: &str,
) -> Result<(), AllocError> {
    let (status, written) = answer_of(alloc, &["eval", "a.c"], &[("a.c", text.as_bytes())])?;
    assert_eq!(rt; status, Status::Undefined, "{text}");
    assert!(rt; written.starts_with(b"output 0\n\nundefined"), "{text}");
    Ok(())
}

// The expression is undefined.
fn assert_undefined(rt: &impl Abort, alloc: Global, expression: &str) -> Result<(), AllocError> {
    let text = returning(alloc, expression)?;
    assert_undefined_text(rt, alloc, text.as_str())
}

// Each text is undefined for this reason, after this output.
#[test]
fn tells_why_it_is_undefined(rt: HostRuntime) -> Result<(), Fail> {
    assert_reports(&rt, rt.alloc(), Status::Undefined, TOLD)?;
    Ok(())
}

// The expression has a value.
fn assert_value(
    rt: &impl Abort,
    alloc: Global,
    expression: &str,
    value: &str,
) -> Result<(), AllocError> {
    let text = returning(alloc, expression)?;
    let mut report = String::from_str(alloc, "output 0\n\nresult ")?;
    report.push_str(value)?;
    report.push_str("\nsteps ")?;
    assert_begins(rt, alloc, text.as_str(), b"", report.as_str())
}

fn assert_edges(
    rt: &impl Abort,
    alloc: Global,
    rows: &[(&str, &str, &str)],
) -> Result<(), AllocError> {
    for (outside, inside, value) in rows {
        assert_undefined(rt, alloc, outside)?;
        assert_value(rt, alloc, inside, value)?;
    }
    Ok(())
}

#[test]
fn is_undefined_just_outside_of_a_range(rt: HostRuntime) -> Result<(), Fail> {
    assert_edges(&rt, rt.alloc(), EDGES)?;
    Ok(())
}

fn assert_unset(rt: &impl Abort, alloc: Global, rows: &[(&str, &str)]) -> Result<(), AllocError> {
    for (outside, inside) in rows {
        assert_undefined_text(rt, alloc, outside)?;
        assert_begins(rt, alloc, inside, b"", "output 0\n\nresult 3\nsteps ")?;
    }
    Ok(())
}

#[test]
fn is_undefined_where_nothing_was_set(rt: HostRuntime) -> Result<(), Fail> {
    assert_unset(&rt, rt.alloc(), UNSET)?;
    Ok(())
}

#[test]
fn reads_its_input(rt: HostRuntime) -> Result<(), Fail> {
    let alloc = rt.alloc();
    assert_begins(
        &rt,
        alloc,
        WORDS,
        b"a bb\nccc",
        "output 2\n3\n\nresult 3\nsteps ",
    )?;
    assert_begins(&rt, alloc, WORDS, b"", "output 2\n0\n\nresult 0\nsteps ")?;
    let (status, written) = answer_of(alloc, &["eval", "a.c"], &[("a.c", WORDS.as_bytes())])?;
    assert_eq!(rt; status, Status::Ended);
    assert!(rt; written.starts_with(b"output 2\n0\n\nresult 0\nsteps "));
    Ok(())
}

// A text within a number of steps, with the status and the report.
type Row = (&'static str, &'static str, Status, &'static str);

const STOPPED: &[Row] = &[
    (
        DEEP,
        "1000000",
        Status::Ended,
        "output 0\n\nresult 6896\nsteps 89662\n",
    ),
    (
        DEEP,
        "89662",
        Status::Ended,
        "output 0\n\nresult 6896\nsteps 89662\n",
    ),
    (DEEP, "89661", Status::Budget, "more\n"),
    (DEEPER, "100000", Status::StackFull, "deep\n"),
    (DEEPER, "4000000", Status::StackFull, "deep\n"),
    ("int main(void) { }", "1", Status::Budget, "more\n"),
    (
        "int main(void) { }",
        "002",
        Status::Ended,
        "output 0\n\nresult 0\nsteps 2\n",
    ),
    (
        "int main(void) { while (1) ; }",
        "4000000",
        Status::Budget,
        "more\n",
    ),
];

fn assert_stopped(rt: &impl Abort, alloc: Global, rows: &[Row]) -> Result<(), AllocError> {
    for (text, steps, status, report) in rows {
        let (answered, written) = answer_of(
            alloc,
            &["eval", "a.c", "--steps", *steps],
            &[("a.c", text.as_bytes())],
        )?;
        assert_eq!(rt; answered, *status, "{text} {steps}");
        assert_eq!(rt; written.as_slice(), report.as_bytes(), "{text} {steps}");
    }
    Ok(())
}

#[test]
fn stops_where_steps_or_frames_are_spent(rt: HostRuntime) -> Result<(), Fail> {
    assert_stopped(&rt, rt.alloc(), STOPPED)?;
    Ok(())
}
