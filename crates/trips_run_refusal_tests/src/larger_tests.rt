//! What `run` and `eval` refuse of switches, of the short types and of arrays with two sizes.
use crate::larger_rows::{
    AT_LINES, HEAD, MISMATCHED, MISMATCHED_ITEMS, SYNTAX_BODIES, SYNTAX_ITEMS, TOO_LARGE, TWICE,
    UNKNOWN,
};
use std::alloc::{AllocError, Global};
use std::process::Abort;
use std::test::Fail;
use trips_run::Status;
use trips_run_harness::answer_of;

const SYNTAX: &str = "refused parse 1 Syntax line 1\n";

const MISMATCH: &str = "refused type 3 Mismatch line 1\n";

fn assert_refused(
    rt: &impl Abort,
    alloc: Global,
    text: &str,
    report: &str,
) -> Result<(), AllocError> {
    let held = [("a.c", text.as_bytes())];
    let (status, written) = answer_of(alloc, &["eval", "a.c"], &held)?;
    assert_eq!(rt; status, Status::Refused, "eval {text}");
    assert_eq!(rt; written.as_slice(), report.as_bytes(), "eval {text}");
    let (status, written) = answer_of(alloc, &["run", "a.c"], &held)?;
    assert_eq!(rt; status, Status::Refused, "run {text}");
    assert_eq!(rt; written.as_slice(), report.as_bytes(), "run {text}");
    Ok(())
}

// A `main` with this body, behind these items.
fn main_of(alloc: Global, items: &str, body: &str) -> Result<String, AllocError> {
    let mut text = String::from_str(alloc, items)?;
    text.push_str(" int main(void) { ")?;
    text.push_str(body)?;
    text.push_str(" }")?;
    Ok(text)
}

// Each body of `main`, behind the same items, is refused so.
fn assert_bodies(
    rt: &impl Abort,
    alloc: Global,
    items: &str,
    bodies: &[&str],
    report: &str,
) -> Result<(), AllocError> {
    for body in bodies {
        let text = main_of(alloc, items, *body)?;
        assert_refused(rt, alloc, text.as_str(), report)?;
    }
    Ok(())
}

// Each item before a `main` is refused so.
fn assert_items(
    rt: &impl Abort,
    alloc: Global,
    items: &[&str],
    report: &str,
) -> Result<(), AllocError> {
    for item in items {
        let text = main_of(alloc, *item, "return 0;")?;
        assert_refused(rt, alloc, text.as_str(), report)?;
    }
    Ok(())
}

#[test]
fn the_grammar_refuses_bodies_and_items(rt: HostRuntime) -> Result<(), Fail> {
    let alloc = rt.alloc();
    assert_bodies(&rt, alloc, "", SYNTAX_BODIES, SYNTAX)?;
    assert_items(&rt, alloc, SYNTAX_ITEMS, SYNTAX)?;
    Ok(())
}

#[test]
fn the_typing_refuses_bodies_and_items(rt: HostRuntime) -> Result<(), Fail> {
    let alloc = rt.alloc();
    assert_bodies(&rt, alloc, HEAD, MISMATCHED, MISMATCH)?;
    assert_items(&rt, alloc, MISMATCHED_ITEMS, MISMATCH)?;
    assert_bodies(&rt, alloc, "", TWICE, "refused type 2 Twice line 1\n")?;
    assert_bodies(&rt, alloc, "", UNKNOWN, "refused type 1 Unknown line 1\n")?;
    assert_items(&rt, alloc, TOO_LARGE, "refused type 9 TooLarge line 1\n")?;
    Ok(())
}

fn assert_lines(rt: &impl Abort, alloc: Global, rows: &[(&str, &str)]) -> Result<(), AllocError> {
    for (text, report) in rows {
        assert_refused(rt, alloc, text, report)?;
    }
    Ok(())
}

#[test]
fn each_fault_is_at_its_line(rt: HostRuntime) -> Result<(), Fail> {
    assert_lines(&rt, rt.alloc(), AT_LINES)?;
    Ok(())
}
