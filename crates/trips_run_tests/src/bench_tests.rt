//! `bench` on each number of functions that it takes.
use std::alloc::{AllocError, Global};
use std::process::Abort;
use std::test::Fail;
use trips_run::Status;
use trips_run_harness::answer_of;

// The words behind `bench`, the status and the report.
type Row = (&'static [&'static str], Status, &'static str);

const BENCHES: &[Row] = &[
    (&["1"], Status::Ended, "output 1\nG\nresult 136\n"),
    (&["3"], Status::Ended, "output 3\nGLQ\nresult 874\n"),
    (&["4"], Status::Ended, "output 4\nGLQD\nresult 107\n"),
    (&["04"], Status::Ended, "output 4\nGLQD\nresult 107\n"),
    (
        &["64", "--blocks", "3"],
        Status::Budget,
        "output 0\n\nbudget 3\n",
    ),
];

fn assert_benches(rt: &impl Abort, alloc: Global, rows: &[Row]) -> Result<(), AllocError> {
    for (behind, status, report) in rows {
        let mut words = Vec::from_slice(alloc, &["bench"])?;
        words.extend_from_slice(*behind)?;
        let (answered, written) = answer_of(alloc, words.as_slice(), &[])?;
        assert_eq!(rt; answered, *status, "bench {behind:?}");
        assert_eq!(rt; written.as_slice(), report.as_bytes(), "bench {behind:?}");
    }
    Ok(())
}

#[test]
fn gives_the_output_and_the_result(rt: HostRuntime) -> Result<(), Fail> {
    assert_benches(&rt, rt.alloc(), BENCHES)?;
    Ok(())
}

// What the text with so many functions computes: function k makes 16 x + 120 + k of x.
fn report_of(alloc: Global, functions: u32) -> Result<String, AllocError> {
    let mut output = String::new(alloc);
    let mut x = 1u32;
    for k in 0..functions {
        x = x.wrapping_mul(16).wrapping_add(k).wrapping_add(120) % 1_000;
        output.push((b'A' + (x % 26) as u8) as char)?;
    }
    let output = output.as_str();
    format!(in alloc; "output {functions}\n{output}\nresult {x}\n")
}

fn assert_each_ends(rt: &impl Abort, alloc: Global, most: u32) -> Result<(), AllocError> {
    for functions in 1..most {
        let word = functions.to_string(alloc)?;
        let (answered, written) = answer_of(alloc, &["bench", word.as_str()], &[])?;
        assert_eq!(rt; answered, Status::Ended, "bench {functions}");
        let report = report_of(alloc, functions)?;
        assert_eq!(rt; written.as_slice(), report.as_bytes(), "bench {functions}");
    }
    Ok(())
}

// No text of the benchmark is refused.
#[test]
fn ends_with_each_number_of_functions(rt: HostRuntime) -> Result<(), Fail> {
    assert_each_ends(&rt, rt.alloc(), 65)?;
    Ok(())
}
