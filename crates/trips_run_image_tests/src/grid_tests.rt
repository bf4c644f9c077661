//! `run` and `bench` on the grid: what is counted of a run, and that neither a seed nor a placing changes what it
//! does.

use crate::tool_tests::STORED;
use std::alloc::{AllocError, Global};
use std::process::Abort;
use std::test::Fail;
use trips_run::Status;
use trips_run_harness::answer_of;

const SEVEN: &str = "int main(void) { return 7; }";

const POWERS: &str = "long a[9]; int main(void) { int i; a[0] = 1;
for (i = 1; i < 9; i++) a[i] = a[i - 1] * 2; return (int) a[8]; }";

const FOREVER: &str = "int main(void) { while (1) ; }";

// What words are answered over these files.
fn answer_to(alloc: Global, words: &[&str]) -> Result<(Status, Vec<u8>), AllocError> {
    answer_of(
        alloc,
        words,
        &[
            ("seven.c", SEVEN.as_bytes()),
            ("powers.c", POWERS.as_bytes()),
            ("forever.c", FOREVER.as_bytes()),
            ("v.tasl", STORED.as_bytes()),
        ],
    )
}

/// Words, the status, and what stands before the number of cycles.
type Row = (&'static [&'static str], Status, &'static str);

const ROWS: &[Row] = &[
    (
        &["run", "seven.c", "--cycles"],
        Status::Ended,
        "output 0\n\nresult 7\nblocks 4\n",
    ),
    (
        &["run", "forever.c", "--blocks", "100", "--cycles"],
        Status::Budget,
        "output 0\n\nbudget 100\nblocks 100\n",
    ),
    (
        &["run", "v.tasl", "--cycles", "--seed=3"],
        Status::Ended,
        "output 0\n\nresult 171\nblocks 2\n",
    ),
    (
        &["run", "v.tasl", "--trace", "--cycles"],
        Status::Ended,
        "output 0\n\nresult 171\nblock 0 exit 0\nblock 1 exit 0\nblocks 2\n",
    ),
    (
        &["bench", "3", "--cycles"],
        Status::Ended,
        "output 3\nGLQ\nresult 874\nblocks ",
    ),
];

// The number behind a name at the head of a line.
fn number_of(report: &[u8], name: &[u8]) -> Option<u64> {
    for line in report.split(|byte| *byte == b'\n') {
        if let Some(digits) = line.strip_prefix(name) {
            return str::from_utf8(digits).ok()?.parse::<u64>().ok();
        }
    }
    None
}

fn assert_counts(rt: &impl Abort, words: &[&str], report: &[u8]) {
    let blocks = number_of(report, b"blocks ").unwrap_or(0);
    let cycles = number_of(report, b"cycles ").unwrap_or(0);
    let fetched = number_of(report, b"fetched ").unwrap_or(0);
    let flushed = number_of(report, b"flushed ").unwrap_or(0);
    let cost = number_of(report, b"cost ").unwrap_or(0);
    assert!(rt; blocks > 0, "{words:?}");
    assert!(rt; cycles > blocks, "{words:?}");
    assert!(rt; cycles <= cost, "{words:?}");
    assert_eq!(rt; fetched, blocks.saturating_add(flushed), "{words:?}");
}

fn assert_rows(rt: &impl Abort, alloc: Global, rows: &[Row]) -> Result<(), AllocError> {
    for (words, status, begin) in rows {
        let (answered, written) = answer_to(alloc, *words)?;
        assert_eq!(rt; answered, *status, "{words:?}");
        assert!(rt; written.starts_with(begin.as_bytes()), "{words:?}");
        assert_counts(rt, *words, &written);
    }
    Ok(())
}

#[test]
fn runs_are_counted(rt: HostRuntime) -> Result<(), Fail> {
    assert_rows(&rt, rt.alloc(), ROWS)?;
    Ok(())
}

/// A file, and the report of its run.
type Alike = (&'static str, &'static str);

const ALIKE: &[Alike] = &[
    ("seven.c", "output 0\n\nresult 7\n"),
    ("powers.c", "output 0\n\nresult 256\n"),
];

const SETTINGS: &[&[&str]] = &[
    &["--seed=0"],
    &["--seed=1"],
    &["--seed=2"],
    &["--seed", "0", "--place", "1"],
    &["--seed", "1", "--place", "1"],
    &["--seed", "2", "--place", "5"],
    &["--seed", "9", "--place", "5"],
    &["--weather", "calm"],
    &["--seed=3", "--weather=worst", "--predictor=zero"],
];

fn assert_alike(
    rt: &impl Abort,
    alloc: Global,
    row: &Alike,
    settings: &[&[&'static str]],
) -> Result<(), AllocError> {
    let (file, report) = *row;
    for words in settings {
        let mut all = Vec::from_slice(alloc, &["run", file])?;
        all.extend_from_slice(*words)?;
        let (_, written) = answer_to(alloc, all.as_slice())?;
        assert_eq!(rt; written.as_slice(), report.as_bytes(), "{file} {words:?}");
    }
    Ok(())
}

fn assert_all_alike(
    rt: &impl Abort,
    alloc: Global,
    rows: &[Alike],
    settings: &[&[&'static str]],
) -> Result<(), AllocError> {
    for row in rows {
        assert_alike(rt, alloc, row, settings)?;
    }
    Ok(())
}

#[test]
fn no_seed_and_no_placing_changes_a_run(rt: HostRuntime) -> Result<(), Fail> {
    assert_all_alike(&rt, rt.alloc(), ALIKE, SETTINGS)?;
    Ok(())
}

// Whether a run of the benchmark flushes a frame under one of the first seeds.
fn flushes(rt: &impl Abort, alloc: Global, seeds: u32) -> Result<bool, AllocError> {
    for seed in 0..seeds {
        let seed = seed.to_string(alloc)?;
        let words = ["bench", "3", "--cycles", "--seed", seed.as_str()];
        let (_, written) = answer_to(alloc, &words)?;
        assert_counts(rt, &words, &written);
        if number_of(&written, b"flushed ").unwrap_or(0) > 0 {
            return Ok(true);
        }
    }
    Ok(false)
}

#[test]
fn some_guess_is_wrong(rt: HostRuntime) -> Result<(), Fail> {
    assert!(&rt; flushes(&rt, rt.alloc(), 10)?, "flushed");
    Ok(())
}
