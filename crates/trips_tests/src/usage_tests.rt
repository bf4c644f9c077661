//! Words that make no request.

use crate::requests::words_of;
use std::alloc::{AllocError, Global};
use std::process::Abort;
use std::test::Fail;
use trips_words::request;

const USAGES: &[&[&str]] = &[
    &[],
    &[""],
    &["run"],
    &["walk", "a.c"],
    &["--regs", "run", "a.c"],
    &["run", "a.c", "b.c"],
    &["run", "a.c", "--", "b.c"],
    &["run", "--regs"],
    &["run", "a.c", "--blocks"],
    &["run", "a.c", "--blocks", "0"],
    &["run", "a.c", "--blocks", "4000001"],
    &["run", "a.c", "--blocks", "99999999999999999999"],
    &["run", "a.c", "--blocks", "+1"],
    &["run", "a.c", "--blocks", "-1"],
    &["run", "a.c", "--blocks", "1e3"],
    &["run", "a.c", "--blocks", ""],
    &["run", "a.c", "--blocks="],
    &["run", "a.c", "--blocks", "1", "--blocks", "2"],
    &["run", "a.c", "--blocks=1", "--blocks", "1"],
    &["run", "--input", "t", "a.c", "--input", "t"],
    &["run", "a.c", "--regs", "--regs"],
    &["run", "a.c", "--regs=yes"],
    &["run", "a.c", "--input", "--", "t"],
    &["run", "a.c", "--input", "-t"],
    &["run", "a.c", "--steps", "1"],
    &["run", "a.c", "--seed"],
    &["run", "a.c", "--seed", "18446744073709551616"],
    &["run", "a.c", "--seed", "1", "--seed", "1"],
    &["run", "b.img", "--place", "1"],
    &["run", "v.tasl", "--place", "1"],
    &["run", "a.c", "--unroll", "9"],
    &["run", "a.c", "--unroll", "0"],
    &["run", "a.c", "--unroll=2", "--unroll=2"],
    &["run", "b.img", "--unroll", "2"],
    &["run", "v.tasl", "--unroll", "1"],
    &["compile", "b.img", "--unroll", "1"],
    &["eval", "a.c", "--unroll", "1"],
    &["run", "a.c", "--cycles=1"],
    &["run", "a.c", "--cycles", "--cycles"],
    &["run", "a.c", "--stats=1"],
    &["run", "a.c", "--stats", "--stats"],
    &["eval", "a.c", "--stats"],
    &["bench", "1", "--stats"],
    &["save", "a.c", "1", "--stats"],
    &["four", "a.c", "a.c", "a.c", "a.c", "--stats"],
    &["eval", "a.c", "--seed", "1"],
    &["eval", "a.c", "--cycles"],
    &["compile", "a.c", "--cycles"],
    &["run", "a.c", "--block", "1"],
    &["run", "a.c", "-r"],
    &["run", "a.c", "-h"],
    &["run", "a.c", "--help"],
    &["run", "a.c", "--version"],
    &["run", "-a.c"],
    &["run", "help", "a.c"],
    &["run", "-\u{e9}"],
    &["eval", "a.c", "--blocks", "1"],
    &["eval", "a.c", "--regs"],
    &["run", "a.c", "--place", "18446744073709551616"],
    &[
        "run",
        "a.c",
        "--place",
        "99999999999999999999999999999999999999999",
    ],
    &["run", "a.c", "--place", "-1"],
    &["run", "a.c", "--place", "0x1"],
    &["run", "a.c", "--place="],
    &["run", "a.c", "--place", "1", "--place", "1"],
    &["bench", "1", "--place", "1", "--place=1"],
    &["compile", "a.c", "--place", "x"],
    &["compile", "a.c", "--place=1", "--place=1"],
    &["compile", "b.img", "--place", "1"],
    &["compile", "a.c", "--blocks", "1"],
    &["compile", "a.c", "--seed", "1"],
    &["eval", "a.c", "--place", "1"],
    &["asm", "a.c", "--place", "1"],
    &["dis", "a.c", "--place", "1"],
    &["check", "a.c", "--place", "1"],
    &["bench", "1", "--seed", "x"],
    &["bench", "1", "--cycles", "--cycles"],
    &["check", "a.c", "--trace"],
    &["explain"],
    &["explain", "a.c", "--steps", "0"],
    &["explain", "b.img", "--steps", "1"],
    &["explain", "--input=t", "b.tasl"],
    &["explain", "a.c", "--seed", "1"],
    &["run", "a.c", "--listing"],
    &["dis"],
    &["dis", "b.img", "c"],
    &["record", "a.c"],
    &["record", "b.img", "--blocks", "100001"],
    &["record", "b.img", "--seed", "1"],
    &["record", "b.img", "c"],
    &["verify", "b.img"],
    &["verify"],
    &["verify", "b.img", "c", "d"],
    &["verify", "b.img", "c", "--", "d"],
    &["verify", "b.img", "c", "--blocks", "1"],
    &["bench", "0"],
    &["bench", "65"],
    &["bench", "6x"],
    &["bench", "1", "--regs"],
    &["bench", "1", "--blocks", "2", "--blocks", "2"],
    &["eval", "a.c", "--steps", "1", "--steps", "1"],
    &["eval", "a.c", "--input", "t", "--input", "t"],
    &["run", "a.c", "--trace", "--trace"],
];

/// Words of runs of several files, of parts of a run, and of pictures.
const USAGES_OF_EVENTS: &[&[&str]] = &[
    &["run", "a.c", "--events"],
    &["run", "a.c", "--events", "3"],
    &["run", "a.c", "--events", "-3"],
    &["run", "a.c", "--events=-3"],
    &["run", "a.c", "--events=3-"],
    &["run", "a.c", "--events", "3-2"],
    &["run", "a.c", "--events", "0-2"],
    &["run", "a.c", "--events", "1--2"],
    &["run", "a.c", "--events", "1-2-3"],
    &["run", "a.c", "--events", "1-a"],
    &["run", "a.c", "--events", "1-165888000001"],
    &["run", "a.c", "--events=1-2", "--events=1-2"],
    &["run", "a.c", "--events=1-2", "--stats"],
    &["resume", "s", "--stats", "--events", "1-2"],
    &["bench", "1", "--events=1-2"],
    &["eval", "a.c", "--events=1-2"],
    &["save", "a.c", "1", "--events=1-2"],
    &["four", "a.c", "a.c", "a.c", "a.c", "--events=1-2"],
];

/// Words that no predictor, no weather and no number of frames has, and commands that have none of these.
const USAGES_OF_CONDITIONS: &[&[&str]] = &[
    &["run", "a.c", "--frames=0"],
    &["run", "a.c", "--frames", "9"],
    &["eval", "a.c", "--frames=1"],
    &["run", "a.c", "--weather"],
    &["run", "a.c", "--weather="],
    &["run", "a.c", "--weather", "zero"],
    &["run", "a.c", "--weather", "Calm"],
    &["run", "a.c", "--weather", "calm "],
    &["run", "a.c", "--weather=calm", "--weather=calm"],
    &["run", "a.c", "--predictor"],
    &["run", "a.c", "--predictor", "calm"],
    &["run", "a.c", "--predictor", "0"],
    &["run", "a.c", "--predictor", "none", "--frames=2"],
    &["eval", "a.c", "--predictor", "none"],
    &["resume", "s", "--weather", "best"],
    &["bench", "1", "--predictor=zeros"],
    &["eval", "a.c", "--weather=calm"],
    &["compile", "a.c", "--predictor=zero"],
    &["record", "b.img", "--weather=calm"],
    &["save", "a.c", "1", "--weather=calm"],
    &["four", "a.c", "a.c", "a.c", "a.c", "--weather=calm"],
    &["four", "a.c", "a.c", "a.c", "a.c", "--predictor=zero"],
];

const USAGES_OF_PARTS: &[&[&str]] = &[
    &["four", "a.c", "b.c", "c.c"],
    &["four", "a.c", "b.c", "c.c", "d.c", "e.c"],
    &["four", "a.c", "b.c", "c.c", "d.c", "--regs"],
    &["four", "a.c", "b.c", "c.c", "d.c", "--place", "2"],
    &["save", "a.c"],
    &["save", "a.c", "0"],
    &["save", "a.c", "4000001"],
    &["save", "a.c", "1", "2"],
    &["save", "a.c", "1", "--blocks", "2"],
    &["save", "a.c", "1", "--place", "2"],
    &["draw", "a.c"],
    &["draw", "a.c", "4000000"],
    &["draw", "a.c", "1", "2"],
    &["draw", "a.c", "1", "--seed", "2"],
    &["draw", "a.c", "1", "--listing"],
    &["draw", "b.img", "0", "--place", "1"],
    &["resume"],
    &["resume", "s", "1"],
    &["resume", "s", "--input", "t"],
    &["resume", "s", "--place", "1"],
];

fn assert_usage(rt: &impl Abort, alloc: Global, texts: &[&str]) -> Result<(), AllocError> {
    let words = words_of(alloc, texts)?;
    let asked = request(alloc, &words).expect(rt, "memory");
    assert!(rt; asked.is_none(), "{texts:?}");
    Ok(())
}

fn assert_usages(rt: &impl Abort, alloc: Global, rows: &[&[&str]]) -> Result<(), AllocError> {
    for texts in rows {
        assert_usage(rt, alloc, texts)?;
    }
    Ok(())
}

#[test]
fn other_words_are_no_request(rt: HostRuntime) -> Result<(), Fail> {
    assert_usages(&rt, rt.alloc(), USAGES)?;
    Ok(())
}

#[test]
fn other_words_of_parts_are_no_request(rt: HostRuntime) -> Result<(), Fail> {
    assert_usages(&rt, rt.alloc(), USAGES_OF_PARTS)?;
    Ok(())
}

#[test]
fn other_words_of_events_are_no_request(rt: HostRuntime) -> Result<(), Fail> {
    assert_usages(&rt, rt.alloc(), USAGES_OF_EVENTS)?;
    Ok(())
}

#[test]
fn other_words_of_conditions_are_no_request(rt: HostRuntime) -> Result<(), Fail> {
    assert_usages(&rt, rt.alloc(), USAGES_OF_CONDITIONS)?;
    Ok(())
}
