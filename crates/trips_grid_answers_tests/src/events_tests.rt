//! Runs of which events are told: those of small programs by hand from docs/GRID.md, with the holds that the seed's
//! generator draws, which begin with 1, 1, 0, 1, 1, 3, 2, 0, 1, 2, 0, 1, 3 for seed 0.

use crate::making::{Program, STORED, checked, gone_on, saved, whole};
use base::Items;
use grid_cycle::Conditions;
use std::alloc::{AllocError, Global};
use std::process::Abort;
use std::test::Fail;
use trips_grid_answers::run_image;
use trips_report::Show;
use trips_requests::Cycles;

/// A block of five operations, which ends the run. Nothing is fetched behind a system call.
pub const FIVE: Program = (
    "trips 1
data 0
block 0 mask 00000000
W[0] write G[0]
W[1] write G[3]
W[2] write G[5]
N[0] genu 3 N[1,0]
N[1] mov W[0]
N[2] null W[2]
N[3] genu 7 W[1]
N[4] scall 0
",
    b"",
);

// Its events. The fetch takes 8 cycles. What slots 0 and 3 give goes over one link and is held for one cycle, what slot
// 2 gives over two links and is not held; the branch goes over three links and what slot 1 gives over two, each held
// for one cycle. What slot s gives its only target is in place 2s.
const FIVE_EVENTS: &str = "cycle 1 begin block 0
cycle 9 fetch frame 0 block 0
cycle 9 fire frame 0 slot 0 genu
cycle 9 fire frame 0 slot 2 null
cycle 9 fire frame 0 slot 3 genu
cycle 9 fire frame 0 slot 4 scall
cycle 11 deliver frame 0 place 0
cycle 11 deliver frame 0 place 4
cycle 11 deliver frame 0 place 6
cycle 12 fire frame 0 slot 1 mov
cycle 13 exit frame 0 block 0
cycle 15 deliver frame 0 place 2
cycle 16 seal frame 0
cycle 16 commit frame 0 block 0
";

// A block that divides and goes on with itself.
const DIVIDES: Program = (
    "trips 1
data 0
block 0 mask 00000000
W[0] write G[5]
N[0] genu 1 N[2,0]
N[1] genu 1 N[2,1]
N[2] divu W[0]
N[3] bro 0 @0
",
    b"",
);

// The last of its events where one block is all that it may commit. The division of frame 0 has begun in cycle 13 and
// takes 24 cycles; behind it the frames 1, 2 and 3 are filled, and the fetch that began in cycle 33 is under way.
const DIVIDES_EVENTS: &str = "cycle 37 fire frame 1 slot 2 divu
cycle 39 deliver frame 0 place 4
cycle 40 seal frame 0
cycle 40 commit frame 0 block 0
cycle 40 flush frame 1 cause end
cycle 40 flush frame 2 cause end
cycle 40 flush frame 3 cause end
cycle 40 give up block 0
";

/// What is shown where the events of these cycles are.
pub fn told(first: u64, last: u64) -> Show {
    Show {
        regs: false,
        trace: false,
        cycles: false,
        stats: false,
        events: Some(Cycles { first, last }),
    }
}

/// The program, how many blocks it may have, the cycles whose events are told, the report before these and the lines.
type Run = (Program, u32, u64, u64, &'static str, &'static str);

const RUNS: &[Run] = &[
    (FIVE, 9, 1, 100, "output 0\n\nresult 7\n", FIVE_EVENTS),
    (
        FIVE,
        9,
        1,
        8,
        "output 0\n\nresult 7\n",
        "cycle 1 begin block 0\n",
    ),
    (
        FIVE,
        9,
        12,
        15,
        "output 0\n\nresult 7\n",
        "cycle 12 fire frame 0 slot 1 mov
cycle 13 exit frame 0 block 0
cycle 15 deliver frame 0 place 2
",
    ),
    (
        FIVE,
        9,
        16,
        165_888_000_000,
        "output 0\n\nresult 7\n",
        "cycle 16 seal frame 0
cycle 16 commit frame 0 block 0
",
    ),
    (FIVE, 9, 17, 20, "output 0\n\nresult 7\n", ""),
    (
        DIVIDES,
        1,
        14,
        17,
        "output 0\n\nbudget 1\n",
        "cycle 14 exit frame 0 block 0
cycle 17 fetch frame 1 block 0
cycle 17 predict block 0 behind frame 1
cycle 17 begin block 0
cycle 17 fire frame 1 slot 0 genu
cycle 17 fire frame 1 slot 1 genu
cycle 17 fire frame 1 slot 3 bro
",
    ),
    (
        DIVIDES,
        1,
        37,
        100,
        "output 0\n\nbudget 1\n",
        DIVIDES_EVENTS,
    ),
];

// The report and the lines behind it.
fn report_of(alloc: Global, report: &str, lines: &str) -> Result<String, AllocError> {
    format!(in alloc; "{report}{lines}")
}

fn assert_told(rt: &impl Abort, alloc: Global, run: &Run) -> Result<(), Fail> {
    let (program, most, first, last, report, lines) = *run;
    let answer = whole(rt, alloc, program, 0, most, told(first, last))?;
    let want = report_of(alloc, report, lines)?;
    assert_eq!(rt; answer.report.as_slice(), want.as_bytes(), "{first}-{last}");
    Ok(())
}

#[test]
fn tells_the_events_of_cycles(rt: HostRuntime) -> Result<(), Fail> {
    for run in RUNS {
        assert_told(&rt, rt.alloc(), run)?;
    }
    Ok(())
}

// The cycles of a part of a run that was saved count from its own first one.
#[test]
fn a_second_part_has_cycles_of_its_own(rt: HostRuntime) -> Result<(), Fail> {
    let alloc = rt.alloc();
    let file = saved(&rt, alloc, (STORED, b""), 0, 1)?;
    let end = gone_on(&rt, alloc, &file.report, 0, 10, told(1, 9))?;
    let want = "output 0

result 171
cycle 1 begin block 1
cycle 9 fetch frame 0 block 1
cycle 9 fire frame 0 slot 0 genu
cycle 9 fire frame 0 slot 2 genu
cycle 9 fire frame 0 slot 3 scall
";
    assert_eq!(rt; end.report.as_slice(), want.as_bytes(), "the second part");
    Ok(())
}

// A block of 120 operations without an operand, which goes on with itself.
fn wide(alloc: Global) -> Result<String, AllocError> {
    let mut text = String::from_str(alloc, "trips 1\ndata 0\nblock 0 mask 00000000\n")?;
    for slot in 0..120u32 {
        let line = format!(in alloc; "N[{slot}] genu 1\n")?;
        text.push_str(line.as_str())?;
    }
    text.push_str("N[120] bro 0 @0\n")?;
    Ok(text)
}

// The text ends so.
fn ends_so(text: &[u8], end: &[u8]) -> bool {
    text.ends_with(end)
}

// How many lines the text has.
fn lines_of(text: &[u8]) -> u64 {
    let mut lines = 0;
    for byte in text {
        if *byte == b'\n' {
            lines = u64::saturating_add(lines, 1);
        }
    }
    lines
}

#[test]
fn tells_a_million_events_and_that_there_are_more(rt: HostRuntime) -> Result<(), Fail> {
    let alloc = rt.alloc();
    let text = wide(alloc)?;
    let image = checked(alloc, text.as_str())?;
    let answer = run_image(
        alloc,
        image,
        Items::new(alloc),
        Conditions::seeded(0),
        9_000,
        told(1, 1_000_000),
    )?;
    // three lines of the report, a million of events, and the last one
    assert_eq!(rt; lines_of(&answer.report), 1_000_004, "lines");
    assert!(rt; ends_so(&answer.report, b"\nmore\n"), "the last line");
    Ok(())
}
