//! Words, and the requests that they make.

use crate::requests::{PLAIN, assert_asked};
use std::alloc::{AllocError, Global};
use std::process::Abort;
use std::test::Fail;
use trips_requests::{Asked, Command, Cycles, PredictorStart, WeatherKind};

/// Words, and the request that they make.
type Row = (&'static [&'static str], Asked<'static>);

const ASKED: &[Row] = &[
    (&["run", "a.c"], PLAIN),
    (&["run", "--", "a.c"], PLAIN),
    (&["run", "a.c", "--blocks", "1"], Asked { most: 1, ..PLAIN }),
    (
        &["run", "a.c", "--blocks", "4000000"],
        Asked {
            most: 4_000_000,
            ..PLAIN
        },
    ),
    (
        &["bench", "1"],
        Asked {
            file: "1",
            functions: Some(1),
            ..PLAIN
        },
    ),
    (
        &["run", "a.c", "--input=-t"],
        Asked {
            input: Some("-t"),
            ..PLAIN
        },
    ),
    (
        &["run", "a.c", "--input="],
        Asked {
            input: Some(""),
            ..PLAIN
        },
    ),
    (
        &["run", "a.c", "--input", "-"],
        Asked {
            input: Some("-"),
            ..PLAIN
        },
    ),
    (
        &["run", "a.c", "--input=b=c"],
        Asked {
            input: Some("b=c"),
            ..PLAIN
        },
    ),
    (&["run", "-"], Asked { file: "-", ..PLAIN }),
    (&["run", ""], Asked { file: "", ..PLAIN }),
    (
        &["run", "--", "--regs"],
        Asked {
            file: "--regs",
            ..PLAIN
        },
    ),
    (
        &["run", "--regs", "--", "--"],
        Asked {
            file: "--",
            regs: true,
            ..PLAIN
        },
    ),
    (
        &["run", "a.c", "--place", "0"],
        Asked {
            place: Some(0),
            ..PLAIN
        },
    ),
    (
        &["run", "a.c", "--place", "18446744073709551615"],
        Asked {
            place: Some(18_446_744_073_709_551_615),
            ..PLAIN
        },
    ),
    (
        &["run", "a.img.c", "--place", "1"],
        Asked {
            file: "a.img.c",
            place: Some(1),
            ..PLAIN
        },
    ),
    (
        &["record", "b.img", "--blocks", "100000"],
        Asked {
            command: Command::Record,
            file: "b.img",
            most: 100_000,
            ..PLAIN
        },
    ),
    (
        &["verify", "b", "--input", "t", "--", "--c"],
        Asked {
            command: Command::Verify,
            file: "b",
            second: Some("--c"),
            input: Some("t"),
            ..PLAIN
        },
    ),
    (
        &["save", "--input=t", "a.c", "4000000"],
        Asked {
            command: Command::Save,
            input: Some("t"),
            most: 4_000_000,
            ..PLAIN
        },
    ),
    (
        &["draw", "a.c", "--unroll=4", "7"],
        Asked {
            command: Command::Draw,
            most: 8,
            unroll: 4,
            ..PLAIN
        },
    ),
    (
        &["resume", "s", "--blocks", "9", "--seed", "7", "--cycles"],
        Asked {
            command: Command::Resume,
            file: "s",
            most: 9,
            seed: 7,
            cycles: true,
            ..PLAIN
        },
    ),
    (
        &["four", "a.c", "b.img", "--cycles", "--", "-c", "a.c"],
        Asked {
            command: Command::Four,
            second: Some("b.img"),
            third: Some("-c"),
            fourth: Some("a.c"),
            cycles: true,
            ..PLAIN
        },
    ),
    (
        &["run", "a.c", "--unroll", "8"],
        Asked { unroll: 8, ..PLAIN },
    ),
    (&["run", "--unroll=01", "a.c"], Asked { unroll: 1, ..PLAIN }),
    (
        &["run", "b.img"],
        Asked {
            file: "b.img",
            ..PLAIN
        },
    ),
    (
        &["run", "a.c", "--seed", "18446744073709551615"],
        Asked {
            seed: 18_446_744_073_709_551_615,
            ..PLAIN
        },
    ),
    (
        &["run", "b.img", "--seed=0", "--cycles"],
        Asked {
            file: "b.img",
            cycles: true,
            ..PLAIN
        },
    ),
    (
        &["run", "v.tasl", "--stats"],
        Asked {
            file: "v.tasl",
            stats: true,
            ..PLAIN
        },
    ),
    (
        &["run", "v.tasl", "--events", "12-40"],
        Asked {
            file: "v.tasl",
            events: Some(Cycles {
                first: 12,
                last: 40,
            }),
            ..PLAIN
        },
    ),
    (
        &["resume", "--events=1-165888000000", "s", "--cycles"],
        Asked {
            command: Command::Resume,
            file: "s",
            cycles: true,
            events: Some(Cycles {
                first: 1,
                last: 165_888_000_000,
            }),
            ..PLAIN
        },
    ),
    (
        &["resume", "--stats", "s", "--regs"],
        Asked {
            command: Command::Resume,
            file: "s",
            regs: true,
            stats: true,
            ..PLAIN
        },
    ),
    (
        &["run", "v.tasl", "--weather", "calm"],
        Asked {
            file: "v.tasl",
            weather: WeatherKind::Calm,
            ..PLAIN
        },
    ),
    (
        &["resume", "--predictor=zero", "s", "--weather=worst"],
        Asked {
            command: Command::Resume,
            file: "s",
            predictor: PredictorStart::Zero,
            weather: WeatherKind::Worst,
            ..PLAIN
        },
    ),
    (&["run", "--frames=1", "a.c"], Asked { frames: 1, ..PLAIN }),
    (
        &["run", "--predictor=none", "a.c", "--frames=1"],
        Asked {
            predictor: PredictorStart::Unused,
            frames: 1,
            ..PLAIN
        },
    ),
    (
        &["bench", "9", "--predictor", "none"],
        Asked {
            file: "9",
            functions: Some(9),
            predictor: PredictorStart::Unused,
            frames: 1,
            ..PLAIN
        },
    ),
    (
        &["bench", "--predictor", "seeded", "9", "--weather", "seeded"],
        Asked {
            file: "9",
            functions: Some(9),
            ..PLAIN
        },
    ),
    (
        &["compile", "a.c"],
        Asked {
            command: Command::Compile,
            ..PLAIN
        },
    ),
    (
        &["compile", "--listing", "a.c", "--place=3"],
        Asked {
            command: Command::List,
            place: Some(3),
            ..PLAIN
        },
    ),
    (
        &["asm", "a.c"],
        Asked {
            command: Command::Assemble,
            ..PLAIN
        },
    ),
    (
        &["dis", "--", "a.c"],
        Asked {
            command: Command::Disassemble,
            ..PLAIN
        },
    ),
    (
        &["check", "a.c"],
        Asked {
            command: Command::Check,
            ..PLAIN
        },
    ),
    (
        &["explain", "a.c"],
        Asked {
            command: Command::Explain,
            ..PLAIN
        },
    ),
    (
        &["explain", "a.c", "--steps=7", "--input", "t"],
        Asked {
            command: Command::Explain,
            input: Some("t"),
            most: 7,
            ..PLAIN
        },
    ),
    (
        &["explain", "b.img"],
        Asked {
            command: Command::Explain,
            file: "b.img",
            ..PLAIN
        },
    ),
];

fn assert_all_asked(rt: &impl Abort, alloc: Global, rows: &[Row]) -> Result<(), AllocError> {
    for (texts, wanted) in rows {
        assert_asked(rt, alloc, texts, wanted)?;
    }
    Ok(())
}

#[test]
fn words_make_requests(rt: HostRuntime) -> Result<(), Fail> {
    assert_all_asked(&rt, rt.alloc(), ASKED)?;
    Ok(())
}
