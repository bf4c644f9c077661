//! Each option in each place and spelling.

use crate::requests::{PLAIN, assert_asked};
use std::alloc::{AllocError, Global};
use std::process::Abort;
use std::test::Fail;
use trips_requests::{Asked, Command, Cycles, PredictorStart, WeatherKind};

// An option with its value, in each place and spelling.
const BLOCKS: &[&[&str]] = &[
    &["run", "a.c", "--blocks", "7"],
    &["run", "--blocks", "7", "a.c"],
    &["run", "a.c", "--blocks=7"],
    &["run", "--blocks=7", "a.c"],
    &["run", "--blocks=7", "--", "a.c"],
    &["run", "--blocks=0007", "a.c"],
];

const INPUT: &[&[&str]] = &[
    &["run", "a.c", "--input", "t"],
    &["run", "--input", "t", "a.c"],
    &["run", "a.c", "--input=t"],
    &["run", "--input=t", "a.c"],
    &["run", "--input", "t", "--", "a.c"],
];

const STEPS: &[&[&str]] = &[
    &["eval", "a.c", "--steps", "7"],
    &["eval", "--steps", "7", "a.c"],
    &["eval", "a.c", "--steps=7"],
    &["eval", "--steps=7", "a.c"],
    &["eval", "--steps", "7", "--", "a.c"],
];

const EVAL_INPUT: &[&[&str]] = &[
    &["eval", "a.c", "--input", "t"],
    &["eval", "--input", "t", "a.c"],
    &["eval", "a.c", "--input=t"],
    &["eval", "--input=t", "a.c"],
];

const BENCH_BLOCKS: &[&[&str]] = &[
    &["bench", "64", "--blocks", "7"],
    &["bench", "--blocks", "7", "64"],
    &["bench", "64", "--blocks=7"],
    &["bench", "--blocks=7", "64"],
    &["bench", "--blocks=7", "--", "64"],
];

const PREDICTOR: &[&[&str]] = &[
    &["run", "a.c", "--predictor", "zero"],
    &["run", "--predictor", "zero", "a.c"],
    &["run", "a.c", "--predictor=zero"],
    &["run", "--predictor=zero", "--", "a.c"],
];

const WEATHER: &[&[&str]] = &[
    &["run", "a.c", "--weather", "worst"],
    &["run", "--weather", "worst", "a.c"],
    &["run", "a.c", "--weather=worst"],
    &["run", "--weather=worst", "--", "a.c"],
];

const PLACE: &[&[&str]] = &[
    &["run", "a.c", "--place", "7"],
    &["run", "--place", "7", "a.c"],
    &["run", "a.c", "--place=7"],
    &["run", "--place=7", "--", "a.c"],
    &["run", "a.c", "--place=007"],
];

const BENCH_PLACE: &[&[&str]] = &[
    &["bench", "64", "--place", "7"],
    &["bench", "--place=7", "64"],
];

const COMPILE_PLACE: &[&[&str]] = &[
    &["compile", "a.c", "--place", "7"],
    &["compile", "--place", "7", "a.c"],
    &["compile", "--place=7", "--", "a.c"],
];

const SEED: &[&[&str]] = &[
    &["run", "a.c", "--seed", "7"],
    &["run", "--seed", "7", "a.c"],
    &["run", "a.c", "--seed=7"],
    &["run", "--seed=7", "--", "a.c"],
];

const CYCLES: &[&[&str]] = &[
    &["run", "a.c", "--cycles"],
    &["run", "--cycles", "a.c"],
    &["run", "--cycles", "--", "a.c"],
];

const STATS: &[&[&str]] = &[
    &["run", "a.c", "--stats"],
    &["run", "--stats", "a.c"],
    &["run", "--stats", "--", "a.c"],
];

const EVENTS: &[&[&str]] = &[
    &["run", "a.c", "--events", "7-7"],
    &["run", "--events", "07-0007", "a.c"],
    &["run", "a.c", "--events=7-7"],
    &["run", "--events=7-7", "--", "a.c"],
];

const BENCH_SEED: &[&[&str]] = &[
    &["bench", "64", "--seed", "7", "--cycles"],
    &["bench", "--cycles", "--seed=7", "64"],
];

const REGS: &[&[&str]] = &[
    &["run", "a.c", "--regs"],
    &["run", "--regs", "a.c"],
    &["run", "--regs", "--", "a.c"],
];

const TRACE: &[&[&str]] = &[
    &["run", "a.c", "--trace"],
    &["run", "--trace", "a.c"],
    &["run", "--trace", "--", "a.c"],
];

// All of them, in several orders.
const ALL: &[&[&str]] = &[
    &[
        "run",
        "--trace",
        "--blocks=9",
        "a.c",
        "--regs",
        "--input",
        "t",
    ],
    &[
        "run",
        "--input=t",
        "--regs",
        "--blocks",
        "9",
        "--trace",
        "a.c",
    ],
    &[
        "run",
        "a.c",
        "--regs",
        "--trace",
        "--input",
        "t",
        "--blocks=9",
    ],
    &[
        "run", "--blocks", "9", "--input", "t", "--regs", "--trace", "--", "a.c",
    ],
];

const EVALUATED: Asked<'static> = Asked {
    command: Command::Evaluate,
    ..PLAIN
};

const SPELLINGS: &[(&[&[&str]], Asked<'static>)] = &[
    (BLOCKS, Asked { most: 7, ..PLAIN }),
    (
        INPUT,
        Asked {
            input: Some("t"),
            ..PLAIN
        },
    ),
    (
        STEPS,
        Asked {
            most: 7,
            ..EVALUATED
        },
    ),
    (
        EVAL_INPUT,
        Asked {
            input: Some("t"),
            ..EVALUATED
        },
    ),
    (
        BENCH_BLOCKS,
        Asked {
            file: "64",
            functions: Some(64),
            most: 7,
            ..PLAIN
        },
    ),
    (
        PLACE,
        Asked {
            place: Some(7),
            ..PLAIN
        },
    ),
    (
        BENCH_PLACE,
        Asked {
            file: "64",
            functions: Some(64),
            place: Some(7),
            ..PLAIN
        },
    ),
    (
        COMPILE_PLACE,
        Asked {
            command: Command::Compile,
            place: Some(7),
            ..PLAIN
        },
    ),
    (SEED, Asked { seed: 7, ..PLAIN }),
    (
        PREDICTOR,
        Asked {
            predictor: PredictorStart::Zero,
            ..PLAIN
        },
    ),
    (
        WEATHER,
        Asked {
            weather: WeatherKind::Worst,
            ..PLAIN
        },
    ),
    (
        CYCLES,
        Asked {
            cycles: true,
            ..PLAIN
        },
    ),
    (
        STATS,
        Asked {
            stats: true,
            ..PLAIN
        },
    ),
    (
        EVENTS,
        Asked {
            events: Some(Cycles { first: 7, last: 7 }),
            ..PLAIN
        },
    ),
    (
        BENCH_SEED,
        Asked {
            file: "64",
            functions: Some(64),
            seed: 7,
            cycles: true,
            ..PLAIN
        },
    ),
    (
        REGS,
        Asked {
            regs: true,
            ..PLAIN
        },
    ),
    (
        TRACE,
        Asked {
            trace: true,
            ..PLAIN
        },
    ),
    (
        ALL,
        Asked {
            input: Some("t"),
            most: 9,
            regs: true,
            trace: true,
            ..PLAIN
        },
    ),
];

// Each of these makes the same request.
fn assert_same(
    rt: &impl Abort,
    alloc: Global,
    spellings: &[&[&str]],
    wanted: &Asked<'_>,
) -> Result<(), AllocError> {
    for texts in spellings {
        assert_asked(rt, alloc, *texts, wanted)?;
    }
    Ok(())
}

fn assert_spellings(
    rt: &impl Abort,
    alloc: Global,
    rows: &[(&[&[&str]], Asked<'_>)],
) -> Result<(), AllocError> {
    for (spellings, wanted) in rows {
        assert_same(rt, alloc, *spellings, wanted)?;
    }
    Ok(())
}

#[test]
fn each_option_in_each_place(rt: HostRuntime) -> Result<(), Fail> {
    assert_spellings(&rt, rt.alloc(), SPELLINGS)?;
    Ok(())
}
