//! Runs in calm weather, in the worst and in that of a seed, with a predictor whose table holds zeros, and with one
//! frame in flight: by hand from docs/GRID.md.

use crate::events_tests::{FIVE, told};
use crate::making::{Program, whole_under};
use grid_cycle::{Conditions, Exits, Holds};
use std::alloc::{AllocError, Global};
use std::process::Abort;
use std::test::Fail;

// The conditions of seed 0.
const SEEDED: Conditions = Conditions {
    seed: 0,
    exits: Exits::Seeded,
    holds: Holds::Seeded,
    frames: 8,
};

// No parcel is held. The seed has no part in it.
const CALM: Conditions = Conditions {
    seed: 9,
    exits: Exits::Seeded,
    holds: Holds::Calm,
    frames: 8,
};

// Each is held for 3 cycles.
const WORST: Conditions = Conditions {
    seed: 9,
    exits: Exits::Seeded,
    holds: Holds::Worst,
    frames: 8,
};

// The predictor's table holds zeros.
const ZERO: Conditions = Conditions {
    seed: 0,
    exits: Exits::Zero,
    holds: Holds::Seeded,
    frames: 8,
};

// One frame alone is in flight.
const ALONE: Conditions = Conditions {
    seed: 0,
    exits: Exits::Seeded,
    holds: Holds::Seeded,
    frames: 1,
};

// The events of the five operations from cycle 10 on. What slots 0 and 3 give comes over one link in cycle 10, what
// slot 2 gives over two in cycle 11 and the branch over three in cycle 12; slot 1 fires in the cycle behind the one in which
// its operand is delivered, and what it gives comes over two links two cycles later. Calm: as they come.
const CALM_EVENTS: &str = "cycle 10 deliver frame 0 place 0
cycle 10 deliver frame 0 place 6
cycle 11 fire frame 0 slot 1 mov
cycle 11 deliver frame 0 place 4
cycle 12 exit frame 0 block 0
cycle 13 deliver frame 0 place 2
cycle 14 seal frame 0
cycle 14 commit frame 0 block 0
";

// The worst: each 3 cycles later.
const WORST_EVENTS: &str = "cycle 13 deliver frame 0 place 0
cycle 13 deliver frame 0 place 6
cycle 14 fire frame 0 slot 1 mov
cycle 14 deliver frame 0 place 4
cycle 15 exit frame 0 block 0
cycle 19 deliver frame 0 place 2
cycle 20 seal frame 0
cycle 20 commit frame 0 block 0
";

// Seed 0 draws the holds 1, 1, 0, 1, 1.
const SEEDED_EVENTS: &str = "cycle 11 deliver frame 0 place 0
cycle 11 deliver frame 0 place 4
cycle 11 deliver frame 0 place 6
cycle 12 fire frame 0 slot 1 mov
cycle 13 exit frame 0 block 0
cycle 15 deliver frame 0 place 2
cycle 16 seal frame 0
cycle 16 commit frame 0 block 0
";

// A block that goes on with block 2 by its exit 0; its lowest branch has exit 1, and leads to block 1.
const BRANCHES: Program = (
    "trips 1
data 0
block 0 mask 00000000
N[0] genu 0 N[1,0]
N[1] mov N[2,p] N[3,p]
N[2] bro_t 1 @1
N[3] bro_f 0 @2
block 1 mask 00000000
W[0] write G[0]
N[0] genu 3 W[0]
N[1] scall 0
block 2 mask 00000000
W[0] write G[0]
W[1] write G[3]
N[0] genu 3 W[0]
N[1] genu 7 W[1]
N[2] scall 0
",
    b"",
);

// The first word of seed 0's table names exit 6, which no branch of the block has: the lowest branch stands in.
const SEEDED_GUESS: &str = "cycle 9 fetch frame 0 block 0
cycle 9 predict block 1 behind frame 0
cycle 9 begin block 1
cycle 9 fire frame 0 slot 0 genu
";

// With one frame in flight nothing is fetched behind it.
const ALONE_GUESS: &str = "cycle 9 fetch frame 0 block 0
cycle 9 fire frame 0 slot 0 genu
";

// Zeros name exit 0.
const ZERO_GUESS: &str = "cycle 9 fetch frame 0 block 0
cycle 9 predict block 2 behind frame 0
cycle 9 begin block 2
cycle 9 fire frame 0 slot 0 genu
";

/// The program, the conditions, the cycles whose events are told, and the lines.
type Run = (Program, Conditions, u64, u64, &'static str);

const RUNS: &[Run] = &[
    (FIVE, SEEDED, 10, 100, SEEDED_EVENTS),
    (FIVE, CALM, 10, 100, CALM_EVENTS),
    (FIVE, WORST, 10, 100, WORST_EVENTS),
    (FIVE, ZERO, 10, 100, SEEDED_EVENTS),
    (BRANCHES, SEEDED, 9, 9, SEEDED_GUESS),
    (BRANCHES, CALM, 9, 9, SEEDED_GUESS),
    (BRANCHES, ZERO, 9, 9, ZERO_GUESS),
    (FIVE, ALONE, 10, 100, SEEDED_EVENTS),
    (BRANCHES, ALONE, 9, 9, ALONE_GUESS),
];

// Both programs give 7, whatever the conditions are.
fn report_of(alloc: Global, lines: &str) -> Result<String, AllocError> {
    format!(in alloc; "output 0\n\nresult 7\n{lines}")
}

fn assert_told(rt: &impl Abort, alloc: Global, run: &Run) -> Result<(), Fail> {
    let (program, conditions, first, last, lines) = *run;
    let answer = whole_under(rt, alloc, program, conditions, 9, told(first, last))?;
    let want = report_of(alloc, lines)?;
    assert_eq!(rt; answer.report.as_slice(), want.as_bytes(), "{conditions:?}");
    Ok(())
}

#[test]
fn conditions_change_cycles_and_guesses_alone(rt: HostRuntime) -> Result<(), Fail> {
    for run in RUNS {
        assert_told(&rt, rt.alloc(), run)?;
    }
    Ok(())
}
