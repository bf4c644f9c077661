//! Runs that end by a system call or a trap, or whose budget is spent.

use crate::beside::assert_rows;
use crate::rows::Row;
use std::test::Fail;
use trips_isa::Ending::{Budget, Ended, StackFull, Trap};
use trips_isa::TrapCause::{DivisionByZero, Misaligned, OutsideMemory};

/// A letter is put out, an input byte is asked for, and the run ends.
const CALLS: &str = "trips 1
data 0
block 0 mask 00000000
W[0] write G[0]
W[1] write G[3]
N[0] genu 1 W[0]
N[1] genu 65 W[1]
N[2] scall 0
block 1 mask 00000000
W[0] write G[0]
N[0] genu 2 W[0]
N[1] scall 0
block 2 mask 00000000
R[0] read G[3] N[2,0]
W[0] write G[0]
W[1] write G[4]
N[0] genu 3 W[0]
N[1] scall 0
N[2] addi 5 W[1]
";

/// The second block says that the stack is full.
const FULL: &str = "trips 1
data 0
block 0 mask 00000000
N[0] bro 0 @1
block 1 mask 00000000
W[0] write G[0]
N[0] genu 4 W[0]
N[1] scall 0
";

/// The second block divides by 0.
const DIVIDES: &str = "trips 1
data 0
block 0 mask 00000000
W[0] write G[5]
N[0] genu 7 W[0]
N[1] bro 0 @1
block 1 mask 00000000
R[0] read G[5] N[1,0]
W[0] write G[5]
N[0] genu 0 N[1,1]
N[1] divu W[0]
N[2] bro 0 @0
";

/// Four bytes are loaded from 66.
const MISALIGNED: &str = "trips 1
data 0
block 0 mask 00000000
W[0] write G[5]
N[0] genu 66 N[1,0]
N[1] lw 0 0 W[0]
N[2] bro 0 @0
";

/// The third block stores a byte at 4,194,304, which is behind data memory.
const OUTSIDE: &str = "trips 1
data 0
block 0 mask 00000000
N[0] bro 0 @1
block 1 mask 00000000
N[0] bro 0 @2
block 2 mask 00000001
N[0] genu 64 N[1,0]
N[1] app 0 N[2,0]
N[2] sb 0 0
N[3] genu 1 N[2,1]
N[4] bro 0 @0
";

/// From the start of the run.
const ENDS: &[Row] = &[
    Row {
        name: "nothing is committed",
        text: CALLS,
        budget: 0,
        played: &[],
        ending: Budget,
        commits: 0,
    },
    Row {
        name: "the letter alone",
        text: CALLS,
        budget: 1,
        played: &[],
        ending: Budget,
        commits: 1,
    },
    Row {
        name: "one block too few",
        text: CALLS,
        budget: 2,
        played: &[],
        ending: Budget,
        commits: 2,
    },
    Row {
        name: "the budget to the last block",
        text: CALLS,
        budget: 3,
        played: &[],
        ending: Ended,
        commits: 3,
    },
    Row {
        name: "more than is wanted",
        text: CALLS,
        budget: 9,
        played: &[],
        ending: Ended,
        commits: 3,
    },
    Row {
        name: "before the full stack",
        text: FULL,
        budget: 1,
        played: &[],
        ending: Budget,
        commits: 1,
    },
    Row {
        name: "the full stack",
        text: FULL,
        budget: 2,
        played: &[],
        ending: StackFull,
        commits: 2,
    },
    Row {
        name: "the full stack, with more budget",
        text: FULL,
        budget: 100_000,
        played: &[],
        ending: StackFull,
        commits: 2,
    },
    Row {
        name: "before the division",
        text: DIVIDES,
        budget: 1,
        played: &[],
        ending: Budget,
        commits: 1,
    },
    Row {
        name: "a division by 0",
        text: DIVIDES,
        budget: 2,
        played: &[],
        ending: Trap {
            block: 1,
            cause: DivisionByZero,
        },
        commits: 1,
    },
    Row {
        name: "an address that is no multiple of 4",
        text: MISALIGNED,
        budget: 1,
        played: &[],
        ending: Trap {
            block: 0,
            cause: Misaligned,
        },
        commits: 0,
    },
    Row {
        name: "an address behind memory",
        text: OUTSIDE,
        budget: 3,
        played: &[],
        ending: Trap {
            block: 2,
            cause: OutsideMemory,
        },
        commits: 2,
    },
];

#[test]
fn driven_windows_end_as_the_machine(rt: HostRuntime) -> Result<(), Fail> {
    assert_rows(&rt, rt.alloc(), ENDS)?;
    Ok(())
}
