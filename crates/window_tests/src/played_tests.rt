//! Windows in which events have happened before they are driven.

use crate::beside::assert_rows;
use crate::rows::Row;
use frame_state::Event;
use frame_state::Event::{Commit, Deliver, Exit, Fetch, Fire, Flush, Load, Seal, Store};
use std::test::Fail;
use trips_isa::Ending::{Budget, Trap};
use trips_isa::TrapCause::DivisionByZero;

/// The second block adds 1 to what the first writes.
const PAIR: &str = "trips 1
data 0
block 0 mask 00000000
W[0] write G[5]
N[0] genu 7 W[0]
N[1] bro 0 @1
block 1 mask 00000000
R[0] read G[5] N[0,0]
W[0] write G[6]
N[0] addi 1 W[0]
N[1] bro 0 @0
";

/// A store, a load and a store, all of the four bytes at 64.
const OWN: &str = "trips 1
data 0
block 0 mask 00000005
W[0] write G[5]
N[0] genu 64 N[1,0]
N[1] lw 1 0 W[0]
N[2] genu 64 N[4,0]
N[3] genu 7 N[4,1]
N[4] sw 0 0
N[5] genu 64 N[7,0]
N[6] genu 9 N[7,1]
N[7] sw 2 0
N[8] bro 0 @0
";

/// Its one write is a quotient by 0.
const FAULT: &str = "trips 1
data 0
block 0 mask 00000000
W[0] write G[5]
N[0] genu 7 N[2,0]
N[1] genu 0 N[2,1]
N[2] divu W[0]
N[3] bro 0 @0
";

/// Both blocks, and a guess that is wrong.
const GUESSED: &[Event] = &[
    Fetch { block: 0 },
    Fetch { block: 0 },
    Fetch { block: 1 },
    Fire { frame: 1, slot: 0 },
    Deliver { token: 320 },
];

/// The second frame alone is worked on, and the first one is then flushed with it.
const EMPTIED: &[Event] = &[
    Fetch { block: 0 },
    Fetch { block: 1 },
    Fire { frame: 1, slot: 1 },
    Exit { frame: 1 },
    Flush { frame: 0 },
];

/// The first block is sealed, and the second one stands behind it.
const SEALED: &[Event] = &[
    Fetch { block: 0 },
    Fetch { block: 1 },
    Fire { frame: 0, slot: 0 },
    Fire { frame: 0, slot: 1 },
    Deliver { token: 0 },
    Exit { frame: 0 },
    Seal { frame: 0 },
];

/// The oldest frame is not in frame 0.
const SECOND: &[Event] = &[
    Fetch { block: 0 },
    Fetch { block: 1 },
    Fire { frame: 0, slot: 0 },
    Fire { frame: 0, slot: 1 },
    Deliver { token: 0 },
    Exit { frame: 0 },
    Seal { frame: 0 },
    Commit,
];

/// The load is answered before the store that it has to see. That store flushes its frame, and the younger one.
const TOO_EARLY: &[Event] = &[
    Fetch { block: 0 },
    Fetch { block: 0 },
    Fire { frame: 0, slot: 0 },
    Deliver { token: 0 },
    Fire { frame: 0, slot: 1 },
    Load {
        frame: 0,
        number: 1,
    },
    Fire { frame: 0, slot: 5 },
    Fire { frame: 0, slot: 6 },
    Deliver { token: 10 },
    Deliver { token: 12 },
    Fire { frame: 0, slot: 7 },
    Store {
        frame: 0,
        number: 2,
    },
];

/// The run has ended.
const OVER: &[Event] = &[
    Fetch { block: 0 },
    Fire { frame: 0, slot: 0 },
    Fire { frame: 0, slot: 1 },
    Fire { frame: 0, slot: 3 },
    Deliver { token: 0 },
    Deliver { token: 2 },
    Fire { frame: 0, slot: 2 },
    Deliver { token: 4 },
    Exit { frame: 0 },
    Seal { frame: 0 },
    Commit,
];

/// Events have happened.
const PLAYED: &[Row] = &[
    Row {
        name: "a wrong guess",
        text: PAIR,
        budget: 4,
        played: GUESSED,
        ending: Budget,
        commits: 4,
    },
    Row {
        name: "a flushed window",
        text: PAIR,
        budget: 3,
        played: EMPTIED,
        ending: Budget,
        commits: 3,
    },
    Row {
        name: "a sealed frame",
        text: PAIR,
        budget: 5,
        played: SEALED,
        ending: Budget,
        commits: 5,
    },
    Row {
        name: "a sealed frame without a budget",
        text: PAIR,
        budget: 0,
        played: SEALED,
        ending: Budget,
        commits: 0,
    },
    Row {
        name: "the oldest in frame 1",
        text: PAIR,
        budget: 2,
        played: SECOND,
        ending: Budget,
        commits: 2,
    },
    Row {
        name: "a load before its store",
        text: OWN,
        budget: 2,
        played: TOO_EARLY,
        ending: Budget,
        commits: 2,
    },
    Row {
        name: "a trap to come",
        text: FAULT,
        budget: 2,
        played: GUESSED,
        ending: Trap {
            block: 0,
            cause: DivisionByZero,
        },
        commits: 0,
    },
    Row {
        name: "a trap that has come",
        text: FAULT,
        budget: 2,
        played: OVER,
        ending: Trap {
            block: 0,
            cause: DivisionByZero,
        },
        commits: 0,
    },
];

#[test]
fn played_windows_do_as_the_machine(rt: HostRuntime) -> Result<(), Fail> {
    assert_rows(&rt, rt.alloc(), PLAYED)?;
    Ok(())
}
