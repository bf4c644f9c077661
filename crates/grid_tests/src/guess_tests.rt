//! Programs whose frames are guessed: loads before older stores, and blocks before the exit that leads to them.

use crate::running::{Came, Row, assert_rows};
use std::test::Fail;

/// The divide makes the store of the first block late. The second block loads before it: the load is wrong, so its
/// frame is flushed and fetched anew, and now its load waits.
const LATE_STORE: &str = "trips 1
data 0
block 0 mask 00000001
N[0] genu 7 N[2,0]
N[1] genu 1 N[2,1]
N[2] divu N[4,0]
N[3] genu 171 N[4,1]
N[4] sb 0 0
N[5] bro 0 @1
block 1 mask 00000000
W[0] write G[0]
W[1] write G[3]
N[0] genu 0 N[1,0]
N[1] ld 0 0 W[1]
N[2] genu 3 W[0]
N[3] scall 0
";

/// The load of number 1 goes before the store of number 0 of its own frame, which flushes itself.
const OWN_STORE: &str = "trips 1
data 0
block 0 mask 00000001
W[0] write G[0]
W[1] write G[3]
N[0] genu 3 W[0]
N[1] genu 7 N[2,0]
N[2] muli 9 N[4,1]
N[3] genu 8 N[4,0]
N[4] sd 0 0
N[5] genu 8 N[6,0]
N[6] ld 1 0 W[1]
N[7] scall 0
";

/// The exit is known in cycle 14, before the fetch of the block that was predicted ends: it is given up. In the worst
/// weather that frame is there already, and is flushed.
const GIVEN_UP: &str = "trips 1
data 0
block 0 mask 00000000
N[0] genu 1 N[16,0]
N[1] genu 1 N[16,1]
N[16] teq N[17,p] N[32,p]
N[17] bro_f 0 @1
N[32] bro_t 1 @2
block 1 mask 00000000
W[0] write G[0]
W[1] write G[3]
N[0] genu 3 W[0]
N[1] genu 1 W[1]
N[2] scall 0
block 2 mask 00000000
W[0] write G[0]
W[1] write G[3]
N[0] genu 3 W[0]
N[1] genu 2 W[1]
N[2] scall 0
";

/// The second block reads what the first writes.
const FORWARDED: &str = "trips 1
data 0
block 0 mask 00000000
W[0] write G[9]
N[0] genu 5 N[1,0]
N[1] muli 4 W[0]
N[2] bro 0 @1
block 1 mask 00000000
R[0] read G[9] N[1,0]
W[0] write G[0]
W[1] write G[3]
N[0] genu 3 W[0]
N[1] addi 2 W[1]
N[2] scall 0
";

const ROWS: [Row; 6] = [
    Row {
        name: "a store that an answered load of a younger frame should have seen",
        text: LATE_STORE,
        exit: 0,
        calm: Came {
            answer: 171,
            cycles: 61,
            fetched: 3,
            committed: 2,
            flushed: 1,
        },
        worst: Came {
            answer: 171,
            cycles: 79,
            fetched: 3,
            committed: 2,
            flushed: 1,
        },
    },
    Row {
        name: "a store that an answered load of a younger frame should have seen, where each guess is of exit 7",
        text: LATE_STORE,
        exit: 7,
        calm: Came {
            answer: 171,
            cycles: 61,
            fetched: 3,
            committed: 2,
            flushed: 1,
        },
        worst: Came {
            answer: 171,
            cycles: 79,
            fetched: 3,
            committed: 2,
            flushed: 1,
        },
    },
    Row {
        name: "a store that an answered load of its own frame should have seen",
        text: OWN_STORE,
        exit: 0,
        calm: Came {
            answer: 63,
            cycles: 46,
            fetched: 2,
            committed: 1,
            flushed: 1,
        },
        worst: Came {
            answer: 63,
            cycles: 67,
            fetched: 2,
            committed: 1,
            flushed: 1,
        },
    },
    Row {
        name: "a fetch that is given up",
        text: GIVEN_UP,
        exit: 0,
        calm: Came {
            answer: 2,
            cycles: 29,
            fetched: 2,
            committed: 2,
            flushed: 0,
        },
        worst: Came {
            answer: 2,
            cycles: 41,
            fetched: 3,
            committed: 2,
            flushed: 1,
        },
    },
    Row {
        name: "a fetch that was predicted right",
        text: GIVEN_UP,
        exit: 1,
        calm: Came {
            answer: 2,
            cycles: 22,
            fetched: 2,
            committed: 2,
            flushed: 0,
        },
        worst: Came {
            answer: 2,
            cycles: 26,
            fetched: 2,
            committed: 2,
            flushed: 0,
        },
    },
    Row {
        name: "a word that is forwarded",
        text: FORWARDED,
        exit: 0,
        calm: Came {
            answer: 22,
            cycles: 22,
            fetched: 2,
            committed: 2,
            flushed: 0,
        },
        worst: Came {
            answer: 22,
            cycles: 32,
            fetched: 2,
            committed: 2,
            flushed: 0,
        },
    },
];

#[test]
fn guesses_are_mended(rt: HostRuntime) -> Result<(), Fail> {
    assert_rows(&rt, rt.alloc(), &ROWS)
}
