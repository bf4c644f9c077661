//! How many cycles single operations take, counted by hand.
//!
//! A block is fetched by cycle 8, and its first instructions are issued there. What is issued in cycle c with latency
//! n enters the mesh in cycle c + n, and has come over k links in cycle c + n + k - 1, or in c + n where k is 0. The
//! block commits in the cycle behind the last output.

use crate::running::{Came, Row, assert_rows};
use std::test::Fail;

/// The branch crosses four links: issued in 8, it has come in 12, and the block commits in 13.
const ENDING: &str = "trips 1
data 0
block 0 mask 00000000
W[0] write G[0]
W[1] write G[3]
N[0] genu 3 W[0]
N[1] genu 7 W[1]
N[2] scall 0
";

/// Slot 1 gives slot 2 its operand in 9; that is issued in 10, and crosses two links to its bank.
const ADDING: &str = "trips 1
data 0
block 0 mask 00000000
W[0] write G[0]
W[1] write G[3]
N[0] genu 3 W[0]
N[1] genu 7 N[2,0]
N[2] addi 6 W[1]
N[16] scall 0
";

/// The same with a multiplication, which takes three cycles.
const MULTIPLYING: &str = "trips 1
data 0
block 0 mask 00000000
W[0] write G[0]
W[1] write G[3]
N[0] genu 3 W[0]
N[1] genu 7 N[2,0]
N[2] muli 6 W[1]
N[16] scall 0
";

/// The operand of slot 1 crosses two links to slot 3, so the division is issued in 11, and takes 24 cycles.
const DIVIDING: &str = "trips 1
data 0
block 0 mask 00000000
W[0] write G[0]
W[1] write G[3]
N[0] genu 3 W[0]
N[1] genu 42 N[3,0]
N[2] genu 6 N[3,1]
N[3] divu W[1]
N[16] scall 0
";

/// Two tokens of slot 2 take the same way, and the second waits a cycle for each link but loses only one.
const SHARING: &str = "trips 1
data 0
block 0 mask 00000000
W[0] write G[0]
W[1] write G[3]
W[2] write G[7]
N[0] genu 3 W[0]
N[1] genu 7 N[2,0]
N[2] mov W[1] W[2]
N[16] scall 0
";

const ROWS: [Row; 5] = [
    Row {
        name: "a block of three instructions",
        text: ENDING,
        exit: 0,
        calm: Came {
            answer: 7,
            cycles: 14,
            fetched: 1,
            committed: 1,
            flushed: 0,
        },
        worst: Came {
            answer: 7,
            cycles: 17,
            fetched: 1,
            committed: 1,
            flushed: 0,
        },
    },
    Row {
        name: "an addition",
        text: ADDING,
        exit: 0,
        calm: Came {
            answer: 13,
            cycles: 14,
            fetched: 1,
            committed: 1,
            flushed: 0,
        },
        worst: Came {
            answer: 13,
            cycles: 20,
            fetched: 1,
            committed: 1,
            flushed: 0,
        },
    },
    Row {
        name: "a multiplication",
        text: MULTIPLYING,
        exit: 0,
        calm: Came {
            answer: 42,
            cycles: 16,
            fetched: 1,
            committed: 1,
            flushed: 0,
        },
        worst: Came {
            answer: 42,
            cycles: 22,
            fetched: 1,
            committed: 1,
            flushed: 0,
        },
    },
    Row {
        name: "a division",
        text: DIVIDING,
        exit: 0,
        calm: Came {
            answer: 7,
            cycles: 37,
            fetched: 1,
            committed: 1,
            flushed: 0,
        },
        worst: Came {
            answer: 7,
            cycles: 43,
            fetched: 1,
            committed: 1,
            flushed: 0,
        },
    },
    Row {
        name: "two parcels that want one link",
        text: SHARING,
        exit: 0,
        calm: Came {
            answer: 7,
            cycles: 15,
            fetched: 1,
            committed: 1,
            flushed: 0,
        },
        worst: Came {
            answer: 7,
            cycles: 21,
            fetched: 1,
            committed: 1,
            flushed: 0,
        },
    },
];

#[test]
fn operations_take_their_time(rt: HostRuntime) -> Result<(), Fail> {
    assert_rows(&rt, rt.alloc(), &ROWS)
}
