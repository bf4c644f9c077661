//! Blocks that the checker takes, in a ring, driven from the start of their run.

use crate::beside::assert_rows;
use crate::rows::Row;
use std::test::Fail;
use trips_isa::Ending::{Budget, Ended};

/// A load of a lower number than a store, a write that gets a null token, a read that chooses through a `mov`, and a
/// branch on each side; each block leaves to the next one.
const RING: &str = "trips 1
data 0
block 0 mask 00000002
N[0] lb 0 0 N[1,0]
N[1] mov N[2,0] N[2,1]
N[2] sb 1 0
N[3] scall 0
N[4] genu 0 N[0,0]
block 1 mask 00000000
W[0] write G[3]
N[0] null W[0]
N[1] scall 0
block 2 mask 00000000
R[0] read G[5] N[0,0]
W[0] write G[3]
N[0] mov N[1,p] N[2,p]
N[1] mov_t N[3,p] N[4,p]
N[2] mov_f N[3,p] N[4,p]
N[3] mov_t W[0]
N[4] mov_f W[0]
N[5] genu 0 N[7,0]
N[6] genu 0 N[8,0]
N[7] mov N[1,0] N[2,0]
N[8] mov N[3,0] N[4,0]
N[9] scall 0
block 3 mask 00000000
R[0] read G[5] N[0,0]
N[0] extub N[1,p] N[2,p]
N[1] scall_t 0
N[2] scall_f 0
";

/// A counter goes up to 3. Each turn stores it as a byte and loads two bytes behind that store, which are added up; a
/// second store is null but in the last turn. Then the run ends.
const COUNTER: &str = "trips 1
data 0
block 0 mask 00000005
R[0] read G[5] N[0,0]
R[1] read G[6] N[11,1]
W[0] write G[5]
W[1] write G[6]
N[0] addi 1 N[1,0]
N[1] mov N[2,0] N[3,0]
N[2] tlti 3 N[4,0]
N[3] mov N[8,1] W[0]
N[4] mov N[5,p] N[12,0]
N[5] bro_t 0 @0
N[6] bro_f 1 @1
N[7] genu 64 N[8,0]
N[8] sb 0 1
N[9] genu 64 N[10,0]
N[10] lh 1 0 N[11,0]
N[11] add W[1]
N[12] mov N[6,p] N[13,0]
N[13] mov N[14,p] N[15,p]
N[14] null_t N[16,0]
N[15] mov_f N[16,0]
N[16] sd 2 0
N[17] genu 72 N[15,0]
N[18] genu 5 N[16,1]
block 1 mask 00000000
R[0] read G[6] N[1,0]
W[0] write G[0]
W[1] write G[3]
N[0] genu 3 W[0]
N[1] mov W[1]
N[2] scall 0
";

/// The last slots, the greatest store number, and the last register.
const EDGES: &str = "trips 1
data 0
block 0 mask 80000000
W[0] write G[127]
N[0] genu 64 N[126,0]
N[1] genu 9 N[126,1]
N[2] genu 64 N[127,0]
N[3] bro 7 @0
N[126] sb 31 7
N[127] lb 30 7 W[0]
";

/// From the start of the run.
const DRIVEN: &[Row] = &[
    Row {
        name: "no block of the ring",
        text: RING,
        budget: 0,
        played: &[],
        ending: Budget,
        commits: 0,
    },
    Row {
        name: "a block of the ring",
        text: RING,
        budget: 1,
        played: &[],
        ending: Budget,
        commits: 1,
    },
    Row {
        name: "the ring, and once more its first block",
        text: RING,
        budget: 5,
        played: &[],
        ending: Budget,
        commits: 5,
    },
    Row {
        name: "the ring many times",
        text: RING,
        budget: 1_000,
        played: &[],
        ending: Budget,
        commits: 1000,
    },
    Row {
        name: "the counter",
        text: COUNTER,
        budget: 3,
        played: &[],
        ending: Budget,
        commits: 3,
    },
    Row {
        name: "the counter to its end",
        text: COUNTER,
        budget: 4,
        played: &[],
        ending: Ended,
        commits: 4,
    },
    Row {
        name: "the counter, and more than is wanted",
        text: COUNTER,
        budget: 100,
        played: &[],
        ending: Ended,
        commits: 4,
    },
    Row {
        name: "the last numbers",
        text: EDGES,
        budget: 3,
        played: &[],
        ending: Budget,
        commits: 3,
    },
];

#[test]
fn driven_windows_do_as_the_machine(rt: HostRuntime) -> Result<(), Fail> {
    assert_rows(&rt, rt.alloc(), DRIVEN)?;
    Ok(())
}
