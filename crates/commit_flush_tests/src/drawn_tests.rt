//! A thousand lists of events as a generator draws them, over images of small blocks.

use crate::following::assert_lists;
use std::test::Fail;

/// Blocks that the checker takes: a load of a lower number than a store, a write that gets a null token, a read that
/// chooses through a `mov`, a branch on each side. Each leaves by `scall` to the next one.
const RING: &str = "trips 1
data 0
block 0 mask 00000002
N[0] lb 0 0 N[1,0]
N[1] mov N[2,0] N[2,1]
N[2] sb 1 0
N[3] scall 0
N[4] genu 0 N[0,0]
block 1 mask 00000000
W[0] write G[3]
N[0] null W[0]
N[1] scall 0
block 2 mask 00000000
R[0] read G[5] N[0,0]
W[0] write G[3]
N[0] mov N[1,p] N[2,p]
N[1] mov_t N[3,p] N[4,p]
N[2] mov_f N[3,p] N[4,p]
N[3] mov_t W[0]
N[4] mov_f W[0]
N[5] genu 0 N[7,0]
N[6] genu 0 N[8,0]
N[7] mov N[1,0] N[2,0]
N[8] mov N[3,0] N[4,0]
N[9] scall 0
block 3 mask 00000000
R[0] read G[5] N[0,0]
N[0] extub N[1,p] N[2,p]
N[1] scall_t 0
N[2] scall_f 0
";

/// Each block adds 1 to what the other one wrote last.
const PAIR: &str = "trips 1
data 0
block 0 mask 00000000
R[0] read G[6] N[0,0]
W[0] write G[5]
N[0] addi 1 W[0]
N[1] bro 0 @1
block 1 mask 00000000
R[0] read G[5] N[0,0]
W[0] write G[6]
N[0] addi 1 W[0]
N[1] bro 0 @0
";

/// What is loaded goes up by one and is stored again, behind a store of its frame and before one.
const MEMORY: &str = "trips 1
data 0
block 0 mask 00000005
W[0] write G[5]
N[0] genu 64 N[1,0]
N[1] lw 1 0 N[2,0]
N[2] addi 1 N[9,0]
N[3] genu 66 N[5,0]
N[4] genu 7 N[5,1]
N[5] sb 0 0
N[6] genu 64 N[7,0]
N[7] sw 2 0
N[8] bro 0 @0
N[9] mov N[7,1] W[0]
";

/// A counter leads to the last block from its second turn on, and that one ends the run.
const COUNTER: &str = "trips 1
data 0
block 0 mask 00000000
R[0] read G[5] N[0,0]
W[0] write G[5]
N[0] addi 1 N[1,0]
N[1] mov N[2,0] W[0]
N[2] tlti 2 N[3,0]
N[3] mov N[4,p] N[5,p]
N[4] bro_t 0 @0
N[5] bro_f 1 @1
block 1 mask 00000000
W[0] write G[0]
N[0] genu 3 W[0]
N[1] scall 0
";

/// The second block divides by what the first one wrote, which is 0 from its second turn on.
const FAULT: &str = "trips 1
data 0
block 0 mask 00000000
R[0] read G[6] N[0,0]
W[0] write G[5]
N[0] teqi 0 W[0]
N[1] bro 0 @1
block 1 mask 00000000
R[0] read G[5] N[1,1]
W[0] write G[6]
N[0] genu 7 N[1,0]
N[1] divu W[0]
N[2] bro 0 @0
";

/// How many lists are drawn for each image.
const LISTS: u64 = 200;

#[test]
fn lists_over_blocks_of_the_checker(rt: HostRuntime) -> Result<(), Fail> {
    assert_lists(&rt, rt.alloc(), RING, 6, LISTS)?;
    Ok(())
}

#[test]
fn lists_over_registers(rt: HostRuntime) -> Result<(), Fail> {
    assert_lists(&rt, rt.alloc(), PAIR, 100, LISTS)?;
    Ok(())
}

#[test]
fn lists_over_loads_and_stores(rt: HostRuntime) -> Result<(), Fail> {
    assert_lists(&rt, rt.alloc(), MEMORY, 100, LISTS)?;
    Ok(())
}

#[test]
fn lists_to_an_end(rt: HostRuntime) -> Result<(), Fail> {
    assert_lists(&rt, rt.alloc(), COUNTER, 100, LISTS)?;
    Ok(())
}

#[test]
fn lists_to_a_trap(rt: HostRuntime) -> Result<(), Fail> {
    assert_lists(&rt, rt.alloc(), FAULT, 100, LISTS)?;
    Ok(())
}
