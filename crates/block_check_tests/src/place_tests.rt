//! A block under either placing. The seed 1 moves the slots 0 to 3 to 48, 83, 74 and 39. By the greedy one the slot
//! that is read first goes to tile 1 beside the bank of register 5, and the others, each fed by the one before,
//! behind it on the same tile.

use crate::making::image_of;
use grid_place::{Placing, place};
use std::process::Abort;
use std::test::Fail;
use trips_isa::{Block, Inst, Op, Sense, Spot};

/// A number for the left operand of slot 1 and for the predicate of slot 3, and a read for slot 2.
const LINES: &str = "R[0] read G[5] N[2,0]
W[0] write G[7]
N[0] mov N[1,0] N[3,p]
N[1] mov N[3,0]
N[2] mov N[0,0]
N[3] mov_t W[0]
";

fn inst(sense: Sense, first: Spot, second: Option<Spot>) -> Inst {
    Inst {
        op: Op::Mov,
        sense,
        imm: 0,
        number: 0,
        first: Some(first),
        second,
    }
}

/// The block's instructions stand in these slots, and their targets name these.
fn assert_moved(rt: &impl Abort, block: &Block, slots: [u8; 4]) {
    let [zero, one, two, three] = slots;
    let rows = [
        (
            zero,
            inst(Sense::Always, Spot::Left(one), Some(Spot::Pred(three))),
        ),
        (one, inst(Sense::Always, Spot::Left(three), None)),
        (two, inst(Sense::Always, Spot::Left(zero), None)),
        (three, inst(Sense::OnTrue, Spot::Write(0), None)),
    ];
    for (slot, want) in rows {
        let found = block.insts.as_slice().get(slot as usize);
        assert!(rt; found == Some(&Some(want)), "slot {slot}");
    }
    for read in block.reads.as_slice() {
        assert!(rt; read.first == Spot::Left(two), "the read");
    }
    assert_eq!(rt; block.reads.len(), 1);
}

#[test]
fn moves_the_block(rt: HostRuntime) -> Result<(), Fail> {
    let alloc = rt.alloc();
    let image = image_of(alloc, 0, LINES)?;
    for block in image.blocks.as_slice() {
        let near = place(alloc, block, Placing::Greedy).expect(&rt, "memory");
        assert_moved(&rt, &near, [17, 33, 1, 49]);
        let moved = place(alloc, block, Placing::Seeded(1)).expect(&rt, "memory");
        assert_moved(&rt, &moved, [48, 83, 74, 39]);
    }
    Ok(())
}
