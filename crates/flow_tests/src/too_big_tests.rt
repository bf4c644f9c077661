//! Blocks with as much of a part as a block may have, which are taken, and with one more, which are refused for that
//! part and its count; and that of two parts that are above their limits the first is said.

use crate::making::{fork, going_on, reg, save, set, whole};
use base::Items;
use hyper_narrow::NarrowedBlock;
use ir_forms::{Exit, FlowFault, HyperItem, Part, Tail};
use predication::{convert, labels_fit};
use std::alloc::Global;
use std::process::Abort;
use std::test::Fail;
use trips_isa::Op;

// One more of a part: a register that is read or written, a store, or an instruction.
fn item_of(part: Part, i: u8) -> HyperItem {
    match part {
        Part::Reads => set(100, Op::Mov, reg(i), reg(i)),
        Part::Writes => set(i, Op::Mov, reg(3), reg(3)),
        Part::Numbers => save(3, 4),
        Part::Insts | Part::Exits => set(5, Op::Mov, reg(3), reg(3)),
    }
}

fn items_of(alloc: Global, part: Part, count: u8) -> Result<Items<HyperItem>, Fail> {
    let mut items = Items::new(alloc);
    for i in 0..count {
        items.push(item_of(part, i))?;
    }
    Ok(items)
}

// Exits one after another, each by a test but the last.
fn exits(alloc: Global, count: u8) -> Result<NarrowedBlock, Fail> {
    let mut tail = Tail::Leave(Exit::Jump(7));
    for _i in 1..count {
        tail = fork(alloc, reg(3), Exit::Return, tail)?;
    }
    Ok(whole(Items::new(alloc), tail))
}

/// A block with so much of a part. The last of its instructions is its exit.
fn block_with(alloc: Global, part: Part, count: u8) -> Result<NarrowedBlock, Fail> {
    match part {
        Part::Exits => exits(alloc, count),
        Part::Insts => Ok(going_on(items_of(alloc, part, count.saturating_sub(1))?)),
        _ => Ok(going_on(items_of(alloc, part, count)?)),
    }
}

/// That a block is refused for a part.
fn assert_too_big(rt: &impl Abort, alloc: Global, block: &NarrowedBlock, part: Part, count: u8) {
    assert!(rt; labels_fit(&block.block.tail), "{part:?}: labels");
    match convert(alloc, block) {
        Ok(_) => assert!(rt; false, "{part:?}: {count} are taken"),
        Err(fault) => assert_eq!(rt; fault, FlowFault::TooBig(part, usize::from(count))),
    }
}

fn assert_taken(rt: &impl Abort, alloc: Global, block: &NarrowedBlock, part: Part, count: u8) {
    assert!(rt; labels_fit(&block.block.tail), "{part:?}: labels");
    assert!(rt;
        convert(alloc, block).is_ok(),
        "{part:?}: {count} are refused"
    );
}

// A part, and the most that a block has of it.
type Row = (Part, u8);

const ROWS: &[Row] = &[
    (Part::Insts, 128),
    (Part::Reads, 32),
    (Part::Writes, 32),
    (Part::Numbers, 32),
    (Part::Exits, 8),
];

fn assert_rows(rt: &impl Abort, alloc: Global, rows: &[Row]) -> Result<(), Fail> {
    for (part, most) in rows {
        let block = block_with(alloc, *part, *most)?;
        assert_taken(rt, alloc, &block, *part, *most);
        let more = most.saturating_add(1);
        let block = block_with(alloc, *part, more)?;
        assert_too_big(rt, alloc, &block, *part, more);
    }
    Ok(())
}

#[test]
fn limits_are_exact(rt: HostRuntime) -> Result<(), Fail> {
    assert_rows(&rt, rt.alloc(), ROWS)
}

// 33 reads and as many writes and stores: the reads are said.
#[test]
fn the_first_part_is_said(rt: HostRuntime) -> Result<(), Fail> {
    let alloc = rt.alloc();
    let mut items = Items::new(alloc);
    for i in 0u8..33 {
        items.push(set(i + 50, Op::Mov, reg(i), reg(i)))?;
        items.push(save(i, i))?;
    }
    assert_too_big(&rt, alloc, &going_on(items), Part::Reads, 33);
    Ok(())
}
