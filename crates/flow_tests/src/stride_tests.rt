//! Small blocks, and which nodes add to what others give.

use base::Items;
use flow_fold::stride;
use ir_forms::{FlowBlock, FlowNode, FlowSource, FlowWrite, Guard};
use std::alloc::Global;
use std::process::Abort;
use std::test::Fail;
use trips_isa::{Op, Sense};

/// A node of a block: its operation, immediate, guard and operands.
type Row = (
    Op,
    i32,
    Option<Guard>,
    &'static [FlowSource],
    &'static [FlowSource],
);

/// The operation, the immediate and the left operand that it has at the end.
type Last = (Op, i32, &'static [FlowSource]);

const ON_0: Option<Guard> = Some(Guard {
    node: 0,
    sense: Sense::OnTrue,
});

const OFF_0: Option<Guard> = Some(Guard {
    node: 0,
    sense: Sense::OnFalse,
});

const NONE: &[FlowSource] = &[];

const READ: &[FlowSource] = &[FlowSource::Read(1)];

const BASE: &[FlowSource] = &[FlowSource::Read(3)];

const ZERO: &[FlowSource] = &[FlowSource::Node(0)];

const ONE: &[FlowSource] = &[FlowSource::Node(1)];

const TWO: &[FlowSource] = &[FlowSource::Node(2)];

const THREE: &[FlowSource] = &[FlowSource::Node(3)];

const FOUR: &[FlowSource] = &[FlowSource::Node(4)];

const FIVE: &[FlowSource] = &[FlowSource::Node(5)];

const SIX: &[FlowSource] = &[FlowSource::Node(6)];

/// Two turns of a loop over an array behind a large constant, which stands twice: one address, and an offset.
const TURNS: &[Row] = &[
    (Op::Slli, 3, None, READ, NONE),
    (Op::Addi, 1, None, READ, NONE),
    (Op::Slli, 3, None, ONE, NONE),
    (Op::Genu, 5000, None, NONE, NONE),
    (Op::Add, 0, None, ZERO, THREE),
    (Op::Genu, 5000, None, NONE, NONE),
    (Op::Add, 0, None, TWO, FIVE),
    (Op::Ld, 0, None, SIX, NONE),
];

const TURNS_LAST: &[Last] = &[
    (Op::Slli, 3, READ),
    (Op::Addi, 1, READ),
    (Op::Addi, 8, ZERO),
    (Op::Genu, 5000, NONE),
    (Op::Add, 0, ZERO),
    (Op::Mov, 0, THREE),
    (Op::Addi, 8, FOUR),
    (Op::Ld, 8, FOUR),
];

/// A base that comes later, a number that is subtracted, and a sum with the number at its right.
const LATER: &[Row] = &[
    (Op::Subi, 2, None, READ, NONE),
    (Op::Slli, 2, None, ZERO, NONE),
    (Op::Slli, 2, None, READ, NONE),
    (Op::Add, 0, None, BASE, ONE),
    (Op::Add, 0, None, BASE, TWO),
    (Op::Lws, 4, None, THREE, NONE),
];

const LATER_LAST: &[Last] = &[
    (Op::Subi, 2, READ),
    (Op::Addi, -8, TWO),
    (Op::Slli, 2, READ),
    (Op::Addi, -8, FOUR),
    (Op::Add, 0, BASE),
    (Op::Lws, -4, FOUR),
];

/// A multiple that nine bits do not hold stays, and so does one of another number.
const WIDE: &[Row] = &[
    (Op::Addi, 32, None, READ, NONE),
    (Op::Slli, 3, None, READ, NONE),
    (Op::Slli, 3, None, ZERO, NONE),
    (Op::Muli, 7, None, READ, NONE),
    (Op::Muli, 7, None, ZERO, NONE),
    (Op::Muli, 6, None, ZERO, NONE),
];

const WIDE_LAST: &[Last] = &[
    (Op::Addi, 32, READ),
    (Op::Slli, 3, READ),
    (Op::Slli, 3, ZERO),
    (Op::Muli, 7, READ),
    (Op::Addi, 224, THREE),
    (Op::Muli, 6, ZERO),
];

/// What another gives is taken where that fires too, under the same guard or under none.
const GUARDED: &[Row] = &[
    (Op::Tlti, 9, None, READ, NONE),
    (Op::Addi, 1, None, READ, NONE),
    (Op::Slli, 1, ON_0, READ, NONE),
    (Op::Slli, 1, ON_0, ONE, NONE),
    (Op::Slli, 1, OFF_0, ONE, NONE),
    (Op::Slli, 1, None, ONE, NONE),
];

const GUARDED_LAST: &[Last] = &[
    (Op::Tlti, 9, READ),
    (Op::Addi, 1, READ),
    (Op::Slli, 1, READ),
    (Op::Addi, 2, TWO),
    (Op::Slli, 1, ONE),
    (Op::Slli, 1, ONE),
];

fn block(alloc: Global, rows: &[Row]) -> Result<FlowBlock, Fail> {
    let mut nodes = Items::new(alloc);
    for (op, imm, guard, left, right) in rows {
        nodes.push(FlowNode {
            op: *op,
            imm: *imm,
            number: 0,
            guard: *guard,
            left: Items::from_slice(alloc, left)?,
            right: Items::from_slice(alloc, right)?,
        })?;
    }
    let mut writes = Items::new(alloc);
    let sources = Items::from_slice(alloc, READ)?;
    writes.push(FlowWrite {
        register: 2,
        sources,
    })?;
    let reads = Items::from_slice(alloc, &[1u8, 3u8])?;
    Ok(FlowBlock {
        nodes,
        reads,
        writes,
        mask: 0,
    })
}

fn assert_strides(
    rt: &impl Abort,
    alloc: Global,
    name: &str,
    rows: &[Row],
    last: &[Last],
) -> Result<(), Fail> {
    match stride(alloc, block(alloc, rows)?) {
        Ok(given) => {
            let mut j = 0usize;
            for (op, imm, left) in last {
                match given.nodes.get(j) {
                    Some(n) => {
                        assert!(rt; n.op == *op, "{name}: operation of node {j}");
                        assert!(rt; n.imm == *imm, "{name}: immediate of node {j}");
                        assert!(rt; n.left.as_slice() == *left, "{name}: left of node {j}");
                    }
                    None => assert!(rt; false, "{name}: node {j} is there"),
                }
                j = j.saturating_add(1);
            }
        }
        Err(_) => assert!(rt; false, "{name}: there is memory"),
    }
    Ok(())
}

/// What is a small number ahead of another adds it to the other, where that fires too.
#[test]
fn turns_share_an_address(rt: HostRuntime) -> Result<(), Fail> {
    let alloc = rt.alloc();
    assert_strides(&rt, alloc, "turns", TURNS, TURNS_LAST)?;
    assert_strides(&rt, alloc, "later", LATER, LATER_LAST)?;
    assert_strides(&rt, alloc, "wide", WIDE, WIDE_LAST)?;
    assert_strides(&rt, alloc, "guarded", GUARDED, GUARDED_LAST)?;
    Ok(())
}
