//! Small blocks, and which nodes add at once what they add to a sum.

use base::Items;
use flow_fold::fold;
use ir_forms::{FlowBlock, FlowNode, FlowSource, FlowWrite, Guard};
use std::alloc::Global;
use std::process::Abort;
use std::test::Fail;
use trips_isa::{Op, Sense};

/// A node of a block: its operation, immediate, guard and operands.
type Row = (
    Op,
    i32,
    Option<Guard>,
    &'static [FlowSource],
    &'static [FlowSource],
);

/// The operation, the immediate and the left operand that it has at the end.
type Last = (Op, i32, &'static [FlowSource]);

const ON_0: Option<Guard> = Some(Guard {
    node: 0,
    sense: Sense::OnTrue,
});

const NONE: &[FlowSource] = &[];

const READ: &[FlowSource] = &[FlowSource::Read(1)];

const ZERO: &[FlowSource] = &[FlowSource::Node(0)];

const ONE: &[FlowSource] = &[FlowSource::Node(1)];

const TWO: &[FlowSource] = &[FlowSource::Node(2)];

const BOTH: &[FlowSource] = &[FlowSource::Node(1), FlowSource::Node(2)];

/// Turns of a counter that each add the constant 3 to what several take.
const COUNTED: &[Row] = &[
    (Op::Genu, 3, None, NONE, NONE),
    (Op::Add, 0, None, READ, ZERO),
    (Op::Add, 0, None, ONE, ZERO),
    (Op::Add, 0, None, TWO, ZERO),
    (Op::Mul, 0, None, ONE, TWO),
];

const COUNTED_LAST: &[Last] = &[
    (Op::Genu, 3, NONE),
    (Op::Add, 0, READ),
    (Op::Addi, 6, READ),
    (Op::Addi, 9, READ),
    (Op::Mul, 0, ONE),
];

/// What subtracts a number adds another.
const SUBTRACTED: &[Row] = &[
    (Op::Genu, 5, None, NONE, NONE),
    (Op::Sub, 0, None, READ, ZERO),
    (Op::Sub, 0, None, ONE, ZERO),
    (Op::Mul, 0, None, ONE, ONE),
    (Op::Addi, 7, None, TWO, NONE),
];

const SUBTRACTED_LAST: &[Last] = &[
    (Op::Genu, 5, NONE),
    (Op::Sub, 0, READ),
    (Op::Addi, -10, READ),
    (Op::Mul, 0, ONE),
    (Op::Addi, -3, READ),
];

/// A sum that nine bits do not hold is made in two steps.
const WIDE: &[Row] = &[
    (Op::Addi, 200, None, READ, NONE),
    (Op::Addi, 55, None, ZERO, NONE),
    (Op::Addi, 1, None, ONE, NONE),
];

const WIDE_LAST: &[Last] = &[
    (Op::Addi, 200, READ),
    (Op::Addi, 255, READ),
    (Op::Addi, 1, ONE),
];

/// A sum under a guard is looked through under the same guard alone, and a sum of a join is not.
const GUARDED: &[Row] = &[
    (Op::Tlti, 9, None, READ, NONE),
    (Op::Addi, 1, ON_0, READ, NONE),
    (Op::Addi, 2, ON_0, ONE, NONE),
    (Op::Addi, 4, None, ONE, NONE),
    (Op::Addi, 8, None, BOTH, NONE),
    (Op::Addi, 16, None, &[FlowSource::Node(4)], NONE),
];

const GUARDED_LAST: &[Last] = &[
    (Op::Tlti, 9, READ),
    (Op::Addi, 1, READ),
    (Op::Addi, 3, READ),
    (Op::Addi, 4, ONE),
    (Op::Addi, 8, BOTH),
    (Op::Addi, 16, &[FlowSource::Node(4)]),
];

fn block(alloc: Global, rows: &[Row]) -> Result<FlowBlock, Fail> {
    let mut nodes = Items::new(alloc);
    for (op, imm, guard, left, right) in rows {
        nodes.push(FlowNode {
            op: *op,
            imm: *imm,
            number: 0,
            guard: *guard,
            left: Items::from_slice(alloc, left)?,
            right: Items::from_slice(alloc, right)?,
        })?;
    }
    let mut writes = Items::new(alloc);
    let sources = Items::from_slice(alloc, READ)?;
    writes.push(FlowWrite {
        register: 2,
        sources,
    })?;
    let reads = Items::from_slice(alloc, &[1u8])?;
    Ok(FlowBlock {
        nodes,
        reads,
        writes,
        mask: 0,
    })
}

fn assert_adds(
    rt: &impl Abort,
    alloc: Global,
    name: &str,
    rows: &[Row],
    last: &[Last],
) -> Result<(), Fail> {
    match fold(alloc, block(alloc, rows)?) {
        Ok(given) => {
            let mut j = 0usize;
            for (op, imm, left) in last {
                match given.nodes.get(j) {
                    Some(n) => {
                        assert!(rt; n.op == *op, "{name}: operation of node {j}");
                        assert!(rt; n.imm == *imm, "{name}: immediate of node {j}");
                        assert!(rt; n.left.as_slice() == *left, "{name}: left of node {j}");
                    }
                    None => assert!(rt; false, "{name}: node {j} is there"),
                }
                j = j.saturating_add(1);
            }
        }
        Err(_) => assert!(rt; false, "{name}: there is memory"),
    }
    Ok(())
}

/// What is added to a sum is added at once, where both are small and their sum is, and both fire.
#[test]
fn sums_of_sums_are_one(rt: HostRuntime) -> Result<(), Fail> {
    let alloc = rt.alloc();
    assert_adds(&rt, alloc, "counted", COUNTED, COUNTED_LAST)?;
    assert_adds(&rt, alloc, "subtracted", SUBTRACTED, SUBTRACTED_LAST)?;
    assert_adds(&rt, alloc, "wide", WIDE, WIDE_LAST)?;
    assert_adds(&rt, alloc, "guarded", GUARDED, GUARDED_LAST)?;
    Ok(())
}
