//! Small blocks, and which nodes take a constant from their left, test the other way, or become a constant.

use base::Items;
use flow_fold::fold;
use ir_forms::{FlowBlock, FlowNode, FlowSource, FlowWrite, Guard};
use std::alloc::Global;
use std::process::Abort;
use std::test::Fail;
use trips_isa::{Op, Sense};

/// A node of a block: its operation, immediate, guard and operands.
type Row = (
    Op,
    i32,
    Option<Guard>,
    &'static [FlowSource],
    &'static [FlowSource],
);

/// The operation, the immediate and the operands that it has at the end.
type Last = (Op, i32, &'static [FlowSource], &'static [FlowSource]);

const ON_0: Option<Guard> = Some(Guard {
    node: 0,
    sense: Sense::OnTrue,
});

const NONE: &[FlowSource] = &[];

const READ: &[FlowSource] = &[FlowSource::Read(1)];

const OTHER: &[FlowSource] = &[FlowSource::Read(3)];

const ZERO: &[FlowSource] = &[FlowSource::Node(0)];

const ONE: &[FlowSource] = &[FlowSource::Node(1)];

const TWO: &[FlowSource] = &[FlowSource::Node(2)];

/// The constant 5 at the left: of a sum and a test, which take it the other way round, and of a difference.
const MIRRORED: &[Row] = &[
    (Op::Genu, 5, None, NONE, NONE),
    (Op::Add, 0, None, ZERO, READ),
    (Op::Tlt, 0, None, ZERO, READ),
    (Op::Tgeu, 0, None, ZERO, READ),
    (Op::Sub, 0, None, ZERO, READ),
];

const MIRRORED_LAST: &[Last] = &[
    (Op::Genu, 5, NONE, NONE),
    (Op::Addi, 5, READ, NONE),
    (Op::Tgti, 5, READ, NONE),
    (Op::Tleui, 5, READ, NONE),
    (Op::Sub, 0, ZERO, READ),
];

/// A constant that nine bits do not hold stays at the left.
const WIDE: &[Row] = &[
    (Op::Genu, 256, None, NONE, NONE),
    (Op::Add, 0, None, ZERO, READ),
];

const WIDE_LAST: &[Last] = &[(Op::Genu, 256, NONE, NONE), (Op::Add, 0, ZERO, READ)];

/// Whether a test does not hold, of two operands and of one; whether it is 1 is no such test.
const OPPOSED: &[Row] = &[
    (Op::Tlt, 0, None, READ, OTHER),
    (Op::Teqi, 0, None, ZERO, NONE),
    (Op::Tleui, 9, None, READ, NONE),
    (Op::Teqi, 0, None, TWO, NONE),
    (Op::Teqi, 1, None, TWO, NONE),
];

const OPPOSED_LAST: &[Last] = &[
    (Op::Tlt, 0, READ, OTHER),
    (Op::Tge, 0, READ, OTHER),
    (Op::Tleui, 9, READ, NONE),
    (Op::Tgtui, 9, READ, NONE),
    (Op::Teqi, 1, TWO, NONE),
];

/// A test under a guard is tested the other way under the same guard alone.
const GUARDED: &[Row] = &[
    (Op::Tlti, 9, None, READ, NONE),
    (Op::Teqi, 3, ON_0, READ, NONE),
    (Op::Teqi, 0, None, ONE, NONE),
    (Op::Teqi, 0, ON_0, ONE, NONE),
];

const GUARDED_LAST: &[Last] = &[
    (Op::Tlti, 9, READ, NONE),
    (Op::Teqi, 3, READ, NONE),
    (Op::Teqi, 0, ONE, NONE),
    (Op::Tnei, 3, READ, NONE),
];

/// What is computed of constants alone, where a `gens` holds it and nothing guards it.
const COMPUTED: &[Row] = &[
    (Op::Genu, 7, None, NONE, NONE),
    (Op::Addi, 3, None, ZERO, NONE),
    (Op::Subi, 20, None, ONE, NONE),
    (Op::Tlti, -9, None, TWO, NONE),
    (Op::Slli, 12, None, ZERO, NONE),
    (Op::Slli, 13, None, ZERO, NONE),
    (Op::Addi, 1, ON_0, ZERO, NONE),
];

const COMPUTED_LAST: &[Last] = &[
    (Op::Genu, 7, NONE, NONE),
    (Op::Gens, 10, NONE, NONE),
    (Op::Gens, -10, NONE, NONE),
    (Op::Gens, 1, NONE, NONE),
    (Op::Gens, 28672, NONE, NONE),
    (Op::Slli, 13, ZERO, NONE),
    (Op::Addi, 1, ZERO, NONE),
];

fn block(alloc: Global, rows: &[Row]) -> Result<FlowBlock, Fail> {
    let mut nodes = Items::new(alloc);
    for (op, imm, guard, left, right) in rows {
        nodes.push(FlowNode {
            op: *op,
            imm: *imm,
            number: 0,
            guard: *guard,
            left: Items::from_slice(alloc, left)?,
            right: Items::from_slice(alloc, right)?,
        })?;
    }
    let mut writes = Items::new(alloc);
    let sources = Items::from_slice(alloc, READ)?;
    writes.push(FlowWrite {
        register: 2,
        sources,
    })?;
    let reads = Items::from_slice(alloc, &[1u8, 3u8])?;
    Ok(FlowBlock {
        nodes,
        reads,
        writes,
        mask: 0,
    })
}

fn assert_turns(
    rt: &impl Abort,
    alloc: Global,
    name: &str,
    rows: &[Row],
    last: &[Last],
) -> Result<(), Fail> {
    match fold(alloc, block(alloc, rows)?) {
        Ok(given) => {
            let mut j = 0usize;
            for (op, imm, left, right) in last {
                match given.nodes.get(j) {
                    Some(n) => {
                        assert!(rt; n.op == *op, "{name}: operation of node {j}");
                        assert!(rt; n.imm == *imm, "{name}: immediate of node {j}");
                        assert!(rt; n.left.as_slice() == *left, "{name}: left of node {j}");
                        assert!(rt; n.right.as_slice() == *right, "{name}: right of node {j}");
                    }
                    None => assert!(rt; false, "{name}: node {j} is there"),
                }
                j = j.saturating_add(1);
            }
        }
        Err(_) => assert!(rt; false, "{name}: there is memory"),
    }
    Ok(())
}

/// A constant at the left moves into the immediate of the mirrored operation.
#[test]
fn constants_move_from_the_left(rt: HostRuntime) -> Result<(), Fail> {
    let alloc = rt.alloc();
    assert_turns(&rt, alloc, "mirrored", MIRRORED, MIRRORED_LAST)?;
    assert_turns(&rt, alloc, "wide", WIDE, WIDE_LAST)?;
    Ok(())
}

/// Whether a test does not hold is the opposite test, where it fires.
#[test]
fn tests_of_tests_are_opposite_tests(rt: HostRuntime) -> Result<(), Fail> {
    let alloc = rt.alloc();
    assert_turns(&rt, alloc, "opposed", OPPOSED, OPPOSED_LAST)?;
    assert_turns(&rt, alloc, "guarded", GUARDED, GUARDED_LAST)?;
    Ok(())
}

/// What is computed of constants alone is a constant.
#[test]
fn operations_on_constants_are_constants(rt: HostRuntime) -> Result<(), Fail> {
    let alloc = rt.alloc();
    assert_turns(&rt, alloc, "computed", COMPUTED, COMPUTED_LAST)?;
    Ok(())
}
