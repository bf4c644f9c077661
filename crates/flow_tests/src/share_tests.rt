//! Small blocks, and which of their nodes become copies of others.

use base::Items;
use flow_fold::share;
use ir_forms::{FlowBlock, FlowNode, FlowSource, FlowWrite, Guard};
use std::alloc::Global;
use std::process::Abort;
use std::test::Fail;
use trips_isa::{Op, Sense};

/// A node of a block: its operation, immediate, guard and operands, and the operation and the left operand that it has
/// at the end.
type Row = (
    Op,
    i32,
    Option<Guard>,
    &'static [FlowSource],
    &'static [FlowSource],
    Op,
    &'static [FlowSource],
);

const ON: Option<Guard> = Some(Guard {
    node: 0,
    sense: Sense::OnTrue,
});

const OFF: Option<Guard> = Some(Guard {
    node: 0,
    sense: Sense::OnFalse,
});

const READ: &[FlowSource] = &[FlowSource::Read(1)];

const NO: &[FlowSource] = &[];

const ZERO: &[FlowSource] = &[FlowSource::Node(0)];

const ONE: &[FlowSource] = &[FlowSource::Node(1)];

const TWO: &[FlowSource] = &[FlowSource::Node(2)];

const THREE: &[FlowSource] = &[FlowSource::Node(3)];

/// Two sums by constants that stand twice: the second is a copy, and its constant too.
const SUMS: &[Row] = &[
    (Op::Genu, 500, None, NO, NO, Op::Genu, NO),
    (Op::Add, 0, None, READ, ZERO, Op::Add, READ),
    (Op::Genu, 500, None, NO, NO, Op::Mov, ZERO),
    (Op::Add, 0, None, READ, TWO, Op::Mov, ONE),
    (Op::Sd, 0, None, THREE, ONE, Op::Sd, ONE),
];

/// What a copy's consumer takes is the node itself, so the consumer is a copy too.
const CHAIN: &[Row] = &[
    (Op::Addi, 1, None, READ, NO, Op::Addi, READ),
    (Op::Addi, 1, None, READ, NO, Op::Mov, ZERO),
    (Op::Mul, 0, None, ZERO, ZERO, Op::Mul, ZERO),
    (Op::Mul, 0, None, ONE, ONE, Op::Mov, TWO),
    (Op::Sd, 0, None, TWO, THREE, Op::Sd, TWO),
];

/// Under another guard, with another immediate, or with another source nothing is the same.
const APART: &[Row] = &[
    (Op::Tnei, 0, None, READ, NO, Op::Tnei, READ),
    (Op::Addi, 1, ON, READ, NO, Op::Addi, READ),
    (Op::Addi, 1, OFF, READ, NO, Op::Addi, READ),
    (Op::Addi, 2, ON, READ, NO, Op::Addi, READ),
    (Op::Addi, 1, ON, ZERO, NO, Op::Addi, ZERO),
    (Op::Sd, 0, ON, ONE, THREE, Op::Sd, ONE),
    (Op::Sd, 0, OFF, TWO, TWO, Op::Sd, TWO),
    (
        Op::Sd,
        0,
        ON,
        &[FlowSource::Node(4)],
        ONE,
        Op::Sd,
        &[FlowSource::Node(4)],
    ),
];

/// Under one guard, or under none, it is.
const UNDER: &[Row] = &[
    (Op::Tnei, 0, None, READ, NO, Op::Tnei, READ),
    (Op::Addi, 1, ON, READ, NO, Op::Addi, READ),
    (Op::Addi, 1, ON, READ, NO, Op::Mov, ONE),
    (Op::Sd, 0, ON, ONE, TWO, Op::Sd, ONE),
];

/// A store may stand between two loads; what is divided twice is divided once.
const FAULTS: &[Row] = &[
    (Op::Ld, 0, None, READ, NO, Op::Ld, READ),
    (Op::Ld, 0, None, READ, NO, Op::Ld, READ),
    (Op::Divu, 0, None, READ, READ, Op::Divu, READ),
    (Op::Divu, 0, None, READ, READ, Op::Mov, TWO),
    (Op::Sd, 0, None, ZERO, TWO, Op::Sd, ZERO),
    (Op::Sd, 0, None, ONE, THREE, Op::Sd, ONE),
];

/// A division copies an earlier one under its own guard or under none, also where something guarded otherwise takes
/// the copy.
const QUOTIENTS: &[Row] = &[
    (Op::Tnei, 0, None, READ, NO, Op::Tnei, READ),
    (Op::Divs, 0, ON, READ, READ, Op::Divs, READ),
    (Op::Divs, 0, ON, READ, READ, Op::Mov, ONE),
    (Op::Divu, 0, None, READ, ZERO, Op::Divu, READ),
    (Op::Divu, 0, OFF, READ, ZERO, Op::Mov, THREE),
    (Op::Sd, 0, ON, TWO, ONE, Op::Sd, ONE),
    (
        Op::Sd,
        0,
        None,
        &[FlowSource::Node(2), FlowSource::Node(4)],
        THREE,
        Op::Sd,
        &[FlowSource::Node(2), FlowSource::Node(4)],
    ),
];

/// Not under another guard, nor where the earlier one alone is guarded; not by another number, of another one, or with
/// another sign.
const DIVISIONS: &[Row] = &[
    (Op::Tnei, 0, None, READ, NO, Op::Tnei, READ),
    (Op::Divs, 0, ON, READ, READ, Op::Divs, READ),
    (Op::Divs, 0, OFF, READ, READ, Op::Divs, READ),
    (Op::Divs, 0, None, READ, READ, Op::Divs, READ),
    (Op::Divs, 0, ON, READ, ZERO, Op::Divs, READ),
    (Op::Divs, 0, ON, ZERO, READ, Op::Divs, ZERO),
    (Op::Divu, 0, ON, READ, READ, Op::Divu, READ),
    (
        Op::Sd,
        0,
        None,
        &[FlowSource::Node(1), FlowSource::Node(2)],
        THREE,
        Op::Sd,
        &[FlowSource::Node(1), FlowSource::Node(2)],
    ),
    (
        Op::Sd,
        0,
        ON,
        &[FlowSource::Node(4)],
        &[FlowSource::Node(5)],
        Op::Sd,
        &[FlowSource::Node(4)],
    ),
    (
        Op::Sd,
        0,
        ON,
        &[FlowSource::Node(6)],
        THREE,
        Op::Sd,
        &[FlowSource::Node(6)],
    ),
];

fn block(alloc: Global, rows: &[Row]) -> Result<FlowBlock, Fail> {
    let mut nodes = Items::new(alloc);
    for (op, imm, guard, left, right, _last, _taken) in rows {
        nodes.push(FlowNode {
            op: *op,
            imm: *imm,
            number: 0,
            guard: *guard,
            left: Items::from_slice(alloc, left)?,
            right: Items::from_slice(alloc, right)?,
        })?;
    }
    let mut writes = Items::new(alloc);
    let sources = Items::from_slice(alloc, READ)?;
    writes.push(FlowWrite {
        register: 2,
        sources,
    })?;
    let reads = Items::from_slice(alloc, &[1u8])?;
    Ok(FlowBlock {
        nodes,
        reads,
        writes,
        mask: 1,
    })
}

fn assert_shares(rt: &impl Abort, alloc: Global, name: &str, rows: &[Row]) -> Result<(), Fail> {
    match share(alloc, block(alloc, rows)?) {
        Ok(given) => {
            let mut j = 0usize;
            for (_op, _imm, _guard, _left, _right, last, taken) in rows {
                match given.nodes.get(j) {
                    Some(n) => {
                        assert!(rt; n.op == *last, "{name}: operation of node {j}");
                        assert!(rt;
                            n.left.as_slice() == *taken,
                            "{name}: left operand of node {j}"
                        );
                    }
                    None => assert!(rt; false, "{name}: node {j} is there"),
                }
                j = j.saturating_add(1);
            }
        }
        Err(_) => assert!(rt; false, "{name}: there is memory"),
    }
    Ok(())
}

/// Each node has the operation and the left operand that its row says.
#[test]
fn twins_become_copies(rt: HostRuntime) -> Result<(), Fail> {
    let alloc = rt.alloc();
    assert_shares(&rt, alloc, "sums", SUMS)?;
    assert_shares(&rt, alloc, "chain", CHAIN)?;
    assert_shares(&rt, alloc, "apart", APART)?;
    assert_shares(&rt, alloc, "under", UNDER)?;
    assert_shares(&rt, alloc, "faults", FAULTS)?;
    assert_shares(&rt, alloc, "quotients", QUOTIENTS)?;
    assert_shares(&rt, alloc, "divisions", DIVISIONS)?;
    Ok(())
}
