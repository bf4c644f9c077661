//! Small blocks, and which of their nodes keep their guards.

use base::Items;
use flow_guards::unguard;
use ir_forms::{FlowBlock, FlowNode, FlowSource, FlowWrite, Guard};
use std::alloc::Global;
use std::process::Abort;
use std::test::Fail;
use trips_isa::{Op, Sense};

/// A node of a block: its operation, guard and operands, and whether it has its guard at the end.
type Row = (
    Op,
    Option<Guard>,
    &'static [FlowSource],
    &'static [FlowSource],
    bool,
);

const ON: Option<Guard> = Some(Guard {
    node: 0,
    sense: Sense::OnTrue,
});

const OFF: Option<Guard> = Some(Guard {
    node: 0,
    sense: Sense::OnFalse,
});

const INNER: Option<Guard> = Some(Guard {
    node: 1,
    sense: Sense::OnFalse,
});

const READ: &[FlowSource] = &[FlowSource::Read(1)];

const NO: &[FlowSource] = &[];

const ONE: &[FlowSource] = &[FlowSource::Node(1)];

const TWO: &[FlowSource] = &[FlowSource::Node(2)];

const BOTH: &[FlowSource] = &[FlowSource::Node(1), FlowSource::Node(2)];

/// A chain that ends at a store: the store alone waits.
const CHAIN: &[Row] = &[
    (Op::Tnei, None, READ, NO, false),
    (Op::Addi, ON, READ, NO, false),
    (Op::Mul, ON, ONE, ONE, false),
    (Op::Sd, ON, TWO, ONE, true),
];

/// What an inner leg takes, and its test, by which others fire.
const NESTED: &[Row] = &[
    (Op::Tnei, None, READ, NO, false),
    (Op::Tnei, ON, READ, NO, true),
    (Op::Addi, ON, READ, NO, false),
    (Op::Sd, INNER, TWO, TWO, true),
];

/// Two legs that meet: each keeps its guard, and what takes both has none.
const JOINED: &[Row] = &[
    (Op::Tnei, None, READ, NO, false),
    (Op::Addi, ON, READ, NO, true),
    (Op::Addi, OFF, READ, NO, true),
    (Op::Sd, None, BOTH, BOTH, true),
];

/// A division and a load can fault.
const FAULTS: &[Row] = &[
    (Op::Tnei, None, READ, NO, false),
    (Op::Divu, ON, READ, READ, true),
    (Op::Ld, ON, READ, NO, true),
    (Op::Sd, ON, ONE, TWO, true),
];

/// What a node under another guard takes, and what a write takes.
const SEEN: &[Row] = &[
    (Op::Tnei, None, READ, NO, false),
    (Op::Addi, ON, READ, NO, true),
    (Op::Addi, ON, READ, NO, true),
    (Op::Sd, OFF, ONE, READ, true),
];

/// What a copy under its guard alone takes: the copy can go, where a write takes it.
const COPIED: &[Row] = &[
    (Op::Tnei, None, READ, NO, false),
    (Op::Addi, ON, READ, NO, true),
    (Op::Mov, ON, ONE, NO, true),
    (Op::Sd, None, READ, READ, true),
];

/// What another node takes too waits for no test.
const SHARED: &[Row] = &[
    (Op::Tnei, None, READ, NO, false),
    (Op::Addi, ON, READ, NO, false),
    (Op::Mov, ON, ONE, NO, true),
    (Op::Sd, ON, ONE, READ, true),
];

fn block(alloc: Global, rows: &[Row], written: &[FlowSource]) -> Result<FlowBlock, Fail> {
    let mut nodes = Items::new(alloc);
    for (op, guard, left, right, _guarded) in rows {
        nodes.push(FlowNode {
            op: *op,
            imm: 0,
            number: 0,
            guard: *guard,
            left: Items::from_slice(alloc, left)?,
            right: Items::from_slice(alloc, right)?,
        })?;
    }
    let mut writes = Items::new(alloc);
    let sources = Items::from_slice(alloc, written)?;
    writes.push(FlowWrite {
        register: 2,
        sources,
    })?;
    let reads = Items::from_slice(alloc, &[1u8])?;
    Ok(FlowBlock {
        nodes,
        reads,
        writes,
        mask: 1,
    })
}

fn assert_guards(
    rt: &impl Abort,
    alloc: Global,
    name: &str,
    rows: &[Row],
    written: &[FlowSource],
) -> Result<(), Fail> {
    match unguard(alloc, block(alloc, rows, written)?) {
        Ok(given) => {
            let mut j = 0usize;
            for (_op, had, _left, _right, guarded) in rows {
                let guard = if *guarded { *had } else { None };
                match given.nodes.get(j) {
                    Some(n) => assert!(rt; n.guard == guard, "{name}: guard of node {j}"),
                    None => assert!(rt; false, "{name}: node {j} is there"),
                }
                j = j.saturating_add(1);
            }
        }
        Err(_) => assert!(rt; false, "{name}: there is memory"),
    }
    Ok(())
}

/// Each block keeps the guards that its rows say.
#[test]
fn guards_stay_where_they_are_needed(rt: HostRuntime) -> Result<(), Fail> {
    let alloc = rt.alloc();
    assert_guards(&rt, alloc, "chain", CHAIN, READ)?;
    assert_guards(&rt, alloc, "nested", NESTED, READ)?;
    assert_guards(&rt, alloc, "joined", JOINED, READ)?;
    assert_guards(&rt, alloc, "faults", FAULTS, READ)?;
    assert_guards(&rt, alloc, "seen", SEEN, TWO)?;
    assert_guards(&rt, alloc, "copied", COPIED, TWO)?;
    assert_guards(&rt, alloc, "shared", SHARED, TWO)?;
    Ok(())
}
