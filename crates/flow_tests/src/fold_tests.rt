//! Small blocks, and which guards and what writes take once copies are looked through.

use base::Items;
use flow_fold::fold;
use ir_forms::{FlowBlock, FlowNode, FlowSource, FlowWrite, Guard};
use std::alloc::Global;
use std::process::Abort;
use std::test::Fail;
use trips_isa::{Op, Sense};

/// A node of a block: its operation, guard and left operand, and the guard that it has at the end.
type Row = (Op, Option<Guard>, &'static [FlowSource], Option<Guard>);

const OFF_0: Option<Guard> = Some(Guard {
    node: 0,
    sense: Sense::OnFalse,
});

const OFF_1: Option<Guard> = Some(Guard {
    node: 1,
    sense: Sense::OnFalse,
});

const OFF_2: Option<Guard> = Some(Guard {
    node: 2,
    sense: Sense::OnFalse,
});

const OFF_3: Option<Guard> = Some(Guard {
    node: 3,
    sense: Sense::OnFalse,
});

const ON_0: Option<Guard> = Some(Guard {
    node: 0,
    sense: Sense::OnTrue,
});

const ON_1: Option<Guard> = Some(Guard {
    node: 1,
    sense: Sense::OnTrue,
});

const ON_2: Option<Guard> = Some(Guard {
    node: 2,
    sense: Sense::OnTrue,
});

const ON_3: Option<Guard> = Some(Guard {
    node: 3,
    sense: Sense::OnTrue,
});

const ON_4: Option<Guard> = Some(Guard {
    node: 4,
    sense: Sense::OnTrue,
});

const READ: &[FlowSource] = &[FlowSource::Read(1)];

const ZERO: &[FlowSource] = &[FlowSource::Node(0)];

const ONE: &[FlowSource] = &[FlowSource::Node(1)];

const TWO: &[FlowSource] = &[FlowSource::Node(2)];

const THREE: &[FlowSource] = &[FlowSource::Node(3)];

/// The guard of a node is what its copy copies; the write takes the sum itself.
const COPIED: &[Row] = &[
    (Op::Tlti, None, READ, None),
    (Op::Mov, None, ZERO, None),
    (Op::Addi, ON_1, READ, ON_0),
    (Op::Addi, OFF_1, READ, OFF_0),
];

/// A copy under the guard of what it copies fires with it, and so needs none.
const NESTED: &[Row] = &[
    (Op::Tlti, None, READ, None),
    (Op::Addi, ON_0, READ, ON_0),
    (Op::Tnei, OFF_0, READ, OFF_0),
    (Op::Mov, OFF_0, TWO, None),
    (Op::Addi, ON_3, READ, ON_2),
    (Op::Addi, OFF_3, READ, OFF_2),
];

/// A copy under a guard that what it copies does not have stays, and so does one of two sources.
const GATED: &[Row] = &[
    (Op::Tlti, None, READ, None),
    (Op::Tnei, None, READ, None),
    (Op::Mov, ON_0, ONE, ON_0),
    (Op::Tnei, OFF_0, READ, OFF_0),
    (
        Op::Mov,
        None,
        &[FlowSource::Node(2), FlowSource::Node(3)],
        None,
    ),
    (Op::Addi, ON_2, READ, ON_2),
    (Op::Addi, ON_4, READ, ON_4),
];

/// A sum of what a load under the same guard gives needs no guard; under the other sense, and of a read, it does.
const AWAITED: &[Row] = &[
    (Op::Tlti, None, READ, None),
    (Op::Ld, ON_0, READ, ON_0),
    (Op::Addi, None, ONE, None),
    (Op::Addi, ON_0, TWO, None),
    (Op::Addi, OFF_0, ONE, OFF_0),
    (Op::Addi, ON_0, READ, ON_0),
];

const BOTH: &[FlowSource] = &[FlowSource::Node(1), FlowSource::Node(2)];

/// The write takes what two legs give, not their join.
const JOINED: &[Row] = &[
    (Op::Tlti, None, READ, None),
    (Op::Addi, ON_0, READ, ON_0),
    (Op::Addi, OFF_0, READ, OFF_0),
    (Op::Mov, None, BOTH, None),
];

/// Where another node takes the join too the write takes it itself.
const JOINED_FOR_TWO: &[Row] = &[
    (Op::Tlti, None, READ, None),
    (Op::Addi, ON_0, READ, ON_0),
    (Op::Addi, OFF_0, READ, OFF_0),
    (Op::Mov, None, BOTH, None),
    (Op::Addi, None, THREE, None),
];

fn block(alloc: Global, rows: &[Row], written: &[FlowSource]) -> Result<FlowBlock, Fail> {
    let mut nodes = Items::new(alloc);
    for (op, guard, left, _last) in rows {
        nodes.push(FlowNode {
            op: *op,
            imm: 0,
            number: 0,
            guard: *guard,
            left: Items::from_slice(alloc, left)?,
            right: Items::new(alloc),
        })?;
    }
    let mut writes = Items::new(alloc);
    let sources = Items::from_slice(alloc, written)?;
    writes.push(FlowWrite {
        register: 2,
        sources,
    })?;
    let reads = Items::from_slice(alloc, &[1u8])?;
    Ok(FlowBlock {
        nodes,
        reads,
        writes,
        mask: 0,
    })
}

fn assert_folds(
    rt: &impl Abort,
    alloc: Global,
    name: &str,
    rows: &[Row],
    written: &[FlowSource],
    taken: &[FlowSource],
) -> Result<(), Fail> {
    match fold(alloc, block(alloc, rows, written)?) {
        Ok(given) => {
            let mut j = 0usize;
            for (_op, _guard, _left, last) in rows {
                match given.nodes.get(j) {
                    Some(n) => assert!(rt; n.guard == *last, "{name}: guard of node {j}"),
                    None => assert!(rt; false, "{name}: node {j} is there"),
                }
                j = j.saturating_add(1);
            }
            match given.writes.get(0) {
                Some(w) => assert!(rt; w.sources.as_slice() == taken, "{name}: the write"),
                None => assert!(rt; false, "{name}: the write is there"),
            }
        }
        Err(_) => assert!(rt; false, "{name}: there is memory"),
    }
    Ok(())
}

/// Guards and writes look through copies that give the very token, and a guard goes that a token is waited for.
#[test]
fn guards_and_writes_look_through_copies(rt: HostRuntime) -> Result<(), Fail> {
    let alloc = rt.alloc();
    let sums = [FlowSource::Node(2), FlowSource::Node(3)];
    assert_folds(&rt, alloc, "copied", COPIED, &sums, &sums)?;
    assert_folds(
        &rt,
        alloc,
        "a copy is written",
        COPIED,
        &[FlowSource::Node(1)],
        ZERO,
    )?;
    assert_folds(&rt, alloc, "nested", NESTED, THREE, TWO)?;
    assert_folds(&rt, alloc, "gated", GATED, TWO, TWO)?;
    assert_folds(&rt, alloc, "awaited", AWAITED, THREE, THREE)?;
    assert_folds(&rt, alloc, "joined", JOINED, THREE, BOTH)?;
    assert_folds(&rt, alloc, "joined for two", JOINED_FOR_TWO, THREE, THREE)?;
    Ok(())
}
