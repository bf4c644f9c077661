//! Small blocks, and which of their nodes are swept.

use crate::shown::shown;
use base::Items;
use flow_fold::sweep;
use ir_forms::{FlowBlock, FlowNode, FlowSource, FlowWrite, Guard};
use std::alloc::Global;
use std::process::Abort;
use std::test::Fail;
use trips_isa::{Op, Sense};

/// A node of a block: its operation, guard and operands.
type Row = (
    Op,
    Option<Guard>,
    &'static [FlowSource],
    &'static [FlowSource],
);

const BY_TWO: Option<Guard> = Some(Guard {
    node: 2,
    sense: Sense::OnTrue,
});

const NO: &[FlowSource] = &[];

const READ: &[FlowSource] = &[FlowSource::Read(1)];

const OTHER: &[FlowSource] = &[FlowSource::Read(3)];

const ZERO: &[FlowSource] = &[FlowSource::Node(0)];

const ONE: &[FlowSource] = &[FlowSource::Node(1)];

const TWO: &[FlowSource] = &[FlowSource::Node(2)];

/// A chain that nothing takes, before and behind a node that a write takes.
const CHAIN: &[Row] = &[
    (Op::Addi, None, READ, NO),
    (Op::Mul, None, ZERO, ZERO),
    (Op::Muli, None, OTHER, NO),
    (Op::Mul, None, ONE, TWO),
];

const SWEPT_CHAIN: &str = "Muli 0 #0 [ r3 ] [ ]\nread r1 r3\nwrite r2 [ n0 r1 ]\nmask 1\n";

/// What alone takes a register that is read stays, the last that does.
const READING: &[Row] = &[
    (Op::Addi, None, OTHER, NO),
    (Op::Muli, None, OTHER, NO),
    (Op::Andi, None, READ, NO),
];

const SWEPT_READING: &str =
    "Muli 0 #0 [ r3 ] [ ]\nAndi 0 #0 [ r1 ] [ ]\nread r1 r3\nwrite r2 [ n1 r1 ]\nmask 1\n";

/// Nodes that one below them takes stay, and so does what can fault; numbers of guards go down too.
const LATE: &[Row] = &[
    (Op::Addi, None, OTHER, NO),
    (Op::Sd, BY_TWO, TWO, READ),
    (Op::Teqi, None, READ, NO),
    (Op::Divu, None, READ, OTHER),
    (Op::Ld, None, READ, NO),
];

const SWEPT_LATE: &str = "Sd 0 #0 [ n1 ] [ r1 ] if n1 true\nTeqi 0 #0 [ r1 ] [ ]\n\
    Divu 0 #0 [ r1 ] [ r3 ]\nLd 0 #0 [ r1 ] [ ]\nread r1 r3\nwrite r2 [ n1 r1 ]\nmask 1\n";

fn block(alloc: Global, rows: &[Row]) -> Result<FlowBlock, Fail> {
    let mut nodes = Items::new(alloc);
    for (op, guard, left, right) in rows {
        nodes.push(FlowNode {
            op: *op,
            imm: 0,
            number: 0,
            guard: *guard,
            left: Items::from_slice(alloc, left)?,
            right: Items::from_slice(alloc, right)?,
        })?;
    }
    let mut writes = Items::new(alloc);
    let sources = Items::from_slice(alloc, &[FlowSource::Node(2), FlowSource::Read(1)])?;
    writes.push(FlowWrite {
        register: 2,
        sources,
    })?;
    let reads = Items::from_slice(alloc, &[1u8, 3u8])?;
    Ok(FlowBlock {
        nodes,
        reads,
        writes,
        mask: 1,
    })
}

fn assert_swept(
    rt: &impl Abort,
    alloc: Global,
    name: &str,
    rows: &[Row],
    expected: &str,
) -> Result<(), Fail> {
    match sweep(alloc, block(alloc, rows)?) {
        Ok(given) => {
            let text = shown(alloc, &given)?;
            assert!(rt; text.as_str() == expected, "{name}: {text}");
        }
        Err(_) => assert!(rt; false, "{name}: there is memory"),
    }
    Ok(())
}

/// Of each block the nodes stay that its text says.
#[test]
fn what_nothing_names_goes(rt: HostRuntime) -> Result<(), Fail> {
    let alloc = rt.alloc();
    assert_swept(&rt, alloc, "chain", CHAIN, SWEPT_CHAIN)?;
    assert_swept(&rt, alloc, "reading", READING, SWEPT_READING)?;
    assert_swept(&rt, alloc, "late", LATE, SWEPT_LATE)?;
    Ok(())
}
