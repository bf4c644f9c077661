//! Completed blocks: what is added where a write or a store stands in a leg, and a block that grows
//! too big.

use base::Items;
use ir_forms::{FlowBlock, FlowFault, FlowNode, FlowSource, FlowWrite, Guard, Part};
use null_outputs::complete;
use std::alloc::Global;
use std::process::Abort;
use std::test::Fail;
use trips_isa::{Op, Sense};

/// Where node `node` has a bit, by the sense.
fn under(node: u32, sense: Sense) -> Option<Guard> {
    Some(Guard { node, sense })
}

fn push(
    nodes: &mut Items<FlowNode>,
    alloc: Global,
    op: Op,
    guard: Option<Guard>,
    left: &[FlowSource],
    right: &[FlowSource],
) -> Result<(), Fail> {
    let left = Items::from_slice(alloc, left)?;
    let right = Items::from_slice(alloc, right)?;
    nodes.push(FlowNode {
        op,
        imm: 0,
        number: 0,
        guard,
        left,
        right,
    })?;
    Ok(())
}

/// A block that writes register 2 from these sources, if there are any.
fn block(
    alloc: Global,
    nodes: Items<FlowNode>,
    written: &[FlowSource],
    mask: u32,
) -> Result<FlowBlock, Fail> {
    let reads = Items::from_slice(alloc, &[1u8, 3])?;
    let mut writes = Items::new(alloc);
    if !written.is_empty() {
        let sources = Items::from_slice(alloc, written)?;
        writes.push(FlowWrite {
            register: 2,
            sources,
        })?;
    }
    Ok(FlowBlock {
        nodes,
        reads,
        writes,
        mask,
    })
}

/// A test of register 1, which guards what follows, and an exit.
fn tested(alloc: Global, op: Op, right: &[FlowSource]) -> Result<Items<FlowNode>, Fail> {
    let mut nodes = Items::new(alloc);
    push(
        &mut nodes,
        alloc,
        Op::Tnei,
        None,
        &[FlowSource::Read(1)],
        &[],
    )?;
    push(
        &mut nodes,
        alloc,
        op,
        under(0, Sense::OnTrue),
        &[FlowSource::Read(1)],
        right,
    )?;
    push(&mut nodes, alloc, Op::Bro, None, &[], &[])?;
    Ok(nodes)
}

fn assert_node(
    rt: &impl Abort,
    block: &FlowBlock,
    at: usize,
    op: Op,
    guard: Option<Guard>,
    left: &[FlowSource],
    right: &[FlowSource],
) {
    match block.nodes.get(at) {
        Some(n) => {
            assert!(rt; n.op == op, "operation of node {at}");
            assert!(rt; n.guard == guard, "guard of node {at}");
            assert!(rt; n.left.as_slice() == left, "left of node {at}");
            assert!(rt; n.right.as_slice() == right, "right of node {at}");
        }
        None => assert!(rt; false, "node {at} is there"),
    }
}

fn assert_written(rt: &impl Abort, block: &FlowBlock, sources: &[FlowSource]) {
    match block.writes.get(0) {
        Some(w) => assert!(rt; w.sources.as_slice() == sources, "sources of the write"),
        None => assert!(rt; false, "the write is there"),
    }
}

/// Register 2 is set in one leg: a null on the other.
#[test]
fn one_leg_gets_a_null(rt: HostRuntime) -> Result<(), Fail> {
    let alloc = rt.alloc();
    let nodes = tested(alloc, Op::Divu, &[FlowSource::Read(3)])?;
    match complete(alloc, block(alloc, nodes, &[FlowSource::Node(1)], 0)?) {
        Ok(c) => {
            assert_eq!(&rt; c.nodes.len(), 4);
            assert_node(&rt, &c, 3, Op::Null, under(0, Sense::OnFalse), &[], &[]);
            assert_written(&rt, &c, &[FlowSource::Node(1), FlowSource::Node(3)]);
        }
        Err(_) => assert!(&rt; false, "it is small"),
    }
    Ok(())
}

/// Both legs set register 2, so nothing is added.
#[test]
fn both_legs_stay(rt: HostRuntime) -> Result<(), Fail> {
    let alloc = rt.alloc();
    let mut nodes = tested(alloc, Op::Divu, &[FlowSource::Read(3)])?;
    push(
        &mut nodes,
        alloc,
        Op::Mov,
        under(0, Sense::OnFalse),
        &[FlowSource::Read(3)],
        &[],
    )?;
    let written = [FlowSource::Node(1), FlowSource::Node(3)];
    match complete(alloc, block(alloc, nodes, &written, 0)?) {
        Ok(c) => {
            assert_eq!(&rt; c.nodes.len(), 4);
            assert_written(&rt, &c, &written);
        }
        Err(_) => assert!(&rt; false, "it is small"),
    }
    Ok(())
}

/// Register 2 is set in a leg of a leg: a null where the inner test fails, and one where it is not made.
#[test]
fn nested_legs_get_nulls(rt: HostRuntime) -> Result<(), Fail> {
    let alloc = rt.alloc();
    let mut nodes = tested(alloc, Op::Tnei, &[])?;
    push(
        &mut nodes,
        alloc,
        Op::Addi,
        under(1, Sense::OnTrue),
        &[FlowSource::Read(1)],
        &[],
    )?;
    match complete(alloc, block(alloc, nodes, &[FlowSource::Node(3)], 0)?) {
        Ok(c) => {
            assert_eq!(&rt; c.nodes.len(), 7);
            assert_node(&rt, &c, 4, Op::Null, under(0, Sense::OnFalse), &[], &[]);
            let both = [FlowSource::Node(6), FlowSource::Node(4)];
            assert_node(&rt, &c, 5, Op::Mov, None, &both, &[]);
            assert_node(&rt, &c, 6, Op::Null, under(1, Sense::OnFalse), &[], &[]);
            assert_written(&rt, &c, &[FlowSource::Node(3), FlowSource::Node(5)]);
        }
        Err(_) => assert!(&rt; false, "it is small"),
    }
    Ok(())
}

/// Number 0 is stored in one leg, and number 1 nowhere: a null store of each.
#[test]
fn stores_get_null_stores(rt: HostRuntime) -> Result<(), Fail> {
    let alloc = rt.alloc();
    let nodes = tested(alloc, Op::Sd, &[FlowSource::Read(3)])?;
    match complete(alloc, block(alloc, nodes, &[], 3)?) {
        Ok(c) => {
            assert_eq!(&rt; c.nodes.len(), 7);
            assert_node(&rt, &c, 3, Op::Null, under(0, Sense::OnFalse), &[], &[]);
            let leg = [FlowSource::Node(3)];
            assert_node(&rt, &c, 4, Op::Sb, None, &leg, &leg);
            let always = [FlowSource::Node(6)];
            assert_node(&rt, &c, 5, Op::Sb, None, &always, &always);
            assert_node(&rt, &c, 6, Op::Null, None, &[], &[]);
            match c.nodes.get(5) {
                Some(n) => assert_eq!(&rt; n.number, 1),
                None => assert!(&rt; false, "node 5 is there"),
            }
        }
        Err(_) => assert!(&rt; false, "it is small"),
    }
    Ok(())
}

/// A hundred nodes and two for each of 32 numbers without a store.
#[test]
fn large_blocks_are_refused(rt: HostRuntime) -> Result<(), Fail> {
    let alloc = rt.alloc();
    let mut nodes = Items::new(alloc);
    for _i in 0..100u8 {
        push(
            &mut nodes,
            alloc,
            Op::Tnei,
            None,
            &[FlowSource::Read(1)],
            &[],
        )?;
    }
    match complete(alloc, block(alloc, nodes, &[], u32::MAX)?) {
        Ok(_) => assert!(&rt; false, "it is large"),
        Err(fault) => assert!(&rt; fault == FlowFault::TooBig(Part::Insts, 164), "the count"),
    }
    Ok(())
}
