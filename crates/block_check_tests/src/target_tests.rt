//! A flow block as a machine block: a constant with three consumers and a read that feeds a write go
//! through `mov`s, and of four consumers the one with the longest way on is fed by the result itself.

use base::Items;
use fan_out::target;
use ir_forms::{FlowBlock, FlowFault, FlowNode, FlowSource, FlowWrite};
use std::alloc::Global;
use std::process::Abort;
use std::test::Fail;
use trips_isa::{Block, Inst, Op, Sense, Spot};

fn sources(alloc: Global, all: &[FlowSource]) -> Result<Items<FlowSource>, Fail> {
    let mut items = Items::new(alloc);
    for source in all {
        items.push(*source)?;
    }
    Ok(items)
}

fn node(
    alloc: Global,
    op: Op,
    imm: i32,
    left: &[FlowSource],
    right: &[FlowSource],
) -> Result<FlowNode, Fail> {
    let left = sources(alloc, left)?;
    let right = sources(alloc, right)?;
    Ok(FlowNode {
        op,
        imm,
        number: 0,
        guard: None,
        left,
        right,
    })
}

fn write(alloc: Global, register: u8, source: FlowSource) -> Result<FlowWrite, Fail> {
    let sources = sources(alloc, &[source])?;
    Ok(FlowWrite { register, sources })
}

/// A constant for an operand and two writes, a read for an operand and a write, and an exit.
fn small_block(alloc: Global) -> Result<FlowBlock, Fail> {
    let mut nodes = Items::new(alloc);
    nodes.push(node(alloc, Op::Genu, 5, &[], &[])?)?;
    nodes.push(node(
        alloc,
        Op::Add,
        0,
        &[FlowSource::Node(0)],
        &[FlowSource::Read(7)],
    )?)?;
    nodes.push(node(alloc, Op::Bro, 0, &[], &[])?)?;
    let mut reads = Items::new(alloc);
    reads.push(7u8)?;
    let mut writes = Items::new(alloc);
    writes.push(write(alloc, 3, FlowSource::Node(0))?)?;
    writes.push(write(alloc, 4, FlowSource::Node(0))?)?;
    writes.push(write(alloc, 5, FlowSource::Read(7))?)?;
    writes.push(write(alloc, 6, FlowSource::Node(1))?)?;
    Ok(FlowBlock {
        nodes,
        reads,
        writes,
        mask: 0,
    })
}

fn inst(op: Op, imm: i32, first: Option<Spot>, second: Option<Spot>) -> Inst {
    Inst {
        op,
        sense: Sense::Always,
        imm,
        number: 0,
        first,
        second,
    }
}

fn assert_slots(rt: &impl Abort, block: &Block) {
    let rows = [
        inst(Op::Genu, 5, Some(Spot::Left(4)), None),
        inst(Op::Add, 0, Some(Spot::Write(3)), None),
        inst(Op::Bro, 0, None, None),
        inst(Op::Mov, 0, Some(Spot::Right(1)), Some(Spot::Write(2))),
        inst(Op::Mov, 0, Some(Spot::Left(5)), Some(Spot::Left(1))),
        inst(Op::Mov, 0, Some(Spot::Write(0)), Some(Spot::Write(1))),
    ];
    for (slot, want) in rows.iter().enumerate() {
        let found = block.insts.as_slice().get(slot);
        assert!(rt; found == Some(&Some(*want)), "slot {slot}");
    }
    assert!(rt; block.insts.as_slice().get(6) == Some(&None), "slot 6");
    for read in block.reads.as_slice() {
        assert!(rt; read.first == Spot::Left(3), "the read");
    }
    assert_eq!(rt; block.reads.len(), 1);
    assert_eq!(rt; block.writes.len(), 4);
}

#[test]
fn gives_targets(rt: HostRuntime) -> Result<(), Fail> {
    let alloc = rt.alloc();
    let block = small_block(alloc)?;
    assert!(&rt; block.nodes.len() < 4096, "nodes");
    if block.nodes.len() < 4096 {
        match target(alloc, &block) {
            Ok(machine) => assert_slots(&rt, &machine),
            Err(FlowFault::TooBig(_, _)) => assert!(&rt; false, "it is small"),
            Err(FlowFault::Memory) => assert!(&rt; false, "memory"),
        }
    }
    Ok(())
}

/// A sum for four consumers, of which the last begins a chain of three nodes.
fn chain_block(alloc: Global) -> Result<FlowBlock, Fail> {
    let mut nodes = Items::new(alloc);
    nodes.push(node(
        alloc,
        Op::Add,
        0,
        &[FlowSource::Read(7)],
        &[FlowSource::Read(8)],
    )?)?;
    for from in [0u32, 0, 0, 0, 4, 5] {
        nodes.push(node(alloc, Op::Addi, 1, &[FlowSource::Node(from)], &[])?)?;
    }
    nodes.push(node(alloc, Op::Bro, 0, &[], &[])?)?;
    let mut reads = Items::new(alloc);
    reads.push(7u8)?;
    reads.push(8u8)?;
    let mut writes = Items::new(alloc);
    for from in [1u8, 2, 3, 6] {
        writes.push(write(alloc, from, FlowSource::Node(from as u32))?)?;
    }
    Ok(FlowBlock {
        nodes,
        reads,
        writes,
        mask: 0,
    })
}

fn assert_chain(rt: &impl Abort, block: &Block) {
    let rows = [
        inst(Op::Add, 0, Some(Spot::Left(4)), Some(Spot::Left(8))),
        inst(Op::Addi, 1, Some(Spot::Write(0)), None),
        inst(Op::Addi, 1, Some(Spot::Write(1)), None),
        inst(Op::Addi, 1, Some(Spot::Write(2)), None),
        inst(Op::Addi, 1, Some(Spot::Left(5)), None),
        inst(Op::Addi, 1, Some(Spot::Left(6)), None),
        inst(Op::Addi, 1, Some(Spot::Write(3)), None),
        inst(Op::Bro, 0, None, None),
        inst(Op::Mov, 0, Some(Spot::Left(9)), Some(Spot::Left(1))),
        inst(Op::Mov, 0, Some(Spot::Left(2)), Some(Spot::Left(3))),
    ];
    for (slot, want) in rows.iter().enumerate() {
        let found = block.insts.as_slice().get(slot);
        assert!(rt; found == Some(&Some(*want)), "slot {slot} of the chain");
    }
}

#[test]
fn feeds_the_longest_way_first(rt: HostRuntime) -> Result<(), Fail> {
    let alloc = rt.alloc();
    let block = chain_block(alloc)?;
    assert!(&rt; block.nodes.len() < 4096, "nodes");
    if block.nodes.len() < 4096 {
        match target(alloc, &block) {
            Ok(machine) => assert_chain(&rt, &machine),
            Err(FlowFault::TooBig(_, _)) => assert!(&rt; false, "it is small"),
            Err(FlowFault::Memory) => assert!(&rt; false, "memory"),
        }
    }
    Ok(())
}
