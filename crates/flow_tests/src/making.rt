//! Hyper blocks, part by part.

use base::{Boxed, Items};
use hyper_narrow::{Lasting, NarrowedBlock};
use ir_forms::{Exit, HyperBlock, HyperItem, Source, Tail};
use std::alloc::Global;
use std::test::Fail;
use trips_isa::Op;

/// A register as an operand.
pub fn reg(register: u8) -> Source {
    Source::Reg(register)
}

/// A register that becomes what an operation gives.
pub fn set(to: u8, op: Op, a: Source, b: Source) -> HyperItem {
    HyperItem::Set { to, op, a, b }
}

/// A store of eight bytes.
pub fn save(address: u8, value: u8) -> HyperItem {
    HyperItem::Save {
        op: Op::Sd,
        address: reg(address),
        value: reg(value),
    }
}

/// An if with at most one item in each leg.
pub fn either(
    alloc: Global,
    test: Source,
    yes: Option<HyperItem>,
    no: Option<HyperItem>,
) -> Result<HyperItem, Fail> {
    let yes = leg(alloc, yes)?;
    let no = leg(alloc, no)?;
    Ok(HyperItem::If { test, yes, no })
}

fn leg(alloc: Global, item: Option<HyperItem>) -> Result<Items<HyperItem>, Fail> {
    let mut items = Items::new(alloc);
    if let Some(item) = item {
        items.push(item)?;
    }
    Ok(items)
}

/// Two exits, by a test.
pub fn fork(alloc: Global, test: Source, yes: Exit, no: Tail) -> Result<Tail, Fail> {
    let yes = Boxed::new(alloc, Tail::Leave(yes))?;
    let no = Boxed::new(alloc, no)?;
    Ok(Tail::Test { test, yes, no })
}

/// A block that every register outlasts.
pub fn whole(items: Items<HyperItem>, tail: Tail) -> NarrowedBlock {
    NarrowedBlock {
        block: HyperBlock { items, tail },
        lasting: Lasting::Every,
    }
}

/// A block of these items that goes on to block 7.
pub fn going_on(items: Items<HyperItem>) -> NarrowedBlock {
    whole(items, Tail::Leave(Exit::Jump(7)))
}
