//! Copies of items and ends.

ghost use Rattle.std.specs.Prelude.{◌≡◌, IfOk};

use base::{Boxed, Items, Memory};
use ir_forms::{HyperItem, Tail};
use std::alloc::Global;

/// A copy of an item. Want of memory is the only error.
#[cycle(copy)]
pub fn copy_item(alloc: Global, item: &HyperItem) -> Result<HyperItem, Memory>
    ensures { IfOk result (λ copy. copy ≡ item.now) }
{
    match item {
        HyperItem::Set { to, op, a, b } => Ok(HyperItem::Set {
            to: *to,
            op: *op,
            a: *a,
            b: *b,
        }),
        HyperItem::Load { to, op, address } => Ok(HyperItem::Load {
            to: *to,
            op: *op,
            address: *address,
        }),
        HyperItem::Save { op, address, value } => Ok(HyperItem::Save {
            op: *op,
            address: *address,
            value: *value,
        }),
        HyperItem::If { test, yes, no } => {
            let yes = copy_items(alloc, yes.as_slice())?;
            let no = copy_items(alloc, no.as_slice())?;
            Ok(HyperItem::If {
                test: *test,
                yes,
                no,
            })
        }
    }
}

/// A copy of items, in order. Want of memory is the only error.
#[cycle(copy)]
pub fn copy_items(alloc: Global, items: &[HyperItem]) -> Result<Items<HyperItem>, Memory>
    ensures { IfOk result (λ copy. copy ≡ items.now) }
{
    let mut copy = Items::new(alloc);
    for item in items {
        copy.push(copy_item(alloc, item)?)?;
    }
    Ok(copy)
}

/// A copy of an end. Want of memory is the only error.
#[cycle(copy_tail)]
pub fn copy_tail(alloc: Global, tail: &Tail) -> Result<Tail, Memory>
    ensures { IfOk result (λ copy. copy ≡ tail.now) }
{
    match tail {
        Tail::Leave(exit) => Ok(Tail::Leave(*exit)),
        Tail::Test { test, yes, no } => {
            let yes = copy_tail(alloc, yes.get())?;
            let no = copy_tail(alloc, no.get())?;
            Ok(Tail::Test {
                test: *test,
                yes: Boxed::new(alloc, yes)?,
                no: Boxed::new(alloc, no)?,
            })
        }
    }
}
