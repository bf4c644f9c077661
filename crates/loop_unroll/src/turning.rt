//! A turn, and more turns where the test behind it leads on.

ghost use Rattle.std.specs.Prelude.{◌≡◌, ◌||◌, true, false, IfOk};
ghost use Rattle.ir_forms.specs.inside.HyperCode as code;
ghost use Rattle.ir_forms.specs.inside.HyperCode.{Done, If};
ghost use Rattle.ir_forms.specs.inside.HyperViews.{items_of, then_items};
ghost use Rattle.loop_unroll.specs.inside.Unrolled as spec;

use crate::copying::{copy_item, copy_items};
use crate::loops::Loop;
use base::{Items, Memory};
use ir_forms::{HyperItem, Source};
use std::alloc::Global;

/// Whether an item sets a register.
#[cycle(sets)]
fn item_sets(register: u8, item: &HyperItem) -> bool
    ensures { (rest : code.Items) → spec.sets register (then_items item.now rest)
        ≡ (result || spec.sets register rest) }
{
    match item {
        HyperItem::Set { to, .. } => register == *to,
        HyperItem::Load { to, .. } => register == *to,
        HyperItem::Save { .. } => false,
        HyperItem::If { yes, no, .. } => {
            sets(register, yes.as_slice()) || sets(register, no.as_slice())
        }
    }
}

/// Whether items set a register.
#[cycle(sets)]
pub fn sets(register: u8, items: &[HyperItem]) -> bool
    ensures { result ≡ spec.sets register (items_of items.now) }
{
    for item in items {
        if item_sets(register, item) {
            return true;
        }
    }
    false
}

/// Whether an if tests the register of a test, and neither of its legs sets it.
fn keeps_test(test: Source, of: Source, yes: &[HyperItem], no: &[HyperItem]) -> bool
    ensures { result ≡ spec.keeps_test test of (items_of yes.now) (items_of no.now) }
{
    match test {
        Source::Const(_) => false,
        Source::Reg(register) => match of {
            Source::Const(_) => false,
            Source::Reg(other) => {
                register == other && (!sets(register, yes) && !sets(register, no))
            }
        },
    }
}

/// Items that are done where a test leads that way.
fn leg(alloc: Global, around: Loop, items: Items<HyperItem>) -> HyperItem
    ensures { then_items result Done ≡ spec.leg around.way around.test (items_of items) }
{
    let Loop { test, way } = around;
    if way {
        HyperItem::If {
            test,
            yes: items,
            no: Items::new(alloc),
        }
    } else {
        HyperItem::If {
            test,
            yes: Items::new(alloc),
            no: items,
        }
    }
}

/// An if with more items at the end of its first leg.
fn in_first(
    alloc: Global,
    test: Source,
    yes: &[HyperItem],
    no: &[HyperItem],
    more: Items<HyperItem>,
) -> Result<HyperItem, Memory>
    ensures { IfOk result (λ i. then_items i Done
        ≡ spec.in_leg true test (items_of yes.now) (items_of no.now) (items_of more)) }
{
    let mut all = copy_items(alloc, yes)?;
    let no = copy_items(alloc, no)?;
    all.append(more)?;
    Ok(HyperItem::If { test, yes: all, no })
}

/// An if with more items at the end of its second leg.
fn in_second(
    alloc: Global,
    test: Source,
    yes: &[HyperItem],
    no: &[HyperItem],
    more: Items<HyperItem>,
) -> Result<HyperItem, Memory>
    ensures { IfOk result (λ i. then_items i Done
        ≡ spec.in_leg false test (items_of yes.now) (items_of no.now) (items_of more)) }
{
    let yes = copy_items(alloc, yes)?;
    let mut all = copy_items(alloc, no)?;
    all.append(more)?;
    Ok(HyperItem::If { test, yes, no: all })
}

/// An if with more items at the end of the leg that is done where its test leads that way.
fn in_leg(
    alloc: Global,
    way: bool,
    test: Source,
    yes: &[HyperItem],
    no: &[HyperItem],
    more: Items<HyperItem>,
) -> Result<HyperItem, Memory>
    ensures { IfOk result (λ i. then_items i Done
        ≡ spec.in_leg way test (items_of yes.now) (items_of no.now) (items_of more)) }
{
    if way {
        in_first(alloc, test, yes, no, more)
    } else {
        in_second(alloc, test, yes, no, more)
    }
}

/// Items, and an if with more at the end of a leg.
fn put_in(
    alloc: Global,
    way: bool,
    first: Items<HyperItem>,
    test: Source,
    yes: &[HyperItem],
    no: &[HyperItem],
    more: Items<HyperItem>,
) -> Result<Items<HyperItem>, Memory>
    ensures { IfOk result (λ all. items_of all ≡ spec.before (items_of first)
        (spec.in_leg way test (items_of yes.now) (items_of no.now) (items_of more))) }
{
    let item = in_leg(alloc, way, test, yes, no, more)?;
    let mut all = first;
    all.push(item)?;
    Ok(all)
}

/// Items, an item, and more behind it where a test leads that way.
fn put_behind(
    alloc: Global,
    around: Loop,
    first: Items<HyperItem>,
    last: &HyperItem,
    more: Items<HyperItem>,
) -> Result<Items<HyperItem>, Memory>
    ensures { IfOk result (λ all. items_of all ≡ spec.before (items_of first)
        (then_items last.now (spec.leg around.way around.test (items_of more)))) }
{
    let item = copy_item(alloc, last)?;
    let mut all = first;
    all.push(item)?;
    all.push(leg(alloc, around, more))?;
    Ok(all)
}

/// Items, an if, and more where a test leads that way: at the end of its leg, or behind it.
fn put_if(
    alloc: Global,
    around: Loop,
    first: Items<HyperItem>,
    last: &HyperItem,
    of: Source,
    yes: &[HyperItem],
    no: &[HyperItem],
    more: Items<HyperItem>,
) -> Result<Items<HyperItem>, Memory>
    requires is { (rest : code.Items) → then_items last.now rest
        ≡ If of (items_of yes.now) (items_of no.now) rest }
    ensures { IfOk result (λ all. items_of all ≡ spec.before (items_of first)
        (spec.and_more around.way around.test (then_items last.now Done) (items_of more))) }
{
    if keeps_test(around.test, of, yes, no) {
        put_in(alloc, around.way, first, of, yes, no, more)
    } else {
        put_behind(alloc, around, first, last, more)
    }
}

/// Items, an item, and more where a test leads that way: at the end of its leg, or behind it.
fn put_last(
    alloc: Global,
    around: Loop,
    first: Items<HyperItem>,
    last: &HyperItem,
    more: Items<HyperItem>,
) -> Result<Items<HyperItem>, Memory>
    ensures { IfOk result (λ all. items_of all ≡ spec.before (items_of first)
        (spec.and_more around.way around.test (then_items last.now Done) (items_of more))) }
{
    match last {
        HyperItem::Set { .. } => put_behind(alloc, around, first, last, more),
        HyperItem::Load { .. } => put_behind(alloc, around, first, last, more),
        HyperItem::Save { .. } => put_behind(alloc, around, first, last, more),
        HyperItem::If { test, yes, no } => put_if(
            alloc,
            around,
            first,
            last,
            *test,
            yes.as_slice(),
            no.as_slice(),
            more,
        ),
    }
}

/// Items alone that are done where a test leads that way.
fn alone(alloc: Global, around: Loop, more: Items<HyperItem>) -> Result<Items<HyperItem>, Memory>
    ensures { IfOk result (λ all. items_of all ≡ spec.leg around.way around.test (items_of more)) }
{
    let mut all = Items::new(alloc);
    all.push(leg(alloc, around, more))?;
    Ok(all)
}

/// Items, and more where a test behind them leads that way.
fn and_more(
    alloc: Global,
    around: Loop,
    items: &[HyperItem],
    more: Items<HyperItem>,
) -> Result<Items<HyperItem>, Memory>
    ensures { IfOk result (λ all. items_of all
        ≡ spec.and_more around.way around.test (items_of items.now) (items_of more)) }
{
    let mut turn = copy_items(alloc, items)?;
    match turn.pop() {
        None => alone(alloc, around, more),
        Some(last) => put_last(alloc, around, turn, &last, more),
    }
}

/// A turn, and so many more, each where the test behind the one before it leads on.
pub fn turns(
    alloc: Global,
    around: Loop,
    items: &[HyperItem],
    more: u8,
) -> Result<Items<HyperItem>, Memory>
    ensures { IfOk result (λ all. items_of all
        ≡ spec.turns around.way around.test (items_of items.now) more) }
{
    let mut all = copy_items(alloc, items)?;
    for _copy in 0..more {
        all = and_more(alloc, around, items, all)?;
    }
    Ok(all)
}
