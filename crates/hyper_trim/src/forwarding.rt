//! Copies and constants forwarded inside a block.
ghost use Rattle.std.specs.Prelude.{◌≡◌, OnOk, IfOk, map, not, ◌&&◌};
ghost use Rattle.ir_forms.specs.inside.HyperCode as code;
ghost use Rattle.ir_forms.specs.inside.HyperViews.{items_of, then_items, tail_of};
ghost use Rattle.hyper_trim.specs.inside.Forward as spec;
ghost use Rattle.hyper_trim.specs.inside.Entries as list;
ghost use Rattle.hyper_trim.specs.inside.Entries.{copies_of, forgotten};

use base::{Boxed, Items, Memory};
use ir_forms::{HyperItem, Source, Tail};
use std::alloc::Global;
use trips_isa::Op;

/// A register, and a source that has its word.
#[derive(Clone, Copy, Debug, PartialEq, Eq)]
pub struct Entry {
    pub register: u8,
    pub source: Source,
}

fn source_of(entries: &[Entry], r: u8) -> Source
    ensures { result ≡ copies_of entries.now r }
{
    let mut source = Source::Reg(r);
    for e in entries {
        if r == e.register {
            source = e.source;
        }
    }
    source
}

fn source_in(entries: &[Entry], x: Source) -> Source
    ensures { result ≡ spec.source_in (copies_of entries.now) x }
{
    match x {
        Source::Const(w) => Source::Const(w),
        Source::Reg(r) => source_of(entries, r),
    }
}

fn reads(to: u8, x: Source) -> bool
    ensures { result ≡ spec.reads to x }
{
    match x {
        Source::Const(_) => false,
        Source::Reg(r) => r == to,
    }
}

/// Whether an entry is of a register, or of one that has its word.
fn is_known(e: Entry, to: u8) -> bool
    ensures { result ≡ list.is_known to e }
{
    e.register == to || reads(to, e.source)
}

/// Whether an entry of some is.
fn any_known(entries: &[Entry], to: u8) -> bool
    ensures { result ≡ list.any_known to entries.now }
{
    for e in entries {
        if is_known(*e, to) {
            return true;
        }
    }
    false
}

fn forgotten_entry(e: Entry, to: u8) -> Entry
    ensures { result ≡ forgotten to e }
{
    if is_known(e, to) {
        Entry {
            register: e.register,
            source: Source::Reg(e.register),
        }
    } else {
        e
    }
}

fn forgotten_entries(alloc: Global, entries: &[Entry], to: u8) -> Result<Items<Entry>, Memory>
    ensures { IfOk result (λ all. all ≡ map (forgotten to) entries.now) }
{
    let mut all = Items::from_vec(Vec::with_capacity(alloc, entries.len())?);
    for e in entries {
        all.push(forgotten_entry(*e, to))?;
    }
    Ok(all)
}

/// Behind an item that sets a register. Where nothing is known of it nothing changes.
fn forget(alloc: Global, entries: &mut Items<Entry>, to: u8) -> Result<(), Memory>
    ensures { OnOk result (copies_of entries.new ≡ spec.forget to (copies_of entries.old)) }
{
    if !any_known(entries.as_slice(), to) {
        return Ok(());
    }
    let all = forgotten_entries(alloc, entries.as_slice(), to)?;
    *entries = all;
    Ok(())
}

fn is_mov(op: Op) -> bool
    ensures { result ≡ spec.is_mov op }
{
    matches!(op, Op::Mov)
}

/// Whether a register has the word of a source behind an item that sets it.
fn remembers(op: Op, to: u8, s: Source) -> bool
    ensures { result ≡ (spec.is_mov op && not (spec.reads to s)) }
{
    is_mov(op) && !reads(to, s)
}

fn behind_set(
    alloc: Global,
    entries: &mut Items<Entry>,
    op: Op,
    to: u8,
    s: Source,
) -> Result<(), Memory>
    ensures { OnOk result (copies_of entries.new ≡ spec.behind_set op to s (copies_of entries.old)) }
{
    forget(alloc, entries, to)?;
    if remembers(op, to, s) {
        entries.push(Entry {
            register: to,
            source: s,
        })?;
    }
    Ok(())
}

#[cycle(forget)]
fn forget_item(i: &HyperItem, alloc: Global, entries: &mut Items<Entry>) -> Result<(), Memory>
    ensures { OnOk result ((rest : code.Items) → spec.forget_all rest (copies_of entries.new)
        ≡ spec.forget_all (then_items i.now rest) (copies_of entries.old)) }
{
    match i {
        HyperItem::Set { to, .. } => {
            forget(alloc, entries, *to)?;
            Ok(())
        }
        HyperItem::Load { to, .. } => {
            forget(alloc, entries, *to)?;
            Ok(())
        }
        HyperItem::Save { .. } => Ok(()),
        HyperItem::If { yes, no, .. } => {
            forget_all(yes.as_slice(), alloc, entries)?;
            forget_all(no.as_slice(), alloc, entries)?;
            Ok(())
        }
    }
}

#[cycle(forget)]
fn forget_all(items: &[HyperItem], alloc: Global, entries: &mut Items<Entry>) -> Result<(), Memory>
    ensures { OnOk result (copies_of entries.new
        ≡ spec.forget_all (items_of items.now) (copies_of entries.old)) }
{
    for i in items {
        forget_item(i, alloc, entries)?;
    }
    Ok(())
}

#[cycle(forward)]
fn forward_item(
    i: &HyperItem,
    alloc: Global,
    entries: &mut Items<Entry>,
) -> Result<HyperItem, Memory>
    ensures items { IfOk result (λ j. (rest : code.Items)
        → then_items j (spec.forward rest (copies_of entries.new))
        ≡ spec.forward (then_items i.now rest) (copies_of entries.old)) }
    ensures behind { OnOk result ((rest : code.Items) → spec.behind rest (copies_of entries.new)
        ≡ spec.behind (then_items i.now rest) (copies_of entries.old)) }
{
    match i {
        HyperItem::Set { to, op, a, b } => {
            let a = source_in(entries.as_slice(), *a);
            let b = source_in(entries.as_slice(), *b);
            behind_set(alloc, entries, *op, *to, a)?;
            Ok(HyperItem::Set {
                to: *to,
                op: *op,
                a,
                b,
            })
        }
        HyperItem::Load { to, op, address } => {
            let address = source_in(entries.as_slice(), *address);
            forget(alloc, entries, *to)?;
            Ok(HyperItem::Load {
                to: *to,
                op: *op,
                address,
            })
        }
        HyperItem::Save { op, address, value } => Ok(HyperItem::Save {
            op: *op,
            address: source_in(entries.as_slice(), *address),
            value: source_in(entries.as_slice(), *value),
        }),
        HyperItem::If { test, yes, no } => {
            let test = source_in(entries.as_slice(), *test);
            let mut first = Items::from_slice(alloc, entries.as_slice())?;
            let one = forward_items(yes.as_slice(), alloc, &mut first)?;
            let mut second = Items::from_slice(alloc, entries.as_slice())?;
            let other = forward_items(no.as_slice(), alloc, &mut second)?;
            forget_all(yes.as_slice(), alloc, entries)?;
            forget_all(no.as_slice(), alloc, entries)?;
            Ok(HyperItem::If {
                test,
                yes: one,
                no: other,
            })
        }
    }
}

/// Items whose operands are forwarded, and what is known behind them.
#[cycle(forward)]
pub fn forward_items(
    items: &[HyperItem],
    alloc: Global,
    entries: &mut Items<Entry>,
) -> Result<Items<HyperItem>, Memory>
    ensures items { IfOk result (λ all. items_of all
        ≡ spec.forward (items_of items.now) (copies_of entries.old)) }
    ensures behind { OnOk result (copies_of entries.new
        ≡ spec.behind (items_of items.now) (copies_of entries.old)) }
{
    let mut all = Items::from_vec(Vec::with_capacity(alloc, items.len())?);
    for i in items {
        all.push(forward_item(i, alloc, entries)?)?;
    }
    Ok(all)
}

/// A tail whose tests are forwarded.
pub fn forward_tail(tail: Tail, alloc: Global, entries: &[Entry]) -> Result<Tail, Memory>
    ensures { IfOk result (λ t. tail_of t ≡ spec.forward_tail (tail_of tail) (copies_of entries.now)) }
{
    match tail {
        Tail::Leave(exit) => Ok(Tail::Leave(exit)),
        Tail::Test { test, yes, no } => {
            let one = forward_tail(yes.into_inner(), alloc, entries)?;
            let other = forward_tail(no.into_inner(), alloc, entries)?;
            Ok(Tail::Test {
                test: source_in(entries, test),
                yes: Boxed::new(alloc, one)?,
                no: Boxed::new(alloc, other)?,
            })
        }
    }
}
