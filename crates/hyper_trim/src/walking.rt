//! Items without those that set what nobody reads, from the last to the first.
ghost use Rattle.std.specs.Prelude.{◌≡◌, true, OnOk, IfOk, reverse};
ghost use Rattle.ir_forms.specs.inside.HyperCode as code;
ghost use Rattle.ir_forms.specs.inside.HyperViews.{items_of, then_items};
ghost use Rattle.trips_isa.specs.Faults as faults;
ghost use Rattle.hyper_trim.specs.inside.Trim as spec;
ghost use Rattle.hyper_trim.specs.inside.Walked.{Holds};

use crate::sets::{bit, matters, read_by, without};
use base::{Items, Memory};
use ir_forms::{HyperItem, Source};
use std::alloc::Global;
use trips_isa::Op;

/// What is alive where the walk stands, whether an item behind it does something, and the items that it keeps, the
/// last first.
#[derive(Drop)]
pub struct Walk {
    pub live: u128,
    pub filled: bool,
    pub kept: Items<HyperItem>,
}

fn divides(op: Op) -> bool
    ensures { result ≡ faults.divides op }
{
    matches!(op, Op::Divs | Op::Divu)
}

/// Whether an item is dropped that sets a register.
fn drops(walk: &Walk, leg: bool, op: Op, to: u8) -> bool
    ensures { result ≡ spec.drops leg op to walk.now.live walk.now.filled }
{
    !divides(op) && !matters(walk.live, to) && (!leg || walk.filled)
}

fn before_set(
    walk: &mut Walk,
    leg: bool,
    to: u8,
    op: Op,
    a: Source,
    b: Source,
) -> Result<(), Memory>
    ensures { OnOk result ((t : spec.Trimmed) → Holds t walk.old
        → Holds (spec.set_before leg to op a b t) walk.new) }
{
    if drops(walk, leg, op, to) {
        return Ok(());
    }
    walk.kept.push(HyperItem::Set { to, op, a, b })?;
    walk.live = without(walk.live, bit(to)) | read_by(a) | read_by(b);
    walk.filled = true;
    Ok(())
}

fn before_load(walk: &mut Walk, to: u8, op: Op, address: Source) -> Result<(), Memory>
    ensures { OnOk result ((t : spec.Trimmed) → Holds t walk.old
        → Holds (spec.load_before to op address t) walk.new) }
{
    walk.kept.push(HyperItem::Load { to, op, address })?;
    walk.live = without(walk.live, bit(to)) | read_by(address);
    walk.filled = true;
    Ok(())
}

fn before_save(walk: &mut Walk, op: Op, address: Source, value: Source) -> Result<(), Memory>
    ensures { OnOk result ((t : spec.Trimmed) → Holds t walk.old
        → Holds (spec.save_before op address value t) walk.new) }
{
    walk.kept.push(HyperItem::Save { op, address, value })?;
    walk.live = walk.live | read_by(address) | read_by(value);
    walk.filled = true;
    Ok(())
}

/// Items in the other order.
pub fn turned(items: Items<HyperItem>) -> Items<HyperItem>
    ensures { result ≡ reverse items }
{
    let mut all = items.into_vec();
    all.reverse();
    Items::from_vec(all)
}

fn before_if(walk: &mut Walk, test: Source, one: Walk, other: Walk) -> Result<(), Memory>
    ensures { OnOk result ((t p q : spec.Trimmed) → Holds t walk.old → Holds p one → Holds q other
        → Holds (spec.if_before test p q t) walk.new) }
{
    let Walk {
        live: first,
        filled: _,
        kept: yes,
    } = one;
    let Walk {
        live: second,
        filled: _,
        kept: no,
    } = other;
    walk.kept.push(HyperItem::If {
        test,
        yes: turned(yes),
        no: turned(no),
    })?;
    walk.live = first | second | read_by(test);
    Ok(())
}

#[cycle(walk)]
fn walk_item(i: &HyperItem, walk: &mut Walk, alloc: Global, leg: bool) -> Result<(), Memory>
    ensures { OnOk result ((rest : code.Items) (t : spec.Trimmed)
        → Holds (spec.trim leg rest t) walk.old
        → Holds (spec.trim leg (then_items i.now rest) t) walk.new) }
{
    match i {
        HyperItem::Set { to, op, a, b } => {
            before_set(walk, leg, *to, *op, *a, *b)?;
            Ok(())
        }
        HyperItem::Load { to, op, address } => {
            before_load(walk, *to, *op, *address)?;
            Ok(())
        }
        HyperItem::Save { op, address, value } => {
            before_save(walk, *op, *address, *value)?;
            Ok(())
        }
        HyperItem::If { test, yes, no } => {
            let one = walked(yes.as_slice(), alloc, true, walk.live)?;
            let other = walked(no.as_slice(), alloc, true, walk.live)?;
            before_if(walk, *test, one, other)?;
            Ok(())
        }
    }
}

/// Items, behind which a set is alive.
#[cycle(walk)]
pub fn walked(items: &[HyperItem], alloc: Global, leg: bool, live: u128) -> Result<Walk, Memory>
    ensures { IfOk result (λ w. Holds (spec.trim leg (items_of items.now) (spec.ended live)) w) }
{
    let mut walk = Walk {
        live,
        filled: false,
        kept: Items::from_vec(Vec::with_capacity(alloc, items.len())?),
    };
    let mut at = items.len();
    while at > 0 {
        at -= 1;
        walk_item(&items[at], &mut walk, alloc, leg)?;
    }
    Ok(walk)
}

/// What is alive where a walk stands that keeps no items, and whether an item behind it does something.
#[derive(Clone, Copy)]
pub struct Seen {
    pub live: u128,
    pub filled: bool,
}

/// The same before an item that sets a register. Nothing is promised of it.
fn seen_set(behind: Seen, leg: bool, to: u8, op: Op, a: Source, b: Source) -> Seen {
    if !divides(op) && !matters(behind.live, to) && (!leg || behind.filled) {
        return behind;
    }
    Seen {
        live: without(behind.live, bit(to)) | read_by(a) | read_by(b),
        filled: true,
    }
}

/// The same before an item.
#[cycle(seen)]
fn seen_before(i: &HyperItem, leg: bool, behind: Seen) -> Seen {
    match i {
        HyperItem::Set { to, op, a, b } => seen_set(behind, leg, *to, *op, *a, *b),
        HyperItem::Load { to, address, .. } => Seen {
            live: without(behind.live, bit(*to)) | read_by(*address),
            filled: true,
        },
        HyperItem::Save { address, value, .. } => Seen {
            live: behind.live | read_by(*address) | read_by(*value),
            filled: true,
        },
        HyperItem::If { test, yes, no } => {
            let one = seen_through(yes.as_slice(), true, behind.live);
            let other = seen_through(no.as_slice(), true, behind.live);
            Seen {
                live: one.live | other.live | read_by(*test),
                filled: behind.filled,
            }
        }
    }
}

/// What a walk finds alive before items behind which a set is, the last first. It keeps no items.
#[cycle(seen)]
pub fn seen_through(items: &[HyperItem], leg: bool, live: u128) -> Seen {
    let mut seen = Seen {
        live,
        filled: false,
    };
    let count = items.len();
    for k in 0..count {
        seen = seen_before(&items[count - 1 - k], leg, seen);
    }
    seen
}
