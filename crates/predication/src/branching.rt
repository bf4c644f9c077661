//! The nodes of items: of an if both legs one after the other, and then their end.
ghost use Rattle.std.specs.Prelude.{◌≡◌, OnOk};
ghost use Rattle.ir_forms.specs.inside.HyperCode as code;
ghost use Rattle.ir_forms.specs.inside.HyperViews.{items_of, then_items};
ghost use Rattle.predication.specs.inside.Ends.{ends};

use crate::emitting::{load, save, set};
use crate::joining::{guard_of, meet};
use crate::naming::names_of_leg;
use crate::reading::tested;
use crate::work::{Names, Work};
use base::Memory;
use ir_forms::{Guard, HyperItem};
use std::alloc::Global;

// One item.
#[cycle(item)]
fn item(
    item: &HyperItem,
    alloc: Global,
    work: &mut Work,
    names: &mut Names,
    guard: Option<Guard>,
) -> Result<(), Memory>
    ensures { OnOk result ((rest : code.Items) → ends guard work.new names.new rest
        ≡ ends guard work.old names.old (then_items item.now rest)) }
{
    match item {
        HyperItem::Set { to, op, a, b } => {
            set(alloc, work, names, guard, *to, *op, *a, *b)?;
            Ok(())
        }
        HyperItem::Load { to, op, address } => {
            load(alloc, work, names, guard, *to, *op, *address)?;
            Ok(())
        }
        HyperItem::Save { op, address, value } => {
            save(alloc, work, names, guard, *op, *address, *value)?;
            Ok(())
        }
        HyperItem::If { test, yes, no } => {
            let at = tested(alloc, work, names, guard, *test)?;
            let mut first = names_of_leg(alloc, names.entries.as_slice())?;
            items(
                yes.as_slice(),
                alloc,
                work,
                &mut first,
                Some(guard_of(at, true)),
            )?;
            let mut second = names_of_leg(alloc, names.entries.as_slice())?;
            items(
                no.as_slice(),
                alloc,
                work,
                &mut second,
                Some(guard_of(at, false)),
            )?;
            meet(alloc, work, at, names, &first, &second)?;
            Ok(())
        }
    }
}

/// Items, one after another.
#[cycle(item)]
pub fn items(
    items: &[HyperItem],
    alloc: Global,
    work: &mut Work,
    names: &mut Names,
    guard: Option<Guard>,
) -> Result<(), Memory>
    ensures { OnOk result (ends guard work.new names.new code.Done
        ≡ ends guard work.old names.old (items_of items.now)) }
{
    for i in items {
        item(i, alloc, work, names, guard)?;
    }
    Ok(())
}
