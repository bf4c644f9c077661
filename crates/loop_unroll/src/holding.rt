//! Turns before which each register that a turn sets is set to itself.

ghost use Rattle.std.specs.Prelude.{◌≡◌, cond, IfOk, OnOk};
ghost use Rattle.ir_forms.specs.declared.hyper.Source.TheVariants.{Const, Reg};
ghost use Rattle.ir_forms.specs.inside.HyperCode as code;
ghost use Rattle.ir_forms.specs.inside.HyperCode.{Set};
ghost use Rattle.ir_forms.specs.inside.HyperViews.{items_of};
ghost use Rattle.trips_isa.specs.declared.op.Op.TheVariants.{Mov};
ghost use Rattle.loop_unroll.specs.inside.Unrolled as spec;

use crate::loops::Loop;
use crate::turning::{sets, turns};
use base::{Items, Memory};
use ir_forms::{HyperItem, Source};
use std::alloc::Global;
use trips_isa::Op;

/// How many registers there are.
const REGISTERS: u8 = 128;

/// A register is set to itself at the end, where items set it.
fn hold(items: &[HyperItem], register: u8, all: &mut Items<HyperItem>) -> Result<(), Memory>
    ensures { OnOk result ((k : code.Items) → spec.before (items_of all.new) k
        ≡ spec.before (items_of all.old) (cond (spec.sets register (items_of items.now))
        (Set register Mov (Reg register) (Const 0) k) k)) }
{
    if sets(register, items) {
        all.push(HyperItem::Set {
            to: register,
            op: Op::Mov,
            a: Source::Reg(register),
            b: Source::Const(0),
        })?;
    }
    Ok(())
}

/// Each register that items set, set to itself.
fn held(alloc: Global, items: &[HyperItem]) -> Result<Items<HyperItem>, Memory>
    ensures { IfOk result (λ all. (k : code.Items) → spec.before (items_of all) k
        ≡ spec.held (items_of items.now) k) }
{
    let mut all = Items::new(alloc);
    let mut register = REGISTERS;
    while register > 0 {
        register -= 1;
        hold(items, register, &mut all)?;
    }
    Ok(all)
}

/// A turn and so many more; before more than one, each register that a turn sets is set to itself.
pub fn held_turns(
    alloc: Global,
    around: Loop,
    items: &[HyperItem],
    more: u8,
) -> Result<Items<HyperItem>, Memory>
    ensures { IfOk result (λ all. items_of all
        ≡ spec.held_turns around.way around.test (items_of items.now) more) }
{
    if more == 0 {
        return turns(alloc, around, items, more);
    }
    let mut all = held(alloc, items)?;
    let rest = turns(alloc, around, items, more)?;
    all.append(rest)?;
    Ok(all)
}
