//! The rest of a block, to which items are put in front.

ghost use Rattle.std.specs.Prelude.{◌≡◌, OnOk};
ghost use Rattle.ir_forms.specs.inside.HyperViews.{block_of};
ghost use Rattle.ir_forms.specs.inside.HyperRuns as hyper;
ghost use Rattle.hyper_build.specs.inside.Parts.{set_then, load_then, save_then};
ghost use Rattle.hyper_build.specs.inside.Emitted.{rest_of};

use base::{Items, Memory};
use ir_forms::{Exit, HyperBlock, HyperItem, Source, Tail};
use std::alloc::Global;
use trips_isa::Op;

/// What a block still does: its items, the last first, and its tail.
#[derive(Drop)]
pub struct Rest {
    pub items: Items<HyperItem>,
    pub tail: Tail,
}

/// A jump alone. It takes no memory.
#[tactic(auto, using(crate::proofs::Emits::jump_is))]
pub fn jump(alloc: Global, label: u32) -> Rest
    ensures { rest_of result ≡ hyper.jump label }
{
    Rest {
        items: Items::new(alloc),
        tail: Tail::Leave(Exit::Jump(label)),
    }
}

/// An operation before a rest.
#[tactic(auto, using(crate::proofs::Emits::set_is))]
pub fn put_set(rest: &mut Rest, to: u8, op: Op, a: Source, b: Source) -> Result<(), Memory>
    ensures { OnOk result (rest_of rest.new ≡ set_then to op a b (rest_of rest.old)) }
{
    rest.items.push(HyperItem::Set { to, op, a, b })?;
    Ok(())
}

/// A load before a rest.
#[tactic(auto, using(crate::proofs::Emits::load_is))]
pub fn put_load(rest: &mut Rest, to: u8, op: Op, address: Source) -> Result<(), Memory>
    ensures { OnOk result (rest_of rest.new ≡ load_then to op address (rest_of rest.old)) }
{
    rest.items.push(HyperItem::Load { to, op, address })?;
    Ok(())
}

/// A store before a rest.
#[tactic(auto, using(crate::proofs::Emits::save_is))]
pub fn put_save(rest: &mut Rest, op: Op, address: Source, value: Source) -> Result<(), Memory>
    ensures { OnOk result (rest_of rest.new ≡ save_then op address value (rest_of rest.old)) }
{
    rest.items.push(HyperItem::Save { op, address, value })?;
    Ok(())
}

/// The rest as a block of its own.
pub fn closed(rest: Rest) -> HyperBlock
    ensures { block_of result ≡ rest_of rest }
{
    let Rest { items, tail } = rest;
    let mut items = items.into_vec();
    items.reverse();
    HyperBlock {
        items: Items::from_vec(items),
        tail,
    }
}
