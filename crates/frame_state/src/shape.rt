//! The shape of a block: what its slots want.
ghost use Rattle.std.specs.Prelude.{◌≡◌, Some, slice_set, true};
ghost use Rattle.block_cases.specs.Orders.{slot_of, left_of, right_of};
ghost use Rattle.frame_state.specs.inside.Wants.{is_on_true, is_on_false};

use crate::observers::is_serial;
use crate::target::slot_of;
use base::Flags;
use trips_isa::{Block, Inst, Role, Sense, role_of};

/// What the slots of a block want, as flags by slot, and whether it may make a system call. It is made once for a
/// block.
#[derive(Drop)]
pub struct Shape {
    pub(crate) there: Flags<128, 2>,
    pub(crate) left: Flags<128, 2>,
    pub(crate) right: Flags<128, 2>,
    pub(crate) on_true: Flags<128, 2>,
    pub(crate) on_false: Flags<128, 2>,
    serial: bool,
}

// Whether what a slot holds takes a left operand.
fn left_of(inst: Option<Inst>) -> bool
    ensures { result ≡ left_of inst }
{
    match inst {
        None => false,
        Some(inst) => matches!(role_of(inst.op), Role::Copy | Role::One | Role::Both),
    }
}

// Whether what a slot holds takes a right operand.
fn right_of(inst: Option<Inst>) -> bool
    ensures { result ≡ right_of inst }
{
    match inst {
        None => false,
        Some(inst) => matches!(role_of(inst.op), Role::Both),
    }
}

// Whether what a slot holds fires on true.
fn is_on_true(inst: Option<Inst>) -> bool
    ensures { result ≡ is_on_true inst }
{
    match inst {
        None => false,
        Some(inst) => matches!(inst.sense, Sense::OnTrue),
    }
}

// Whether what a slot holds fires on false.
fn is_on_false(inst: Option<Inst>) -> bool
    ensures { result ≡ is_on_false inst }
{
    match inst {
        None => false,
        Some(inst) => matches!(inst.sense, Sense::OnFalse),
    }
}

impl Shape {
    ghost use Rattle.trips_isa.specs.declared.Block.{Block};
    ghost use Rattle.commit_flush_spec.specs.Older.{is_serial};
    ghost use Rattle.frame_state.specs.inside.Shapes.{IsShape};

    // What an instruction in a slot wants.
    #[inline(always)]
    fn note(&mut self, slot: usize, inst: Inst)
        ensures there { self.new.there ≡ slice_set self.old.there slot true }
        ensures left { self.new.left ≡ slice_set self.old.left slot (left_of (Some inst)) }
        ensures right { self.new.right ≡ slice_set self.old.right slot (right_of (Some inst)) }
        ensures on_true { self.new.on_true ≡ slice_set self.old.on_true slot (is_on_true (Some inst)) }
        ensures on_false { self.new.on_false ≡ slice_set self.old.on_false slot (is_on_false (Some inst)) }
        ensures serial { self.new.serial ≡ self.old.serial }
    {
        self.there.put(slot);
        self.left.set(slot, left_of(Some(inst)));
        self.right.set(slot, right_of(Some(inst)));
        self.on_true.set(slot, is_on_true(Some(inst)));
        self.on_false.set(slot, is_on_false(Some(inst)));
    }

    /// The shape of a block.
    pub fn make(block: &Block) -> Shape
        ensures value { IsShape block.now result }
    {
        let mut shape = Shape {
            there: Flags::none(),
            left: Flags::none(),
            right: Flags::none(),
            on_true: Flags::none(),
            on_false: Flags::none(),
            serial: is_serial(block),
        };
        for slot in 0..128usize {
            if let Some(inst) = slot_of(block, slot) {
                shape.note(slot, inst);
            }
        }
        shape
    }

    /// Whether the block may make a system call.
    #[inline]
    pub fn is_serial(&self) -> bool
        ensures { (b : Block) → IsShape b self.now → result ≡ is_serial b }
    {
        self.serial
    }
}
