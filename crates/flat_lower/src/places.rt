//! Where the objects that the code of a function names lie.

ghost use Rattle.std.specs.Prelude.{◌≡◌, IfOk, slice_get};
ghost use Rattle.std.specs.Prelude.{map};
ghost use Rattle.c_meaning_spec.specs.Call.{array_bytes};
ghost use Rattle.c_meaning_spec.specs.Task as task;
ghost use Rattle.std.specs.Option.{option_copied};
ghost use Rattle.flat_lower.specs.inside.Objects as objects;
ghost use Rattle.flat_lower.specs.inside.Objects.{global_at, array_at, global_bytes, row_of};
ghost use Rattle.flat_lower.specs.inside.Emitted.{starts_from};

use base::Memory;
use c_tree::{Place, Slot, TypedArray, TypedGlobal};
use std::marker::Model;

/// The globals of the program and the local arrays of a function, each with where it lies: a
/// global's address, and an array's place among the function's; and the function's scalars.
#[derive(Drop)]
pub struct Places<'a> {
    globals: &'a [TypedGlobal],
    addresses: &'a [u64],
    scalars: &'a [Slot],
    arrays: &'a [TypedArray],
    starts: &'a [u32],
}

impl<'a> Model for Places<'a> {
    ghost use Rattle.std.specs.Prelude.{◌≡◌, map};
    ghost use Rattle.c_meaning_spec.specs.Call.{array_bytes};
    ghost use Rattle.flat_lower.specs.inside.Objects.{Context, global_bytes};
    ghost use Rattle.flat_lower.specs.inside.Emitted.{starts_from};

    ghost Value = { Context };

    ghost view = { λ p. record {
      globals = p.globals.now;
      scalars = p.scalars.now;
      arrays = p.arrays.now;
    } };

    ghost invariant = { λ p. (p.addresses.now ≡ starts_from 0 (map global_bytes p.globals.now))
        × (p.starts.now ≡ starts_from 0 (map array_bytes p.arrays.now)) };
}

// The second size of a global.
fn global_row(global: Option<&TypedGlobal>) -> Option<u32>
    ensures { result ≡ objects.global_row (option_copied global.entry) }
{
    match global {
        None => None,
        Some(global) => global.row,
    }
}

// The second size of the array that a parameter stands for.
fn slot_row(slot: Option<&Slot>) -> Option<u32>
    ensures { result ≡ objects.slot_row (option_copied slot.entry) }
{
    match slot {
        None => None,
        Some(slot) => match slot {
            Slot::Scalar(_) => None,
            Slot::Address { kind: _, row } => *row,
        },
    }
}

// The second size of a local array.
fn array_row(array: Option<&TypedArray>) -> Option<u32>
    ensures { result ≡ objects.array_row (option_copied array.entry) }
{
    match array {
        None => None,
        Some(array) => array.row,
    }
}

impl<'a> Places<'a> {
    /// What the code of a function knows of objects.
    pub fn new(
        globals: &'a [TypedGlobal],
        addresses: &'a [u64],
        scalars: &'a [Slot],
        arrays: &'a [TypedArray],
        starts: &'a [u32],
    ) -> Places<'a>
        requires addresses { addresses.now ≡ starts_from 0 (map global_bytes globals.now) }
        requires starts { starts.now ≡ starts_from 0 (map array_bytes arrays.now) }
        ensures value { result ≡ record {
          globals = globals.now;
          scalars = scalars.now;
          arrays = arrays.now;
        } }
    {
        Places {
            globals,
            addresses,
            scalars,
            arrays,
            starts,
        }
    }

    /// The address of a global, where there is one of that number.
    pub fn global(&self, g: u32) -> Result<u64, Memory>
        ensures { IfOk result (λ at. at ≡ global_at self.now.globals g) }
    {
        match self.addresses.get(g as usize) {
            None => Err(Memory),
            Some(at) => Ok(*at),
        }
    }

    /// The place of a local array among the function's, where there is one of that number.
    pub fn array(&self, a: u32) -> Result<u32, Memory>
        ensures { IfOk result (λ at. at ≡ array_at self.now.arrays a) }
    {
        match self.starts.get(a as usize) {
            None => Err(Memory),
            Some(at) => Ok(*at),
        }
    }

    /// The second size of the array that a name stands for, where it has two.
    pub fn row(&self, place: Place) -> Option<u32>
        ensures { result ≡ row_of self.now place }
    {
        match place {
            Place::Global(g) => global_row(self.globals.get(g as usize)),
            Place::Scalar(i) => slot_row(self.scalars.get(i as usize)),
            Place::Array(a) => array_row(self.arrays.get(a as usize)),
        }
    }

    /// Whether a global is an array.
    pub fn is_array(&self, g: u32) -> bool
        ensures { result ≡ task.is_array (slice_get self.now.globals g) }
    {
        match self.globals.get(g as usize) {
            None => false,
            Some(global) => global.length.is_some(),
        }
    }
}
