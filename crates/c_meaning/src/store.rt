ghost use Rattle.std.specs.Prelude.{◌≡◌, map, Some, replicate, ◌++◌, ◌-◌, length, ◌↔◌, IsTrue};
ghost use Rattle.std.specs.Prelude.{IsFalse, IsSome, IfOk, OnOk, slice_get, slice_set, None};
ghost use Rattle.std.specs.Prelude.{◌+◌, ◌*◌, ◌<◌, SomeIff};
ghost use Rattle.c_meaning_spec.specs.State.{held, cell, row_in, row_size, written};
ghost use Rattle.c_meaning_spec.specs.Task.{array_of as array_number, element_of as element_object};
ghost use Rattle.c_meaning_spec.specs.Task.{scalar_of as scalar_object, place_in as place};
ghost use Rattle.c_meaning_spec.specs.Task.{row_element_of as row_element_object};
ghost use Rattle.c_meaning.specs.inside.View.{view};

use crate::arrays::Arrays;
use crate::direct::Stop;
use crate::frame::Waiting;
use crate::scalars::Scalars;
use c_meaning_spec::Object;
use c_tree::Place;
use std::alloc::{AllocError, Global};

/// What an evaluation goes over, and the frames of what is to follow where a part was not evaluated to its end.
///
/// The lists of scalars that have no place are used again by later calls. Where the evaluation stopped is told on the
/// way back alone.
#[derive(Drop)]
pub struct Store<'a> {
    pub alloc: Global,
    pub stock: u64,
    pub input: &'a [u8],
    pub output: Vec<u8>,
    pub scalars: Scalars,
    pub arrays: Arrays,
    pub rows: Vec<Option<u32>>,
    pub base: u32,
    pub room: u32,
    pub stop: Stop<'a>,
    pub returned: Option<u64>,
    pub pending: Vec<Waiting<'a>>,
    pub spare_lists: Vec<Vec<Option<u64>>>,
    pub told_at: Option<u32>,
    pub told_calls: Vec<u32>,
}

/// The second size of an array, if it is there and has two.
pub fn row_size_at(rows: &[Option<u32>], at: u64) -> Option<u32>
    ensures { result ≡ row_size (slice_get rows.now at) }
{
    match rows.get(at as usize) {
        None => None,
        Some(size) => *size,
    }
}

// Where the element at two indexes is among `count` cells in rows of `size`, if it is in a row of its array.
fn in_rows(size: u64, count: u64, row: u64, index: u64) -> Option<u64>
    ensures { SomeIff result (index < size × row * size + index < count) (row * size + index) }
{
    if index >= size {
        return None;
    }
    match row.checked_mul(size) {
        None => None,
        Some(start) => match start.checked_add(index) {
            None => None,
            Some(at) => if at < count { Some(at) } else { None },
        },
    }
}

// The place of an element by two indexes among the cells of an array: one behind them all where an index
// is outside its own dimension.
fn place_in(size: Option<u32>, count: u64, row: u64, index: u64) -> u64
    ensures { result ≡ place size count row index }
{
    match size {
        None => count,
        Some(size) => match in_rows(size as u64, count, row, index) {
            None => count,
            Some(at) => at,
        },
    }
}

/// The scalar that a name names.
pub fn scalar_of(place: Place) -> Option<Object>
    ensures { result ≡ scalar_object place }
{
    match place {
        Place::Global(g) => Some(Object::InArray(g as u64, 0)),
        Place::Scalar(i) => Some(Object::InScalar(i as u64)),
        Place::Array(_) => None,
    }
}

impl<'a> Store<'a> {
    /// What an object holds, if it is there and is set.
    #[inline(always)]
    pub fn load(&self, object: Object) -> Option<u64>
        ensures { result ≡ held (cell (view self.now) object) }
    {
        match object {
            Object::InScalar(i) => self.scalars.get(i),
            Object::InArray(a, i) => self.arrays.get(a, i),
        }
    }

    /// Sets an object, if it is there.
    #[inline(always)]
    pub fn set(&mut self, object: Object, word: u64) -> bool
        ensures there { IsTrue result ↔ IsSome (cell (view self.old) object) }
        ensures after { IsTrue result → view self.new ≡ written (view self.old) object (Some word) }
        ensures same { IsFalse result → view self.new ≡ view self.old }
    {
        match object {
            Object::InScalar(i) => self.scalars.set(i, Some(word)),
            Object::InArray(a, i) => self.arrays.set(a, i, word),
        }
    }

    /// Unsets a scalar, if it is there.
    pub fn unset_scalar(&mut self, i: u64) -> bool
        ensures there { IsTrue result ↔ IsSome (slice_get (view self.old).scalars i) }
        ensures after { IsTrue result → view self.new
            ≡ written (view self.old) (Object.InScalar i) None }
        ensures same { IsFalse result → view self.new ≡ view self.old }
    {
        self.scalars.set(i, None)
    }

    /// The number of the array that a place stands for.
    #[inline(always)]
    pub fn array_of(&self, place: Place) -> Option<u64>
        ensures { result ≡ array_number place (view self.now) }
    {
        match place {
            Place::Global(g) => Some(g as u64),
            Place::Scalar(i) => self.scalars.get(i as u64),
            Place::Array(a) => Some(self.base as u64 + a as u64),
        }
    }

    /// An element by the word of its index.
    #[inline(always)]
    pub fn element_of(&self, place: Place, index: u64) -> Option<Object>
        ensures { result ≡ element_object place index (view self.now) }
    {
        match self.array_of(place) {
            None => None,
            Some(array) => Some(Object::InArray(array, index)),
        }
    }

    /// The place of an element among the cells of its array, by the words of its two indexes.
    #[inline(always)]
    pub fn place_of(&self, array: u64, row: u64, index: u64) -> u64
        ensures { result ≡ place (row_size (slice_get (view self.now).rows array))
            (length (row_in (slice_get (view self.now).arrays array))) row index }
    {
        let size = row_size_at(self.rows.as_slice(), array);
        place_in(size, self.arrays.count_in(array) as u64, row, index)
    }

    /// An element by the words of its two indexes.
    #[inline(always)]
    pub fn row_element_of(&self, place: Place, row: u64, index: u64) -> Option<Object>
        ensures { result ≡ row_element_object place row index (view self.now) }
    {
        match self.array_of(place) {
            None => None,
            Some(array) => Some(Object::InArray(array, self.place_of(array, row, index))),
        }
    }
}
