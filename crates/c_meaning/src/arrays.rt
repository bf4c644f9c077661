ghost use Rattle.std.specs.Prelude.{◌≡◌, ◌+◌, ◌-◌, ◌<◌, ◌≤◌, ℕ, [], ◌∷◌, ◌++◌, map, length, take};
ghost use Rattle.std.specs.Prelude.{replicate, slice_get, slice_set, Some, None, ◌↔◌, IsTrue};
ghost use Rattle.std.specs.Prelude.{IsFalse, IsSome, IfOk, OnOk};
ghost use Rattle.c_meaning_spec.specs.State.{cell_in, held, row_in, element_set};
ghost use Rattle.c_meaning.specs.inside.Cells.{CellsKnown, SpansKnown, Follows, shown, worded, rows};
ghost use Rattle.c_meaning.specs.inside.Cells.{total, span_length};

use std::alloc::{AllocError, Global};
use std::marker::Model;

#[derive(Clone, Copy)]
// A word and the stamp of the array that it was stored in.
struct Cell {
    stamp: u64,
    word: u64,
}

#[derive(Clone, Copy)]
// Where an array's cells begin, how many they are, and the stamp of those that are set.
struct Span {
    start: usize,
    length: usize,
    stamp: u64,
}

/// The arrays of an evaluation, seen as a list of lists of optional words.
///
/// An access takes the same time whatever an array's length, and so does unsetting a whole array.
#[derive(Drop)]
pub struct Arrays {
    spans: Vec<Span>,
    cells: Vec<Cell>,
    used: usize,
    last: u64,
}

impl Model for Arrays {
    ghost use Rattle.std.specs.Prelude.{List, Option, ℕ};
    ghost use Rattle.c_meaning.specs.inside.Cells.{rows, IsLaid};

    ghost Value = { List (List (Option ℕ)) };

    ghost view = { λ a. rows a.spans.items a.cells.items };

    ghost invariant = { λ a. IsLaid a.spans.items a.cells.items a.used a.last };
}

/// Adds cells that are all equal.
fn pad(cells: &mut Vec<Cell>, cell: Cell, count: usize) -> Result<(), AllocError>
    ensures ok { OnOk result (cells.new.items ≡ cells.old.items ++ replicate count cell) }
    ensures longer { length cells.old.items ≤ length cells.new.items }
    ensures known { (last : ℕ) → cell.stamp ≤ last → CellsKnown last cells.old.items
        → CellsKnown last cells.new.items }
{
    match cells.len().checked_add(count) {
        None => Err(AllocError),
        Some(length) => {
            cells.resize(length, cell)?;
            Ok(())
        }
    }
}

/// Adds cells with these words.
fn put_words(cells: &mut Vec<Cell>, stamp: u64, words: &[u64]) -> Result<(), AllocError>
    ensures ok { OnOk result (cells.new.items ≡ cells.old.items ++ map (worded stamp) words.now) }
    ensures longer { length cells.old.items ≤ length cells.new.items }
    ensures known { (last : ℕ) → stamp ≤ last → CellsKnown last cells.old.items
        → CellsKnown last cells.new.items }
{
    for word in words {
        cells.push(Cell { stamp, word: *word })?;
    }
    Ok(())
}

// The span of an array by its number.
#[inline(always)]
fn span_at(spans: &[Span], array: u64) -> Option<Span>
    ensures { result ≡ slice_get spans.now array }
{
    match spans.get(array as usize) {
        None => None,
        Some(span) => Some(*span),
    }
}

// How many cells an array has by its number.
fn length_at(spans: &[Span], array: u64) -> usize
    ensures { result ≡ span_length (slice_get spans.now array) }
{
    match span_at(spans, array) {
        None => 0,
        Some(span) => span.length,
    }
}

/// The word of a cell, where it has this stamp.
#[inline(always)]
fn word_in(cell: Cell, stamp: u64) -> Option<u64>
    ensures { result ≡ shown stamp cell }
{
    if cell.stamp == stamp {
        Some(cell.word)
    } else {
        None
    }
}

/// A stamp that no cell has yet.
fn next_stamp(last: u64) -> Result<u64, AllocError>
    ensures { IfOk result (λ stamp. stamp ≡ last + 1) }
{
    match last.checked_add(1) {
        None => Err(AllocError),
        Some(stamp) => Ok(stamp),
    }
}

// How many cells are used with some more.
fn sum_of(used: usize, length: usize) -> Result<usize, AllocError>
    ensures { IfOk result (λ sum. sum ≡ used + length) }
{
    match used.checked_add(length) {
        None => Err(AllocError),
        Some(sum) => Ok(sum),
    }
}

// The word of an element, if it is there and set.
#[inline(always)]
fn read(spans: &[Span], cells: &[Cell], array: u64, at: u64) -> Option<u64>
    requires follows { Follows 0 spans.now }
    requires fits { total spans.now ≤ length cells.now }
    ensures { result ≡ held (cell_in (slice_get (rows spans.now cells.now) array) at) }
{
    match span_at(spans, array) {
        None => None,
        Some(span) => {
            if at as usize >= span.length {
                None
            } else {
                word_in(cells[span.start + at as usize], span.stamp)
            }
        }
    }
}

// Stores a word into an element, if it is there.
#[inline(always)]
fn write(spans: &[Span], cells: &mut Vec<Cell>, array: u64, at: u64, word: u64) -> bool
    requires follows { Follows 0 spans.now }
    requires fits { total spans.now ≤ length cells.old.items }
    ensures there { IsTrue result
        ↔ IsSome (cell_in (slice_get (rows spans.now cells.old.items) array) at) }
    ensures set { IsTrue result → rows spans.now cells.new.items
        ≡ element_set (rows spans.now cells.old.items) array at (Some word) }
    ensures same { IsFalse result → cells.new.items ≡ cells.old.items }
    ensures length { length cells.new.items ≡ length cells.old.items }
    ensures known { (last : ℕ) → SpansKnown last spans.now → CellsKnown last cells.old.items
        → CellsKnown last cells.new.items }
{
    match span_at(spans, array) {
        None => false,
        Some(span) => {
            if at as usize >= span.length {
                false
            } else {
                cells[span.start + at as usize] = Cell {
                    stamp: span.stamp,
                    word,
                };
                true
            }
        }
    }
}

impl Arrays {
    /// No arrays. It takes no memory.
    pub fn new(alloc: Global) -> Arrays
        ensures value { result ≡ [] }
    {
        Arrays {
            spans: Vec::new(alloc),
            cells: Vec::new(alloc),
            used: 0,
            last: 0,
        }
    }

    /// How many arrays there are.
    pub fn len(&self) -> usize
        ensures value { result ≡ length self.now }
    {
        self.spans.len()
    }

    /// An element, if it is there and is set.
    pub fn get(&self, array: u64, at: u64) -> Option<u64>
        ensures value { result ≡ held (cell_in (slice_get self.now array) at) }
    {
        read(self.spans.as_slice(), self.cells.as_slice(), array, at)
    }

    /// How many elements an array has, and 0 where it is not there.
    pub fn count_in(&self, array: u64) -> usize
        ensures value { result ≡ length (row_in (slice_get self.now array)) }
    {
        length_at(self.spans.as_slice(), array)
    }

    /// Sets an element, if it is there.
    #[inline(always)]
    pub fn set(&mut self, array: u64, at: u64, word: u64) -> bool
        ensures there { IsTrue result ↔ IsSome (cell_in (slice_get self.old array) at) }
        ensures set { IsTrue result → self.new ≡ element_set self.old array at (Some word) }
        ensures same { IsFalse result → self.new ≡ self.old }
    {
        write(self.spans.as_slice(), &mut self.cells, array, at, word)
    }

    /// Unsets a whole array, if it is there. Want of memory is the only error.
    pub fn unset(&mut self, array: u64) -> Result<bool, AllocError>
        ensures there { IfOk result (λ b. IsTrue b ↔ IsSome (slice_get self.old array)) }
        ensures unset { IfOk result (λ b. IsTrue b → self.new ≡ slice_set self.old array
            (replicate (length (row_in (slice_get self.old array))) None)) }
        ensures same { IfOk result (λ b. IsFalse b → self.new ≡ self.old) }
    {
        let stamp = next_stamp(self.last)?;
        match span_at(self.spans.as_slice(), array) {
            None => Ok(false),
            Some(span) => {
                self.spans[array as usize] = Span {
                    start: span.start,
                    length: span.length,
                    stamp,
                };
                self.last = stamp;
                Ok(true)
            }
        }
    }

    /// Adds an array that is not set. Want of memory is the only error.
    pub fn add_unset(&mut self, length: u32) -> Result<(), AllocError>
        ensures ok { OnOk result (self.new ≡ self.old ++ replicate length None ∷ []) }
    {
        let stamp = next_stamp(self.last)?;
        let used = sum_of(self.used, length as usize)?;
        let count = used.saturating_sub(self.cells.len());
        pad(&mut self.cells, Cell { stamp: 0, word: 0 }, count)?;
        self.spans.push(Span {
            start: self.used,
            length: length as usize,
            stamp,
        })?;
        self.used = used;
        self.last = stamp;
        Ok(())
    }

    /// Adds an array of these words and then zeros. Want of memory is the only error.
    pub fn add_set(&mut self, words: &[u64], zeros: usize) -> Result<(), AllocError>
        ensures ok { OnOk result (self.new
            ≡ self.old ++ (map Some words.now ++ replicate zeros (Some 0)) ∷ []) }
    {
        let stamp = next_stamp(self.last)?;
        let length = sum_of(words.len(), zeros)?;
        let used = sum_of(self.used, length)?;
        self.last = stamp;
        self.cells.truncate(self.used);
        put_words(&mut self.cells, stamp, words)?;
        pad(&mut self.cells, Cell { stamp, word: 0 }, zeros)?;
        self.spans.push(Span {
            start: self.used,
            length,
            stamp,
        })?;
        self.used = used;
        Ok(())
    }

    /// Leaves the first arrays alone.
    pub fn keep_first(&mut self, count: usize)
        ensures value { self.new ≡ take count self.old }
    {
        if count < self.spans.len() {
            self.used = self.spans[count].start;
            self.spans.truncate(count);
        }
    }
}
