//! The scalars of a function, of which the first stand in place.

ghost use Rattle.std.specs.Prelude.{◌≡◌, ◌++◌, ◌∷◌, [], Some, length, slice_get, slice_set};
ghost use Rattle.std.specs.Prelude.{◌↔◌, IsTrue, IsFalse, IsSome, IfSome, OnOk, SomeIff};
ghost use Rattle.c_meaning_spec.specs.State.{held};
ghost use Rattle.c_meaning.specs.inside.Given.{alone};

use crate::few::Few;
use std::alloc::{AllocError, Global};
use std::marker::Model;

/// Scalars, each with its word where it is set: the first four in place, the others in a list.
#[derive(Drop)]
pub struct Scalars {
    few: Few,
    count: u32,
    more: Vec<Option<u64>>,
}

impl Model for Scalars {
    ghost use Rattle.std.specs.Prelude.{◌≡◌, ◌≤◌, ◌++◌, List, ℕ, Option, length, take};

    ghost Value = { List (Option ℕ) };

    ghost view = { λ s. take s.count s.few ++ s.more.items };

    ghost invariant = { λ s. (s.count ≤ 4) × (length s.few ≡ 4) };
}

impl Scalars {
    /// No scalars.
    #[inline(always)]
    pub fn none(alloc: Global) -> Scalars
        ensures { result ≡ [] }
    {
        Scalars {
            few: Few::none(),
            count: 0,
            more: Vec::new(alloc),
        }
    }

    /// How many there are.
    #[inline(always)]
    pub fn len(&self) -> usize
        ensures { result ≡ length self.now }
    {
        self.count as usize + self.more.len()
    }

    // One more, behind those in place, in a list that may have been used before.
    #[inline(never)]
    fn push_more(
        &mut self,
        lists: &mut Vec<Vec<Option<u64>>>,
        value: Option<u64>,
    ) -> Result<(), AllocError>
        ensures { OnOk result (self.new ≡ self.old ++ value ∷ []) }
    {
        if self.more.len() == 0 {
            match lists.pop() {
                None => {}
                Some(mut list) => {
                    list.clear();
                    self.more = list;
                }
            }
        }
        self.more.push(value)?;
        Ok(())
    }

    /// One more.
    #[inline(always)]
    pub fn push(
        &mut self,
        lists: &mut Vec<Vec<Option<u64>>>,
        value: Option<u64>,
    ) -> Result<(), AllocError>
        ensures { OnOk result (self.new ≡ self.old ++ value ∷ []) }
    {
        if self.count < 4 && self.more.len() == 0 {
            self.few.put(self.count, value);
            self.count += 1;
        } else {
            self.push_more(lists, value)?;
        }
        Ok(())
    }

    /// The word of a scalar that stands in place and is set; of the others nothing is said.
    #[inline(always)]
    pub fn first(&self, at: u32) -> Option<u64>
        ensures { IfSome result (λ w. held (slice_get self.now at) ≡ Some w) }
    {
        if at < self.count {
            self.few.get(at)
        } else {
            None
        }
    }

    /// The word of a scalar, if it is set.
    #[inline(never)]
    pub fn get(&self, at: u64) -> Option<u64>
        ensures { result ≡ held (slice_get self.now at) }
    {
        let count = self.count as u64;
        if at < count {
            self.few.get(at as u32)
        } else {
            match self.more.as_slice().get((at - count) as usize) {
                None => None,
                Some(value) => *value,
            }
        }
    }

    /// The word of the only scalar, if there is only one and it is set.
    #[inline(always)]
    #[tactic(auto, using(crate::proofs::InPlace::alone_is, crate::proofs::InPlace::not_alone))]
    pub fn only(&self) -> Option<u64>
        ensures { result ≡ alone self.now }
    {
        if self.len() == 1 { self.get(0) } else { None }
    }

    /// Writes a word into a scalar that stands in place.
    #[inline(always)]
    pub fn set_first(&mut self, at: u32, word: u64) -> bool
        ensures there { IsTrue result → IsSome (slice_get self.old at) }
        ensures after { IsTrue result → self.new ≡ slice_set self.old at (Some word) }
        ensures same { IsFalse result → self.new ≡ self.old }
    {
        if at < self.count {
            self.few.put(at, Some(word));
            true
        } else {
            false
        }
    }

    /// Writes a scalar, if it is there.
    #[inline(never)]
    pub fn set(&mut self, at: u64, value: Option<u64>) -> bool
        ensures there { IsTrue result ↔ IsSome (slice_get self.old at) }
        ensures after { self.new ≡ slice_set self.old at value }
        ensures same { IsFalse result → self.new ≡ self.old }
    {
        let count = self.count as u64;
        if at < count {
            self.few.put(at as u32, value);
            return true;
        }
        let place = (at - count) as usize;
        if place < self.more.len() {
            self.more[place] = value;
            true
        } else {
            false
        }
    }

    /// Whether a list was taken for those behind the places.
    #[inline(always)]
    pub fn has_list(&self) -> bool {
        self.more.capacity() != 0
    }

    /// The list of those behind the places.
    #[inline(always)]
    pub fn into_list(self) -> Vec<Option<u64>> {
        self.more
    }
}
