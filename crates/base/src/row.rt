//! Rows of items, each of which may be there or not.
ghost use Rattle.std.specs.Prelude.{◌≡◌, ◌<◌, ◌≤◌, ◌+◌, ◌*◌, ℕ, None, Some, false, length, map, is_some};
ghost use Rattle.std.specs.Prelude.{slice_index_or, slice_set};
ghost use Rattle.base.specs.Rows.{has_bit};
ghost use Rattle.base.specs.inside.Rows.{no_items};

use crate::flags::Flags;
use std::marker::Model;

/// N items of which each may be there or not, seen as the list of them. W words of flags say which are,
/// so that W writes clear the row, and what an item was is not looked at once it has been taken.
#[derive(Drop)]
pub struct Row<T, const N: usize, const W: usize> {
    there: Flags<N, W>,
    items: [T; N],
}

impl<T, const N: usize, const W: usize> Model for Row<T, N, W> {
    ghost use Rattle.std.specs.Prelude.{◌≡◌, List, Option, length};
    ghost use Rattle.std.specs.Coded.{coded_list, coded_option};
    ghost use Rattle.base.specs.inside.Rows.{row};

    ghost Value = { List (Option T) };

    ghost coded = { coded_list (coded_option T.code) };

    ghost view = { λ r. row N r.there r.items };

    ghost invariant = { λ r. (length r.there ≡ N) × (length r.items ≡ N) };
}

impl<T: Copy, const N: usize, const W: usize> Row<T, N, W> {
    /// No item is there. The words have room for a flag of each.
    pub fn none(item: T) -> Row<T, N, W>
        requires { N ≤ 64 * W }
        ensures { result ≡ no_items N }
    {
        Row {
            there: Flags::none(),
            items: [item; N],
        }
    }

    /// The item of a number, if it is there; none past the last is.
    #[inline]
    pub fn get(&self, q: usize) -> Option<T>
        ensures value { result ≡ slice_index_or self.now q None }
        ensures size { length self.now ≡ N }
    {
        let items = &self.items;
        if self.there.has(q) && q < N {
            Some(items[q])
        } else {
            None
        }
    }

    /// Puts an item, if there is a place of this number.
    #[inline]
    pub fn put(&mut self, q: usize, item: T)
        ensures value { self.new ≡ slice_set self.old q (Some item) }
        ensures size { length self.old ≡ N }
    {
        self.there.put(q);
        if q < N {
            self.items[q] = item;
        }
    }

    /// Takes an item away.
    #[inline]
    pub fn take(&mut self, q: usize)
        ensures value { self.new ≡ slice_set self.old q None }
        ensures size { length self.old ≡ N }
    {
        self.there.take(q);
    }

    /// Puts an item, or takes the one away.
    #[inline]
    pub fn set(&mut self, q: usize, item: Option<T>)
        ensures value { self.new ≡ slice_set self.old q item }
    {
        match item {
            Some(item) => self.put(q, item),
            None => self.take(q),
        }
    }

    /// Takes all items away.
    pub fn clear(&mut self)
        ensures value { self.new ≡ no_items N }
        ensures same { self.new ≡ map (λ x. None) self.old }
    {
        self.there.clear();
    }

    /// Which items from number 64 k on are there, as bits.
    #[inline]
    pub fn word(&self, k: usize) -> u64
        requires { k < W }
        ensures value { (s : ℕ) → s < 64 → 64 * k + s < N
            → has_bit result s ≡ is_some (slice_index_or self.now (64 * k + s) None) }
    {
        self.there.word(k)
    }
}
