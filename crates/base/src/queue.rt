ghost use Rattle.std.specs.Prelude.{◌≡◌, [], ◌∷◌, ◌++◌, reverse, MatchOption, ◌↔◌, IsTrue};

use crate::Items;
use std::marker::Model;

/// A list that is taken apart from its front.
///
/// It is held in reverse, so that taking the first item moves no other.
#[derive(Debug, Drop)]
pub struct Queue<T> {
    reversed: Vec<T>,
}

impl<T> Model for Queue<T> {
    ghost use Rattle.std.specs.Prelude.{List, reverse};
    ghost use Rattle.std.specs.Coded.{coded_list};

    ghost Value = { List T };

    ghost coded = { coded_list T.code };

    ghost view = { λ q. reverse q.reversed.items };
}

impl<T> Queue<T> {
    /// The items in their order. It takes no memory.
    pub fn from_items(items: Items<T>) -> Queue<T>
        ensures value { result ≡ items }
    {
        let mut reversed = items.into_vec();
        reversed.reverse();
        Queue { reversed }
    }

    /// Takes the first item.
    pub fn pop(&mut self) -> Option<T>
        ensures value { MatchOption result
            ((self.old ≡ []) × (self.new ≡ []))
            (λ first. self.old ≡ first ∷ self.new) }
    {
        self.reversed.pop()
    }

    /// Whether there is no item.
    pub fn is_empty(&self) -> bool
        ensures value { IsTrue result ↔ (self.now ≡ []) }
    {
        self.reversed.is_empty()
    }
}
