//! Rows of marks, and all the marks of a frame.
ghost use Rattle.std.specs.Prelude.{◌≡◌, ◌<◌, ◌≤◌, ◌*◌, false, slice_index_or, slice_set};
ghost use Rattle.commit_flush_spec.specs.Marks.{mark_on, mark_sent, mark_delivered, mark_stored, mark_left, zeros};
ghost use Rattle.commit_flush_spec.specs.Frames.{unmarked};
ghost use Rattle.frame_state.specs.inside.MarkRows.{HasNoMark};

use base::Row;
use std::marker::Model;
use trips_isa::NO_MARK;

/// N marks, seen as the list of them. Only those other than 0 are kept.
#[derive(Drop)]
pub struct MarkRow<const N: usize, const W: usize> {
    row: Row<u8, N, W>,
}

impl<const N: usize, const W: usize> Model for MarkRow<N, W> {
    ghost use Rattle.std.specs.Prelude.{ℕ, List};
    ghost use Rattle.frame_state.specs.inside.MarkRows.{marks_of};

    ghost Value = { List ℕ };

    ghost view = { λ m. marks_of m.row };
}

impl<const N: usize, const W: usize> MarkRow<N, W> {
    /// All marks are 0.
    #[tactic(auto, using(crate::proofs::MarkFacts::no_marks))]
    pub fn none() -> MarkRow<N, W>
        requires { N ≤ 64 * W }
        ensures { result ≡ zeros N }
    {
        MarkRow { row: Row::none(0) }
    }

    /// The mark of a number; past the last it is 0.
    #[tactic(auto, using(crate::proofs::MarkFacts::mark_got))]
    #[inline]
    pub fn get(&self, q: usize) -> u8
        ensures value { result ≡ slice_index_or self.now q 0 }
    {
        match self.row.get(q) {
            Some(mark) => mark,
            None => NO_MARK,
        }
    }

    /// Sets the mark of a number, if there is one.
    #[tactic(auto, using(crate::proofs::MarkFacts::mark_set, crate::proofs::MarkFacts::mark_cleared))]
    #[inline]
    pub fn set(&mut self, q: usize, mark: u8)
        ensures value { self.new ≡ slice_set self.old q mark }
    {
        if mark == 0 {
            self.row.take(q);
        } else {
            self.row.put(q, mark);
        }
    }

    /// Sets all marks to 0.
    #[tactic(auto, using(crate::proofs::MarkFacts::no_marks))]
    pub fn clear(&mut self)
        ensures value { self.new ≡ zeros N }
    {
        self.row.clear();
    }
}

/// The marks beside all tokens of a frame. Beside them stands whether any was set since the frame was filled: while
/// none was, no row is written, and no mark is looked for.
#[derive(Drop)]
pub struct MarkTable {
    is_marked: bool,
    spots: MarkRow<416, 7>,
    places: MarkRow<320, 5>,
    stores: MarkRow<32, 1>,
    exit: u8,
}

impl Model for MarkTable {
    ghost use Rattle.std.specs.Prelude.{◌≡◌, false};
    ghost use Rattle.commit_flush_spec.specs.Marks.{Marks};
    ghost use Rattle.frame_state.specs.inside.MarkRows.{AreBare};

    ghost Value = { Marks };

    ghost view = { λ m. record {
      spots = m.spots;
      places = m.places;
      stores = m.stores;
      exit = m.exit;
    } };

    ghost invariant = { λ m. m.is_marked ≡ false → AreBare m.spots m.places m.stores m.exit };
}

impl MarkTable {
    /// No mark is set.
    pub fn none() -> MarkTable {
        MarkTable {
            is_marked: false,
            spots: MarkRow::none(),
            places: MarkRow::none(),
            stores: MarkRow::none(),
            exit: NO_MARK,
        }
    }

    /// Whether a mark was set: without one all are 0.
    #[inline]
    pub fn is_marked(&self) -> bool
        ensures none { result ≡ false → HasNoMark self.now }
    {
        self.is_marked
    }

    /// Takes all marks away.
    pub fn clear(&mut self)
        ensures value { self.new ≡ unmarked }
    {
        self.spots.clear();
        self.places.clear();
        self.stores.clear();
        self.exit = NO_MARK;
        self.is_marked = false;
    }

    /// The mark at a place of the block.
    #[inline]
    pub fn spot(&self, q: usize) -> u8
        ensures value { result ≡ mark_on self.now.spots q }
    {
        self.spots.get(q)
    }

    /// The mark of the store of a number.
    #[inline]
    pub fn store(&self, number: usize) -> u8
        ensures value { result ≡ mark_on self.now.stores number }
    {
        self.stores.get(number)
    }

    /// The mark of the exit.
    #[inline]
    pub fn exit(&self) -> u8
        ensures value { result ≡ self.now.exit }
    {
        self.exit
    }

    // Sets the marks of both places of a node.
    fn put_sent(&mut self, p: usize, mark: u8)
        requires { p < 1000 }
        ensures value { self.new ≡ mark_sent p mark self.old }
    {
        self.is_marked = true;
        self.places.set(p, mark);
        self.places.set(p + 1, mark);
    }

    /// Sets the marks of both places of a node that sends its token.
    #[inline]
    pub fn send(&mut self, p: usize, mark: u8)
        requires { p < 1000 }
        ensures value { self.new ≡ mark_sent p mark self.old }
    {
        if self.is_marked {
            self.put_sent(p, mark);
        } else if mark > 0 {
            self.put_sent(p, mark);
        }
    }

    // Brings the mark of a place to a place of the block.
    fn put_delivered(&mut self, p: usize, q: usize)
        ensures value { self.new ≡ mark_delivered p q self.old }
    {
        self.is_marked = true;
        let mark = self.places.get(p);
        self.spots.set(q, mark);
    }

    /// Brings the mark of a place to the place of the block to which its token goes.
    #[inline]
    pub fn deliver(&mut self, p: usize, q: usize)
        ensures value { self.new ≡ mark_delivered p q self.old }
    {
        if self.is_marked {
            self.put_delivered(p, q);
        }
    }

    // Sets the mark of the store of a number.
    fn put_store(&mut self, number: u8, mark: u8)
        ensures value { self.new ≡ mark_stored number mark self.old }
    {
        self.is_marked = true;
        self.stores.set(number as usize, mark);
    }

    /// Sets the mark of the store of a number that is resolved.
    #[inline]
    pub fn resolve(&mut self, number: u8, mark: u8)
        ensures value { self.new ≡ mark_stored number mark self.old }
    {
        if self.is_marked {
            self.put_store(number, mark);
        } else if mark > 0 {
            self.put_store(number, mark);
        }
    }

    // Sets the mark of the exit.
    fn put_exit(&mut self, mark: u8)
        ensures value { self.new ≡ mark_left mark self.old }
    {
        self.is_marked = true;
        self.exit = mark;
    }

    /// Sets the mark of the exit that is made known.
    #[inline]
    pub fn leave(&mut self, mark: u8)
        ensures value { self.new ≡ mark_left mark self.old }
    {
        if self.is_marked {
            self.put_exit(mark);
        } else if mark > 0 {
            self.put_exit(mark);
        }
    }
}
