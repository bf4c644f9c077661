//! Units: what is in them, and how long they are busy.
ghost use Rattle.std.specs.Prelude.{◌≡◌, ◌<◌, ◌==◌, ℕ, List, All, IfSome, slice_index_or};
ghost use Rattle.commit_flush_spec.specs.Window.{Window};
ghost use Rattle.grid_cycle_spec.specs.Choosing.{eldest, slots};
ghost use Rattle.grid_cycle_spec.specs.Grid.{numbers_of};
ghost use Rattle.grid_cycle_spec.specs.Units as spec;
ghost use Rattle.grid_parts.specs.inside.EldestChoices.{lowest_slot};
ghost use Rattle.grid_parts.specs.Seen.{seen};
ghost use Rattle.grid_parts.specs.inside.Changes.{less_busy, taken_up};

use crate::slots::lowest_on;
use crate::state::State;

impl<W> State<W> {
    /// How many cycles the unit of a tile is still busy.
    pub fn busy(&self, tile: u8) -> u8
        requires { tile < 16 }
        ensures { result ≡ slice_index_or self.now.units tile 0 }
    {
        self.units[tile as usize]
    }

    /// A unit is busy for one cycle less.
    pub fn pass(&mut self, tile: u8)
        requires { tile < 16 }
        ensures { (w : Window) → seen w self.new ≡ less_busy tile (seen w self.old) }
    {
        self.units[tile as usize] = self.units[tile as usize].saturating_sub(1);
    }

    /// A unit takes up a slot of a frame, and is busy for so many cycles.
    pub fn take_up(&mut self, tile: u8, frame: u8, slot: u8, time: u8)
        requires tile { tile < 16 }
        requires frame { frame < 8 }
        requires slot { slot < 128 }
        ensures { (w : Window) → seen w self.new ≡ taken_up tile frame slot time (seen w self.old) }
    {
        self.units[tile as usize] = time;
        self.works.put(frame, slot);
    }

    /// The result of a slot of a frame is in no unit any more.
    pub fn rest(&mut self, frame: u8, slot: u8)
        requires frame { frame < 8 }
        requires slot { slot < 128 }
        ensures { (w : Window) → seen w self.new ≡ spec.rests frame slot (seen w self.old) }
    {
        self.works.take(frame, slot);
    }

    // The lowest slot of a frame whose result is in the unit of a tile.
    fn result_in(&self, tile: u8, frame: u8) -> Option<u8>
        requires tile { tile < 16 }
        requires frame { frame < 8 }
        ensures value { result ≡ lowest_slot (slice_index_or self.now.works.words frame 0) tile }
        ensures within { IfSome result (λ s. s < 128) }
    {
        lowest_on(self.works.word(frame), tile)
    }

    /// The eldest result that is in the unit of a tile: the frame, and the slot.
    pub fn result_of(&self, tile: u8, order: &[u8]) -> Option<(u8, u8)>
        requires tile { tile < 16 }
        requires order { All (λ n. n < 8) order.now }
        ensures value { (w : Window) → numbers_of w.frames ≡ order.now
            → result ≡ eldest (spec.in_unit (seen w self.now) tile) slots w.frames }
        ensures within { IfSome result (λ q. (q.0 < 8) × (q.1 < 128)) }
    {
        for i in 0..order.len() {
            let frame = order[i];
            match self.result_in(tile, frame) {
                Some(slot) => return Some((frame, slot)),
                None => {}
            }
        }
        None
    }
}
