//! The start, and what goes with frames that are sealed, committed or flushed.
ghost use Rattle.std.specs.Prelude.{◌≡◌, ◌<◌, ◌+◌, ◌^◌, ◌==◌, ℕ, List, All, IfOk, length, slice_index_or};
ghost use Rattle.trips_isa.specs.Machine as machine;
ghost use Rattle.commit_flush_spec.specs.Frames.{Frame};
ghost use Rattle.commit_flush_spec.specs.Window.{Window, opened};
ghost use Rattle.grid_cycle_spec.specs.Grid as grid;
ghost use Rattle.grid_cycle_spec.specs.Grid.{numbers_of};
ghost use Rattle.grid_cycle_spec.specs.Acting as acting;
ghost use Rattle.grid_cycle_spec.specs.Acting.{known_next};
ghost use Rattle.grid_parts.specs.Seen.{seen};
ghost use Rattle.grid_cycle_spec.specs.Cycles as cycle_spec;
ghost use Rattle.grid_parts.specs.inside.Changes.{begun_with, flushed_under, forget_each};

use crate::fetch_unit::FetchUnit;
use crate::frame_flags::FrameFlags;
use crate::histories::Histories;
use crate::state::State;
use base::{Flags, Memory};
use block_predict::Predictor;
use operand_net::Mesh;
use std::alloc::Global;
use trips_isa::Counts;

// No unit is busy.
fn idle_units() -> [u8; 16]
    ensures { (t : ℕ) → slice_index_or result t 0 ≡ 0 }
{
    [0; 16]
}

// Nothing has been counted.
fn uncounted() -> Counts
    ensures { result ≡ cycle_spec.uncounted }
{
    Counts {
        cycles: 0,
        fetched: 0,
        committed: 0,
        flushed: 0,
    }
}

// The flushed block that still stands where this is known of the next block.
fn standing_on(known: Option<u32>, standing: Option<u32>) -> Option<u32>
    ensures { result ≡ acting.standing_on known standing }
{
    match standing {
        Some(stands) => match known {
            Some(block) => { if block == stands { standing } else { None } }
            None => standing,
        },
        None => None,
    }
}

impl<W: Drop> State<W> {
    /// Nothing is under way, and nothing has been counted.
    pub fn make(alloc: Global, predictor: Predictor, weather: W) -> Result<State<W>, Memory>
        ensures { IfOk result (λ s. (t : machine.State) → seen (opened t) s ≡ begun_with t predictor weather) }
    {
        let mesh = Mesh::make(alloc)?;
        Ok(State {
            mesh,
            asked: FrameFlags::none(),
            units: idle_units(),
            works: FrameFlags::none(),
            fetching: FetchUnit::idle(),
            standing: None,
            waits: Flags::none(),
            careful: Flags::none(),
            histories: Histories::none(),
            predictor,
            weather,
            counts: uncounted(),
        })
    }
}

impl<W> State<W> {
    /// A frame's parcels, its requests at data tiles and its results in units are forgotten.
    pub fn forget(&mut self, frame: u8)
        requires { frame < 8 }
        ensures change { (w : Window) → seen w self.new ≡ grid.forget (λ m. m == frame) (seen w self.old) }
        ensures counts { self.new.counts ≡ self.old.counts }
    {
        self.mesh.clear(frame);
        self.asked.clear(frame);
        self.works.clear(frame);
    }

    // So with several frames.
    fn forget_all(&mut self, gone: &[u8])
        requires { All (λ n. n < 8) gone.now }
        ensures change { (w : Window) → seen w self.new ≡ forget_each gone.now (seen w self.old) }
        ensures counts { self.new.counts ≡ self.old.counts }
    {
        for n in 0..gone.len() {
            self.forget(gone[n]);
        }
    }

    // These frames have been flushed, of which the eldest had this history.
    fn flush_under(&mut self, history: u16, gone: &[u8])
        requires frames { All (λ n. n < 8) gone.now }
        requires history { history < 1024 }
        requires room { self.old.counts.flushed + length gone.now < 2 ^ 64 }
        ensures { (w : Window) → seen w self.new ≡ flushed_under history gone.now (seen w self.old) }
    {
        self.forget_all(gone);
        self.predictor.repair(history);
        self.fetching.clear();
        self.standing = None;
        self.counts.flushed += gone.len() as u64;
    }

    /// These frames, the eldest first, have been flushed.
    pub fn flush(&mut self, gone: &[u8])
        requires frames { All (λ n. n < 8) gone.now }
        requires room { self.old.counts.flushed + length gone.now < 2 ^ 64 }
        ensures { (w : Window) (fs : List Frame) → numbers_of fs ≡ gone.now
            → seen w self.new ≡ acting.flushed fs (seen w self.old) }
    {
        if gone.len() > 0 {
            let history = self.histories.get(gone[0]);
            self.flush_under(history, gone);
        }
    }

    /// What is known of the next block ends a fetch of another block, and a flushed block stands no longer.
    pub fn settle(&mut self, known: Option<u32>)
        ensures { (w : Window) → known_next w ≡ known → seen w self.new ≡ acting.settled (seen w self.old) }
    {
        self.fetching.settle(known);
        self.standing = standing_on(known, self.standing);
    }
}
