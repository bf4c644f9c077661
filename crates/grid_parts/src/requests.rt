//! Requests at data tiles, and which loads wait.
ghost use Rattle.std.specs.Prelude.{◌≡◌, ◌<◌, ◌||◌, ℕ, Some};
ghost use Rattle.commit_flush_spec.specs.Window.{Window};
ghost use Rattle.grid_cycle_spec.specs.inside.Arrivals as arrivals;
ghost use Rattle.grid_cycle_spec.specs.DataTiles as spec;
ghost use Rattle.grid_parts.specs.Bits.{frame_bit};
ghost use Rattle.grid_parts.specs.Seen.{seen};

use crate::state::State;

// The waiting bit of a load of a block.
fn bit_of(block: u32, number: u8) -> usize
    ensures value { result ≡ spec.bit_of block number }
    ensures within { result < 1024 }
{
    ((32 * (block as u64) + number as u64) % 1024) as usize
}

impl<W> State<W> {
    /// The request with a number stands at its data tile.
    pub fn ask(&mut self, frame: u8, number: u8)
        requires frame { frame < 8 }
        requires number { number < 32 }
        ensures { (w : Window) → seen w self.new ≡ arrivals.asks frame number (seen w self.old) }
    {
        self.asked.put(frame, number);
    }

    /// It stands there no longer.
    pub fn unask(&mut self, frame: u8, number: u8)
        requires frame { frame < 8 }
        requires number { number < 32 }
        ensures { (w : Window) → seen w self.new ≡ spec.unasked frame number (seen w self.old) }
    {
        self.asked.take(frame, number);
    }

    /// Whether the request with a number stands at its data tile.
    pub fn is_asked(&self, frame: u8, number: u8) -> bool
        requires frame { frame < 8 }
        requires number { number < 32 }
        ensures { result ≡ frame_bit self.now.asked.words frame number }
    {
        self.asked.has(frame, number)
    }

    /// Whether a load of a frame with this block waits for older stores: by its bit, or in a careful frame.
    pub fn must_wait(&self, frame: u8, block: u32, number: u8) -> bool
        ensures { (w : Window) → result
            ≡ ((seen w self.now).waits (spec.bit_of block number) || (seen w self.now).careful frame) }
    {
        self.waits.has(bit_of(block, number)) || self.careful.has(frame as usize)
    }

    /// A load waits from now on, and its block stands as the predicted next block.
    pub fn wait_from_now(&mut self, block: u32, number: u8)
        ensures { (w : Window) → seen w self.new ≡ spec.waits_now (Some (block, number)) (seen w self.old) }
    {
        self.waits.put(bit_of(block, number));
        self.standing = Some(block);
    }
}
