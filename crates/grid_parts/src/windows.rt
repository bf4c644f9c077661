//! What the grid asks of a window of frames in flight.
ghost use Rattle.std.specs.Prelude.{◌≡◌, ◌<◌, ◌+◌, ◌*◌, ℕ, Some, false, List, [], All, IfSome, length, slice_index};
ghost use Rattle.trips_isa.specs.declared.block.Block.{Block};
ghost use Rattle.trips_isa.specs.declared.block.Inst as instruction;
ghost use Rattle.block_cases.specs.Orders.{slot_of};
ghost use Rattle.operand_net.specs.Marks.{has_bit};
ghost use Rattle.operand_net.specs.inside.Places.{Once};
ghost use Rattle.commit_flush_spec.specs.Frames.{Frame, at, target};
ghost use Rattle.commit_flush_spec.specs.inside.Laws.{AreNumbers};
ghost use Rattle.commit_flush_spec.specs.Window as event;
ghost use Rattle.commit_flush_spec.specs.Window.{Window, can, happens, lowest_empty};
ghost use Rattle.grid_cycle_spec.specs.Grid.{numbers_of};
ghost use Rattle.grid_cycle_spec.specs.Acting.{is_done, known_next};
ghost use Rattle.grid_cycle_spec.specs.Fetches.{has_room};
ghost use Rattle.grid_cycle_spec.specs.Stations.{home};
ghost use Rattle.grid_cycle_spec.specs.DataTiles.{all_resolved, tile_by, wrong_load};
ghost use Rattle.grid_parts.specs.inside.Asked as asked;
ghost use Rattle.grid_parts.specs.inside.Asked.{frame_of};

use arrayvec::ArrayVec;
use block_check::CheckedImage;
use trips_isa::{Inst, Stepped};

/// A load or a store that waits.
#[derive(Clone, Copy, Debug)]
pub struct Request {
    pub slot: u8,
    pub inst: Inst,
    /// the data tile that serves its address
    pub tile: u8,
}

/// A window of frames in flight, which are named by number, 0 to 7. What is asked of a frame that is not in flight
/// is answered by none, by false or by 0, and what happens to it changes nothing.
pub trait Windows {
    // The window as it is defined, the blocks of its image, and its budget.
    ghost held: { Self → Window };

    ghost blocks: { Self → List Block };

    ghost budget: { Self → ℕ };

    /// The image, whose blocks are the window's.
    fn image(&self) -> &CheckedImage
        ensures { result.now.blocks ≡ blocks self.now };

    /// How many blocks have been committed.
    fn committed(&self) -> u64
        ensures { result ≡ length (held self.now).state.trace };

    /// Whether and how the run has ended.
    fn over(&self) -> Stepped
        ensures { result ≡ (held self.now).over };

    /// The frames in flight, the oldest first.
    fn numbers(&self) -> ArrayVec<u8, 8>
        ensures value { result.items ≡ numbers_of (held self.now).frames }
        ensures within { All (λ n. n < 8) result.items }
        ensures once { Once result.items }
        ensures distinct { AreNumbers result.items };

    /// The lowest frame that is empty.
    fn lowest_empty(&self) -> Option<u8>
        ensures value { result ≡ lowest_empty 8 0 (held self.now).frames }
        ensures within { IfSome result (λ n. n < 8) };

    /// Whether a frame is empty, and the youngest makes no system call.
    fn has_room(&self) -> bool
        ensures { result ≡ has_room (held self.now) };

    /// The next block, where it is known.
    fn successor(&self) -> Option<u32>
        ensures { result ≡ known_next (held self.now) };

    /// The generation of a frame.
    fn generation(&self, frame: u8) -> u64
        requires { frame < 8 }
        ensures { result ≡ slice_index (held self.now).generations frame };

    /// The block of a frame.
    fn block_of(&self, frame: u8) -> Option<u32>
        requires { frame < 8 }
        ensures value { result ≡ asked.block_of frame (held self.now).frames }
        ensures within { IfSome result (λ k. k < length (blocks self.now)) };

    /// The number of the exit that has come in a frame.
    fn exit_of(&self, frame: u8) -> Option<u8>
        requires { frame < 8 }
        ensures { result ≡ asked.exit_of frame (held self.now).frames };

    /// What a slot of a frame's block holds.
    fn inst_of(&self, frame: u8, slot: u8) -> Option<Inst>
        requires frame { frame < 8 }
        requires slot { slot < 128 }
        ensures value { result ≡ asked.inst_of frame slot (held self.now).frames }
        ensures within { IfSome result (λ i. i.number < 32) };

    /// The register of a read of a frame's block.
    fn register_of(&self, frame: u8, read: u8) -> Option<u8>
        requires { frame < 8 }
        ensures { result ≡ asked.register_of frame read (held self.now).frames };

    /// Whether a token is on its way in a place of a frame.
    fn has_token(&self, frame: u8, place: u16) -> bool
        requires frame { frame < 8 }
        requires place { place < 320 }
        ensures { result ≡ asked.has_token frame place (held self.now).frames };

    /// The node to which the token in a place of a frame travels.
    fn home_of(&self, frame: u8, place: u16) -> u8
        requires frame { frame < 8 }
        requires place { place < 320 }
        ensures value { (f : Frame) → frame_of frame (held self.now).frames ≡ Some f
            → result ≡ home f.code (target f.code place) }
        ensures within { result < 25 };

    /// The slot that waits with a number in a frame.
    fn waits_at(&self, frame: u8, number: u8) -> Option<u8>
        requires frame { frame < 8 }
        ensures { result ≡ asked.waits_at frame number (held self.now).frames };

    /// The load or the store that waits with a number in a frame.
    fn request_of(&self, frame: u8, number: u8) -> Option<Request>
        requires frame { frame < 8 }
        requires number { number < 32 }
        ensures value { result ≡ asked.request_of frame number (held self.now).frames }
        ensures within { IfSome result (λ q. q.slot < 128) };

    /// The data tile that serves the address at the left operand of a load or a store in a slot.
    fn tile_at(&self, frame: u8, slot: u8) -> u8
        requires frame { frame < 8 }
        requires slot { slot < 128 }
        ensures value { (f : Frame) (i : instruction.Inst) → frame_of frame (held self.now).frames ≡ Some f
            → slot_of f.code slot ≡ Some i → result ≡ tile_by i (at f.spots slot) }
        ensures within { result < 4 };

    /// Whether all stores before a number of a frame are resolved.
    fn settled(&self, frame: u8, number: u8) -> bool
        requires frame { frame < 8 }
        requires number { number < 32 }
        ensures { result ≡ all_resolved frame number (held self.now).frames };

    /// The frame that the store of this frame and number would flush first, with the lowest number of its wrong
    /// loads; none exactly where that store would flush none or would not be done.
    fn wrong_load(&self, frame: u8, number: u8) -> Option<(u8, u8)>
        requires frame { frame < 8 }
        requires number { number < 32 }
        ensures value { result
            ≡ wrong_load (blocks self.now) (budget self.now) frame number (held self.now) }
        ensures within { IfSome result (λ c. c.0 < 8) };

    /// The slots of a frame that may fire, as bits.
    fn ready(&self, frame: u8) -> u128
        requires { frame < 8 }
        ensures { (s : ℕ) → s < 128 → has_bit result s
            ≡ is_done (can (blocks self.now) (budget self.now) (event.Fire frame s) (held self.now)) };

    /// The reads of a frame that have not been answered, as bits.
    fn unread(&self, frame: u8) -> u32
        requires { frame < 8 }
        ensures { (r : ℕ) → r < 32 → has_bit result r ≡ false
            → is_done (can (blocks self.now) (budget self.now) (event.Read frame r) (held self.now)) ≡ false };

    /// Whether a read can be answered.
    fn can_read(&self, frame: u8, read: u8) -> bool
        requires { frame < 8 }
        ensures { result
            ≡ is_done (can (blocks self.now) (budget self.now) (event.Read frame read) (held self.now)) };

    /// Whether a frame has all outputs.
    fn can_seal(&self, frame: u8) -> bool
        requires { frame < 8 }
        ensures { result ≡ is_done (can (blocks self.now) (budget self.now) (event.Seal frame) (held self.now)) };

    /// Whether the oldest frame is sealed, and the budget is not spent.
    fn can_commit(&self) -> bool
        ensures { result ≡ is_done (can (blocks self.now) (budget self.now) event.Commit (held self.now)) };

    /// Whether a block can be fetched.
    fn can_fetch(&self, block: u32) -> bool
        ensures { result ≡ is_done (can (blocks self.now) (budget self.now) (event.Fetch block) (held self.now)) };

    /// A block is fetched into the lowest empty frame, where that is done.
    fn fetch(&mut self, block: u32)
        ensures after { held self.new
            ≡ happens (blocks self.old) (budget self.old) (event.Fetch block) (held self.old) }
        ensures image { blocks self.new ≡ blocks self.old }
        ensures budget { budget self.new ≡ budget self.old };

    /// A read of a frame is answered.
    fn read(&mut self, frame: u8, read: u8)
        requires { frame < 8 }
        ensures after { held self.new
            ≡ happens (blocks self.old) (budget self.old) (event.Read frame read) (held self.old) }
        ensures image { blocks self.new ≡ blocks self.old }
        ensures budget { budget self.new ≡ budget self.old };

    /// A slot of a frame fires.
    fn fire(&mut self, frame: u8, slot: u8)
        requires frame { frame < 8 }
        requires slot { slot < 128 }
        ensures after { held self.new
            ≡ happens (blocks self.old) (budget self.old) (event.Fire frame slot) (held self.old) }
        ensures image { blocks self.new ≡ blocks self.old }
        ensures budget { budget self.new ≡ budget self.old };

    /// The token in a place of a frame is delivered.
    fn deliver(&mut self, frame: u8, place: u16)
        requires frame { frame < 8 }
        requires place { place < 320 }
        ensures after { held self.new
            ≡ happens (blocks self.old) (budget self.old) (event.Deliver (320 * frame + place)) (held self.old) }
        ensures image { blocks self.new ≡ blocks self.old }
        ensures budget { budget self.new ≡ budget self.old };

    /// The load that waits with a number is answered.
    fn load(&mut self, frame: u8, number: u8)
        requires frame { frame < 8 }
        requires number { number < 32 }
        ensures after { held self.new
            ≡ happens (blocks self.old) (budget self.old) (event.Load frame number) (held self.old) }
        ensures image { blocks self.new ≡ blocks self.old }
        ensures budget { budget self.new ≡ budget self.old };

    /// The store that waits with a number is resolved, and flushes what it makes wrong.
    fn store(&mut self, frame: u8, number: u8)
        requires frame { frame < 8 }
        requires number { number < 32 }
        ensures after { held self.new
            ≡ happens (blocks self.old) (budget self.old) (event.Store frame number) (held self.old) }
        ensures image { blocks self.new ≡ blocks self.old }
        ensures budget { budget self.new ≡ budget self.old };

    /// The branch that waits in a frame makes its exit known, and flushes frames of another block.
    fn exit(&mut self, frame: u8)
        requires { frame < 8 }
        ensures after { held self.new
            ≡ happens (blocks self.old) (budget self.old) (event.Exit frame) (held self.old) }
        ensures image { blocks self.new ≡ blocks self.old }
        ensures budget { budget self.new ≡ budget self.old };

    /// A frame with all outputs is sealed.
    fn seal(&mut self, frame: u8)
        requires { frame < 8 }
        ensures after { held self.new
            ≡ happens (blocks self.old) (budget self.old) (event.Seal frame) (held self.old) }
        ensures image { blocks self.new ≡ blocks self.old }
        ensures budget { budget self.new ≡ budget self.old };

    /// The oldest frame is committed, or traps.
    fn commit(&mut self)
        ensures after { held self.new
            ≡ happens (blocks self.old) (budget self.old) event.Commit (held self.old) }
        ensures image { blocks self.new ≡ blocks self.old }
        ensures budget { budget self.new ≡ budget self.old };

    /// All frames in flight are flushed, also once the run has ended.
    fn empty(&mut self)
        ensures after { held self.new ≡ record (held self.old) { frames = [] } }
        ensures image { blocks self.new ≡ blocks self.old }
        ensures budget { budget self.new ≡ budget self.old };
}
