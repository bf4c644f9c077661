//! What is asked of the frames in flight, and of the frame of a number.
ghost use Rattle.std.specs.Prelude.{◌≡◌, ◌≤◌, ◌<◌, All, IfSome, length, slice_get};
ghost use Rattle.block_cases.specs.Orders.{slot_of};
ghost use Rattle.operand_net.specs.inside.Places.{Once};
ghost use Rattle.commit_flush_spec.specs.inside.Laws.{AreNumbers};
ghost use Rattle.commit_flush_spec.specs.InFlight.{lowest_empty};
ghost use Rattle.commit_flush_spec.specs.Older.{after_all, committed};
ghost use Rattle.grid_cycle_spec.specs.Fetches.{has_room};
ghost use Rattle.grid_cycle_spec.specs.Grid.{numbers_of};
ghost use Rattle.grid_parts.specs.inside.Asked as asked;
ghost use Rattle.grid_parts.specs.inside.Asked.{register_in};
ghost use Rattle.grid_machine.specs.inside.Shaped.{AreShapes};

use crate::shapes::Shapes;
use arrayvec::ArrayVec;
use commit_flush::Window;
use trips_isa::{Block, Inst};

// At most eight numbers in a place of their own.
fn copied(order: &[u8]) -> ArrayVec<u8, 8>
    requires { length order.now ≤ 8 }
    ensures { result.items ≡ order.now }
{
    let mut numbers = ArrayVec::new();
    let _ = numbers.try_extend_from_slice(order);
    numbers
}

/// The frames in flight, the oldest first.
pub fn numbers(window: &Window) -> ArrayVec<u8, 8>
    ensures value { result.items ≡ numbers_of window.now.window.frames }
    ensures within { All (λ n. n < 8) result.items }
    ensures once { Once result.items }
    ensures distinct { AreNumbers result.items }
{
    window.keeps_invariant();
    copied(window.numbers())
}

/// The lowest frame that is empty.
pub fn lowest_empty(window: &Window) -> Option<u8>
    ensures value { result ≡ lowest_empty 8 0 window.now.window.frames }
    ensures within { IfSome result (λ n. n < 8) }
{
    window.lowest_empty()
}

// Whether the block of the youngest frame may make a system call.
fn is_serial(window: &Window, shapes: &Shapes) -> bool
    requires { AreShapes window.now.image.blocks shapes.now.shapes.items }
    ensures { result ≡ (after_all window.now.window.frames (committed window.now.window.state)).serial }
{
    match window.youngest_block() {
        None => false,
        Some(block) => shapes.at(block).is_serial(),
    }
}

/// Whether a frame is empty, and the youngest makes no system call.
pub fn has_room(window: &Window, shapes: &Shapes) -> bool
    requires { AreShapes window.now.image.blocks shapes.now.shapes.items }
    ensures { result ≡ has_room window.now.window }
{
    lowest_empty(window).is_some() && !is_serial(window, shapes)
}

/// The block of a frame.
pub fn block_of(window: &Window, frame: u8) -> Option<u32>
    ensures value { result ≡ asked.block_of frame window.now.window.frames }
    ensures within { IfSome result (λ k. k < length window.now.image.blocks) }
{
    window.keeps_invariant();
    window.block_of(frame)
}

/// The number of the exit that has come in a frame.
pub fn exit_of(window: &Window, frame: u8) -> Option<u8>
    ensures { result ≡ asked.exit_of frame window.now.window.frames }
{
    window.exit_of(frame)
}

/// What a slot of a block holds.
pub fn slot_of(block: &Block, slot: u8) -> Option<Inst>
    ensures { result ≡ slot_of block.now slot }
{
    let insts = block.insts.as_slice();
    if (slot as usize) < insts.len() {
        insts[slot as usize]
    } else {
        None
    }
}

/// What a slot of a frame's block holds.
pub fn inst_of(window: &Window, frame: u8, slot: u8) -> Option<Inst>
    ensures value { result ≡ asked.inst_of frame slot window.now.window.frames }
    ensures within { IfSome result (λ i. i.number < 32) }
{
    window.keeps_invariant();
    match window.flying(frame) {
        None => None,
        Some((_, block)) => slot_of(block, slot),
    }
}

// The register of a read of a block.
fn register_in(block: &Block, read: u8) -> Option<u8>
    ensures { result ≡ register_in (slice_get block.now.reads.items read) }
{
    let reads = block.reads.as_slice();
    if (read as usize) < reads.len() {
        Some(reads[read as usize].register)
    } else {
        None
    }
}

/// The register of a read of a frame's block.
pub fn register_of(window: &Window, frame: u8, read: u8) -> Option<u8>
    ensures { result ≡ asked.register_of frame read window.now.window.frames }
{
    match window.flying(frame) {
        None => None,
        Some((_, block)) => register_in(block, read),
    }
}
