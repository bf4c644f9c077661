//! The block whose fetch a cycle would begin.
ghost use Rattle.std.specs.Prelude.{◌≡◌, ◌<◌, All, Some, length, nat_lt, slice_get};
ghost use Rattle.trips_isa.specs.declared.block.Block.{Block};
ghost use Rattle.commit_flush_spec.specs.Frames.{Frame};
ghost use Rattle.commit_flush_spec.specs.inside.Laws.{AreNumbers};
ghost use Rattle.grid_cycle_spec.specs.Grid.{Fetching, numbers_of};
ghost use Rattle.grid_parts.specs.Seen.{seen};
ghost use Rattle.grid_parts.specs.inside.Asked.{frame_of};
ghost use Rattle.grid_parts.specs.inside.Youngest.{IsYoungest};
ghost use Rattle.grid_cycle.specs.Nexts.{next_fetch};
ghost use Rattle.grid_cycle.specs.inside.Follows.{after, any_empty, behind, behind_fetched, guess, idle_fetch};
ghost use Rattle.grid_cycle.specs.inside.Follows.{is_taken};

use frame_state::{block_at, is_serial};
use grid_parts::{Grid, Windows};

// Behind a frame whose exit has not come: the flushed block that stands, else what is predicted.
fn guess<V: Windows, W>(grid: &Grid<V, W>, block: u32) -> Option<u32>
    requires { block < length (V.blocks grid.now.window) }
    ensures { result ≡ guess (V.blocks grid.now.window) grid.now.state.predictor block grid.now.state.standing }
{
    match grid.state.standing {
        Some(standing) => Some(standing),
        None => grid.state.predictor.peek(grid.window.image(), block),
    }
}

// Behind the youngest frame: the block that its exit names, else a guess.
fn behind<V: Windows, W>(grid: &Grid<V, W>, frame: u8, block: u32) -> Option<u32>
    requires frame { frame < 8 }
    requires block { block < length (V.blocks grid.now.window) }
    ensures { (f : Frame) → frame_of frame (V.held grid.now.window).frames ≡ Some f → f.block ≡ block
        → IsYoungest f (V.held grid.now.window).frames → result
        ≡ behind (V.blocks grid.now.window) grid.now.state.predictor grid.now.state.standing f f.exit }
{
    match grid.window.exit_of(frame) {
        Some(_) => grid.window.successor(),
        None => guess(grid, block),
    }
}

// Behind the frames in flight; with none the committed next block.
fn after<V: Windows, W>(grid: &Grid<V, W>, order: &[u8]) -> Option<u32>
    requires order { order.now ≡ numbers_of (V.held grid.now.window).frames }
    requires within { All (λ n. n < 8) order.now }
    requires distinct { AreNumbers order.now }
    ensures { result ≡ after (V.blocks grid.now.window) grid.now.state.predictor grid.now.state.standing
        (V.held grid.now.window).state (V.held grid.now.window).frames }
{
    if order.len() > 0 {
        let frame = order[order.len() - 1];
        match grid.window.block_of(frame) {
            Some(block) => behind(grid, frame, block),
            None => None,
        }
    } else {
        grid.window.successor()
    }
}

// What an idle fetch unit begins to fetch.
fn begun<V: Windows, W>(grid: &Grid<V, W>) -> Option<u32>
    ensures { result ≡ idle_fetch (V.blocks grid.now.window) (seen (V.held grid.now.window) grid.now.state) }
{
    if grid.may_begin() {
        let frames = grid.window.numbers();
        after(grid, frames.as_slice())
    } else {
        None
    }
}

// Whether a frame is not empty once this one is filled.
fn is_taken<V: Windows>(window: &V, filled: u8, frame: u8) -> bool
    requires { frame < 8 }
    ensures { result ≡ is_taken filled (V.held window.now).frames frame }
{
    if window.block_of(frame).is_some() {
        true
    } else {
        filled == frame
    }
}

// Whether a frame is empty once this one is filled.
fn any_empty<V: Windows>(window: &V, filled: u8) -> bool
    ensures { result ≡ any_empty filled (V.held window.now).frames 8 0 }
{
    for frame in 0..8u8 {
        if !is_taken(window, filled, frame) {
            return true;
        }
    }
    false
}

// Whether one more frame may be in flight behind one that is filled now.
fn may_follow<V: Windows, W>(grid: &Grid<V, W>) -> bool
    ensures { result ≡ nat_lt (length (V.held grid.now.window).frames) grid.now.state.predictor.ahead }
{
    grid.window.numbers().len() < grid.state.predictor.ahead() as usize
}

// Behind a block that is fetched now into this frame: what is predicted, where one more frame is empty, the block
// makes no system call, and one more may be in flight.
fn behind_fetched<V: Windows, W>(grid: &Grid<V, W>, block: u32, filled: u8) -> Option<u32>
    requires { block < length (V.blocks grid.now.window) }
    ensures { (b : Block) → slice_get (V.blocks grid.now.window) block ≡ Some b → result
        ≡ behind_fetched (V.blocks grid.now.window) grid.now.state.predictor block filled b
        (V.held grid.now.window).frames }
{
    let image = grid.window.image();
    if any_empty(&grid.window, filled) {
        if is_serial(block_at(image, block)) {
            None
        } else if may_follow(grid) {
            grid.state.predictor.peek(image, block)
        } else {
            None
        }
    } else {
        None
    }
}

// Where the fetch of a block is due: behind that block, or, where its fetch is given up, what an idle unit begins.
fn behind_due<V: Windows, W>(grid: &Grid<V, W>, block: u32) -> Option<u32>
    ensures { (f : Fetching) → grid.now.state.fetching ≡ Some f → f.block ≡ block → f.left ≡ 0 → result
        ≡ next_fetch (V.blocks grid.now.window) (V.budget grid.now.window)
        (seen (V.held grid.now.window) grid.now.state) }
{
    if grid.window.can_fetch(block) {
        match grid.window.lowest_empty() {
            Some(filled) => behind_fetched(grid, block, filled),
            None => None,
        }
    } else {
        begun(grid)
    }
}

/// The block whose fetch part (2) of a cycle would begin; none exactly where it would begin no fetch.
pub fn next_fetch<V: Windows, W>(grid: &Grid<V, W>) -> Option<u32>
    ensures { result ≡ next_fetch (V.blocks grid.now.window) (V.budget grid.now.window)
        (seen (V.held grid.now.window) grid.now.state) }
{
    match grid.state.fetching.due() {
        Some(block) => behind_due(grid, block),
        None => {
            if grid.state.is_idle() {
                begun(grid)
            } else {
                None
            }
        }
    }
}
