//! The tokens of a frame that are on their way, and where they go.
ghost use Rattle.std.specs.Prelude.{◌≡◌, ◌<◌, Some, slice_index_or};
ghost use Rattle.commit_flush_spec.specs.Frames.{Frame, target};
ghost use Rattle.grid_cycle_spec.specs.Stations as stations;
ghost use Rattle.grid_parts.specs.inside.Asked as asked;
ghost use Rattle.grid_parts.specs.inside.Asked.{frame_of};

use commit_flush::Window;
use trips_isa::{Block, FIRST_WRITE};

/// Whether a token is on its way in a place of a frame.
pub fn has_token(window: &Window, frame: u8, place: u16) -> bool
    ensures { result ≡ asked.has_token frame place window.now.window.frames }
{
    match window.flying(frame) {
        None => false,
        Some((held, _)) => held.has_token(place as usize),
    }
}

// The node of the tile on which a slot lies.
fn tile_node(slot: u8) -> u8
    ensures value { result ≡ stations.tile_node (stations.tile_of slot) }
    ensures within { result < 25 }
{
    let tile = slot % 16;
    5 * (1 + tile / 4) + (1 + tile % 4)
}

// The node of the bank in which a register is.
fn bank_node(register: u8) -> u8
    ensures value { result ≡ stations.bank_node (stations.bank_of register) }
    ensures within { result < 25 }
{
    1 + register % 4
}

// The register of a write of a block, 0 where there is none.
fn write_register(block: &Block, write: usize) -> u8
    ensures { result ≡ slice_index_or block.now.writes.items write 0 }
{
    let writes = block.writes.as_slice();
    if write < writes.len() {
        writes[write]
    } else {
        0
    }
}

// The node at which a place of a block is.
fn home(block: &Block, place: usize) -> u8
    ensures value { result ≡ stations.home block.now place }
    ensures within { result < 25 }
{
    if place < FIRST_WRITE as usize {
        tile_node((place % 128) as u8)
    } else {
        bank_node(write_register(block, place - FIRST_WRITE as usize))
    }
}

/// The node to which the token in a place of a frame travels.
pub fn home_of(window: &Window, frame: u8, place: u16) -> u8
    ensures value { (f : Frame) → frame_of frame window.now.window.frames ≡ Some f
        → result ≡ stations.home f.code (target f.code place) }
    ensures within { result < 25 }
{
    match window.flying(frame) {
        None => 0,
        Some((held, block)) => home(block, held.target_of(block, place)),
    }
}
