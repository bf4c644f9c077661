//! The loads and stores of a frame that wait, and the data tiles that serve them.
ghost use Rattle.std.specs.Prelude.{◌≡◌, ◌<◌, Bool, IfSome, Some};
ghost use Rattle.trips_isa.specs.Alu.{word};
ghost use Rattle.trips_isa.specs.Stores.{address_of};
ghost use Rattle.trips_isa.specs.declared.block.Block.{Block};
ghost use Rattle.trips_isa.specs.declared.block.Inst as instruction;
ghost use Rattle.block_cases.specs.Orders.{slot_of};
ghost use Rattle.commit_flush_spec.specs.Frames.{Frame, at};
ghost use Rattle.frame_state.specs.inside.Held.{as_frame};
ghost use Rattle.grid_cycle_spec.specs.DataTiles.{tile_by};
ghost use Rattle.grid_cycle_spec.specs.Stations.{data_tile_of};
ghost use Rattle.grid_parts.specs.inside.Asked as asked;
ghost use Rattle.grid_parts.specs.inside.Asked.{frame_of, request_at};

use crate::asking::slot_of;
use commit_flush::Window;
use frame_state::Body;
use grid_parts::Request;
use trips_isa::{Inst, Token};

// An immediate as a word.
fn immediate(imm: i32) -> u64
    ensures { result ≡ word imm }
{
    (imm as i64).cast_unsigned()
}

// The address of a load or a store, of the word of its left operand.
fn address_of(inst: Inst, left: u64) -> u64
    ensures { result ≡ address_of inst left }
{
    left.wrapping_add(immediate(inst.imm))
}

// The data tile that serves an address.
fn data_tile(address: u64) -> u8
    ensures value { result ≡ data_tile_of address }
    ensures within { result < 4 }
{
    (address / 64 % 4) as u8
}

/// The data tile that serves the address of a load or a store, of the token at its left operand.
pub fn tile_by(inst: Inst, left: Option<Token>) -> u8
    ensures value { result ≡ tile_by inst left }
    ensures within { result < 4 }
{
    match left {
        Some(Token::Word(word)) => data_tile(address_of(inst, word)),
        Some(Token::Null) => 0,
        None => 0,
    }
}

// The token at the left operand of a slot.
fn left_of(held: &Body, slot: u8) -> Option<Token>
    ensures { result ≡ at held.now.spots slot }
{
    held.spot(slot as usize)
}

/// The slot that waits with a number in a frame.
pub fn waits_at(window: &Window, frame: u8, number: u8) -> Option<u8>
    ensures { result ≡ asked.waits_at frame number window.now.window.frames }
{
    match window.flying(frame) {
        None => None,
        Some((held, _)) => held.asked(number),
    }
}

// What waits, with its data tile.
fn with_tile(held: &Body, request: Option<(u8, Inst)>) -> Option<Request>
    ensures { (b : Block) (sealed : Bool) → result ≡ request_at (as_frame sealed b held.now) request }
{
    match request {
        None => None,
        Some((slot, inst)) => Some(Request {
            slot,
            inst,
            tile: tile_by(inst, left_of(held, slot)),
        }),
    }
}

/// The load or the store that waits with a number in a frame.
pub fn request_of(window: &Window, frame: u8, number: u8) -> Option<Request>
    ensures value { result ≡ asked.request_of frame number window.now.window.frames }
    ensures within { IfSome result (λ q. q.slot < 128) }
{
    window.keeps_invariant();
    match window.flying(frame) {
        None => None,
        Some((held, block)) => with_tile(held, held.request(block, number)),
    }
}

/// The data tile that serves the address at the left operand of a load or a store in a slot.
pub fn tile_at(window: &Window, frame: u8, slot: u8) -> u8
    ensures value { (f : Frame) (i : instruction.Inst) → frame_of frame window.now.window.frames ≡ Some f
        → slot_of f.code slot ≡ Some i → result ≡ tile_by i (at f.spots slot) }
    ensures within { result < 4 }
{
    match window.flying(frame) {
        None => 0,
        Some((held, block)) => match slot_of(block, slot) {
            None => 0,
            Some(inst) => tile_by(inst, left_of(held, slot)),
        },
    }
}
