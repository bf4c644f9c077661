//! Which request a data tile answers.
ghost use Rattle.std.specs.Prelude.{◌≡◌, ◌<◌, ℕ, false, All, IfSome, length, slice_index_or};
ghost use Rattle.commit_flush_spec.specs.Frames.{numbers};
ghost use Rattle.commit_flush_spec.specs.inside.Laws.{AreNumbers};
ghost use Rattle.grid_cycle_spec.specs.Choosing.{eldest};
ghost use Rattle.grid_cycle_spec.specs.DataTiles as spec;
ghost use Rattle.grid_cycle_spec.specs.Grid.{numbers_of};
ghost use Rattle.grid_parts.specs.Bits.{frame_bit};
ghost use Rattle.grid_parts.specs.Seen.{seen};
ghost use Rattle.grid_parts.specs.inside.Asked.{frame_of, holds_of, request_of, tile_in, store_in};
ghost use Rattle.grid_parts.specs.inside.Choices.{load_goes, lowest_request, served};

use crate::bits::{low_bits, lowest_bit};
use crate::state::State;
use crate::windows::{Request, Windows};
use trips_isa::{Form, form_of};

/// Whether a request of one of some frames stands at its data tile.
pub fn any_asked<W>(state: &State<W>, order: &[u8]) -> bool
    requires { All (λ n. n < 8) order.now }
    ensures { result ≡ false → (j n : ℕ) → j < length order.now
        → frame_bit state.now.asked.words (slice_index_or order.now j 0) n ≡ false }
{
    let mut all: u128 = 0;
    for i in 0..order.len() {
        let frame = order[i];
        let word = state.asked.word(frame);
        all |= word;
    }
    if all == 0 { false } else { true }
}

// The data tile of what waits; tile 0 where nothing does.
fn tile_in(request: Option<Request>) -> u8
    ensures { result ≡ tile_in request }
{
    match request {
        Some(request) => request.tile,
        None => 0,
    }
}

// Whether what waits is a store.
fn store_in(request: Option<Request>) -> bool
    ensures { result ≡ store_in request }
{
    match request {
        Some(request) => match form_of(request.inst.op) {
            Form::Store => true,
            _ => false,
        },
        None => false,
    }
}

// Whether a load of a frame with this block may be answered: at once, or, where it waits, behind all older stores.
fn load_may<V: Windows, W>(window: &V, state: &State<W>, frame: u8, block: u32, number: u8) -> bool
    requires frame { frame < 8 }
    requires number { number < 32 }
    ensures { result ≡ load_goes (seen (V.held window.now) state.now) frame block number }
{
    !state.must_wait(frame, block, number) || window.settled(frame, number)
}

// Whether a data tile may answer the request with a number in a frame with this block.
fn serves<V: Windows, W>(
    window: &V,
    state: &State<W>,
    tile: u8,
    frame: u8,
    block: u32,
    number: u8,
) -> bool
    requires frame { frame < 8 }
    requires number { number < 32 }
    ensures { result ≡ served (seen (V.held window.now) state.now) tile frame block number
        (request_of frame number (V.held window.now).frames) }
{
    let request = window.request_of(frame, number);
    state.is_asked(frame, number)
        && tile_in(request) == tile
        && (store_in(request) || load_may(window, state, frame, block, number))
}

// The same in any frame; none of one that is not in flight.
fn answers<V: Windows, W>(window: &V, state: &State<W>, tile: u8, frame: u8, number: u8) -> bool
    requires frame { frame < 8 }
    requires number { number < 32 }
    ensures { result ≡ holds_of (λ f. spec.answers_request (seen (V.held window.now) state.now) tile f number)
        (frame_of frame (V.held window.now).frames) }
{
    match window.block_of(frame) {
        Some(block) => serves(window, state, tile, frame, block, number),
        None => false,
    }
}

// The lowest request of a frame that a data tile may answer.
fn answerable_in<V: Windows, W>(window: &V, state: &State<W>, tile: u8, frame: u8) -> Option<u8>
    requires frame { frame < 8 }
    ensures value { result ≡ lowest_request (seen (V.held window.now) state.now) tile frame }
    ensures within { IfSome result (λ n. n < 32) }
{
    let word = state.asked.word(frame);
    let asked = low_bits(word);
    let mut number = lowest_bit(asked, 0);
    while number < 32 {
        if answers(window, state, tile, frame, number) {
            return Some(number);
        }
        number = lowest_bit(asked, number + 1);
    }
    None
}

/// The eldest request that a data tile may answer: the frame, and the number. `order` names the frames in flight,
/// the oldest first.
pub fn answerable<V: Windows, W>(
    window: &V,
    state: &State<W>,
    tile: u8,
    order: &[u8],
) -> Option<(u8, u8)>
    requires order { order.now ≡ numbers_of (V.held window.now).frames }
    requires within { All (λ n. n < 8) order.now }
    requires distinct { AreNumbers order.now }
    ensures value { result
        ≡ eldest (spec.answers_request (seen (V.held window.now) state.now) tile) numbers (V.held window.now).frames }
    ensures within { IfSome result (λ q. (q.0 < 8) × (q.1 < 32)) }
{
    for i in 0..order.len() {
        let frame = order[i];
        match answerable_in(window, state, tile, frame) {
            Some(number) => return Some((frame, number)),
            None => {}
        }
    }
    None
}
