//! Tokens and requests of a window's frames that enter the mesh.
ghost use Rattle.std.specs.Prelude.{◌≡◌, ◌<◌};
ghost use Rattle.grid_cycle_spec.specs.Choosing.{with_frame};
ghost use Rattle.grid_cycle_spec.specs.Sending as spec;
ghost use Rattle.grid_parts.specs.Seen.{seen};

use crate::state::State;
use crate::windows::Windows;

/// The request of a frame's place enters the mesh at one node, and travels to another.
pub fn enter_request<V: Windows, W>(
    window: &V,
    state: &mut State<W>,
    frame: u8,
    place: u16,
    from: u8,
    to: u8,
)
    requires frame { frame < 8 }
    requires place { place < 320 }
    requires from { from < 25 }
    requires to { to < 25 }
    ensures { seen (V.held window.now) state.new
        ≡ spec.enters frame place from to (seen (V.held window.now) state.old) }
{
    let generation = window.generation(frame);
    state.enter(frame, generation, place, from, to);
}

// The token in a place of a frame enters at a node, where there is one there.
fn enter_token<V: Windows, W>(window: &V, state: &mut State<W>, from: u8, frame: u8, place: u16)
    requires frame { frame < 8 }
    requires place { place < 320 }
    requires from { from < 25 }
    ensures { seen (V.held window.now) state.new
        ≡ with_frame frame (λ f g. spec.enters_if from f place g) (V.held window.now).frames
        (seen (V.held window.now) state.old) }
{
    if window.has_token(frame, place) {
        let to = window.home_of(frame, place);
        enter_request(window, state, frame, place, from, to);
    }
}

/// Both tokens of a node enter, the place of the first one being given.
pub fn enter_both<V: Windows, W>(window: &V, state: &mut State<W>, from: u8, frame: u8, place: u16)
    requires frame { frame < 8 }
    requires place { place < 319 }
    requires from { from < 25 }
    ensures { seen (V.held window.now) state.new
        ≡ with_frame frame (λ f g. spec.enter_both from f place g) (V.held window.now).frames
        (seen (V.held window.now) state.old) }
{
    enter_token(window, state, from, frame, place);
    enter_token(window, state, from, frame, place + 1);
}
