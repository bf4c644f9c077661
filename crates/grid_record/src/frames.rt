//! The eight frames.
ghost use Rattle.std.specs.Prelude.{◌≡◌, ◌<◌, ◌++◌, ◌∷◌, [], OnOk};
ghost use Rattle.trips_isa.specs.declared.block.Block.{Block};
ghost use Rattle.operand_net.specs.Marks.{has_bit};
ghost use Rattle.commit_flush_spec.specs.Frames.{Frame};
ghost use Rattle.commit_flush_spec.specs.Window as event;
ghost use Rattle.commit_flush.specs.inside.Places.{frame_of};
ghost use Rattle.frame_state.specs.inside.Held.{as_frame};
ghost use Rattle.grid_cycle_spec.specs.Acting.{may};
ghost use Rattle.grid_parts.specs.Seen.{seen};
ghost use Rattle.grid_record.specs.Moments.{exit_byte, flying_bytes, frame_bytes, frames_bytes, phase_byte};

use crate::numbers::{put_byte, put_word};
use crate::slots::{put_slots, weight};
use crate::tokens::put_tokens;
use commit_flush::Window;
use frame_state::Body;
use grid_machine::GridWindow;
use grid_parts::{Grid, Windows};
use operand_net::PcgWeather;
use std::alloc::AllocError;

// A frame that is sealed or runs.
fn phase_byte(sealed: bool) -> u8
    ensures { result ≡ phase_byte sealed }
{
    if sealed { 2 } else { 1 }
}

// The number of the exit that has come.
fn exit_byte(held: &Body) -> u8
    ensures { result ≡ exit_byte held.now.exit }
{
    match held.exit() {
        None => 255,
        Some(exit) => exit.exit,
    }
}

// Whether a frame in flight is sealed.
fn is_sealed(window: &Window, frame: u8) -> bool
    ensures { (f : Frame) → frame_of frame window.now.window.frames ≡ Some f → result ≡ f.sealed }
{
    match window.running(frame) {
        None => true,
        Some(_) => false,
    }
}

// Writes what a frame in flight holds.
fn put_flying(
    out: &mut Vec<u8>,
    held: &Body,
    sealed: bool,
    careful: bool,
    ready: u128,
) -> Result<(), AllocError>
    ensures ok { (b : Block) → OnOk result (out.new.items ≡ out.old.items
        ++ flying_bytes careful (has_bit ready) (as_frame sealed b held.now)) }
{
    put_byte(out, phase_byte(sealed))?;
    put_byte(out, weight(1, careful))?;
    put_byte(out, exit_byte(held))?;
    put_word(out, held.block())?;
    put_slots(out, held, ready)?;
    put_tokens(out, held)
}

// Writes the frame of a number.
fn put_frame(
    out: &mut Vec<u8>,
    grid: &Grid<GridWindow, PcgWeather>,
    frame: u8,
) -> Result<(), AllocError>
    requires { frame < 8 }
    ensures ok { OnOk result (out.new.items ≡ out.old.items
        ++ frame_bytes ((seen grid.now.window.window grid.now.state).careful frame)
        (λ s. may grid.now.window.image.blocks grid.now.window.budget (event.Fire frame s)
        (seen grid.now.window.window grid.now.state)) (frame_of frame grid.now.window.window.frames)) }
{
    let window = grid.window.window();
    match window.flying(frame) {
        None => put_byte(out, 0),
        Some((held, _)) => {
            let sealed = is_sealed(window, frame);
            let careful = grid.state.careful.has(frame as usize);
            let ready = grid.window.ready(frame);
            put_flying(out, held, sealed, careful, ready)
        }
    }
}

/// Writes the eight frames by number.
pub fn put_frames(out: &mut Vec<u8>, grid: &Grid<GridWindow, PcgWeather>) -> Result<(), AllocError>
    ensures ok { OnOk result (out.new.items ≡ out.old.items
        ++ frames_bytes grid.now.window.image.blocks grid.now.window.budget
        (seen grid.now.window.window grid.now.state)) }
{
    for frame in 0..8u8 {
        put_frame(out, grid, frame)?;
    }
    Ok(())
}
