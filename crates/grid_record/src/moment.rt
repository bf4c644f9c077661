//! A grid between two cycles.
ghost use Rattle.std.specs.Prelude.{◌≡◌, ◌++◌, ℕ, OnOk, Some, slice_index};
ghost use Rattle.byteorder.specs.Endian.{big_bytes};
ghost use Rattle.grid_machine.specs.Endings.{ended, ending_of, is_going};
ghost use Rattle.grid_parts.specs.Seen.{seen};
ghost use Rattle.grid_record.specs.Moments.{block_bytes, counts_bytes, moment_bytes, standing_byte};
ghost use Rattle.grid_record.specs.Moments.{state_bytes, window_bytes};
ghost use Rattle.grid_record.specs.Pieces.{pieces};

use crate::frames::put_frames;
use crate::numbers::{put_byte, put_long, put_word};
use block_atomic::Arch;
use commit_flush::Window;
use grid_machine::GridWindow;
use grid_parts::Grid;
use operand_net::PcgWeather;
use std::alloc::AllocError;
use trips_isa::{Counts, Stepped};

/// Whether a run goes on.
pub fn is_going(window: &Window) -> bool
    ensures { result ≡ is_going window.now.budget window.now.window }
{
    match window.over() {
        Stepped::Went => window.arch().trace().len() < window.budget() as usize,
        Stepped::Ended => false,
        Stepped::StackFull => false,
        Stepped::Trap(_) => false,
    }
}

// How a run has ended whose last step came to this, and that does not go on.
fn ending_byte(over: Stepped) -> u8
    ensures { (next : ℕ) → result ≡ standing_byte (Some (ending_of over next)) }
{
    match over {
        Stepped::Went => 3,
        Stepped::Ended => 1,
        Stepped::StackFull => 2,
        Stepped::Trap(_) => 4,
    }
}

// How a run stands.
fn standing_byte(window: &Window) -> u8
    ensures { result ≡ standing_byte (ended window.now.budget window.now.window) }
{
    if is_going(window) {
        0
    } else {
        ending_byte(window.over())
    }
}

// Writes the counts.
fn put_counts(out: &mut Vec<u8>, counts: Counts) -> Result<(), AllocError>
    ensures ok { OnOk result (out.new.items ≡ out.old.items ++ counts_bytes counts) }
{
    put_long(out, counts.cycles)?;
    put_long(out, counts.fetched)?;
    put_long(out, counts.committed)?;
    put_long(out, counts.flushed)
}

// Writes a block, if there is one.
fn put_block(out: &mut Vec<u8>, block: Option<u32>) -> Result<(), AllocError>
    ensures ok { OnOk result (out.new.items ≡ out.old.items ++ block_bytes block) }
{
    match block {
        None => {
            put_byte(out, 0)?;
            put_word(out, 0)
        }
        Some(number) => {
            put_byte(out, 1)?;
            put_word(out, number)
        }
    }
}

// Writes how the run stands, which frames are in flight, and the flushed block that stands.
fn put_window(out: &mut Vec<u8>, window: &Window, standing: Option<u32>) -> Result<(), AllocError>
    ensures ok { OnOk result (out.new.items ≡ out.old.items
        ++ window_bytes window.now.budget window.now.window standing) }
{
    put_byte(out, standing_byte(window))?;
    put_byte(out, window.in_flight())?;
    out.extend_from_slice(window.numbers())?;
    put_block(out, standing)
}

// Writes the registers.
fn put_registers(out: &mut Vec<u8>, arch: &Arch) -> Result<(), AllocError>
    ensures ok { OnOk result (out.new.items ≡ out.old.items
        ++ pieces (λ r. big_bytes 8 (slice_index arch.now.state.registers r)) 128) }
{
    for register in 0..128u8 {
        put_long(out, arch.register(register))?;
    }
    Ok(())
}

// Writes the committed state.
fn put_state(out: &mut Vec<u8>, window: &Window) -> Result<(), AllocError>
    ensures ok { OnOk result (out.new.items ≡ out.old.items ++ state_bytes window.now.window) }
{
    let arch = window.arch();
    put_registers(out, arch)?;
    put_long(out, arch.output().len() as u64)
}

/// Writes a grid between two cycles.
pub fn put_moment(out: &mut Vec<u8>, grid: &Grid<GridWindow, PcgWeather>) -> Result<(), AllocError>
    ensures ok { OnOk result (out.new.items ≡ out.old.items
        ++ moment_bytes grid.now.window.image.blocks grid.now.window.budget
        (seen grid.now.window.window grid.now.state)) }
{
    let window = grid.window.window();
    put_byte(out, 1)?;
    put_counts(out, grid.state.counts)?;
    put_window(out, window, grid.state.standing)?;
    put_frames(out, grid)?;
    put_state(out, window)
}
