//! The lines of events.
ghost use Rattle.std.specs.Prelude.{◌≡◌, ◌++◌, OnOk};
ghost use Rattle.grid_log.specs.declared.event.Event.TheVariants as event;
ghost use Rattle.trips_event_lines.specs.Lines.{event_text, line, lines};

use crate::words::{
    put_cause, put_named, put_named_if, put_named_word, put_operation, put_three, put_two,
    put_word_if,
};
use grid_log::{Cause, Entry, Event};
use isa_table::put_number;
use std::alloc::AllocError;
use trips_isa::Op;

// A fetch of a block begins.
fn put_begin(out: &mut Vec<u8>, block: u32, careful: bool) -> Result<(), AllocError>
    ensures { OnOk result (out.new.items ≡ out.old.items ++ event_text (event.Begins block careful)) }
{
    put_named_word(out, b" begin block ", block as u64, careful, b" careful")
}

// A tile issues the operation of a slot.
fn put_fire(
    out: &mut Vec<u8>,
    tile: u8,
    frame: u8,
    slot: u8,
    op: Option<Op>,
) -> Result<(), AllocError>
    ensures { OnOk result (out.new.items ≡ out.old.items ++ event_text (event.Fires tile frame slot op)) }
{
    let _ = tile;
    put_two(out, b" fire frame ", frame as u64, b" slot ", slot as u64)?;
    put_operation(out, op)
}

// A data tile resolves a store.
fn put_store(
    out: &mut Vec<u8>,
    tile: u8,
    frame: u8,
    number: u8,
    null: bool,
) -> Result<(), AllocError>
    ensures { OnOk result (out.new.items ≡ out.old.items ++ event_text (event.Stores tile frame number null)) }
{
    put_three(
        out,
        b" store tile ",
        tile as u64,
        b" frame ",
        frame as u64,
        b" number ",
        number as u64,
    )?;
    put_word_if(out, null, b" null")
}

// The branch of a frame comes to the control tile.
fn put_exit(out: &mut Vec<u8>, frame: u8, block: Option<u32>) -> Result<(), AllocError>
    ensures { OnOk result (out.new.items ≡ out.old.items ++ event_text (event.Leaves frame block)) }
{
    put_named(out, b" exit frame ", frame as u64)?;
    put_named_if(out, b" block ", block)
}

// A frame is flushed.
fn put_flush(out: &mut Vec<u8>, frame: u8, cause: Cause) -> Result<(), AllocError>
    ensures { OnOk result (out.new.items ≡ out.old.items ++ event_text (event.Flushes frame cause)) }
{
    put_named(out, b" flush frame ", frame as u64)?;
    put_cause(out, cause)
}

// Writes what happens.
fn put_event(out: &mut Vec<u8>, event: Event) -> Result<(), AllocError>
    ensures { OnOk result (out.new.items ≡ out.old.items ++ event_text event) }
{
    match event {
        Event::Begins { block, careful } => put_begin(out, block, careful),
        Event::Predicts { frame, block } => put_two(
            out,
            b" predict block ",
            block as u64,
            b" behind frame ",
            frame as u64,
        ),
        Event::GivesUp { block } => put_named(out, b" give up block ", block as u64),
        Event::Fetches { frame, block } => put_two(
            out,
            b" fetch frame ",
            frame as u64,
            b" block ",
            block as u64,
        ),
        Event::Reads { bank, frame, read } => put_three(
            out,
            b" read bank ",
            bank as u64,
            b" frame ",
            frame as u64,
            b" read ",
            read as u64,
        ),
        Event::Fires {
            tile,
            frame,
            slot,
            op,
        } => put_fire(out, tile, frame, slot, op),
        Event::Delivers { frame, place } => put_two(
            out,
            b" deliver frame ",
            frame as u64,
            b" place ",
            place as u64,
        ),
        Event::Loads {
            tile,
            frame,
            number,
        } => put_three(
            out,
            b" load tile ",
            tile as u64,
            b" frame ",
            frame as u64,
            b" number ",
            number as u64,
        ),
        Event::Stores {
            tile,
            frame,
            number,
            null,
        } => put_store(out, tile, frame, number, null),
        Event::Leaves { frame, block } => put_exit(out, frame, block),
        Event::Seals { frame } => put_named(out, b" seal frame ", frame as u64),
        Event::Commits { frame, block } => put_two(
            out,
            b" commit frame ",
            frame as u64,
            b" block ",
            block as u64,
        ),
        Event::Traps { frame, block } => put_two(
            out,
            b" trap frame ",
            frame as u64,
            b" block ",
            block as u64,
        ),
        Event::Flushes { frame, cause } => put_flush(out, frame, cause),
    }
}

/// Writes the line of an entry.
#[tactic(auto, unfolding(crate::specs::Lines::line))]
pub fn put_line(out: &mut Vec<u8>, entry: Entry) -> Result<(), AllocError>
    ensures ok { OnOk result (out.new.items ≡ out.old.items ++ line entry) }
{
    out.extend_from_slice(b"cycle ")?;
    put_number(out, entry.cycle)?;
    put_event(out, entry.event)?;
    out.push(b'\n')?;
    Ok(())
}

/// Writes a line for each entry, in order.
pub fn put_lines(out: &mut Vec<u8>, entries: &[Entry]) -> Result<(), AllocError>
    ensures ok { OnOk result (out.new.items ≡ out.old.items ++ lines entries.now) }
{
    for entry in entries {
        put_line(out, *entry)?;
    }
    Ok(())
}
