//! The drawing of a block.

ghost use Rattle.std.specs.Prelude.{◌≡◌, ◌++◌, OnOk};
ghost use Rattle.block_draw.specs.Drawing.{title, arcs_of, boxes_of, block_drawing};

use crate::arcs::{put_reads_arcs, put_slots_arcs};
use crate::boxes::{put_reads, put_slots, put_writes};
use crate::page::{put_page_foot, put_page_head};
use crate::shapes::{close_letters, open_letters};
use isa_table::put_number;
use std::alloc::AllocError;
use trips_isa::Block;

// Writes the block's number.
#[tactic(auto, unfolding(crate::specs::Drawing::title, crate::specs::Shapes::letters_text))]
fn put_title(out: &mut Vec<u8>, number: u32) -> Result<(), AllocError>
    ensures ok { OnOk result (out.new.items ≡ out.old.items ++ title number) }
{
    open_letters(out, b"title", 610, 24)?;
    out.extend_from_slice(b"block ")?;
    put_number(out, number as u64)?;
    close_letters(out)
}

// Writes all arcs of a block.
#[tactic(auto, unfolding(crate::specs::Drawing::arcs_of))]
fn put_arcs(out: &mut Vec<u8>, block: &Block) -> Result<(), AllocError>
    ensures ok { OnOk result (out.new.items ≡ out.old.items ++ arcs_of block.now) }
{
    put_reads_arcs(out, block.reads.as_slice())?;
    put_slots_arcs(out, block.insts.as_slice())
}

// Writes all boxes of a block.
#[tactic(auto, unfolding(crate::specs::Drawing::boxes_of))]
fn put_boxes(out: &mut Vec<u8>, block: &Block, goals: &[u32]) -> Result<(), AllocError>
    ensures ok { OnOk result (out.new.items ≡ out.old.items ++ boxes_of block.now goals.now) }
{
    put_reads(out, block.reads.as_slice())?;
    put_writes(out, block.writes.as_slice())?;
    put_slots(out, goals, block.insts.as_slice())
}

/// Writes a block of this number as a page, where `goals` tells for each slot to which block its offset leads.
#[tactic(auto, unfolding(crate::specs::Drawing::block_drawing))]
pub fn draw(out: &mut Vec<u8>, number: u32, block: &Block, goals: &[u32]) -> Result<(), AllocError>
    ensures ok { OnOk result (out.new.items ≡ out.old.items ++ block_drawing number block.now goals.now) }
{
    put_page_head(out)?;
    put_title(out, number)?;
    put_arcs(out, block)?;
    put_boxes(out, block, goals)?;
    put_page_foot(out)
}
