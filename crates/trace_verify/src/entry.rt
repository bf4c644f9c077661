//! Entries of steps.
ghost use Rattle.std.specs.Prelude.{◌≡◌, ◌<◌, ◌++◌, ◌∷◌, [], ℕ, OnOk, length, slice_index_or, None};
ghost use Rattle.byteorder.specs.Endian.{big_bytes};
ghost use Rattle.trips_isa.specs.Machine.{State};
ghost use Rattle.trips_isa.specs.Fits.{FitsBlock};
ghost use Rattle.block_atomic.specs.Told.{TellsSlots};
ghost use Rattle.trace_verify.specs.Spelling.{listed_from, listed_by, listed_bytes, tokens_in, entry_with};

use crate::record::put_slot;
use std::alloc::AllocError;
use trips_isa::{Block, Inst, Token};

// Writes the records of the used slots.
fn put_slots(
    out: &mut Vec<u8>,
    insts: &[Option<Inst>],
    tokens: &[Option<Token>],
    marks: &[u8],
) -> Result<(), AllocError>
    requires slots { length insts.now ≡ 128 }
    requires tokens { length tokens.now ≡ 128 }
    requires marks { length marks.now ≡ 128 }
    requires causes { (j : ℕ) → j < 128 → slice_index_or marks.now j 0 < 4 }
    ensures ok { OnOk result (out.new.items ≡ out.old.items ++ listed_bytes
        (listed_from (λ j. slice_index_or tokens.now j None) (λ j. slice_index_or marks.now j 0) 0 insts.now)) }
{
    for slot in 0..128 {
        put_slot(out, insts[slot], marks[slot], tokens[slot])?;
    }
    Ok(())
}

// Writes a word of 32 bits.
fn put_word(out: &mut Vec<u8>, word: u32) -> Result<(), AllocError>
    ensures ok { OnOk result (out.new.items ≡ out.old.items ++ big_bytes 4 word) }
{
    let bytes = word.to_be_bytes();
    out.extend_from_slice(&bytes)
}

/// Writes the entry of a step of a block, of what each of its slots gives.
pub fn put_entry(
    out: &mut Vec<u8>,
    number: u32,
    block: &Block,
    exit: u8,
    tokens: &[Option<Token>],
    marks: &[u8],
) -> Result<(), AllocError>
    requires fits { FitsBlock block.now }
    requires tokens { length tokens.now ≡ 128 }
    requires marks { length marks.now ≡ 128 }
    requires causes { (j : ℕ) → j < 128 → slice_index_or marks.now j 0 < 4 }
    ensures ok { (s : State) → TellsSlots block.now s.registers s.memory tokens.now marks.now exit
        → OnOk result (out.new.items ≡ out.old.items ++ entry_with number exit
        (listed_by block.now (tokens_in block.now s))) }
{
    put_word(out, number)?;
    out.push(exit)?;
    put_slots(out, block.insts.as_slice(), tokens, marks)
}
