//! The reads, writes and slots of a moved block.
ghost use Rattle.std.specs.Prelude.{◌≡◌, ◌≢◌, ◌<◌, ◌≤◌, ℕ, [], length, map, replicate};
ghost use Rattle.std.specs.Prelude.{None, option_map, slice_index_or};
ghost use Rattle.grid_place.specs.Moves.{IsPermutation, goes};
ghost use Rattle.grid_place.specs.inside.Moves.{renamed_read, renamed_inst};

use crate::rename;
use arrayvec::ArrayVec;
use trips_isa::{Inst, ReadSlot};

/// The reads, with their targets renamed.
pub fn reads(out: &mut ArrayVec<ReadSlot, 32>, to: &[u8], reads: &[ReadSlot])
    requires empty { out.old.items ≡ [] }
    requires few { length reads.now ≤ 32 }
    ensures value { out.new.items ≡ map (renamed_read (goes to.now)) reads.now }
{
    for read in reads {
        out.push(rename::renamed_read(to, *read));
    }
}

/// The writes, as they are.
pub fn writes(out: &mut ArrayVec<u8, 32>, writes: &[u8])
    requires empty { out.old.items ≡ [] }
    requires few { length writes.now ≤ 32 }
    ensures value { out.new.items ≡ writes.now }
{
    for register in writes {
        out.push(*register);
    }
}

/// No slot has an instruction.
pub fn empty() -> ArrayVec<Option<Inst>, 128>
    ensures value { result.items ≡ replicate 128 None }
{
    ArrayVec::from([None; 128])
}

// A slot where it goes, if it has an instruction; none is there before.
fn put_slot(out: &mut [Option<Inst>], to: &[u8], s: u8, slot: Option<Inst>)
    requires within { goes to.now s < length out.old }
    requires none { slice_index_or out.old (goes to.now s) None ≡ None }
    ensures there { slice_index_or out.new (goes to.now s) None ≡ option_map (renamed_inst (goes to.now)) slot }
    ensures others { (k : ℕ) → k ≢ goes to.now s
        → slice_index_or out.new k None ≡ slice_index_or out.old k None }
    ensures size { length out.new ≡ length out.old }
{
    match slot {
        Some(inst) => {
            out[rename::goes(to, s) as usize] = Some(rename::renamed_inst(to, inst));
        }
        None => {}
    }
}

/// Each instruction where it goes; none is there before.
pub fn put(out: &mut [Option<Inst>], to: &[u8], insts: &[Option<Inst>])
    requires out { out.old ≡ replicate 128 None }
    requires insts { length insts.now ≡ 128 }
    requires permutes { IsPermutation to.now }
    ensures value { (s : ℕ) → s < 128 → slice_index_or out.new (goes to.now s) None
        ≡ option_map (renamed_inst (goes to.now)) (slice_index_or insts.now s None) }
    ensures size { length out.new ≡ 128 }
{
    for s in 0..128 {
        put_slot(out, to, s as u8, insts[s]);
    }
}
