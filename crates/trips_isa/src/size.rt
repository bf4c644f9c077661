//! How many chunks of 128 bytes a block takes.
ghost use Rattle.std.specs.Prelude.{◌≡◌, ◌≤◌, length};
ghost use Rattle.trips_isa.specs.Images.{body_chunks, chunks};

use crate::{Block, Inst};

fn least_body(slots: &[Option<Inst>]) -> u32
    requires { length slots.now ≤ 128 }
    ensures value { result ≡ body_chunks 0 slots.now }
    ensures most { result ≤ 4 }
{
    let mut most = 1;
    for (slot, inst) in slots.iter().enumerate() {
        if inst.is_some() {
            most = slot as u32 / 32 + 1;
        }
    }
    most
}

/// The chunks of a block: its header, and the least number of body chunks, from 1, that holds all its
/// used slots.
pub fn chunks(block: &Block) -> u32
    requires { length block.now.insts.items ≤ 128 }
    ensures value { result ≡ chunks block.now }
    ensures most { result ≤ 5 }
{
    1 + least_body(block.insts.as_slice())
}
