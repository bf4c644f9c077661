//! The image of a program: its blocks with their labels resolved, and its data without the zeros at the
//! end.
ghost use Rattle.std.specs.Prelude.{◌≡◌, ◌≤◌, All, length, take, IfOk};
ghost use Rattle.c_compile_layout.specs.inside.Emitted.{image_of};
ghost use Rattle.c_compile_layout.specs.inside.Layouts.{AreFew};
ghost use Rattle.c_compile_layout.specs.inside.Standings.{trimmed};

use crate::link_all;
use base::{Items, Memory};
use std::alloc::Global;
use trips_isa::{Block, Image};

// How many bytes there are before the zeros at the end.
fn kept(bytes: &[u8]) -> usize
    ensures within { result ≤ length bytes.now }
    ensures value { take result bytes.now ≡ trimmed bytes.now }
{
    let mut end = 0;
    for k in 0..bytes.len() {
        if bytes[k] != 0 {
            end = k + 1;
        }
    }
    end
}

/// The image of blocks that hold labels, and of the data that a program starts from. Want of memory is
/// the only error.
pub fn image(alloc: Global, blocks: Items<Block>, bytes: &[u8]) -> Result<Image, Memory>
    requires sizes { All (λ b. length b.insts.items ≤ 128) blocks }
    requires few { AreFew blocks }
    ensures ok { IfOk result (λ i. i ≡ image_of blocks bytes.now) }
{
    let bytes = Items::from_slice(alloc, &bytes[..kept(bytes)])?;
    let mut blocks = blocks.into_vec();
    link_all(alloc, blocks.as_mut_slice())?;
    Ok(Image {
        blocks: Items::from_vec(blocks),
        bytes,
    })
}
