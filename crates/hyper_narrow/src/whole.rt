//! Programs whose registers all outlast each block.
ghost use Rattle.std.specs.Prelude.{◌≡◌, map, IfOk};
ghost use Rattle.ir_forms.specs.inside.HyperViews.{blocks_of};
ghost use Rattle.hyper_narrow.specs.inside.NarrowedCode.{whole};
ghost use Rattle.hyper_narrow.specs.inside.NarrowedViews.{narrowed_blocks};

use crate::narrowed::{Lasting, NarrowedBlock, NarrowedProgram};
use base::{Items, Memory, Queue};
use ir_forms::HyperProgram;
use std::alloc::Global;

/// A program as it is: every register outlasts each of its blocks.
pub fn whole_program(alloc: Global, program: HyperProgram) -> Result<NarrowedProgram, Memory>
    ensures { IfOk result (λ p. narrowed_blocks p ≡ map whole (blocks_of program)) }
{
    let HyperProgram { blocks } = program;
    let mut rest = Queue::from_items(blocks);
    let mut narrowed = Items::new(alloc);
    while let Some(block) = rest.pop() {
        narrowed.push(NarrowedBlock {
            block,
            lasting: Lasting::Every,
        })?;
    }
    Ok(NarrowedProgram { blocks: narrowed })
}
