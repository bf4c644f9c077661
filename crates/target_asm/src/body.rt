//! The blocks of a text, one after the other.
ghost use Rattle.std.specs.Prelude.{◌≡◌, ◌≤◌, ◌<◌, ◌^◌, length, All, IfOk};
ghost use Rattle.target_asm_spec.specs.inside.Whole.{body_in};
ghost use Rattle.target_asm.specs.inside.Taking.{ReturnsOrMemory, seen};

use crate::block::one_block;
use crate::branches::Known;
use std::alloc::Global;
use target_asm_spec::AsmFault;
use trips_isa::{Block, chunks};

/// The blocks of a text from the first on, to its end, where it is known where they begin or not.
#[tactic(auto, unfolding(target_asm_spec::specs::inside::Whole::body_in))]
pub fn body(alloc: Global, known: Known<'_>, line: u32, text: &[u8]) -> Result<Vec<Block>, AsmFault>
    requires { line < 2 ^ 30 }
    ensures value { ReturnsOrMemory (λ v. v.items) result (body_in (seen known.entry) line text.now) }
    ensures short { IfOk result (λ v. All (λ b. length b.insts.items ≤ 128) v.items) }
    ensures few { IfOk result (λ v. length v.items ≤ 262145) }
{
    let mut blocks = Vec::new(alloc);
    let mut here: u32 = 0;
    let mut next = line;
    let mut rest = text;
    for k in 0..262145 {
        if rest.is_empty() {
            return Ok(blocks);
        }
        match one_block(known, k, here, next, rest) {
            Err(fault) => return Err(fault),
            Ok(taken) => {
                here += chunks(&taken.block);
                next = taken.line;
                rest = taken.rest;
                if let Err(_) = blocks.push(taken.block) {
                    return Err(AsmFault::Memory);
                }
            }
        }
    }
    Err(AsmFault::Syntax(next))
}
