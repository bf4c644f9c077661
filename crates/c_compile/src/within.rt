//! The image of a C text by the plan of one room, for those who ask how often a block is refused.
ghost use Rattle.std.specs.Prelude.{◌+◌, ◌<◌, ◌≤◌, length, IfErr, IfOk, IfSome};
ghost use Rattle.c_front.specs.Refusals.{MayBeRefused};
ghost use Rattle.ir_forms.specs.inside.FlatFits.{FitsProgram, code_blocks_of_all};
ghost use Rattle.ir_forms.specs.inside.FlatViews.{program_of};
ghost use Rattle.c_compile_layout.specs.inside.Emitted.{most_blocks};
ghost use Rattle.c_compile_laws.specs.inside.Compiled.{IsCompiled};
ghost use Rattle.c_compile.specs.Images.{IsImageOf};

use crate::attempts::{Tried, image_within};
use crate::lower_text;
use base::Memory;
use c_front::Refusal;
use grid_place::Placing;
use ir_forms::FlatProgram;
use reg_assign::assign;
use std::alloc::Global;

// What the plan of one room comes to, of a flat program.
fn tried(alloc: Global, flat: FlatProgram, placing: Placing, room: u8) -> Result<Tried, Memory>
    requires fits { FitsProgram (program_of flat) }
    requires few { 3 + code_blocks_of_all (program_of flat).functions ≤ most_blocks }
    ensures ok { IfOk result (λ t. IfSome t.image (λ i.
        IsCompiled (program_of flat) placing 0 i)) }
    ensures few { IfOk result (λ t. t.count.refused ≤ t.count.blocks) }
{
    let assigned = assign(alloc, flat)?;
    image_within(alloc, &assigned, placing, room)
}

/// What a C text comes to by the one plan in which a block of each function has so much room, or the text's first
/// refusal.
///
/// The image, where there is one, does what the text means, as that of `compile` does, which tries such plans one
/// after the other. There is none where a pass refuses a block as too big, or the checker one with too many cases;
/// the count tells how many blocks the plan makes and how many of them a pass refuses. With no room each place is
/// cut.
pub fn compile_within(
    alloc: Global,
    text: &[u8],
    placing: Placing,
    room: u8,
) -> Result<Tried, Refusal>
    requires short { length text.now < 4_294_967_295 }
    ensures ok { IfOk result (λ t. IfSome t.image (λ i. IsImageOf text.now placing 1 i)) }
    ensures few { IfOk result (λ t. t.count.refused ≤ t.count.blocks) }
    ensures err { IfErr result (MayBeRefused text.now) }
{
    let flat = lower_text(alloc, text)?;
    match tried(alloc, flat, placing, room) {
        Ok(tried) => Ok(tried),
        Err(_) => Err(Refusal::Memory),
    }
}
