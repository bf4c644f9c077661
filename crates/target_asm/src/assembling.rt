//! Text as an image.
ghost use Rattle.std.specs.Prelude.{◌≡◌, IfOk, IfErr, MatchResult};
ghost use Rattle.trips_isa.specs.declared.block.Image.{Image};
ghost use Rattle.target_asm_spec.specs.declared.fault.AsmFault.{AsmFault};
ghost use Rattle.target_asm_spec.specs.FirstAsmFault.{FirstAsmFault};
ghost use Rattle.target_asm_spec.specs.Text.{TargetText};
ghost use Rattle.target_asm.specs.inside.Taking.{IsMemory, IsMemoryOr};

use crate::whole::read_image;
use std::alloc::Global;
use target_asm_spec::AsmFault;
use trips_isa::Image;

/// The image of a text, or its first fault, with its line (docs/MACHINE.md, "Target text").
///
/// The text of each image is taken and no other text.
#[tactic(auto, using(target_asm_laws::proofs::Images::exact))]
pub fn assemble(alloc: Global, text: &[u8]) -> Result<Image, AsmFault>
    ensures ok { IfOk result (λ image. TargetText image text.now) }
    ensures only_ok { (image : Image) → TargetText image text.now
        → MatchResult result (λ v. v ≡ image) IsMemory }
    ensures err { IfErr result (IsMemoryOr (FirstAsmFault text.now)) }
    ensures only_err { (fault : AsmFault) → FirstAsmFault text.now fault
        → MatchResult result (λ v. ⊥) (IsMemoryOr (λ e. e ≡ fault)) }
{
    read_image(alloc, text)
}
