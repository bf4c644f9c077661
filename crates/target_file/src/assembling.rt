//! A user's file as an image.
ghost use Rattle.std.specs.Prelude.{◌≡◌, IfOk, IfErr, MatchResult};
ghost use Rattle.trips_isa.specs.declared.block.Image.{Image};
ghost use Rattle.target_asm_spec.specs.declared.fault.AsmFault.{AsmFault};
ghost use Rattle.target_asm.specs.inside.Taking.{IsMemory, IsMemoryOr};
ghost use Rattle.target_file.specs.Files.{TargetFile, FirstFileFault};

use crate::line_in_file::in_file;
use crate::stripping::bare;
use std::alloc::Global;
use target_asm::{AsmFault, assemble};
use trips_isa::Image;

/// The image of what is left of a file.
fn assemble_bare(alloc: Global, text: &[u8]) -> Result<Image, AsmFault>
    ensures ok { IfOk result (λ image. TargetFile image text.now) }
    ensures err { IfErr result (IsMemoryOr (FirstFileFault text.now)) }
{
    match bare(alloc, text) {
        Err(_) => Err(AsmFault::Memory),
        Ok(left) => match assemble(alloc, &left) {
            Ok(image) => Ok(image),
            Err(fault) => Err(in_file(text, fault)),
        },
    }
}

/// The image of a user's file of target text, or its first fault, with its line in the file (docs/MACHINE.md, "Target
/// text").
///
/// A text that is an image's as it stands is taken so, and no copy of it is made.
pub fn assemble_file(alloc: Global, text: &[u8]) -> Result<Image, AsmFault>
    ensures ok { IfOk result (λ image. TargetFile image text.now) }
    ensures only_ok { (image : Image) → TargetFile image text.now
        → MatchResult result (λ v. v ≡ image) IsMemory }
    ensures err { IfErr result (IsMemoryOr (FirstFileFault text.now)) }
    ensures only_err { (fault : AsmFault) → FirstFileFault text.now fault
        → MatchResult result (λ v. ⊥) (IsMemoryOr (λ e. e ≡ fault)) }
{
    match assemble(alloc, text) {
        Ok(image) => Ok(image),
        Err(AsmFault::Memory) => Err(AsmFault::Memory),
        Err(_) => assemble_bare(alloc, text),
    }
}
