//! The first and the last of a verifier.
ghost use Rattle.std.specs.Prelude.{◌≡◌, IfOk, MatchResult};
ghost use Rattle.trips_isa.specs.Machine.{start};
ghost use Rattle.trace_verify.specs.Reading.{unread};
ghost use Rattle.trace_verify.specs.Verdicts.{Verified, Refused, verdict};
ghost use Rattle.trace_verify.specs.inside.Verifying.{reading_of, IsHeld};
ghost use Rattle.trace_verify.specs.inside.Within.{IsWithin};

use crate::fault::VerifyFault;
use crate::parts::{Parts, Stage};
use arrayvec::ArrayVec;
use base::Memory;
use block_atomic::Arch;
use block_check::CheckedImage;
use std::alloc::Global;
use trips_isa::Stepped;

/// The parts before the first byte. Want of memory is the only error.
pub fn opened(
    alloc: Global,
    image: CheckedImage,
    input: Vec<u8>,
    budget: u32,
) -> Result<Parts, Memory>
    ensures held { IfOk result IsHeld }
    ensures within { IfOk result IsWithin }
    ensures read { IfOk result (λ p. reading_of p ≡ unread (start image.bytes input.items)) }
    ensures image { IfOk result (λ p. p.image ≡ image) }
    ensures budget { IfOk result (λ p. p.budget ≡ budget) }
{
    let _blocks = image.count();
    let arch = Arch::make(alloc, &image, input, budget)?;
    Ok(Parts {
        image,
        arch,
        budget,
        answer: Stepped::Went,
        count: 0,
        at: 0,
        stage: Stage::Front,
        seen: ArrayVec::new(),
        exit: 0,
        taken: 0,
        tokens: [None; 128],
        marks: [0; 128],
    })
}

/// What the bytes so far come to, where no more follow: the number of blocks of the trace, or the first fault.
pub fn told(parts: &Parts) -> Result<u32, VerifyFault>
    ensures value { MatchResult result (λ b. verdict (reading_of parts.now) ≡ Verified b)
        (λ f. verdict (reading_of parts.now) ≡ Refused f) }
{
    match parts.stage {
        Stage::Whole => Ok(parts.count),
        Stage::Stopped(fault) => Err(fault),
        Stage::Front => Err(VerifyFault::Truncated(parts.at)),
        Stage::Number => Err(VerifyFault::Truncated(parts.at)),
        Stage::Exit => Err(VerifyFault::Truncated(parts.at)),
        Stage::Slot(_) => Err(VerifyFault::Truncated(parts.at)),
    }
}
