//! The reading of a trace's file: in pieces, each of which goes to the verifier.

ghost use Rattle.std.specs.Prelude.{◌≡◌, ◌≤◌, IfOk};
ghost use Rattle.trips_outside.specs.Outside.{Rose};
ghost use Rattle.trace_verify.specs.declared.fault.VerifyFault.{VerifyFault};
ghost use Rattle.trace_verify.specs.Verifiers.{HasAnswered};
ghost use Rattle.trips_trace_answers.specs.inside.Judging.{IsEnd, IsJudged, IsJudgedBy};

use base::{Items, Memory};
use block_check::CheckedImage;
use std::alloc::Global;
use trace_verify::{Verifier, VerifyFault};
use trips_outside::Files;
use trips_requests::MOST_RECORDED;

/// How many bytes are asked for in one call.
const PIECE: usize = 65_536;

/// What a trace's file came to.
#[derive(Clone, Copy, Debug, PartialEq, Eq)]
pub enum Judged {
    /// the trace of so many blocks
    Verified(u32),
    /// no trace of the run
    Refused(VerifyFault),
    /// it could not be read
    Unread,
}

// What the verifier says where no more bytes follow.
fn last(verifier: &mut Verifier) -> Judged
    ensures { IsEnd verifier.old result }
{
    match verifier.finish() {
        Ok(blocks) => Judged::Verified(blocks),
        Err(fault) => Judged::Refused(fault),
    }
}

// Reads on in the file that is open, up to its end or to the first fault.
fn judged_rest<F: Files>(files: &mut F, verifier: &mut Verifier) -> Result<Judged, Memory>
    requires fresh { (f : VerifyFault) → HasAnswered verifier.old f → ⊥ }
    ensures judged { IfOk result (IsJudgedBy (F.ahead files.old) verifier.old
        (Rose (F.faults files.old) (F.faults files.new))) }
    ensures kept { F.held files.new ≡ F.held files.old }
    ensures later { F.faults files.old ≤ F.faults files.new }
{
    let mut piece = [0u8; PIECE];
    let mut pieces = 0u64;
    while pieces < u64::MAX {
        let Ok(count) = files.read(&mut piece) else {
            return Ok(Judged::Unread);
        };
        if count == 0 {
            return Ok(last(verifier));
        }
        if let Err(fault) = verifier.feed(&piece[..count]) {
            return Ok(Judged::Refused(fault));
        }
        pieces += 1;
    }
    Err(Memory)
}

/// What the file of a name comes to as the trace of an image's run on an input. Want of memory is the only error.
pub fn judged_file<F: Files>(
    alloc: Global,
    files: &mut F,
    name: &str,
    image: CheckedImage,
    input: Items<u8>,
) -> Result<Judged, Memory>
    ensures judged { IfOk result (IsJudged image input (F.held files.old name.now)
        (Rose (F.faults files.old) (F.faults files.new))) }
    ensures kept { F.held files.new ≡ F.held files.old }
    ensures later { F.faults files.old ≤ F.faults files.new }
{
    let mut verifier = Verifier::make(alloc, image, input.into_vec(), MOST_RECORDED)?;
    match files.open(name) {
        Ok(()) => judged_rest(files, &mut verifier),
        Err(_) => Ok(Judged::Unread),
    }
}
