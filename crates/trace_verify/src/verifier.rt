//! The verifier of a trace that comes in pieces.
ghost use Rattle.std.specs.Prelude.{◌≡◌, ◌↔◌, ◌≤◌, ◌++◌, [], ℕ, List, Err, Ok, IfErr, IfOk, OnOk};
ghost use Rattle.trips_isa.specs.Machine.{start};
ghost use Rattle.trace_verify.specs.declared.fault.VerifyFault.{VerifyFault};
ghost use Rattle.trace_verify.specs.Traces.{TraceBytes};
ghost use Rattle.trace_verify.specs.FirstFault.{FirstFault};
ghost use Rattle.trace_verify.specs.Reading.{Stopped};
ghost use Rattle.trace_verify.specs.Verifiers.{CompletesTo, FaultsTo, HasAnswered, IsTruncated};
ghost use Rattle.trace_verify.specs.inside.Verifying.{reading_of};

use crate::fault::VerifyFault;
use crate::feeding::feed;
use crate::opening::{opened, told};
use crate::parts::{Parts, Stage};
use crate::taking::go;
use base::Memory;
use block_check::CheckedImage;
use std::alloc::Global;
use std::marker::Model;

/// A verifier of one trace of an image's run: it holds the image, the machine's state, two counts and the bytes of
/// the field that is not whole, and no trace. It takes memory only when it is made.
#[derive(Drop)]
pub struct Verifier {
    parts: Parts,
}

impl Model for Verifier {
    ghost use Rattle.trace_verify.specs.Verifiers.{Verifying};
    ghost use Rattle.trace_verify.specs.inside.Verifying.{reading_of, IsHeld};
    ghost use Rattle.trace_verify.specs.inside.Within.{IsWithin};

    ghost Value = { Verifying };

    ghost view = { λ v. record {
      blocks = v.parts.image.blocks;
      budget = v.parts.budget;
      reading = reading_of v.parts;
    } };

    ghost invariant = { λ v. IsHeld v.parts × IsWithin v.parts };
}

// The fault that was found, where bytes that end too early are none.
fn found(parts: &Parts) -> Result<(), VerifyFault>
    ensures { (f : VerifyFault) → (result ≡ Err f) ↔ ((reading_of parts.now).place ≡ Stopped f) }
{
    match parts.stage {
        Stage::Stopped(fault) => Err(fault),
        Stage::Front => Ok(()),
        Stage::Number => Ok(()),
        Stage::Exit => Ok(()),
        Stage::Slot(_) => Ok(()),
        Stage::Whole => Ok(()),
    }
}

impl Verifier {
    /// A verifier before the first byte of a trace of the image's run on this input, of at most `budget` blocks. Want
    /// of memory is the only error.
    pub fn make(
        alloc: Global,
        image: CheckedImage,
        input: Vec<u8>,
        budget: u32,
    ) -> Result<Verifier, Memory>
        ensures completes { IfOk result (λ v. (bytes : List ℕ) (b : ℕ) → CompletesTo v bytes b
            ↔ (TraceBytes image.blocks image.bytes input.items b bytes × (b ≤ budget))) }
        ensures faults { IfOk result (λ v. (bytes : List ℕ) (f : VerifyFault) → FaultsTo v bytes f
            ↔ FirstFault image.blocks (start image.bytes input.items) budget bytes f) }
        ensures none { IfOk result (λ v. (f : VerifyFault) → HasAnswered v f → ⊥) }
    {
        let _blocks = image.count();
        let parts = opened(alloc, image, input, budget)?;
        Ok(Verifier { parts })
    }

    /// Reads the next piece of the trace. The answer is the first fault as soon as its bytes have come, and from then
    /// on; bytes that end too early are a fault only once `finish` has answered so.
    pub fn feed(&mut self, piece: &[u8]) -> Result<(), VerifyFault>
        ensures completes { (bytes : List ℕ) (b : ℕ) → CompletesTo self.new bytes b
            ↔ CompletesTo self.old (piece.now ++ bytes) b }
        ensures faults { (bytes : List ℕ) (f : VerifyFault) → FaultsTo self.new bytes f
            ↔ FaultsTo self.old (piece.now ++ bytes) f }
        ensures answer { (f : VerifyFault) → (result ≡ Err f)
            ↔ (FaultsTo self.new [] f × (IsTruncated f → HasAnswered self.old f)) }
        ensures answered { (f : VerifyFault) → HasAnswered self.new f ↔ (result ≡ Err f) }
    {
        feed(&mut self.parts, piece);
        found(&self.parts)
    }

    /// Says that no more bytes follow: the answer is the number of blocks of the trace, or its first fault, which
    /// stays.
    pub fn finish(&mut self) -> Result<u32, VerifyFault>
        ensures ok { (b : ℕ) → (result ≡ Ok b) ↔ CompletesTo self.old [] b }
        ensures same { OnOk result (self.new ≡ self.old) }
        ensures err { (f : VerifyFault) → (result ≡ Err f) ↔ FaultsTo self.old [] f }
        ensures stays { IfErr result (λ f. (bytes : List ℕ) → FaultsTo self.new bytes f
            × ((b : ℕ) → CompletesTo self.new bytes b → ⊥)) }
        ensures answered { (f : VerifyFault) → HasAnswered self.new f ↔ (result ≡ Err f) }
    {
        match told(&self.parts) {
            Ok(blocks) => Ok(blocks),
            Err(fault) => {
                go(&mut self.parts, Stage::Stopped(fault));
                Err(fault)
            }
        }
    }
}
