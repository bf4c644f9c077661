//! Predictors that are no help.
ghost use Rattle.std.specs.Prelude.{◌≡◌, [], IfOk};

use block_predict::Predictor;
use std::alloc::Global;
use std::test::Fail;

/// A predictor whose entries all name one exit.
pub fn predictor(alloc: Global, exit: u8) -> Result<Predictor, Fail>
    ensures { IfOk result (λ p. p.stack ≡ []) }
{
    let entries = vec![in alloc; exit; 1024]?;
    match Predictor::wrong(alloc, entries) {
        Ok(predictor) => Ok(predictor),
        Err(memory) => Err(Fail::from(memory)),
    }
}
