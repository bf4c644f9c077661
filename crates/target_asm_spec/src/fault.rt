use std::alloc::AllocError;
use thiserror::Error;

/// The fault of a text that is no image's, each with its line, counted from 1; or want of memory.
#[derive(Clone, Copy, Debug, PartialEq, Eq, Error)]
pub enum AsmFault {
    /// A line that may not stand there.
    #[error("line {0}: syntax")]
    Syntax(u32),
    /// A number outside its field.
    #[error("line {0}: a number outside its field")]
    Range(u32),
    /// A label whose block does not exist.
    #[error("line {0}: a label without a block")]
    Label(u32),
    /// Want of memory.
    #[error("out of memory")]
    Memory,
}

impl From<AllocError> for AsmFault {
    ghost use Rattle.std.specs.Prelude.{◌≡◌};
    ghost use Rattle.target_asm_spec.specs.declared.fault.AsmFault.TheVariants.{Memory};

    ghost from_gives = { λ _ e. e ≡ Memory };

    fn from(_e: AllocError) -> AsmFault {
        AsmFault::Memory
    }
}
