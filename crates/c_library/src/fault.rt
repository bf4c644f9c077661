//! Why the tokens of a text are refused.

ghost use Rattle.std.specs.Prelude.{◌≡◌};
ghost use Rattle.c_library.specs.declared.fault.LibraryFault.TheVariants.{Memory};

use std::alloc::{AllocError, AllocFailed};
use thiserror::Error;

/// Why the tokens of a text are refused, each with the offset of its place in the text; or want of memory.
#[derive(Clone, Copy, Debug, PartialEq, Eq, Error)]
pub enum LibraryFault {
    /// A format that `printf` does not have, at its literal.
    #[error("byte {0}: a format that is not one")]
    Format(u32),
    /// The token that makes more than 8,192 with those of the library and of string literals.
    #[error("byte {0}: too many tokens")]
    TooManyTokens(u32),
    /// Want of memory.
    #[error("out of memory")]
    Memory,
}

impl From<AllocError> for LibraryFault {
    ghost from_gives = { λ _ e. e ≡ Memory };

    fn from(_e: AllocError) -> LibraryFault {
        LibraryFault::Memory
    }
}

impl<T: Drop> From<AllocFailed<T>> for LibraryFault {
    ghost from_gives = { λ _ e. e ≡ Memory };

    fn from(_e: AllocFailed<T>) -> LibraryFault {
        LibraryFault::Memory
    }
}
