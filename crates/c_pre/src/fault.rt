//! Why the directives of a text are refused.

ghost use Rattle.std.specs.Prelude.{◌≡◌};
ghost use Rattle.c_pre.specs.declared.fault.PreFault.TheVariants.{Memory};

use std::alloc::{AllocError, AllocFailed};
use thiserror::Error;

/// Why the directives of a text, or its calls of the library, are refused, each with the offset of its place in the
/// text; or want of memory.
#[derive(Clone, Copy, Debug, PartialEq, Eq, Error)]
pub enum PreFault {
    /// An `#else` or `#endif` without its group, at its `#`, or a group that is not closed, at that of its `#ifdef`
    /// or `#ifndef`.
    #[error("byte {0}: a group that is not closed, or not opened")]
    Unbalanced(u32),
    /// A macro's name that is defined again with another body, at the name, or at the line that includes it.
    #[error("byte {0}: a macro that has another body")]
    Redefined(u32),
    /// A directive's line that has not the tokens that it should have, at its `#`.
    #[error("byte {0}: a directive's line that is not one")]
    BadDefine(u32),
    /// The token that makes more than 8,192 with the names that are replaced, or with the library's.
    #[error("byte {0}: too many tokens")]
    TooManyTokens(u32),
    /// A format that `printf` does not have, at its literal.
    #[error("byte {0}: a format that is not one")]
    Format(u32),
    /// Want of memory.
    #[error("out of memory")]
    Memory,
}

impl From<AllocError> for PreFault {
    ghost from_gives = { λ _ e. e ≡ Memory };

    fn from(_e: AllocError) -> PreFault {
        PreFault::Memory
    }
}

impl<T: Drop> From<AllocFailed<T>> for PreFault {
    ghost from_gives = { λ _ e. e ≡ Memory };

    fn from(_e: AllocFailed<T>) -> PreFault {
        PreFault::Memory
    }
}
