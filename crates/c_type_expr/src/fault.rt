//! Why a tree has no typing.

ghost use Rattle.std.specs.Prelude.{◌≡◌};
ghost use Rattle.c_type_expr.specs.declared.fault.TypeFault.TheVariants.{Memory};

use std::alloc::{AllocError, AllocFailed};
use thiserror::Error;

/// Why a tree has no typing, with the offset of the node that fails.
#[derive(Clone, Copy, Debug, PartialEq, Eq, Error)]
pub enum TypeFault {
    #[error("byte {0}: an unknown name")]
    Unknown(u32),
    #[error("byte {0}: a name declared twice")]
    Twice(u32),
    #[error("byte {0}: not what stands here")]
    Mismatch(u32),
    #[error("byte {0}: too few or too many arguments")]
    Arity(u32),
    #[error("no main of the form int main(void)")]
    NoMain,
    #[error("byte {0}: too many scalars")]
    TooManyScalars(u32),
    #[error("byte {0}: too many parameters")]
    TooManyParams(u32),
    #[error("byte {0}: an expression that needs too many temporaries")]
    Need(u32),
    #[error("byte {0}: too many bytes")]
    TooLarge(u32),
    #[error("out of memory")]
    Memory,
}

impl From<AllocError> for TypeFault {
    ghost from_gives = { λ _ e. e ≡ Memory };

    fn from(_e: AllocError) -> TypeFault {
        TypeFault::Memory
    }
}

impl<T: Drop> From<AllocFailed<T>> for TypeFault {
    ghost from_gives = { λ _ e. e ≡ Memory };

    fn from(_e: AllocFailed<T>) -> TypeFault {
        TypeFault::Memory
    }
}
