ghost use Rattle.std.specs.Prelude.{◌≡◌};
ghost use Rattle.c_parse.specs.declared.fault.Stopped.TheVariants.{Memory};

use std::alloc::{AllocError, AllocFailed};

/// Why the tokens have no tree. The parser stays at the token where this shows.
#[derive(Clone, Copy, Debug, PartialEq, Eq)]
pub enum Stopped {
    Syntax,
    TooDeep,
    Memory,
}

impl From<AllocError> for Stopped {
    ghost from_gives = { λ _ e. e ≡ Memory };

    fn from(_e: AllocError) -> Stopped {
        Stopped::Memory
    }
}

impl<T: Drop> From<AllocFailed<T>> for Stopped {
    ghost from_gives = { λ _ e. e ≡ Memory };

    fn from(_e: AllocFailed<T>) -> Stopped {
        Stopped::Memory
    }
}
