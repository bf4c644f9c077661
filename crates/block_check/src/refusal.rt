use crate::fault::CheckFault;
use std::alloc::AllocError;

/// Why an image is not checked: its first block with a fault and that fault, or want of memory.
#[derive(Clone, Copy, Debug, PartialEq, Eq)]
pub enum ImageRefusal {
    Bad(u32, CheckFault),
    Memory,
}

impl From<AllocError> for ImageRefusal {
    ghost use Rattle.std.specs.Prelude.{◌≡◌};
    ghost use Rattle.block_check.specs.declared.refusal.ImageRefusal.TheVariants.{Memory};

    ghost from_gives = { λ _ refusal. refusal ≡ Memory };

    fn from(_: AllocError) -> ImageRefusal {
        ImageRefusal::Memory
    }
}
