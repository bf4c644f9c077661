//! The loads that wait until the older stores are resolved.
ghost use Rattle.std.specs.Prelude.{◌≡◌, ◌+◌, ◌*◌, ◌%◌, ◌<◌, true, false, slice_index_or, slice_set};
ghost use Rattle.base.specs.inside.Rows.{no_flags};

use base::Flags;
use std::marker::Model;

/// 1,024 flags, one for each remainder of 32 times the block's number plus the load's.
#[derive(Drop)]
pub struct Waiters {
    flags: Flags<1024, 16>,
}

impl Model for Waiters {
    ghost use Rattle.std.specs.Prelude.{Bool, List};

    ghost Value = { List Bool };

    ghost view = { λ w. w.flags };
}

// The flag of a load.
fn flag(block: u32, number: u8) -> usize
    ensures { result ≡ (32 * block + number) % 1024 }
{
    (32 * block as usize + number as usize) % 1024
}

impl Waiters {
    /// No load waits.
    pub fn make() -> Waiters
        ensures { result ≡ no_flags 1024 }
    {
        Waiters {
            flags: Flags::none(),
        }
    }

    /// Whether a load of a block waits.
    pub fn waits(&self, block: u32, number: u8) -> bool
        ensures value { result ≡ slice_index_or self.now ((32 * block + number) % 1024) false }
    {
        self.flags.has(flag(block, number))
    }

    /// Has a load of a block wait from now on.
    pub fn learn(&mut self, block: u32, number: u8)
        ensures value { self.new ≡ slice_set self.old ((32 * block + number) % 1024) true }
    {
        self.flags.put(flag(block, number));
    }
}
