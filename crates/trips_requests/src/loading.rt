//! The reading of a file.

ghost use Rattle.std.specs.Prelude.{◌≡◌, ◌≤◌, IfOk};
ghost use Rattle.trips_outside.specs.Outside.{Rose};
ghost use Rattle.trips_requests.specs.Table.{IsRead};
ghost use Rattle.trips_requests.specs.inside.Read.{IsWithin};

use base::Items;
use std::alloc::{AllocError, Global};
use trips_outside::{Files, LoadFault, load};

/// What reading a file came to.
#[derive(Drop)]
pub enum Loaded {
    Fault,
    TooLarge,
    Bytes(Items<u8>),
}

/// Reads a file of at most `limit` bytes. Want of memory is the only error.
pub fn read<F: Files>(
    alloc: Global,
    files: &mut F,
    name: &str,
    limit: u64,
) -> Result<Loaded, AllocError>
    ensures ok { IfOk result (IsRead (F.held files.old name.now)
        (Rose (F.faults files.old) (F.faults files.new)) limit) }
    ensures within { IfOk result (IsWithin limit) }
    ensures kept { F.held files.new ≡ F.held files.old }
    ensures later { F.faults files.old ≤ F.faults files.new }
{
    match load(alloc, files, name, limit) {
        Ok(bytes) => Ok(Loaded::Bytes(Items::from_vec(bytes))),
        Err(LoadFault::Fault) => Ok(Loaded::Fault),
        Err(LoadFault::TooLarge) => Ok(Loaded::TooLarge),
        Err(LoadFault::Memory) => Err(AllocError),
    }
}
