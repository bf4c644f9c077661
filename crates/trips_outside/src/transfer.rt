ghost use Rattle.std.specs.Prelude.{◌≡◌, ◌≤◌, ◌<◌, length, IfOk, OnOk, OnErr, IsErrOf, IfSome};
ghost use Rattle.trips_outside.specs.Outside.{Rose, Holds, Appended, AppendedPart};

use crate::{Files, Sink};
use std::alloc::{AllocError, Global};
use thiserror::Error;

/// How many bytes are asked for in one call.
const PIECE: usize = 16_384;

/// Why a file was not loaded.
#[derive(Clone, Copy, Debug, PartialEq, Eq, Error)]
pub enum LoadFault {
    #[error("the file could not be read")]
    Fault,
    #[error("the file is too large")]
    TooLarge,
    #[error("out of memory")]
    Memory,
}

impl From<AllocError> for LoadFault {
    ghost use Rattle.trips_outside.specs.declared.transfer.LoadFault.TheVariants.{Memory};

    ghost from_gives = { λ _ e. e ≡ Memory };

    fn from(_: AllocError) -> Self {
        LoadFault::Memory
    }
}

/// Why not all bytes were written.
#[derive(Clone, Copy, Debug, PartialEq, Eq, Error)]
pub enum WriteFault {
    #[error("the output could not be written")]
    Fault,
}

/// All bytes of the name, which are at most `limit`: it is opened once, and read to its end. Want of memory is
/// free; of contents that are not told nothing is claimed.
pub fn load<F: Files>(
    alloc: Global,
    files: &mut F,
    name: &str,
    limit: u64,
) -> Result<Vec<u8>, LoadFault>
    ensures ok { IfOk result (λ all. Holds (F.held files.old name.now) all.items) }
    ensures limit { IfOk result (λ all. length all.items ≤ limit) }
    ensures too_large { IsErrOf result LoadFault.TooLarge
        → IfSome (F.held files.old name.now) (λ held. limit < length held) }
    ensures fault { IsErrOf result LoadFault.Fault
        → Rose (F.faults files.old) (F.faults files.new) }
    ensures kept { F.held files.new ≡ F.held files.old }
    ensures later { F.faults files.old ≤ F.faults files.new }
{
    if files.open(name).is_err() {
        return Err(LoadFault::Fault);
    }
    let mut all = Vec::new(alloc);
    let mut piece = [0u8; PIECE];
    loop {
        let Ok(count) = files.read(&mut piece) else {
            return Err(LoadFault::Fault);
        };
        if count == 0 {
            return Ok(all);
        }
        if count as u64 > limit - all.len() as u64 {
            return Err(LoadFault::TooLarge);
        }
        all.extend_from_slice(&piece[..count])?;
    }
}

/// Writes all the bytes, in as many pieces as the sink takes. After a failure some first part of
/// them was written.
pub fn write_all<K: Sink>(sink: &mut K, bytes: &[u8]) -> Result<(), WriteFault>
    ensures ok { OnOk result (Appended (K.written sink.old) (K.written sink.new) bytes.now) }
    ensures part { AppendedPart (K.written sink.old) (K.written sink.new) bytes.now }
    ensures fault { OnErr result (Rose (K.faults sink.old) (K.faults sink.new)) }
    ensures later { K.faults sink.old ≤ K.faults sink.new }
{
    let mut done = 0;
    while done < bytes.len() {
        let Ok(count) = sink.write(&bytes[done..]) else {
            return Err(WriteFault::Fault);
        };
        done += count;
    }
    Ok(())
}
