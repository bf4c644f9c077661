//! Save files that are opened and saved again, and states that no run comes to.

use crate::making::{ECHOES, SHOWN, STORED, gone_on, saved};
use machine_save::{SaveFault, open_save, save};
use std::alloc::{AllocError, Global};
use std::process::Abort;
use std::test::Fail;
use trips_requests::Status;

// The bytes of what the bytes save.
fn again(alloc: Global, bytes: &[u8]) -> Result<Vec<u8>, Fail> {
    match open_save(alloc, bytes, 5) {
        Ok((image, arch)) => match save(alloc, &image, &arch) {
            Ok(bytes) => Ok(bytes),
            Err(_) => Err(Fail::from(AllocError)),
        },
        Err(SaveFault::Memory) => Err(Fail::from(AllocError)),
        Err(fault) => Err(Fail::from(fault)),
    }
}

#[test]
fn a_save_of_a_save_is_the_save(rt: HostRuntime) -> Result<(), Fail> {
    let alloc = rt.alloc();
    for at in 1..14u32 {
        let file = saved(&rt, alloc, (ECHOES, b"HAL"), 0, at)?;
        let twice = again(alloc, &file.report)?;
        assert!(rt; twice == file.report, "behind {at}");
    }
    Ok(())
}

#[test]
fn any_state_is_gone_on_with(rt: HostRuntime) -> Result<(), Fail> {
    let alloc = rt.alloc();
    let file = saved(&rt, alloc, (STORED, b""), 0, 1)?;
    // every register is all ones, and the byte 171 is 255
    let mut bytes = Vec::from_slice(alloc, &file.report)?;
    for byte in bytes.iter_mut().skip(16).take(1024) {
        *byte = 255;
    }
    if let Some(byte) = bytes.get_mut(1055) {
        *byte = 255;
    }
    let end = gone_on(&rt, alloc, &bytes, 0, 10, SHOWN)?;
    assert!(rt; end.status == Status::Ended, "{:?}", end.status);
    assert!(rt;
        end.report.starts_with(b"output 0\n\nresult 255\n"),
        "the result"
    );
    assert!(rt;
        end.report.ends_with(b"G[127] ffffffffffffffff\n"),
        "the registers"
    );
    Ok(())
}
