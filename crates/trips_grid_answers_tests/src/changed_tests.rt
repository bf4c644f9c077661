//! Each prefix of a save file, and each byte of it set to 255.

use crate::making::{STORED, saved};
use block_image::ImageFault;
use machine_save::{SaveFault, open_save, save};
use std::alloc::{AllocError, Global};
use std::process::Abort;
use std::test::Fail;

/// Where the image begins in the save file of `STORED` behind its first block: eight bytes of memory are saved.
const IMAGE: usize = 1060;

// What opening answers, without what it gives.
fn fault_of(alloc: Global, bytes: &[u8]) -> Result<Option<SaveFault>, AllocError> {
    match open_save(alloc, bytes, 5) {
        Ok(_) => Ok(None),
        Err(SaveFault::Memory) => Err(AllocError),
        Err(fault) => Ok(Some(fault)),
    }
}

// The fault of the first bytes of the file.
fn cut_fault(size: usize) -> SaveFault {
    if size < IMAGE {
        SaveFault::Truncated(size as u64)
    } else {
        SaveFault::Image(ImageFault::Truncated((size - IMAGE) as u64))
    }
}

#[test]
fn each_prefix_is_cut_off(rt: HostRuntime) -> Result<(), Fail> {
    let alloc = rt.alloc();
    let file = saved(&rt, alloc, (STORED, b""), 0, 1)?;
    for size in 0..file.report.len() {
        let fault = fault_of(alloc, &file.report[..size])?;
        assert!(rt; fault == Some(cut_fault(size)), "{size} bytes: {fault:?}");
    }
    Ok(())
}

// What opening answers where the byte at a place before the image is 255.
fn front_fault(at: usize) -> Option<SaveFault> {
    match at {
        0..8 => Some(SaveFault::Magic),
        8..12 => Some(SaveFault::Version),
        12..16 => Some(SaveFault::BadField(12)),
        1040..1042 => Some(SaveFault::BadField(1040)),
        1042..1043 => Some(SaveFault::Truncated(1592)),
        1044..1046 => Some(SaveFault::BadField(1044)),
        1046..1047 => Some(SaveFault::Truncated(1592)),
        1056..1058 => Some(SaveFault::BadField(1056)),
        1058..1059 => Some(SaveFault::Truncated(1592)),
        _ => None,
    }
}

// Whether the byte at a place before the image is of the lengths whose change moves what follows.
fn moves_the_rest(at: usize) -> bool {
    at == 1043 || at == 1047 || at == 1059
}

// What is opened has the bytes that were read.
fn is_same(alloc: Global, bytes: &[u8]) -> Result<bool, AllocError> {
    match open_save(alloc, bytes, 5) {
        Ok((image, arch)) => match save(alloc, &image, &arch) {
            Ok(again) => Ok(again.as_slice() == bytes),
            Err(_) => Err(AllocError),
        },
        Err(SaveFault::Memory) => Err(AllocError),
        Err(_) => Ok(true),
    }
}

// All places but most of those in registers, of which any word is one.
fn is_tried(at: usize) -> bool {
    at < 24 || at >= 1032 || at % 64 == 0
}

#[test]
fn each_byte_is_set_to_255(rt: HostRuntime) -> Result<(), Fail> {
    let alloc = rt.alloc();
    let file = saved(&rt, alloc, (STORED, b""), 0, 1)?;
    for at in 0..file.report.len() {
        if !is_tried(at) {
            continue;
        }
        let mut bytes = Vec::from_slice(alloc, &file.report)?;
        if let Some(byte) = bytes.get_mut(at) {
            *byte = 255;
        }
        if at < IMAGE && !moves_the_rest(at) {
            let fault = fault_of(alloc, &bytes)?;
            assert!(rt; fault == front_fault(at), "byte {at}: {fault:?}");
        }
        if at % 16 == 0 {
            assert!(rt; is_same(alloc, &bytes)?, "byte {at}: another spelling");
        }
    }
    Ok(())
}
