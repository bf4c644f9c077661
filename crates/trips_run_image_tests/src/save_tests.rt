//! `save` and `resume` of a target text and of an image: the file, its second part, and broken files.

use crate::tool_tests::{STORED, image_of_text};
use std::alloc::{AllocError, Global};
use std::process::Abort;
use std::test::Fail;
use trips_run::Status;
use trips_run_harness::answer_of;

// The save file of `STORED` behind its first block.
fn saved(rt: &impl Abort, alloc: Global) -> Result<Vec<u8>, AllocError> {
    let files: &[(&str, &[u8])] = &[("v.tasl", STORED.as_bytes())];
    let (status, file) = answer_of(alloc, &["save", "v.tasl", "1"], files)?;
    assert!(rt; status == Status::Ended, "{status:?}");
    Ok(file)
}

// What `resume` answers to these bytes.
fn resumed(alloc: Global, bytes: &[u8]) -> Result<(Status, Vec<u8>), AllocError> {
    answer_of(alloc, &["resume", "s"], &[("s", bytes)])
}

#[test]
fn a_target_text_is_saved_and_gone_on_with(rt: HostRuntime) -> Result<(), Fail> {
    let alloc = rt.alloc();
    let file = saved(&rt, alloc)?;
    assert!(rt; file.len() == 1592, "{} bytes", file.len());
    assert!(rt; file.get(12..16) == Some(&[0, 0, 0, 1]), "the next block");
    let (status, report) = resumed(alloc, &file)?;
    assert!(rt; status == Status::Ended, "{status:?}");
    assert!(rt;
        report.as_slice() == b"output 0\n\nresult 171\n".as_slice(),
        "the report"
    );
    Ok(())
}

#[test]
fn an_image_is_saved_as_its_text_is(rt: HostRuntime) -> Result<(), Fail> {
    let alloc = rt.alloc();
    let image = image_of_text(&rt, alloc, STORED.as_bytes())?;
    let files: &[(&str, &[u8])] = &[("v.img", &image)];
    let (status, file) = answer_of(alloc, &["save", "v.img", "1", "--seed", "4"], files)?;
    assert!(rt; status == Status::Ended, "{status:?}");
    assert!(rt; file == saved(&rt, alloc)?, "another file");
    Ok(())
}

#[test]
fn a_run_that_is_over_is_not_saved(rt: HostRuntime) -> Result<(), Fail> {
    let files: &[(&str, &[u8])] = &[("v.tasl", STORED.as_bytes())];
    for at in ["2", "3", "4000000"] {
        let (status, report) = answer_of(rt.alloc(), &["save", "v.tasl", at], files)?;
        assert!(rt; status == Status::Refused, "{at}: {status:?}");
        assert!(rt;
            report.as_slice() == b"refused save 1 Over\n".as_slice(),
            "{at}"
        );
    }
    Ok(())
}

// The first hundred bytes of a file that has more.
fn first_part(file: &[u8]) -> &[u8] {
    match file.get(0..100) {
        Some(part) => part,
        None => file,
    }
}

/// A byte that stands at a place instead, and the report.
type Row = (usize, u8, &'static str);

const ROWS: &[Row] = &[
    (0, b'X', "refused save 11 Magic\n"),
    (11, 2, "refused save 12 Version\n"),
    (15, 2, "refused save 14 BadField at 12\n"),
    (1042, 255, "refused save 13 Truncated at 1592\n"),
    (1044, 1, "refused save 14 BadField at 1044\n"),
    (1055, 0, "refused save 14 BadField at 1055\n"),
    (1060, b'X', "refused save 15 Image\n"),
    (1075, 0, "refused save 15 Image at 12\n"),
];

#[test]
fn broken_files_are_refused(rt: HostRuntime) -> Result<(), Fail> {
    let alloc = rt.alloc();
    let file = saved(&rt, alloc)?;
    for (at, byte, wanted) in ROWS {
        let mut bytes = Vec::from_slice(alloc, &file)?;
        if let Some(old) = bytes.get_mut(*at) {
            *old = *byte;
        }
        let (status, report) = resumed(alloc, &bytes)?;
        assert!(rt; status == Status::Refused, "{at}: {status:?}");
        assert!(rt; report.as_slice() == wanted.as_bytes(), "{at}");
    }
    let (status, report) = resumed(alloc, first_part(&file))?;
    assert!(rt; status == Status::Refused, "{status:?}");
    assert!(rt;
        report.as_slice() == b"refused save 13 Truncated at 100\n".as_slice(),
        "100 bytes"
    );
    Ok(())
}
