//! `draw` of a target text, of an image and of a text of C.

use crate::tool_tests::{STORED, image_of_text};
use std::process::Abort;
use std::test::Fail;
use trips_run::Status;
use trips_run_harness::answer_of;

// One page was written.
fn assert_page(rt: &impl Abort, status: Status, report: &[u8]) {
    assert!(rt; status == Status::Ended, "{status:?}");
    assert!(rt; report.starts_with(b"<svg xmlns='http://www.w3.org/2000/svg' "));
    assert!(rt; report.ends_with(b"</svg>\n"));
}

#[test]
fn a_target_text_is_drawn_as_its_image_is(rt: HostRuntime) -> Result<(), Fail> {
    let alloc = rt.alloc();
    let image = image_of_text(&rt, alloc, STORED.as_bytes())?;
    let files: &[(&str, &[u8])] = &[("v.tasl", STORED.as_bytes()), ("v.img", &image)];
    let (status, page) = answer_of(alloc, &["draw", "v.tasl", "1"], files)?;
    assert_page(&rt, status, &page);
    let (status, again) = answer_of(alloc, &["draw", "v.img", "1"], files)?;
    assert!(rt; status == Status::Ended && again == page, "another page");
    let (_, other) = answer_of(alloc, &["draw", "v.img", "0"], files)?;
    assert!(rt; other != page, "the same page");
    Ok(())
}

#[test]
fn a_block_that_is_not_there_is_refused(rt: HostRuntime) -> Result<(), Fail> {
    let files: &[(&str, &[u8])] = &[("v.tasl", STORED.as_bytes())];
    let (status, report) = answer_of(rt.alloc(), &["draw", "v.tasl", "3999999"], files)?;
    assert!(rt; status == Status::Refused, "{status:?}");
    assert!(rt; report.as_slice() == b"refused draw 1 NoBlock\n".as_slice());
    Ok(())
}

#[test]
fn a_text_is_compiled_and_drawn(rt: HostRuntime) -> Result<(), Fail> {
    let files: &[(&str, &[u8])] = &[("a.c", b"int main(void) { return 7; }")];
    let (status, page) = answer_of(rt.alloc(), &["draw", "a.c", "0"], files)?;
    assert_page(&rt, status, &page);
    let (status, report) = answer_of(rt.alloc(), &["draw", "a.c", "0"], &[("a.c", b"int x;")])?;
    assert!(rt; status == Status::Refused, "{status:?}");
    assert!(rt; report.as_slice() == b"refused type 5 NoMain\n".as_slice());
    Ok(())
}
