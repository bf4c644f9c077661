//! The image of the program that returns 7, cut at each length, and with each byte changed in turn.
use crate::image_tests::{SEVEN, image_of};
use crate::tool_tests::assert_answer;
use std::alloc::{AllocError, Global};
use std::process::Abort;
use std::test::Fail;
use trips_run::Status;
use trips_run_harness::answer_of;

fn assert_cut(rt: &impl Abort, alloc: Global, image: &[u8]) -> Result<(), AllocError> {
    for size in 0..image.len() {
        let report = format!(in alloc; "refused image 3 Truncated at {size}\n")?;
        let cut = &image[..size];
        assert_answer(rt, alloc, "check", cut, Status::Refused, report.as_bytes())?;
    }
    Ok(())
}

#[test]
fn each_prefix_is_cut_short(rt: HostRuntime) -> Result<(), Fail> {
    let image = image_of(rt.alloc(), 1, 2, SEVEN)?;
    assert_eq!(rt; image.len(), 276);
    assert_cut(&rt, rt.alloc(), &image)?;
    Ok(())
}

// Whether a run of an image may come to this: it ends, is refused, has spent its budget, or has a full stack.
fn may_come(status: Status) -> bool {
    matches!(
        status,
        Status::Ended | Status::Refused | Status::Budget | Status::StackFull
    )
}

fn assert_changed(rt: &impl Abort, alloc: Global, image: &[u8]) -> Result<(), AllocError> {
    for at in 0..image.len() {
        let mut bytes = Vec::from_slice(alloc, image)?;
        if let Some(place) = bytes.get_mut(at) {
            *place = 255;
        }
        let words = ["run", "b.img", "--blocks", "50"];
        let (status, _) = answer_of(alloc, &words, &[("b.img", &bytes)])?;
        assert!(rt; may_come(status), "byte {at}: {status:?}");
    }
    Ok(())
}

#[test]
fn each_byte_may_be_255(rt: HostRuntime) -> Result<(), Fail> {
    let image = image_of(rt.alloc(), 1, 2, SEVEN)?;
    assert_changed(&rt, rt.alloc(), &image)?;
    Ok(())
}
