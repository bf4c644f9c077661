//! What the checker answers to the rows, to large blocks, and to images of two blocks.

use crate::making::{chain, first_bad, image_of, many_cases};
use crate::rows::{CYCLES, EXITS, LEAVES, NUMBERS, Row, STAYS, TARGETS, TOKENS};
use block_check::{CheckFault, CheckedImage};
use std::alloc::Global;
use std::process::Abort;
use std::test::Fail;

/// Each block of these has this answer.
fn assert_rows(rt: &impl Abort, alloc: Global, rows: &[Row]) -> Result<(), Fail> {
    for (name, mask, lines, want) in rows {
        let bad = first_bad(alloc, *mask, *lines)?;
        assert_eq!(rt; bad, want.map(|fault| (0, fault)), "{name}");
    }
    Ok(())
}

#[test]
fn each_block_has_its_lowest_fault_or_none(rt: HostRuntime) -> Result<(), Fail> {
    for rows in [TARGETS, NUMBERS, CYCLES, TOKENS, EXITS] {
        assert_rows(&rt, rt.alloc(), rows)?;
    }
    Ok(())
}

#[test]
fn counts_cases_to_256_and_follows_a_chain(rt: HostRuntime) -> Result<(), Fail> {
    let alloc = rt.alloc();
    let most = many_cases(alloc, 8)?;
    assert_eq!(rt; first_bad(alloc, 0, most.as_str())?, None, "256 cases");
    let more = many_cases(alloc, 9)?;
    let fault = Some((0, CheckFault::TooManyCases));
    assert_eq!(rt; first_bad(alloc, 0, more.as_str())?, fault, "512 cases");
    let chain = chain(alloc)?;
    assert_eq!(rt;
        first_bad(alloc, 0, chain.as_str())?,
        None,
        "a chain of movs"
    );
    let bad = Some((1, CheckFault::NoExit));
    assert_eq!(rt; first_bad(alloc, 0, STAYS)?, bad, "the second block");
    Ok(())
}

/// What a checked image tells of its blocks: their number, their first chunks, and a copy.
fn assert_finds(rt: &impl Abort, alloc: Global, checked: &CheckedImage) {
    assert_eq!(rt; checked.count(), 2);
    assert_eq!(rt; checked.bytes().len(), 0);
    for (chunk, want) in [(0, Some(0)), (1, None), (2, None), (3, Some(1)), (5, None)] {
        assert!(rt;
            checked.starting_at(chunk) == want,
            "the block at chunk {chunk}"
        );
    }
    assert_eq!(rt; checked.address(1), 3);
    assert_eq!(rt; checked.at(1).block().insts.len(), 128);
    let copy = checked.copy_out(alloc).expect(rt, "memory");
    assert_eq!(rt; copy.blocks.len(), 2);
}

#[test]
fn finds_the_blocks_of_an_image(rt: HostRuntime) -> Result<(), Fail> {
    let alloc = rt.alloc();
    let mut lines = many_cases(alloc, 8)?;
    lines.push_str(LEAVES)?;
    let image = image_of(alloc, 0, lines.as_str())?;
    match CheckedImage::make(alloc, image) {
        Ok(checked) => assert_finds(&rt, alloc, &checked),
        Err(_) => panic!(&rt; "the image is refused"),
    }
    Ok(())
}
