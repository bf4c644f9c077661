//! Bytes that come in pieces.

use crate::making::verifier;
use std::alloc::{AllocError, Global};
use std::process::Abort;
use std::test::Fail;
use trace_verify::{Verifier, VerifyFault};

/// The sizes of the pieces.
const SIZES: &[usize] = &[1, 7];

/// What a verifier is asked.
#[derive(Drop)]
pub struct Asked {
    pub name: &'static str,
    pub text: &'static str,
    pub input: &'static [u8],
    pub budget: u32,
    pub want: Result<u32, VerifyFault>,
}

// Feeds bytes in pieces of a size.
fn feed(
    alloc: Global,
    verifier: &mut Verifier,
    bytes: &[u8],
    size: usize,
) -> Result<Result<(), VerifyFault>, AllocError> {
    let mut piece = Vec::new(alloc);
    for byte in bytes {
        piece.push(*byte)?;
        if piece.len() == size {
            let _ = verifier.feed(&piece);
            piece.clear();
        }
    }
    Ok(verifier.feed(&piece))
}

// The answer that a feed gives where this is the verdict: bytes that end too early are no fault yet.
fn feed_answer(want: Result<u32, VerifyFault>) -> Result<(), VerifyFault> {
    match want {
        Ok(_) => Ok(()),
        Err(VerifyFault::Truncated(_)) => Ok(()),
        Err(fault) => Err(fault),
    }
}

/// The verdict on bytes is the wanted one, however they are cut, and a fault stays.
pub fn assert_verdict(
    rt: &impl Abort,
    alloc: Global,
    asked: &Asked,
    bytes: &[u8],
) -> Result<(), Fail> {
    for size in SIZES {
        let mut verifier = verifier(alloc, asked.text, asked.input, asked.budget)?;
        let answer = feed(alloc, &mut verifier, bytes, *size)?;
        assert!(rt;
            answer == feed_answer(asked.want),
            "{}: a feed answers {answer:?}",
            asked.name
        );
        let verdict = verifier.finish();
        assert!(rt;
            verdict == asked.want,
            "{}: in pieces of {size} the verdict is {verdict:?}",
            asked.name
        );
        let again = verifier.finish();
        assert!(rt; again == asked.want, "{}: again {again:?}", asked.name);
    }
    Ok(())
}
