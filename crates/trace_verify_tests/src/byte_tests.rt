//! Each byte of a trace by hand, changed, each beginning of it, and what follows it.
ghost use Rattle.std.specs.Prelude.{◌<◌, length};

use crate::by_hand::{Byte, MARKED, front, put_end, put_marked, put_quotient, put_row, values};
use crate::making::{ROW, recorded, verifier};
use std::alloc::{AllocError, Global};
use std::process::Abort;
use std::test::Fail;
use trace_verify::VerifyFault::{Faulting, Past, TooLong, Trailing, Truncated, WrongBlock};
use trace_verify::{Verifier, VerifyFault};

// Feeds bytes one by one, the lowest bit of one of them turned, up to the first fault and the place where it is told.
fn first_fault(
    verifier: &mut Verifier,
    trace: &[Byte],
    turned: usize,
) -> Option<(usize, VerifyFault)> {
    for place in 0..trace.len() {
        let value = trace[place].value;
        let byte = if place == turned { value ^ 1 } else { value };
        if let Err(fault) = verifier.feed(&[byte]) {
            return Some((place, fault));
        }
    }
    None
}

// A byte that is changed is told at its place as the fault of its field.
fn assert_turned(
    rt: &impl Abort,
    alloc: Global,
    text: &str,
    budget: u32,
    trace: &[Byte],
    turned: usize,
) -> Result<(), Fail>
    requires { turned < length trace.now }
{
    let mut verifier = verifier(alloc, text, b"", budget)?;
    let found = first_fault(&mut verifier, trace, turned);
    let Byte { fault, told, .. } = trace[turned];
    assert!(rt;
        found == Some((told, fault)),
        "byte {turned}: {found:?} for {fault:?} at {told}"
    );
    assert!(rt; verifier.finish() == Err(fault), "byte {turned}");
    Ok(())
}

// The beginning of a trace of so many bytes ends too early.
fn assert_beginning(
    rt: &impl Abort,
    alloc: Global,
    text: &str,
    budget: u32,
    bytes: &[u8],
    count: usize,
) -> Result<(), Fail>
    requires { count < length bytes.now }
{
    let mut verifier = verifier(alloc, text, b"", budget)?;
    assert!(rt; verifier.feed(&bytes[..count]) == Ok(()), "{count} bytes");
    assert!(rt;
        verifier.finish() == Err(Truncated(count as u64)),
        "{count} bytes"
    );
    Ok(())
}

// A byte behind the trace is one too many.
fn assert_byte_behind(
    rt: &impl Abort,
    alloc: Global,
    text: &str,
    budget: u32,
    bytes: &[u8],
) -> Result<(), Fail> {
    let mut verifier = verifier(alloc, text, b"", budget)?;
    assert!(rt; verifier.feed(bytes) == Ok(()));
    let behind = Trailing(bytes.len() as u64);
    assert!(rt; verifier.feed(b"x") == Err(behind), "{behind:?}");
    Ok(())
}

// A trace by hand is the recorded one; each of its bytes, or of every so many, is judged, and each of its beginnings.
fn assert_trace(
    rt: &impl Abort,
    alloc: Global,
    text: &str,
    budget: u32,
    trace: &[Byte],
    every: usize,
) -> Result<(), Fail>
    requires { 0 < every }
{
    let bytes = values(alloc, trace)?;
    let (written, _ending) = recorded(alloc, text, b"", budget)?;
    assert!(rt;
        written.as_slice() == bytes.as_slice(),
        "recorded {written:?}"
    );
    for place in 0..trace.len() {
        if place % every == 0 {
            assert_turned(rt, alloc, text, budget, trace, place)?;
        }
    }
    for count in 0..bytes.len() {
        if count % every == 0 {
            assert_beginning(rt, alloc, text, budget, &bytes, count)?;
        }
    }
    assert_byte_behind(rt, alloc, text, budget, &bytes)
}

#[test]
fn bytes_of_a_run_that_ends(rt: HostRuntime) -> Result<(), Fail> {
    let alloc = rt.alloc();
    let mut trace = front(alloc)?;
    put_row(&mut trace)?;
    put_end(&mut trace, Past(1))?;
    assert_trace(&rt, alloc, ROW, 9, &trace, 1)
}

// The trace of so many steps of a run that goes on.
fn marked_trace(alloc: Global, blocks: u8) -> Result<Vec<Byte>, AllocError> {
    let mut trace = front(alloc)?;
    for entry in 0..blocks {
        put_marked(&mut trace, entry)?;
    }
    put_end(&mut trace, WrongBlock(blocks as u32))?;
    Ok(trace)
}

#[test]
fn bytes_of_one_block(rt: HostRuntime) -> Result<(), Fail> {
    let trace = marked_trace(rt.alloc(), 1)?;
    assert_trace(&rt, rt.alloc(), MARKED, 1, &trace, 1)
}

#[test]
fn bytes_of_two_blocks(rt: HostRuntime) -> Result<(), Fail> {
    let trace = marked_trace(rt.alloc(), 2)?;
    assert_trace(&rt, rt.alloc(), MARKED, 2, &trace, 3)
}

#[test]
fn bytes_of_fifty_blocks(rt: HostRuntime) -> Result<(), Fail> {
    let trace = marked_trace(rt.alloc(), 50)?;
    assert_trace(&rt, rt.alloc(), MARKED, 50, &trace, 53)
}

// The last entry is one more than the budget has: told with its number.
fn assert_too_long(rt: &impl Abort, alloc: Global, blocks: u8) -> Result<(), Fail> {
    let mut trace = front(alloc)?;
    for entry in 0..blocks {
        put_marked(&mut trace, entry)?;
    }
    let place = trace.len();
    put_marked(&mut trace, blocks)?;
    let mut verifier = verifier(alloc, MARKED, b"", blocks as u32)?;
    let found = first_fault(&mut verifier, &trace, trace.len());
    let wanted = Some((place.wrapping_add(3), TooLong(blocks as u32)));
    assert!(rt; found == wanted, "{found:?} behind {blocks} blocks");
    Ok(())
}

// The last entry is one of a block that faults: told with its last byte.
fn assert_faulting(rt: &impl Abort, alloc: Global, blocks: u8) -> Result<(), Fail> {
    let text = format!(in alloc;
        "trips 1
data 0
block 0 mask 00000000
R[0] read G[5] N[0,0] N[1,0]
W[0] write G[5]
W[1] write G[6]
N[0] addi 1 W[0]
N[1] xori {blocks} N[3,1]
N[2] genu 9 N[3,0]
N[3] divu W[1]
N[4] bro 0 @0
"
    )?;
    let mut trace = front(alloc)?;
    for entry in 0..blocks {
        put_quotient(&mut trace, entry, blocks)?;
    }
    put_quotient(&mut trace, blocks, blocks)?;
    let mut verifier = verifier(alloc, &text, b"", 99)?;
    let found = first_fault(&mut verifier, &trace, trace.len());
    let wanted = Some((trace.len().saturating_sub(1), Faulting(blocks as u32)));
    assert!(rt; found == wanted, "{found:?} behind {blocks} blocks");
    Ok(())
}

#[test]
fn entries_that_are_one_too_many(rt: HostRuntime) -> Result<(), Fail> {
    for blocks in [1, 2, 50] {
        assert_too_long(&rt, rt.alloc(), blocks)?;
        assert_faulting(&rt, rt.alloc(), blocks)?;
    }
    Ok(())
}
