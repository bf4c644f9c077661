//! Texts with the image or the fault that docs/MACHINE.md, "Target text", gives them.

use std::alloc::{AllocError, Global};
use std::process::Abort;
use std::test::Fail;
use target_asm::AsmFault::{Label, Range, Syntax};
use target_asm::{AsmFault, assemble, print};

/// The divide makes the store late.
pub const DIVIDE: &[u8] = b"trips 1
data 0
block 0 mask 00000001
N[0] genu 7 N[2,0]
N[1] genu 1 N[2,1]
N[2] divu N[4,0]
N[3] genu 171 N[4,1]
N[4] sb 0 0
N[5] bro 0 @1
block 1 mask 00000000
W[0] write G[0]
W[1] write G[3]
N[0] genu 0 N[1,0]
N[1] ld 0 0 W[1]
N[2] genu 3 W[0]
N[3] scall 0
";

/// Each form, with its fields at both ends.
const ENDS: &[u8] = b"trips 1
data 33
000102030405060708090a0b0c0d0e0f101112131415161718191a1b1c1d1e1f
ff
block 0 mask 80000001
R[0] read G[0] N[0,0]
R[1] read G[127] N[127,1] N[0,0]
W[0] write G[0]
W[1] write G[127]
N[0] add W[31] N[127,p]
N[1] null
N[2] mov_f N[0,1]
N[3] addi_t -256 W[0]
N[4] teqi 255
N[31] lb 0 -256 N[1,0]
N[32] ld_f 31 255
N[33] sb 0 -256
N[63] sd_t 31 255
N[64] genu 0 W[0]
N[65] genu 65535
N[66] gens -32768 W[0]
N[67] gens 32767 W[1]
N[68] app 65535 W[0]
N[95] bro 0 @0
N[96] callo_t 7 @1
N[97] bro 1 !-524288
N[98] callo_f 2 !524287
N[125] br 3
N[126] ret_t 4
N[127] scall 7
block 1 mask ffffffff
";

/// What assembling answers, if not an image.
pub fn fault(alloc: Global, text: &[u8]) -> Option<AsmFault> {
    match assemble(alloc, text) {
        Err(fault) => Some(fault),
        Ok(_) => None,
    }
}

fn printed_again(alloc: Global, text: &[u8]) -> Result<Vec<u8>, Fail> {
    let image = assemble(alloc, text)?;
    Ok(print(alloc, &image)?)
}

fn assert_printed(rt: &impl Abort, alloc: Global, text: &[u8]) -> Result<(), Fail> {
    let again = printed_again(alloc, text)?;
    assert!(rt; again.as_slice() == text, "the same text");
    Ok(())
}

#[test]
fn what_is_assembled_is_printed_again(rt: HostRuntime) -> Result<(), Fail> {
    assert_printed(&rt, rt.alloc(), DIVIDE)?;
    assert_printed(&rt, rt.alloc(), ENDS)
}

type FaultRow = (&'static [u8], AsmFault);

const EARLY: &[FaultRow] = &[
    (b"", Syntax(1)),
    (b"trips 1", Syntax(1)),
    (b"trips 1\n", Syntax(2)),
    (b"trips 1\ndata 0", Syntax(2)),
    (b"trips 1\ndata 0\n", Syntax(3)),
    (b"trips 1\ndata 1\n", Syntax(3)),
    (b"trips 1\ndata 1\nff", Syntax(3)),
    (b"trips 1\ndata 0\nblock 0 mask 00000000", Syntax(3)),
    (b"trips 2\ndata 0\n", Syntax(1)),
    (b"trips 1 \ndata 0\n", Syntax(1)),
    (b"trips 1\r\ndata 0\n", Syntax(1)),
    (b"trips 1\ndata  0\n", Syntax(2)),
    (b"trips 1\ndata\t0\n", Syntax(2)),
    (b"trips 1\ndata 00\n", Syntax(2)),
    (b"trips 1\ndata +1\n", Syntax(2)),
    (b"trips 1\ndata -0\n", Syntax(2)),
    (b"trips 1\ndata -1\n", Range(2)),
    (b"trips 1\ndata 4194305\n", Range(2)),
    (b"trips 1\ndata 99999999999999999999999999\n", Range(2)),
    (b"trips 1\ndata 1\n00\n", Range(3)),
    (b"trips 1\ndata 1\nFF\n", Syntax(3)),
    (b"trips 1\ndata 1\nf\n", Syntax(3)),
    (b"trips 1\ndata 1\nffff\n", Syntax(3)),
    (b"trips 1\ndata 1\nfg\n", Syntax(3)),
    (b"trips 1\ndata 0\nff\n", Syntax(3)),
    (b"trips 1\ndata 2\nff\nblock 0 mask 00000000\n", Syntax(3)),
    (b"trips 1\ndata 0\n\n", Syntax(3)),
    (b"trips 1\ndata 0\nblock 0 mask 00000000\n\n", Syntax(4)),
];

fn assert_faults(rt: &impl Abort, alloc: Global, rows: &[FaultRow]) {
    for (text, want) in rows {
        assert_eq!(rt; fault(alloc, *text), Some(*want), "wanted {want:?}");
    }
}

#[test]
fn a_text_that_ends_early_or_begins_otherwise_is_refused(rt: HostRuntime) {
    assert_faults(&rt, rt.alloc(), EARLY);
}

/// A text whose first block has these lines, from line 4 on.
fn with_lines(alloc: Global, lines: &[u8]) -> Result<Vec<u8>, AllocError> {
    let mut text = Vec::from_slice(alloc, b"trips 1\ndata 0\nblock 0 mask 00000000\n")?;
    text.extend_from_slice(lines)?;
    Ok(text)
}

/// What assembling answers to a first block of these lines, from line 4 on, if not an image.
pub fn in_block(alloc: Global, lines: &[u8]) -> Result<Option<AsmFault>, AllocError> {
    let text = with_lines(alloc, lines)?;
    Ok(fault(alloc, text.as_slice()))
}

/// Each of these is answered by the same fault.
fn assert_fault_in_block(
    rt: &impl Abort,
    alloc: Global,
    rows: &[&[u8]],
    want: AsmFault,
    place: &str,
) -> Result<(), Fail> {
    for lines in rows {
        assert_eq!(rt; in_block(alloc, *lines)?, Some(want), "{place}");
    }
    Ok(())
}

const OF_ITS_OWN: &[&[u8]] = &[
    b"block 2 mask 00000000\n",
    b"block 7 mask 00000000\n",
    b"block 01 mask 00000000\n",
    b"block 1 mask 0000000\n",
    b"block 1 mask 000000000\n",
    b"block 1 mask 0000000A\n",
    b"R[1] read G[5] N[0,0]\n",
    b"R[0] read G[5]\n",
    b"R[0] read G[5] W[0]\n",
    b"R[0] read G[5] N[0,p]\n",
    b"R[0] read G[5] N[0,2]\n",
    b"R[0] read G[5] N[0,0] N[0,0]\n",
    b"R[0] read G[5] N[200,0] N[200,0]\n",
    b"R[0] read G[5] N[9999999999,1] N[9999999999,1]\n",
    b"R[0] read G[5] N[0,0] N[0,1] N[1,0]\n",
    b"R[0] read G[5] N[0,0] \n",
    b"W[1] write G[0]\n",
    b"W[0] write G[0] \n",
    b"W[0] write  G[0]\n",
    b"N[0] adds\n",
    b"N[0] ADD\n",
    b"N[0] add_x\n",
    b"N[0] genu_t 1\n",
    b"N[0] add N[0,0] N[0,1] N[1,0]\n",
    b"N[0] addi 1 N[0,0] N[0,1]\n",
    b"N[0] addi N[0,0]\n",
    b"N[0] addi 01\n",
    b"N[0] addi +1\n",
    b"N[0] addi -0\n",
    b"N[0] genu\n",
    b"N[0] lb 0\n",
    b"N[0] sb 0 0 N[1,0]\n",
    b"N[0] bro 0\n",
    b"N[0] bro @0\n",
    b"N[0] bro 0 @00\n",
    b"N[0] bro 0 @x\n",
    b"N[0] bro 0 0\n",
    b"N[0] scall 0 @0\n",
    b"N[0] add R[0]\n",
    b"N[00] null\n",
    b"N[0]  null\n",
    b"N[0] null \n",
    b" N[0] null\n",
    b"N[0] null\r\n",
    b"x\n",
];

const AFTER_ANOTHER: &[&[u8]] = &[
    b"N[5] null\nN[5] null\n",
    b"N[5] null\nN[4] null\n",
    b"N[0] null\nW[0] write G[0]\n",
    b"N[0] null\nR[0] read G[5] N[0,0]\n",
    b"W[0] write G[0]\nR[0] read G[5] N[0,0]\n",
    b"N[0] bro 0 @9\nx\n",
];

#[test]
fn a_line_that_may_not_stand_there_is_syntax(rt: HostRuntime) -> Result<(), Fail> {
    let alloc = rt.alloc();
    assert_fault_in_block(&rt, alloc, OF_ITS_OWN, Syntax(4), "a line of its own")?;
    assert_fault_in_block(&rt, alloc, AFTER_ANOTHER, Syntax(5), "after another line")
}

const OUTSIDE: &[&[u8]] = &[
    b"R[0] read G[128] N[0,0]\n",
    b"R[0] read G[-1] N[0,0]\n",
    b"R[0] read G[0] N[128,0]\n",
    b"R[0] read G[0] N[0,0] N[128,1]\n",
    b"R[0] read G[0] N[9999999999,0] N[9999999998,0]\n",
    b"W[0] write G[128]\n",
    b"W[0] write G[99999999999999999999]\n",
    b"N[128] null\n",
    b"N[-1] null\n",
    b"N[0] add N[128,0]\n",
    b"N[0] add W[32]\n",
    b"N[0] add W[0] N[300,p]\n",
    b"N[0] addi 256\n",
    b"N[0] addi -257\n",
    b"N[0] lb 32 0\n",
    b"N[0] lb 0 256\n",
    b"N[0] sb -1 0\n",
    b"N[0] sb 0 -257\n",
    b"N[0] genu -1\n",
    b"N[0] genu 65536\n",
    b"N[0] gens 32768\n",
    b"N[0] gens -32769\n",
    b"N[0] app -1\n",
    b"N[0] app 65536\n",
    b"N[0] scall 8\n",
    b"N[0] bro 8 @0\n",
    b"N[0] bro 0 !524288\n",
    b"N[0] bro 0 !-524289\n",
    b"N[0] bro 0 !0\n",
    b"N[0] genu 4294967296\n",
];

#[test]
fn a_number_outside_its_field_is_range(rt: HostRuntime) -> Result<(), Fail> {
    assert_fault_in_block(&rt, rt.alloc(), OUTSIDE, Range(4), "a line of its own")
}

type GoalRow = (&'static [u8], Option<AsmFault>);

const GOALS: &[GoalRow] = &[
    (b"N[0] bro 0 @1\n", Some(Label(4))),
    (b"N[0] bro 0 @-1\n", Some(Label(4))),
    (b"N[0] bro 0 @4294967296\n", Some(Label(4))),
    (b"N[0] bro 0 @99999999999999999999\n", Some(Label(4))),
    (b"N[0] bro 0 @1\nN[1] addi 256\n", Some(Range(5))),
    (
        b"N[0] bro 0 !2\nblock 1 mask 00000000\nN[0] callo 0 @2\n",
        Some(Range(4)),
    ),
    (
        b"N[0] bro 0 @2\nblock 1 mask 00000000\nN[0] callo 0 !-2\n",
        Some(Label(4)),
    ),
    (b"N[0] bro 0 !1\nblock 1 mask 00000000\n", None),
    (b"N[32] bro 0 !2\nblock 1 mask 00000000\n", None),
    (b"N[32] bro 0 !3\nblock 1 mask 00000000\n", Some(Range(4))),
];

fn assert_goals(rt: &impl Abort, alloc: Global, rows: &[GoalRow]) -> Result<(), Fail> {
    for (lines, want) in rows {
        assert_eq!(rt; in_block(alloc, *lines)?, *want, "wanted {want:?}");
    }
    Ok(())
}

#[test]
fn goals_are_judged_after_all_lines(rt: HostRuntime) -> Result<(), Fail> {
    assert_goals(&rt, rt.alloc(), GOALS)
}
