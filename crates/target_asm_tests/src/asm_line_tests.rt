//! Target texts with a line left out, doubled or exchanged, and with a line too many.

use crate::asm_tests::{DIVIDE, fault, in_block};
use std::alloc::{AllocError, Global};
use std::process::Abort;
use std::test::Fail;
use target_asm::AsmFault;
use target_asm::AsmFault::{Range, Syntax};

/// What becomes of a line.
#[derive(Clone, Copy)]
enum Edit {
    LeftOut,
    Doubled,
    Exchanged,
}

/// Adds a line, which is edited where it is the one; a line that is held comes after the next.
fn put_line(
    out: &mut Vec<u8>,
    held: &mut Vec<u8>,
    line: &[u8],
    edit: Option<Edit>,
) -> Result<(), AllocError> {
    match edit {
        Some(Edit::LeftOut) => Ok(()),
        Some(Edit::Doubled) => {
            out.extend_from_slice(line)?;
            out.extend_from_slice(line)
        }
        Some(Edit::Exchanged) => held.extend_from_slice(line),
        None => {
            out.extend_from_slice(line)?;
            out.extend_from_slice(held.as_slice())?;
            held.clear();
            Ok(())
        }
    }
}

/// Adds the text with one line, counted from 1, edited. `held` and `line` are empty at first.
fn put_edited(
    out: &mut Vec<u8>,
    held: &mut Vec<u8>,
    line: &mut Vec<u8>,
    text: &[u8],
    at: usize,
    edit: Edit,
) -> Result<(), AllocError> {
    let mut number: usize = 0;
    for b in text {
        line.push(*b)?;
        if *b == b'\n' {
            number = number.saturating_add(1);
            let edit = if number == at { Some(edit) } else { None };
            put_line(out, held, line.as_slice(), edit)?;
            line.clear();
        }
    }
    Ok(())
}

/// The text with one line, counted from 1, edited.
fn edited(alloc: Global, text: &[u8], at: usize, edit: Edit) -> Result<Vec<u8>, AllocError> {
    let mut out = Vec::new(alloc);
    let mut held = Vec::new(alloc);
    let mut line = Vec::new(alloc);
    put_edited(&mut out, &mut held, &mut line, text, at, edit)?;
    Ok(out)
}

/// What assembling answers to the text with one line, counted from 0, edited.
fn after_edit(
    alloc: Global,
    text: &[u8],
    at: usize,
    edit: Edit,
) -> Result<Option<AsmFault>, AllocError> {
    let text = edited(alloc, text, at.saturating_add(1), edit)?;
    Ok(fault(alloc, text.as_slice()))
}

/// The line of the fault where each line of `DIVIDE` is left out, or 0 where it is taken.
const LEFT_OUT: &[u32] = &[1, 2, 3, 0, 0, 0, 0, 0, 0, 10, 11, 0, 0, 0, 0, 0];

/// The line of the fault where each line of `DIVIDE` stands twice.
const DOUBLED: &[u32] = &[2, 3, 4, 5, 6, 7, 8, 9, 10, 11, 12, 13, 14, 15, 16, 17];

/// The line of the fault where each line of `DIVIDE` but the last one comes after the next.
const EXCHANGED: &[u32] = &[1, 2, 3, 5, 6, 7, 8, 9, 11, 10, 11, 13, 14, 15, 16];

fn syntax_at(line: u32) -> Option<AsmFault> {
    if line == 0 { None } else { Some(Syntax(line)) }
}

fn assert_left_out(rt: &impl Abort, alloc: Global, text: &[u8], lines: &[u32]) -> Result<(), Fail> {
    for (i, line) in lines.iter().enumerate() {
        assert_eq!(rt;
            after_edit(alloc, text, i, Edit::LeftOut)?,
            syntax_at(*line),
            "without line {i} and 1"
        );
    }
    Ok(())
}

fn assert_doubled(rt: &impl Abort, alloc: Global, text: &[u8], lines: &[u32]) -> Result<(), Fail> {
    for (i, line) in lines.iter().enumerate() {
        assert_eq!(rt;
            after_edit(alloc, text, i, Edit::Doubled)?,
            syntax_at(*line),
            "with line {i} and 1 twice"
        );
    }
    Ok(())
}

fn assert_exchanged(
    rt: &impl Abort,
    alloc: Global,
    text: &[u8],
    lines: &[u32],
) -> Result<(), Fail> {
    for (i, line) in lines.iter().enumerate() {
        assert_eq!(rt;
            after_edit(alloc, text, i, Edit::Exchanged)?,
            syntax_at(*line),
            "line {i} and 1 exchanged"
        );
    }
    Ok(())
}

#[test]
fn each_line_left_out_doubled_and_exchanged(rt: HostRuntime) -> Result<(), Fail> {
    assert_left_out(&rt, rt.alloc(), DIVIDE, LEFT_OUT)?;
    assert_doubled(&rt, rt.alloc(), DIVIDE, DOUBLED)?;
    assert_exchanged(&rt, rt.alloc(), DIVIDE, EXCHANGED)
}

fn add_read(alloc: Global, lines: &mut Vec<u8>, i: u32) -> Result<(), AllocError> {
    let line = format!(in alloc; "R[{i}] read G[1] N[0,0]\n")?;
    lines.extend_from_slice(line.as_bytes())
}

/// The lines of so many reads.
fn reads(alloc: Global, count: u32) -> Result<Vec<u8>, AllocError> {
    let mut lines = Vec::new(alloc);
    for i in 0..count {
        add_read(alloc, &mut lines, i)?;
    }
    Ok(lines)
}

fn assert_reads(
    rt: &impl Abort,
    alloc: Global,
    count: u32,
    want: Option<AsmFault>,
) -> Result<(), Fail> {
    let lines = reads(alloc, count)?;
    assert_eq!(rt; in_block(alloc, lines.as_slice())?, want, "{count} reads");
    Ok(())
}

#[test]
fn the_thirty_third_read_is_outside_its_field(rt: HostRuntime) -> Result<(), Fail> {
    assert_reads(&rt, rt.alloc(), 32, None)?;
    assert_reads(&rt, rt.alloc(), 33, Some(Range(36)))
}
