//! Image files with other blocks: each form of an instruction, reads, chunks, and the order of faults.

use crate::image_tests::{Parts, assert_written, example, fault, inst};
use block_image::{ImageFault, decode};
use std::alloc::{AllocError, Global};
use std::process::Abort;
use std::test::Fail;
use trips_isa::{Block, Inst, Op, ReadSlot, Sense, Spot};

/// The word with a number in a header; of two the last one, and 0 where it is not given.
fn header_word(header: &[(u32, u32)], number: u32) -> u32 {
    let mut word: u32 = 0;
    for (at, other) in header {
        if *at == number {
            word = *other;
        }
    }
    word
}

fn add_header(bytes: &mut Vec<u8>, header: &[(u32, u32)]) -> Result<(), AllocError> {
    for i in 0..32 {
        bytes.extend_from_slice(&header_word(header, i).to_be_bytes())?;
    }
    Ok(())
}

fn add_body(bytes: &mut Vec<u8>, body: &[u32], size: u32) -> Result<(), AllocError> {
    for i in 0..size {
        let word = match body.get(i as usize) {
            Some(word) => *word,
            None => 0,
        };
        bytes.extend_from_slice(&word.to_be_bytes())?;
    }
    Ok(())
}

/// The bytes of an image of one block without data bytes: some words of the header, the others 0, and
/// the words of the body.
fn with_block(
    alloc: Global,
    header: &[(u32, u32)],
    body: &[u32],
    size: u32,
) -> Result<Vec<u8>, AllocError> {
    let mut bytes = Vec::from_slice(alloc, &example()[..20])?;
    add_header(&mut bytes, header)?;
    add_body(&mut bytes, body, size)?;
    Ok(bytes)
}

/// A word, and the parts of its instruction.
type Row = (u32, Parts);

/// Words, and the instructions that they are: each form, and each field at both ends of its range.
const WORDS: &[Row] = &[
    (0x02000000, (Op::Add, Sense::Always, 0, 0, None, None)),
    (
        0x03f07fff,
        (
            Op::Null,
            Sense::OnTrue,
            0,
            0,
            Some(Spot::Right(127)),
            Some(Spot::Write(31)),
        ),
    ),
    (
        0x036e0080,
        (
            Op::Mov,
            Sense::OnFalse,
            0,
            0,
            Some(Spot::Pred(0)),
            Some(Spot::Left(0)),
        ),
    ),
    (
        0x04020020,
        (Op::Addi, Sense::Always, -256, 0, Some(Spot::Write(0)), None),
    ),
    (
        0x05e9feff,
        (
            Op::Tgeui,
            Sense::OnTrue,
            255,
            0,
            Some(Spot::Pred(127)),
            None,
        ),
    ),
    (0x20020000, (Op::Lb, Sense::Always, -256, 0, None, None)),
    (
        0x2d7dff7f,
        (Op::Ld, Sense::OnFalse, 255, 31, Some(Spot::Left(127)), None),
    ),
    (0x30020000, (Op::Sb, Sense::Always, -256, 0, None, None)),
    (0x37fdfe00, (Op::Sd, Sense::OnTrue, 255, 31, None, None)),
    (0x40080000, (Op::Bro, Sense::Always, -524288, 0, None, None)),
    (
        0x4377ffff,
        (Op::Callo, Sense::OnFalse, 524287, 7, None, None),
    ),
    (0x45f00000, (Op::Br, Sense::OnTrue, 0, 7, None, None)),
    (0x46100000, (Op::Ret, Sense::Always, 0, 1, None, None)),
    (0x48700000, (Op::Scall, Sense::Always, 0, 7, None, None)),
    (
        0x60000180,
        (Op::Genu, Sense::Always, 0, 0, Some(Spot::Right(0)), None),
    ),
    (
        0x61fffe3f,
        (
            Op::Genu,
            Sense::Always,
            65535,
            0,
            Some(Spot::Write(31)),
            None,
        ),
    ),
    (
        0x63000080,
        (
            Op::Gens,
            Sense::Always,
            -32768,
            0,
            Some(Spot::Pred(0)),
            None,
        ),
    ),
    (0x62fffe00, (Op::Gens, Sense::Always, 32767, 0, None, None)),
    (
        0x65ffff00,
        (Op::App, Sense::Always, 65535, 0, Some(Spot::Left(0)), None),
    ),
];

fn words_of(alloc: Global, rows: &[Row]) -> Result<Vec<u32>, AllocError> {
    let mut words = Vec::new(alloc);
    for (word, _) in rows {
        words.push(*word)?;
    }
    Ok(words)
}

/// No reads, no writes, one body chunk, the store mask's first and last bits.
const FORMS: &[(u32, u32)] = &[(0, 0x80000000), (15, 0x40000000), (23, 0x80000000)];

fn with_forms(alloc: Global, rows: &[Row]) -> Result<Vec<u8>, AllocError> {
    let body = words_of(alloc, rows)?;
    with_block(alloc, FORMS, body.as_slice(), 32)
}

fn assert_insts(rt: &impl Abort, insts: &[Option<Inst>], rows: &[Row]) {
    for (slot, (word, parts)) in insts.iter().zip(rows) {
        assert_eq!(rt; *slot, Some(inst(*parts)), "the word {word:08x}");
    }
}

fn assert_form_blocks(rt: &impl Abort, blocks: &[Block], rows: &[Row]) {
    for block in blocks {
        assert_eq!(rt; block.mask, 0x80000001, "the store mask");
        assert_insts(rt, block.insts.as_slice(), rows);
    }
}

fn assert_read(rt: &impl Abort, alloc: Global, bytes: &[u8], rows: &[Row]) -> Result<(), Fail> {
    let image = decode(alloc, bytes)?;
    assert_form_blocks(rt, image.blocks.as_slice(), rows);
    Ok(())
}

fn assert_forms(rt: &impl Abort, alloc: Global, rows: &[Row]) -> Result<(), Fail> {
    let bytes = with_forms(alloc, rows)?;
    assert_read(rt, alloc, bytes.as_slice(), rows)?;
    assert_written(rt, alloc, bytes.as_slice())
}

#[test]
fn each_form_is_read_and_written(rt: HostRuntime) -> Result<(), Fail> {
    assert_forms(&rt, rt.alloc(), WORDS)
}

/// Register 127 to the right operand of slot 127 twice, and register 1 to both operands of slot 5.
const READS: &[(u32, u32)] = &[
    (0, 0x3fffff80),
    (1, 0x00c28280),
    (18, 0x80000000),
    (23, 0x80000000),
];

const READ_SLOTS: &[ReadSlot] = &[
    ReadSlot {
        register: 127,
        first: Spot::Right(127),
        second: None,
    },
    ReadSlot {
        register: 1,
        first: Spot::Left(5),
        second: Some(Spot::Right(5)),
    },
];

fn assert_read_blocks(rt: &impl Abort, blocks: &[Block], wants: &[ReadSlot]) {
    for block in blocks {
        assert!(rt; block.reads.as_slice() == wants, "the reads");
    }
}

fn assert_reads_of(
    rt: &impl Abort,
    alloc: Global,
    bytes: &[u8],
    wants: &[ReadSlot],
) -> Result<(), Fail> {
    let image = decode(alloc, bytes)?;
    assert_read_blocks(rt, image.blocks.as_slice(), wants);
    Ok(())
}

fn assert_reads(
    rt: &impl Abort,
    alloc: Global,
    header: &[(u32, u32)],
    wants: &[ReadSlot],
) -> Result<(), Fail> {
    let bytes = with_block(alloc, header, &[0x48000000], 32)?;
    assert_reads_of(rt, alloc, bytes.as_slice(), wants)?;
    assert_written(rt, alloc, bytes.as_slice())
}

#[test]
fn reads_have_one_target_or_two_different_ones(rt: HostRuntime) -> Result<(), Fail> {
    assert_reads(&rt, rt.alloc(), READS, READ_SLOTS)
}

const TWO: &[(u32, u32)] = &[(22, 0x40000000)];

const NONE: &[(u32, u32)] = &[(23, 0)];

/// Words of a header, the first words of two body chunks, how many words there are, and the fault.
type FaultRow = (&'static [(u32, u32)], u32, u32, u32, ImageFault);

// The second chunk is empty, holds a bad word, is cut, and is cut after a bad word of the first.
const FAULTS: &[FaultRow] = &[
    (TWO, 0, 0, 64, ImageFault::BadField(84)),
    (TWO, 0, 1, 64, ImageFault::BadField(276)),
    (TWO, 0, 0, 63, ImageFault::Truncated(400)),
    (TWO, 1, 0, 63, ImageFault::BadField(148)),
    // no body chunk is judged before the body
    (NONE, 1, 0, 32, ImageFault::BadField(84)),
];

fn two_chunks(first: u32, second: u32) -> [u32; 33] {
    let mut body = [0; 33];
    body[0] = first;
    body[32] = second;
    body
}

fn assert_fault(
    rt: &impl Abort,
    alloc: Global,
    header: &[(u32, u32)],
    body: &[u32],
    size: u32,
    want: ImageFault,
) -> Result<(), Fail> {
    let bytes = with_block(alloc, header, body, size)?;
    assert_eq!(rt;
        fault(alloc, bytes.as_slice()),
        Some(want),
        "a body of {size} words"
    );
    Ok(())
}

fn assert_faults(rt: &impl Abort, alloc: Global, rows: &[FaultRow]) -> Result<(), Fail> {
    for (header, first, second, size, want) in rows {
        assert_fault(
            rt,
            alloc,
            *header,
            &two_chunks(*first, *second),
            *size,
            *want,
        )?;
    }
    Ok(())
}

fn assert_trailing(rt: &impl Abort, alloc: Global, image: &[u8]) -> Result<(), Fail> {
    let mut bytes = Vec::from_slice(alloc, image)?;
    bytes.push(0)?;
    assert_eq!(rt;
        fault(alloc, bytes.as_slice()),
        Some(ImageFault::Trailing(276)),
        "a byte too many"
    );
    Ok(())
}

#[test]
fn faults_come_in_the_order_of_the_bytes(rt: HostRuntime) -> Result<(), Fail> {
    assert_faults(&rt, rt.alloc(), FAULTS)?;
    assert_trailing(&rt, rt.alloc(), &example())
}

/// The bytes of a block whose only instruction stands in the last of its body chunks.
fn add_block(bytes: &mut Vec<u8>, chunks: u32) -> Result<(), AllocError> {
    let chunks = chunks.min(4);
    for i in 0..32u32 {
        let word: u32 = match i {
            22 => (chunks >> 1) << 30,
            23 => (chunks & 1) << 31,
            _ => 0,
        };
        bytes.extend_from_slice(&word.to_be_bytes())?;
    }
    for i in 1..32 * chunks + 1 {
        let word: u32 = if i + 31 == 32 * chunks { 0x48000000 } else { 0 };
        bytes.extend_from_slice(&word.to_be_bytes())?;
    }
    Ok(())
}

/// The start of an image of 104,858 blocks.
fn add_start(bytes: &mut Vec<u8>) -> Result<(), AllocError> {
    bytes.extend_from_slice(b"TRIPSIMG")?;
    for number in [1u32, 104_858, 0] {
        bytes.extend_from_slice(&number.to_be_bytes())?;
    }
    Ok(())
}

fn add_times(bytes: &mut Vec<u8>, block: &[u8], count: u32) -> Result<(), AllocError> {
    for _ in 0..count {
        bytes.extend_from_slice(block)?;
    }
    Ok(())
}

fn add_all(bytes: &mut Vec<u8>, block: &[u8], last: u32) -> Result<(), AllocError> {
    add_start(bytes)?;
    add_times(bytes, block, 104_857)?;
    add_block(bytes, last)
}

/// The bytes of an image of 104,857 blocks of five chunks each, and of a last one.
fn full_image(alloc: Global, last: u32) -> Result<Vec<u8>, AllocError> {
    let mut block = Vec::new(alloc);
    add_block(&mut block, 4)?;
    let mut bytes = Vec::new(alloc);
    add_all(&mut bytes, block.as_slice(), last)?;
    Ok(bytes)
}

fn assert_full(
    rt: &impl Abort,
    alloc: Global,
    last: u32,
    want: Option<ImageFault>,
    place: &str,
) -> Result<(), Fail> {
    let bytes = full_image(alloc, last)?;
    assert_eq!(rt; fault(alloc, &bytes), want, "{place}");
    Ok(())
}

// The last block has the last chunk that may be, or begins so that it has one too many.
#[test]
fn the_chunks_of_all_blocks_have_a_limit(rt: HostRuntime) -> Result<(), Fail> {
    let begin = ImageFault::BadField(67_108_500);
    assert_full(&rt, rt.alloc(), 2, None, "the last chunk")?;
    assert_full(&rt, rt.alloc(), 3, Some(begin), "a chunk too many")
}
