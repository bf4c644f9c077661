//! Image files with the image or the fault that docs/MACHINE.md gives them.

use block_image::{ImageFault, decode, encode};
use std::alloc::Global;
use std::process::Abort;
use std::test::Fail;
use trips_isa::{Block, Inst, Op, Sense, Spot};

/// The example of docs/MACHINE.md: one block with `genu 3 W[0]`, `genu 7 W[1]` and `scall 0`, and
/// write slots for registers 0 and 3.
pub fn example() -> [u8; 276] {
    let mut bytes = [0; 276];
    bytes[..8].copy_from_slice(b"TRIPSIMG");
    bytes[11] = 1;
    bytes[15] = 1;
    bytes[27] = 3;
    bytes[104] = 0x80;
    bytes[112] = 0x80;
    bytes[148..160].copy_from_slice(&[0x60, 0, 6, 0x20, 0x60, 0, 0x0e, 0x21, 0x48, 0, 0, 0]);
    bytes
}

/// What decoding answers, if not an image.
pub fn fault(alloc: Global, bytes: &[u8]) -> Option<ImageFault> {
    match decode(alloc, bytes) {
        Err(fault) => Some(fault),
        Ok(_) => None,
    }
}

/// The image of these bytes, written again.
fn written_again(alloc: Global, bytes: &[u8]) -> Result<Vec<u8>, Fail> {
    let image = decode(alloc, bytes)?;
    Ok(encode(alloc, &image)?)
}

pub fn assert_written(rt: &impl Abort, alloc: Global, bytes: &[u8]) -> Result<(), Fail> {
    let again = written_again(alloc, bytes)?;
    assert!(rt; again.as_slice() == bytes, "the same bytes");
    Ok(())
}

/// The parts of an instruction in their order.
pub type Parts = (Op, Sense, i32, u8, Option<Spot>, Option<Spot>);

pub fn inst(parts: Parts) -> Inst {
    let (op, sense, imm, number, first, second) = parts;
    Inst {
        op,
        sense,
        imm,
        number,
        first,
        second,
    }
}

/// The first slots of the example.
const SLOTS: &[Option<Parts>] = &[
    Some((Op::Genu, Sense::Always, 3, 0, Some(Spot::Write(0)), None)),
    Some((Op::Genu, Sense::Always, 7, 0, Some(Spot::Write(1)), None)),
    Some((Op::Scall, Sense::Always, 0, 0, None, None)),
    None,
];

fn inst_of(parts: Option<Parts>) -> Option<Inst> {
    match parts {
        None => None,
        Some(parts) => Some(inst(parts)),
    }
}

fn assert_slots(rt: &impl Abort, insts: &[Option<Inst>], wants: &[Option<Parts>]) {
    for (slot, want) in insts.iter().zip(wants) {
        assert_eq!(rt; *slot, inst_of(*want), "the slots");
    }
}

fn assert_example_block(rt: &impl Abort, block: &Block, wants: &[Option<Parts>]) {
    assert_eq!(rt; block.reads.len(), 0, "no reads");
    assert!(rt;
        block.writes.as_slice() == [0, 3].as_slice(),
        "the registers of the write slots"
    );
    assert_eq!(rt; block.mask, 0, "no store");
    assert_slots(rt, block.insts.as_slice(), wants);
}

fn assert_example_blocks(rt: &impl Abort, blocks: &[Block], wants: &[Option<Parts>]) {
    assert_eq!(rt; blocks.len(), 1, "one block");
    for block in blocks {
        assert_example_block(rt, block, wants);
    }
}

fn assert_example(
    rt: &impl Abort,
    alloc: Global,
    bytes: &[u8],
    wants: &[Option<Parts>],
) -> Result<(), Fail> {
    let image = decode(alloc, bytes)?;
    assert_eq!(rt; image.bytes.len(), 0, "no data bytes");
    assert_example_blocks(rt, image.blocks.as_slice(), wants);
    Ok(())
}

#[test]
fn the_example_is_read_and_written(rt: HostRuntime) -> Result<(), Fail> {
    assert_example(&rt, rt.alloc(), &example(), SLOTS)?;
    assert_written(&rt, rt.alloc(), &example())
}

fn assert_prefixes(rt: &impl Abort, alloc: Global, bytes: &[u8]) {
    for length in 0..bytes.len() {
        let want = Some(ImageFault::Truncated(length as u64));
        assert_eq!(rt;
            fault(alloc, &bytes[..length]),
            want,
            "a prefix of {length} bytes"
        );
    }
}

#[test]
fn each_prefix_is_truncated_at_its_length(rt: HostRuntime) {
    assert_prefixes(&rt, rt.alloc(), &example());
}

/// What decoding answers where one byte of the example is another one.
#[derive(Clone, Copy)]
enum Answer {
    Image,
    Fault(ImageFault),
    /// A bad field at a byte.
    Bad(u64),
    /// A bad field at the first byte of the word.
    Word,
}

const INFO: Answer = Answer::Fault(ImageFault::BadField(84));

const SECOND: Answer = Answer::Fault(ImageFault::BadField(24));

const SHORT: Answer = Answer::Fault(ImageFault::Truncated(276));

const MAGIC: Answer = Answer::Fault(ImageFault::Magic);

const VERSION: Answer = Answer::Fault(ImageFault::Version);

const SIZE: Answer = Answer::Fault(ImageFault::BadField(16));

const SAME: Answer = Answer::Image;

const WORD: Answer = Answer::Word;

/// Bytes from a place up to another, each or one in four, and the answers where it is 0, 1, 127 and 255.
type Row = (usize, usize, bool, Answer, Answer, Answer, Answer);

const BYTES: &[Row] = &[
    (0, 8, true, MAGIC, MAGIC, MAGIC, MAGIC),
    (8, 11, true, SAME, VERSION, VERSION, VERSION),
    (11, 12, true, VERSION, SAME, VERSION, VERSION),
    // more blocks than there are
    (12, 15, true, SAME, SHORT, SHORT, SHORT),
    (15, 16, true, Answer::Bad(12), SAME, SHORT, SHORT),
    // data bytes: above the limit, more than there are, or with a last one that is 0
    (16, 17, true, SAME, SIZE, SIZE, SIZE),
    (17, 18, true, SAME, SHORT, SIZE, SIZE),
    (18, 19, true, SAME, Answer::Bad(275), SHORT, SHORT),
    (
        19,
        20,
        true,
        SAME,
        Answer::Bad(20),
        Answer::Bad(146),
        Answer::Bad(274),
    ),
    // info bits of the store mask, and bits of reads
    (20, 84, false, SAME, WORD, WORD, WORD),
    // info bits of the numbers of reads, writes and body chunks, and of the zeros
    (84, 96, false, SAME, WORD, WORD, WORD),
    (96, 97, true, SAME, WORD, WORD, INFO),
    (100, 101, true, SAME, WORD, WORD, WORD),
    (104, 105, true, SECOND, SECOND, SECOND, WORD),
    (108, 109, true, SAME, WORD, WORD, INFO),
    (112, 113, true, INFO, INFO, INFO, INFO),
    (116, 148, false, SAME, WORD, INFO, INFO),
    // bits of reads
    (21, 148, false, SAME, WORD, WORD, WORD),
    (22, 148, false, SAME, WORD, WORD, WORD),
    // registers of writes, and one bit of a read
    (23, 28, false, SAME, SAME, SAME, WORD),
    (31, 148, false, SAME, WORD, WORD, WORD),
    // `genu`: the opcode, the constant and the target
    (148, 153, false, WORD, WORD, WORD, WORD),
    (149, 154, false, SAME, SAME, SAME, SAME),
    (150, 155, false, SAME, SAME, SAME, SAME),
    (151, 156, false, SAME, WORD, WORD, SAME),
    // `scall`: the opcode, the predicate, the exit and the offset
    (156, 157, true, SAME, WORD, WORD, WORD),
    (157, 158, true, SAME, WORD, WORD, WORD),
    (158, 159, true, SAME, WORD, WORD, WORD),
    (159, 160, true, SAME, WORD, WORD, WORD),
    // empty slots
    (160, 276, true, SAME, WORD, WORD, WORD),
];

/// The values of a row's answers.
const VALUES: &[u8] = &[0, 1, 127, 255];

fn wanted(answer: Answer, at: usize) -> Option<ImageFault> {
    match answer {
        Answer::Image => None,
        Answer::Fault(fault) => Some(fault),
        Answer::Bad(at) => Some(ImageFault::BadField(at)),
        Answer::Word => Some(ImageFault::BadField((at - at % 4) as u64)),
    }
}

fn assert_byte(rt: &impl Abort, alloc: Global, at: usize, value: u8, answer: Answer) {
    let mut bytes = example();
    assert!(rt; at < 276, "byte {at} of the example");
    bytes[at] = value;
    let want = wanted(answer, at);
    assert_eq!(rt; fault(alloc, &bytes), want, "byte {at} is {value}");
}

fn assert_values(rt: &impl Abort, alloc: Global, at: usize, values: &[u8], answers: &[Answer]) {
    for (value, answer) in values.iter().zip(answers) {
        assert_byte(rt, alloc, at, *value, *answer);
    }
}

/// Whether a row is for a byte.
fn is_for(row: &Row, at: usize) -> bool {
    let (first, end, is_each, _, _, _, _) = *row;
    first <= at && at < end && (is_each || (at - first) % 4 == 0)
}

fn assert_judged(rt: &impl Abort, alloc: Global, at: usize, rows: &[Row], values: &[u8]) {
    let mut is_found = false;
    for row in rows {
        if is_for(row, at) {
            assert!(rt; !is_found, "one row for byte {at}");
            is_found = true;
            let (_, _, _, none, one, half, all) = *row;
            assert_values(rt, alloc, at, values, &[none, one, half, all]);
        }
    }
    assert!(rt; is_found, "a row for byte {at}");
}

fn assert_each_judged(rt: &impl Abort, alloc: Global, rows: &[Row], values: &[u8]) {
    for at in 0..276 {
        assert_judged(rt, alloc, at, rows, values);
    }
}

#[test]
fn each_byte_of_the_example_is_judged(rt: HostRuntime) {
    assert_each_judged(&rt, rt.alloc(), BYTES, VALUES);
}
