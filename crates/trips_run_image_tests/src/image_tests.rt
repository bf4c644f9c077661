//! `run` on images. Their words were computed by hand from docs/MACHINE.md, "The image".
use crate::tool_tests::{SEVEN_TEXT, assert_answer, image_of_text};
use std::alloc::{AllocError, Global};
use std::process::Abort;
use std::test::Fail;
use trips_run::Status;
use trips_run_harness::answer_of;

/// The program that returns 7, the example of docs/MACHINE.md.
pub(crate) const SEVEN: &[(usize, u32)] = &[
    (1, 0x00000003),
    (21, 0x80000000),
    (23, 0x80000000),
    (32, 0x60000620),
    (33, 0x60000e21),
    (34, 0x48000000),
];

// A store of the byte 171 in the first block, and a load of eight bytes in the second.
const STORED: &[(usize, u32)] = &[
    (15, 0x40000000),
    (23, 0x80000000),
    (32, 0x60000f02),
    (33, 0x60000382),
    (34, 0x02100104),
    (35, 0x60015784),
    (36, 0x30000000),
    (37, 0x40000002),
    (65, 0x00000003),
    (85, 0x80000000),
    (87, 0x80000000),
    (96, 0x60000101),
    (97, 0x2c000021),
    (98, 0x60000620),
    (99, 0x48000000),
];

// `genu 1` for the left operand of slot 7, which is empty.
const NAMES_EMPTY_SLOT: &[(usize, u32)] = &[(23, 0x80000000), (32, 0x60000307), (33, 0x48000000)];

// A store that fires only where register 5 is not 0.
const STORES_SOMETIMES: &[(usize, u32)] = &[
    (0, 0x02800000),
    (15, 0x40000000),
    (18, 0x40000000),
    (23, 0x80000000),
    (32, 0x04480083),
    (33, 0x60001103),
    (34, 0x60000383),
    (35, 0x37800000),
    (36, 0x48000000),
];

// Two constants for one operand.
const TWO_PRODUCERS: &[(usize, u32)] = &[
    (0, 0x00000003),
    (21, 0x40000000),
    (23, 0x80000000),
    (32, 0x60000302),
    (33, 0x60000502),
    (34, 0x026c0020),
    (35, 0x48000000),
];

// Nine tests, so 512 cases.
const NINE_CHOICES: &[(usize, u32)] = &[
    (0, 0x00000010),
    (1, 0x00000011),
    (2, 0x00000012),
    (3, 0x00000013),
    (4, 0x00000014),
    (5, 0x00000015),
    (6, 0x00000016),
    (7, 0x00000017),
    (8, 0x00000018),
    (20, 0x80000000),
    (21, 0x40000000),
    (22, 0x40000000),
    (32, 0x48000000),
    (33, 0x60000302),
    (34, 0x026d0c85),
    (35, 0x60000b04),
    (36, 0x026e0d05),
    (37, 0x03ec0020),
    (38, 0x036c0020),
    (39, 0x60000308),
    (40, 0x026d188b),
    (41, 0x60000b0a),
    (42, 0x026e190b),
    (43, 0x03ec0021),
    (44, 0x036c0021),
    (45, 0x6000030e),
    (46, 0x026d2491),
    (47, 0x60000b10),
    (48, 0x026e2511),
    (49, 0x03ec0022),
    (50, 0x036c0022),
    (51, 0x60000314),
    (52, 0x026d3097),
    (53, 0x60000b16),
    (54, 0x026e3117),
    (55, 0x03ec0023),
    (56, 0x036c0023),
    (57, 0x6000031a),
    (58, 0x026d3c9d),
    (59, 0x60000b1c),
    (60, 0x026e3d1d),
    (61, 0x03ec0024),
    (62, 0x036c0024),
    (63, 0x60000320),
    (64, 0x026d48a3),
    (65, 0x60000b22),
    (66, 0x026e4923),
    (67, 0x03ec0025),
    (68, 0x036c0025),
    (69, 0x60000326),
    (70, 0x026d54a9),
    (71, 0x60000b28),
    (72, 0x026e5529),
    (73, 0x03ec0026),
    (74, 0x036c0026),
    (75, 0x6000032c),
    (76, 0x026d60af),
    (77, 0x60000b2e),
    (78, 0x026e612f),
    (79, 0x03ec0027),
    (80, 0x036c0027),
    (81, 0x60000332),
    (82, 0x026d6cb5),
    (83, 0x60000b34),
    (84, 0x026e6d35),
    (85, 0x03ec0028),
    (86, 0x036c0028),
];

/// The bytes of an image of so many blocks and chunks, whose words are 0 but for these.
pub(crate) fn image_of(
    alloc: Global,
    blocks: u32,
    chunks: usize,
    words: &[(usize, u32)],
) -> Result<Vec<u8>, AllocError> {
    let mut all = Vec::new(alloc);
    all.resize(32 * chunks.min(9), 0u32)?;
    for (at, word) in words {
        if let Some(place) = all.get_mut(*at) {
            *place = *word;
        }
    }
    let mut bytes = Vec::from_slice(alloc, b"TRIPSIMG")?;
    for number in [1, blocks, 0] {
        bytes.extend_from_slice(&number.to_be_bytes())?;
    }
    for word in &all {
        bytes.extend_from_slice(&word.to_be_bytes())?;
    }
    Ok(bytes)
}

/// A name, so many blocks and chunks, the words that are not 0, and the status with the report.
type Row = (
    &'static str,
    u32,
    usize,
    &'static [(usize, u32)],
    Status,
    &'static str,
);

const ROWS: &[Row] = &[
    (
        "seven",
        1,
        2,
        SEVEN,
        Status::Ended,
        "output 0\n\nresult 7\n",
    ),
    (
        "stored",
        2,
        4,
        STORED,
        Status::Ended,
        "output 0\n\nresult 171\n",
    ),
    (
        "empty slot",
        1,
        2,
        NAMES_EMPTY_SLOT,
        Status::Refused,
        "refused check 1 BadTarget N[0] block 0\n",
    ),
    (
        "sometimes",
        1,
        2,
        STORES_SOMETIMES,
        Status::Refused,
        "refused check 6 NoToken S[0] block 0\n",
    ),
    (
        "two",
        1,
        2,
        TWO_PRODUCERS,
        Status::Refused,
        "refused check 5 TwoTokens N[2,0] block 0\n",
    ),
    (
        "nine",
        1,
        3,
        NINE_CHOICES,
        Status::Refused,
        "refused check 4 TooManyCases block 0\n",
    ),
];

// What `check` answers to an image of so many blocks which `run` answers so.
fn assert_checked(
    rt: &impl Abort,
    alloc: Global,
    bytes: &[u8],
    blocks: u32,
    ran: Status,
    report: &str,
) -> Result<(), AllocError> {
    if ran == Status::Refused {
        return assert_answer(
            rt,
            alloc,
            "check",
            bytes,
            Status::Refused,
            report.as_bytes(),
        );
    }
    let good = format!(in alloc; "good {blocks} blocks\n")?;
    assert_answer(rt, alloc, "check", bytes, Status::Ended, good.as_bytes())
}

// The image's text, good or not, is that of this image again.
fn assert_goes_out_and_back(
    rt: &impl Abort,
    alloc: Global,
    bytes: &[u8],
) -> Result<(), AllocError> {
    let (status, text) = answer_of(alloc, &["dis", "b.img"], &[("b.img", bytes)])?;
    assert_eq!(rt; status, Status::Ended, "dis");
    let image = image_of_text(rt, alloc, &text)?;
    assert_eq!(rt; image.as_slice(), bytes, "asm");
    Ok(())
}

fn assert_images(rt: &impl Abort, alloc: Global, rows: &[Row]) -> Result<(), AllocError> {
    for (_, blocks, chunks, words, status, report) in rows {
        let bytes = image_of(alloc, *blocks, *chunks, *words)?;
        assert_answer(rt, alloc, "run", &bytes, *status, report.as_bytes())?;
        assert_checked(rt, alloc, &bytes, *blocks, *status, *report)?;
        assert_goes_out_and_back(rt, alloc, &bytes)?;
    }
    Ok(())
}

#[test]
fn images_run_or_are_refused_at_their_block(rt: HostRuntime) -> Result<(), Fail> {
    assert_images(&rt, rt.alloc(), ROWS)?;
    Ok(())
}

#[test]
fn the_example_has_its_text(rt: HostRuntime) -> Result<(), Fail> {
    let alloc = rt.alloc();
    let bytes = image_of(alloc, 1, 2, SEVEN)?;
    assert_answer(
        &rt,
        alloc,
        "dis",
        &bytes,
        Status::Ended,
        SEVEN_TEXT.as_bytes(),
    )?;
    Ok(())
}

/// A length, a byte at a place, and the report.
type Broken = (usize, usize, u8, &'static str);

const BROKEN: &[Broken] = &[
    (0, 0, b'T', "refused image 3 Truncated at 0\n"),
    (200, 0, b'T', "refused image 3 Truncated at 200\n"),
    (277, 0, b'T', "refused image 4 Trailing at 276\n"),
    (276, 0, b'X', "refused image 1 Magic\n"),
    (276, 11, 2, "refused image 2 Version\n"),
    (20, 15, 0, "refused image 5 BadField at 12\n"),
];

// The image of the program that returns 7, cut to a length, with a byte changed or one added: each
// command that reads an image refuses it.
fn assert_broken(rt: &impl Abort, alloc: Global, rows: &[Broken]) -> Result<(), AllocError> {
    for (size, at, byte, report) in rows {
        let mut bytes = image_of(alloc, 1, 2, SEVEN)?;
        bytes.resize(*size, 0)?;
        if let Some(place) = bytes.get_mut(*at) {
            *place = *byte;
        }
        for command in ["run", "check", "dis"] {
            assert_answer(
                rt,
                alloc,
                command,
                &bytes,
                Status::Refused,
                report.as_bytes(),
            )?;
        }
    }
    Ok(())
}

#[test]
fn broken_images_are_refused_at_their_byte(rt: HostRuntime) -> Result<(), Fail> {
    assert_broken(&rt, rt.alloc(), BROKEN)?;
    Ok(())
}
