//! `run` on images by their target texts: an input, and a number of blocks.
use crate::tool_tests::image_of_text;
use std::alloc::{AllocError, Global};
use std::process::Abort;
use std::test::Fail;
use trips_run::Status;
use trips_run_harness::answer_of;

/// Lines of the blocks, words after the file's name, an input, and the status with the report.
type Row = (
    &'static str,
    &'static [&'static str],
    &'static [u8],
    Status,
    &'static str,
);

// A block that goes to itself.
const FOREVER: &str = "N[0] bro 0 @0\n";

// System call 2 of each block gives a byte of the input in register 3, and the last block ends with it.
const SECOND_BYTE: &str = "W[0] write G[0]
N[0] genu 2 W[0]
N[1] scall 0
block 1 mask 00000000
W[0] write G[0]
N[0] genu 2 W[0]
N[1] scall 0
block 2 mask 00000000
W[0] write G[0]
N[0] genu 3 W[0]
N[1] scall 0
";

// Register 3 has the least long at the end, which says that the program has aborted.
const ABORTING: &str = "W[0] write G[0]
W[1] write G[3]
N[0] genu 3 W[0]
N[1] genu 1 N[2,0]
N[2] slli 63 W[1]
N[3] scall 0
";

// It has the word behind that one.
const NEAR_ABORTING: &str = "W[0] write G[0]
W[1] write G[3]
N[0] genu 3 W[0]
N[1] genu 1 N[2,0]
N[2] slli 63 N[4,0]
N[3] scall 0
N[4] addi 1 W[1]
";

const ROWS: &[Row] = &[
    (ABORTING, &[], b"", Status::Aborted, "output 0\n\naborted\n"),
    (
        NEAR_ABORTING,
        &[],
        b"",
        Status::Ended,
        "output 0\n\nresult -9223372036854775807\n",
    ),
    (
        FOREVER,
        &["--blocks", "100"],
        b"",
        Status::Budget,
        "output 0\n\nbudget 100\n",
    ),
    (
        FOREVER,
        &["--blocks", "1"],
        b"",
        Status::Budget,
        "output 0\n\nbudget 1\n",
    ),
    (
        SECOND_BYTE,
        &["--input", "t", "--blocks", "3"],
        b"a\xff",
        Status::Ended,
        "output 0\n\nresult 255\n",
    ),
    (
        SECOND_BYTE,
        &["--blocks", "3", "--input", "t"],
        b"a",
        Status::Ended,
        "output 0\n\nresult -1\n",
    ),
    (
        SECOND_BYTE,
        &["--input", "t", "--blocks", "2"],
        b"ab",
        Status::Budget,
        "output 0\n\nbudget 2\n",
    ),
    (
        SECOND_BYTE,
        &[],
        b"ab",
        Status::Ended,
        "output 0\n\nresult -1\n",
    ),
];

// The bytes of the image whose first block has these lines.
fn image_of(rt: &impl Abort, alloc: Global, lines: &str) -> Result<Vec<u8>, AllocError> {
    let text = format!(in alloc; "trips 1\ndata 0\nblock 0 mask 00000000\n{lines}")?;
    image_of_text(rt, alloc, text.as_bytes())
}

// What the program answers to these words, over an image and an input.
fn answer_over<'a>(
    alloc: Global,
    words: &[&str],
    image: &'a [u8],
    input: &'a [u8],
) -> Result<(Status, Vec<u8>), AllocError> {
    answer_of(alloc, words, &[("b.img", image), ("t", input)])
}

fn assert_rows(rt: &impl Abort, alloc: Global, rows: &[Row]) -> Result<(), Fail> {
    for (lines, others, input, status, report) in rows {
        let bytes = image_of(rt, alloc, *lines)?;
        let mut words = Vec::new(alloc);
        words.push("run")?;
        words.push("b.img")?;
        words.extend_from_slice(others)?;
        let (answered, written) = answer_over(alloc, &words, &bytes, *input)?;
        assert_eq!(rt; answered, *status, "{lines}");
        assert_eq!(rt; written.as_slice(), report.as_bytes(), "{lines}");
    }
    Ok(())
}

#[test]
fn runs_on_an_input_for_a_number_of_blocks(rt: HostRuntime) -> Result<(), Fail> {
    assert_rows(&rt, rt.alloc(), ROWS)
}
