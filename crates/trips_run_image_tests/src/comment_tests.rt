//! Target texts with comments, blank lines and carriage returns, under each command that reads such a file.

use crate::tool_tests::SEVEN_TEXT;
use std::alloc::{AllocError, Global};
use std::process::Abort;
use std::test::Fail;
use trips_run::Status;
use trips_run_harness::answer_of;

/// The text of one block that returns 7, as users may write it.
const SEVEN_FILE: &str = "# one block that returns 7
trips 1\r
data 0 # none

block 0 mask 00000000
W[0] write G[0]  # which system call
W[1] write G[3]
N[0] genu 3 W[0]\r
N[1] genu 7 W[1]
  # ends the run
N[2] scall 0
";

/// Its branch names no block, on line 6 of the file.
const NO_GOAL: &str = "# no goal
trips 1
data 0

block 0 mask 00000000
N[0] bro 0 @5 # where to?
";

/// Its line 7 has a slot out of turn.
const NO_TURN: &str = "trips 1\r
\r
data 0\r
# the block\r
block 0 mask 00000000\r
N[1] genu 7\r
N[0] scall 0\r
";

/// Its block has no exit.
const NO_EXIT: &str = "trips 1
data 0
# a block
block 0 mask 00000000
W[0] write G[0]
N[0] genu 3 W[0] # and no exit
";

/// Words, a status and a report.
type Row = (&'static [&'static str], Status, &'static str);

const ROWS: &[Row] = &[
    (&["run", "a.tasl"], Status::Ended, "output 0\n\nresult 7\n"),
    (
        &["run", "b.tasl"],
        Status::Refused,
        "refused asm 3 Label line 6\n",
    ),
    (
        &["asm", "b.tasl"],
        Status::Refused,
        "refused asm 3 Label line 6\n",
    ),
    (
        &["asm", "c.tasl"],
        Status::Refused,
        "refused asm 1 Syntax line 7\n",
    ),
    (
        &["save", "c.tasl", "1"],
        Status::Refused,
        "refused asm 1 Syntax line 7\n",
    ),
    (
        &["draw", "b.tasl", "0"],
        Status::Refused,
        "refused asm 3 Label line 6\n",
    ),
    (
        &["explain", "a.tasl"],
        Status::Ended,
        "a.tasl: accepted, blocks 1, instructions 3\n",
    ),
    (
        &["explain", "c.tasl"],
        Status::Refused,
        "c.tasl:7: asm Syntax: no line that may stand here is spelled so; dis writes such lines\n",
    ),
    (
        &["run", "d.tasl"],
        Status::Refused,
        "refused check 7 NoExit block 0\n",
    ),
];

/// What such a command answers.
fn answered(alloc: Global, words: &[&str]) -> Result<(Status, Vec<u8>), AllocError> {
    let files: &[(&str, &[u8])] = &[
        ("a.tasl", SEVEN_FILE.as_bytes()),
        ("b.tasl", NO_GOAL.as_bytes()),
        ("c.tasl", NO_TURN.as_bytes()),
        ("d.tasl", NO_EXIT.as_bytes()),
    ];
    answer_of(alloc, words, files)
}

fn assert_rows(rt: &impl Abort, alloc: Global, rows: &[Row]) -> Result<(), AllocError> {
    for (words, status, report) in rows {
        let (is, written) = answered(alloc, *words)?;
        assert_eq!(rt; is, *status, "{words:?}");
        assert_eq!(rt; written.as_slice(), report.as_bytes(), "{words:?}");
    }
    Ok(())
}

#[test]
fn files_with_comments_run_and_are_refused_at_their_lines(rt: HostRuntime) -> Result<(), Fail> {
    assert_rows(&rt, rt.alloc(), ROWS)?;
    Ok(())
}

#[test]
fn a_file_goes_out_without_its_comments(rt: HostRuntime) -> Result<(), Fail> {
    let alloc = rt.alloc();
    let (status, image) = answered(alloc, &["asm", "a.tasl"])?;
    assert_eq!(&rt; status, Status::Ended, "asm");
    let (status, text) = answer_of(alloc, &["dis", "a.img"], &[("a.img", &image)])?;
    assert_eq!(&rt; status, Status::Ended, "dis");
    assert_eq!(&rt; text.as_slice(), SEVEN_TEXT.as_bytes(), "the text");
    Ok(())
}
