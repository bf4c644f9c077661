//! `run` on images whose blocks fault, or could, by their target texts.
use crate::tool_tests::image_of_text;
use std::alloc::Global;
use std::process::Abort;
use std::test::Fail;
use trips_run::Status;
use trips_run_harness::answer_of;

/// The text behind its first two lines, words after the file's name, and the status with the report.
type Row = (&'static str, &'static [&'static str], Status, &'static str);

// A division by zero reaches a write.
const DIVISION: &str = "block 0 mask 00000000
W[0] write G[0]
W[1] write G[3]
N[0] genu 1 N[2,0]
N[1] genu 0 N[2,1]
N[2] divs W[1]
N[3] genu 3 W[0]
N[4] scall 0
";

// The same division feeds a `mov` that does not fire.
const DIVISION_UNUSED: &str = "block 0 mask 00000000
W[0] write G[0]
W[1] write G[3]
N[0] genu 1 N[2,0]
N[1] genu 0 N[2,1]
N[2] divs N[5,0]
N[3] genu 1 N[4,0]
N[4] mov N[5,p] N[6,p]
N[5] mov_f W[1]
N[6] mov_t W[1]
N[7] genu 9 N[6,0]
N[8] genu 3 W[0]
N[9] scall 0
";

// A load of eight bytes at address 1.
const MISALIGNED_LOAD: &str = "block 0 mask 00000000
W[0] write G[0]
W[1] write G[3]
N[0] genu 1 N[1,0]
N[1] ld 0 0 W[1]
N[2] genu 3 W[0]
N[3] scall 0
";

const UNSIGNED_DIVISION: &str = "block 0 mask 00000000
W[0] write G[0]
W[1] write G[3]
N[0] genu 1 N[2,0]
N[1] genu 0 N[2,1]
N[2] divu W[1]
N[3] genu 3 W[0]
N[4] scall 0
";

// A load at address 4,194,304, behind the last byte.
const LOAD_OUTSIDE: &str = "block 0 mask 00000000
W[0] write G[0]
W[1] write G[3]
N[0] genu 64 N[1,0]
N[1] app 0 N[2,0]
N[2] ld 0 0 W[1]
N[3] genu 3 W[0]
N[4] scall 0
";

// A load at address 4,194,296.
const LOAD_OF_THE_LAST_WORD: &str = "block 0 mask 00000000
W[0] write G[0]
W[1] write G[3]
N[0] genu 64 N[1,0]
N[1] app 0 N[2,0]
N[2] ld 0 -8 W[1]
N[3] genu 3 W[0]
N[4] scall 0
";

const MISALIGNED_STORE: &str = "block 0 mask 00000001
W[0] write G[0]
W[1] write G[3]
N[0] genu 1 N[2,0]
N[1] genu 7 N[2,1]
N[2] sw 0 0
N[3] genu 3 W[0]
N[4] genu 5 W[1]
N[5] scall 0
";

const STORE_OUTSIDE: &str = "block 0 mask 00000001
W[0] write G[0]
W[1] write G[3]
N[0] genu 64 N[1,0]
N[1] app 0 N[3,0]
N[2] genu 7 N[3,1]
N[3] sb 0 0
N[4] genu 3 W[0]
N[5] genu 5 W[1]
N[6] scall 0
";

// A load at address 4,194,305: both a multiple of nothing and outside.
const MISALIGNED_OUTSIDE: &str = "block 0 mask 00000000
W[0] write G[0]
W[1] write G[3]
N[0] genu 64 N[1,0]
N[1] app 1 N[2,0]
N[2] ld 0 0 W[1]
N[3] genu 3 W[0]
N[4] scall 0
";

// Causes 2 and 1 at two writes.
const DIVISION_BESIDE_A_LOAD: &str = "block 0 mask 00000000
W[0] write G[0]
W[1] write G[3]
W[2] write G[5]
N[0] genu 1 N[1,0]
N[1] ld 0 0 W[1]
N[2] genu 1 N[4,0]
N[3] genu 0 N[4,1]
N[4] divs W[2]
N[5] genu 3 W[0]
N[6] scall 0
";

// Causes 3 and 2 at two writes.
const TWO_LOADS: &str = "block 0 mask 00000000
W[0] write G[0]
W[1] write G[3]
W[2] write G[5]
N[0] genu 64 N[1,0]
N[1] app 0 N[2,0]
N[2] ld 0 0 W[1]
N[3] genu 1 N[4,0]
N[4] lh 1 0 W[2]
N[5] genu 3 W[0]
N[6] scall 0
";

// Causes 3 and 1 at the operands of an addition.
const MEETING: &str = "block 0 mask 00000000
W[0] write G[0]
W[1] write G[3]
N[0] genu 64 N[1,0]
N[1] app 0 N[2,0]
N[2] ld 0 0 N[6,0]
N[3] genu 1 N[5,0]
N[4] genu 0 N[5,1]
N[5] divs N[6,1]
N[6] add W[1]
N[7] genu 3 W[0]
N[8] scall 0
";

// The quotient is a predicate, and either leg writes.
const MARKED_PREDICATE: &str = "block 0 mask 00000000
W[0] write G[0]
W[1] write G[3]
N[0] genu 1 N[2,0]
N[1] genu 0 N[2,1]
N[2] divs N[3,0]
N[3] mov N[5,p] N[6,p]
N[4] genu 9 N[7,0]
N[5] mov_f W[1]
N[6] mov_t W[1]
N[7] mov N[5,0] N[6,0]
N[8] genu 3 W[0]
N[9] scall 0
";

// Null by zero is null, without a mark.
const NULL_DIVIDEND: &str = "block 0 mask 00000000
W[0] write G[0]
W[1] write G[3]
W[2] write G[5]
N[0] null N[2,0]
N[1] genu 0 N[2,1]
N[2] divs W[2]
N[3] genu 6 W[1]
N[4] genu 3 W[0]
N[5] scall 0
";

// A null token by a marked predicate goes on to a write.
const MARKED_NULL: &str = "block 0 mask 00000000
W[0] write G[0]
W[1] write G[3]
W[2] write G[5]
N[0] genu 1 N[2,0]
N[1] genu 0 N[2,1]
N[2] divs N[3,0]
N[3] mov N[4,p] N[5,p]
N[4] null_f N[6,0]
N[5] null_t N[6,0]
N[6] mov W[2]
N[7] genu 3 W[0]
N[8] genu 6 W[1]
N[9] scall 0
";

// The quotient, 0, is the address of a load.
const MARKED_ADDRESS: &str = "block 0 mask 00000000
W[0] write G[0]
W[1] write G[3]
N[0] genu 1 N[2,0]
N[1] genu 0 N[2,1]
N[2] divs N[3,0]
N[3] ld 0 0 W[1]
N[4] genu 3 W[0]
N[5] scall 0
";

// The quotient is the address of a branch.
const MARKED_EXIT: &str = "block 0 mask 00000000
N[0] genu 1 N[2,0]
N[1] genu 0 N[2,1]
N[2] divs N[3,0]
N[3] br 0
";

const SECOND_BLOCK: &str = "block 0 mask 00000000
N[0] bro 0 @1
block 1 mask 00000000
W[0] write G[0]
W[1] write G[3]
N[0] genu 1 N[2,0]
N[1] genu 0 N[2,1]
N[2] divs W[1]
N[3] genu 3 W[0]
N[4] scall 0
";

const ROWS: &[Row] = &[
    (
        DIVISION,
        &[],
        Status::Trap,
        "output 0\n\ntrap block 0 cause 1\n",
    ),
    (
        DIVISION_UNUSED,
        &[],
        Status::Ended,
        "output 0\n\nresult 9\n",
    ),
    (
        MISALIGNED_LOAD,
        &[],
        Status::Trap,
        "output 0\n\ntrap block 0 cause 2\n",
    ),
    (
        UNSIGNED_DIVISION,
        &[],
        Status::Trap,
        "output 0\n\ntrap block 0 cause 1\n",
    ),
    (
        LOAD_OUTSIDE,
        &[],
        Status::Trap,
        "output 0\n\ntrap block 0 cause 3\n",
    ),
    (
        LOAD_OF_THE_LAST_WORD,
        &[],
        Status::Ended,
        "output 0\n\nresult 0\n",
    ),
    (
        MISALIGNED_STORE,
        &[],
        Status::Trap,
        "output 0\n\ntrap block 0 cause 2\n",
    ),
    (
        STORE_OUTSIDE,
        &[],
        Status::Trap,
        "output 0\n\ntrap block 0 cause 3\n",
    ),
    (
        MISALIGNED_OUTSIDE,
        &[],
        Status::Trap,
        "output 0\n\ntrap block 0 cause 2\n",
    ),
    (
        DIVISION_BESIDE_A_LOAD,
        &[],
        Status::Trap,
        "output 0\n\ntrap block 0 cause 1\n",
    ),
    (
        TWO_LOADS,
        &[],
        Status::Trap,
        "output 0\n\ntrap block 0 cause 2\n",
    ),
    (
        MEETING,
        &[],
        Status::Trap,
        "output 0\n\ntrap block 0 cause 1\n",
    ),
    (
        MARKED_PREDICATE,
        &[],
        Status::Trap,
        "output 0\n\ntrap block 0 cause 1\n",
    ),
    (NULL_DIVIDEND, &[], Status::Ended, "output 0\n\nresult 6\n"),
    (
        MARKED_NULL,
        &[],
        Status::Trap,
        "output 0\n\ntrap block 0 cause 1\n",
    ),
    (
        MARKED_ADDRESS,
        &[],
        Status::Trap,
        "output 0\n\ntrap block 0 cause 1\n",
    ),
    (
        MARKED_EXIT,
        &[],
        Status::Trap,
        "output 0\n\ntrap block 0 cause 1\n",
    ),
    (
        SECOND_BLOCK,
        &[],
        Status::Trap,
        "output 0\n\ntrap block 1 cause 1\n",
    ),
    (
        SECOND_BLOCK,
        &["--blocks", "2"],
        Status::Trap,
        "output 0\n\ntrap block 1 cause 1\n",
    ),
    (
        SECOND_BLOCK,
        &["--blocks", "1"],
        Status::Budget,
        "output 0\n\nbudget 1\n",
    ),
];

fn assert_rows(rt: &impl Abort, alloc: Global, rows: &[Row]) -> Result<(), Fail> {
    for (blocks, others, status, report) in rows {
        let text = format!(in alloc; "trips 1\ndata 0\n{blocks}")?;
        let bytes = image_of_text(rt, alloc, text.as_bytes())?;
        let mut words = Vec::new(alloc);
        words.push("run")?;
        words.push("b.img")?;
        words.extend_from_slice(others)?;
        let (answered, written) = answer_of(alloc, &words, &[("b.img", &bytes)])?;
        assert_eq!(rt; answered, *status, "{blocks}");
        assert_eq!(rt; written.as_slice(), report.as_bytes(), "{blocks}");
    }
    Ok(())
}

#[test]
fn traps_where_a_fault_reaches_an_output(rt: HostRuntime) -> Result<(), Fail> {
    assert_rows(&rt, rt.alloc(), ROWS)
}
