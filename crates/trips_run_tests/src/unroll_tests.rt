//! `--unroll`: loops that do several turns in a block.
use std::alloc::{AllocError, Global};
use std::process::Abort;
use std::test::Fail;
use trips_run::Status;
use trips_run_harness::answer_of;

// How many turns of a loop a block is asked to do.
const TURNS: &[&str] = &["1", "2", "3", "8"];

// How many turns the loops make: none, and about as many as fit into a block.
const OFTEN: &[&str] = &["0", "1", "2", "3", "7", "8", "9", "25"];

// The beginning of a program, and its end behind the number of its loop's turns.
type Loop = (&'static str, &'static str);

// A loop over scalars; over an array, read and written; that stores what the next turn loads; with an if in its body;
// that counts down; whose test is behind its body; in another loop; around a call; with a second end.
const LOOPS: &[Loop] = &[
    (
        "int main(void) { int i; int s = 7; for (i = 0; i < ",
        "; i++) s = s + i * 3; return s; }",
    ),
    (
        "int a[32]; int main(void) { int i; int s = 0; for (i = 0; i < ",
        "; i++) { a[i] = a[i] + i; s += a[i]; } return s; }",
    ),
    (
        "long a[32]; int main(void) { int i; a[0] = 1; for (i = 1; i <= ",
        "; i++) a[i] = a[i - 1] * 2 % 1000; return (int) a[i - 1]; }",
    ),
    (
        "int main(void) { int i; int s = 0; for (i = 0; i < ",
        "; i++) { if (i & 1) s += i; else s ^= 3; } return s; }",
    ),
    (
        "int main(void) { unsigned s = 1; int i = ",
        "; while (i) { s = s * 5 + i; i = i - 1; } return s % 1000; }",
    ),
    (
        "int main(void) { int s = 1; int i = ",
        "; do { s += i; i--; } while (i > 0); return s; }",
    ),
    (
        "int main(void) { int i; int j; int s = 0; for (i = 0; i < 3; i++) for (j = i; j < ",
        "; j++) s += i * j; return s; }",
    ),
    (
        "int f(int n) { return n * n; } int main(void) { int i; int s = 0; for (i = 0; i < ",
        "; i++) s += f(i); return s; }",
    ),
    (
        "char a[] = { 9, 8, 7, 6, 5, 4, 3, 2, 1, 0, }; int main(void) { int i; for (i = 0; i < ",
        "; i++) if (a[i % 10] == 2) break; return i; }",
    ),
];

// The report of a run with so many turns of a loop in a block.
fn unrolled(
    alloc: Global,
    text: &str,
    turns: &str,
    blocks: &str,
) -> Result<(Status, Vec<u8>), AllocError> {
    let held = [("a.c", text.as_bytes())];
    answer_of(
        alloc,
        &["run", "a.c", "--unroll", turns, "--blocks", blocks],
        &held,
    )
}

// A text's run is its evaluation, however many turns a block does.
fn assert_agrees(rt: &impl Abort, alloc: Global, text: &str) -> Result<(), AllocError> {
    let held = [("a.c", text.as_bytes())];
    let (told, evaluated) = answer_of(alloc, &["eval", "a.c"], &held)?;
    assert_eq!(rt; told, Status::Ended, "eval {text}");
    for turns in TURNS {
        let (status, written) = unrolled(alloc, text, *turns, "1000")?;
        assert_eq!(rt; status, Status::Ended, "--unroll {turns}: {text}");
        assert!(rt;
            evaluated.starts_with(written.as_slice()),
            "--unroll {turns}: {text}"
        );
    }
    Ok(())
}

fn assert_all_agree(rt: &impl Abort, alloc: Global, loops: &[Loop]) -> Result<(), AllocError> {
    for (before, after) in loops {
        for often in OFTEN {
            let text = format!(in alloc; "{before}{often}{after}")?;
            assert_agrees(rt, alloc, text.as_str())?;
        }
    }
    Ok(())
}

#[test]
fn agrees_however_many_turns_a_block_does(rt: HostRuntime) -> Result<(), Fail> {
    assert_all_agree(&rt, rt.alloc(), LOOPS)?;
    Ok(())
}

// A text, the turns that a block is asked to do, the fewest blocks within which it ends, and its report.
type Few = (&'static str, &'static str, u32, &'static str);

const DOUBLED: &str =
    "long a[9]; int main(void) { int i; a[0] = 1; for (i = 1; i < 9; i++) a[i] = a[i - 1] * 2; \
                       return (int) a[8]; }";

const ADDED: &str =
    "int main(void) { int i; int s = 0; for (i = 0; i < 24; i++) s += i; return s; }";

// A loop that fits into a block twice, and not three times: where more turns are asked for, two are done.
const TWICE: &str =
    "int a[32]; int main(void) { int i; unsigned s = 0; for (i = 0; i < 24; i++) { a[i] = a[i] * 3 + i; \
                     s = s * 5 + a[i]; s = s ^ 9; s = s + (s >> 3) * 7; } return s % 251; }";

const FEW: &[Few] = &[
    (DOUBLED, "1", 14, "output 0\n\nresult 256\n"),
    (DOUBLED, "2", 10, "output 0\n\nresult 256\n"),
    (DOUBLED, "4", 8, "output 0\n\nresult 256\n"),
    (ADDED, "1", 30, "output 0\n\nresult 276\n"),
    (ADDED, "2", 18, "output 0\n\nresult 276\n"),
    (ADDED, "4", 12, "output 0\n\nresult 276\n"),
    (ADDED, "8", 9, "output 0\n\nresult 276\n"),
    (TWICE, "1", 30, "output 0\n\nresult 164\n"),
    (TWICE, "2", 18, "output 0\n\nresult 164\n"),
    (TWICE, "3", 18, "output 0\n\nresult 164\n"),
    (TWICE, "4", 18, "output 0\n\nresult 164\n"),
];

fn assert_few(rt: &impl Abort, alloc: Global, rows: &[Few]) -> Result<(), AllocError> {
    for (text, turns, blocks, report) in rows {
        let enough = format!(in alloc; "{blocks}")?;
        let (status, written) = unrolled(alloc, *text, *turns, enough.as_str())?;
        assert_eq!(rt; status, Status::Ended, "--unroll {turns}: {text}");
        assert_eq!(rt;
            written.as_slice(),
            report.as_bytes(),
            "--unroll {turns}: {text}"
        );
        let fewer = blocks.saturating_sub(1);
        let short = format!(in alloc; "{fewer}")?;
        let (status, _) = unrolled(alloc, *text, *turns, short.as_str())?;
        assert_eq!(rt; status, Status::Budget, "--unroll {turns}: {text}");
    }
    Ok(())
}

#[test]
fn loops_take_fewer_blocks(rt: HostRuntime) -> Result<(), Fail> {
    assert_few(&rt, rt.alloc(), FEW)?;
    Ok(())
}

// The third turn divides by zero.
const TRAPS: &str =
    "int main(void) { int i; int d = 2; int s = 0; for (i = 0; i < 9; i++) { s = s + 12 / d; d = d - 1; } \
                     return s; }";

// It traps in the same block, however many turns this does.
fn assert_traps(rt: &impl Abort, alloc: Global, text: &str) -> Result<(), AllocError> {
    for turns in TURNS {
        let (status, written) = unrolled(alloc, text, *turns, "1000")?;
        assert_eq!(rt; status, Status::Trap, "--unroll {turns}: {text}");
        assert_eq!(rt;
            written.as_slice(),
            b"output 0\n\ntrap block 5 cause 1\n".as_slice(),
            "--unroll {turns}: {text}"
        );
    }
    Ok(())
}

#[test]
fn a_turn_that_traps_traps_its_block(rt: HostRuntime) -> Result<(), Fail> {
    assert_traps(&rt, rt.alloc(), TRAPS)?;
    Ok(())
}

// Every budget ends a run as budgets do, also within a block of several turns.
fn assert_budgets(
    rt: &impl Abort,
    alloc: Global,
    text: &str,
    turns: &str,
    ends: u32,
) -> Result<(), AllocError> {
    for blocks in 1..ends {
        let most = format!(in alloc; "{blocks}")?;
        let (status, written) = unrolled(alloc, text, turns, most.as_str())?;
        let report = format!(in alloc; "output 0\n\nbudget {blocks}\n")?;
        assert_eq!(rt;
            status,
            Status::Budget,
            "--unroll {turns} --blocks {blocks}: {text}"
        );
        assert_eq!(rt;
            written.as_slice(),
            report.as_bytes(),
            "--unroll {turns} --blocks {blocks}: {text}"
        );
    }
    Ok(())
}

#[test]
fn budgets_end_within_unrolled_loops(rt: HostRuntime) -> Result<(), Fail> {
    let alloc = rt.alloc();
    for (text, turns, ends, _) in FEW {
        assert_budgets(&rt, alloc, *text, *turns, *ends)?;
    }
    Ok(())
}

#[test]
fn the_benchmark_is_unrolled(rt: HostRuntime) -> Result<(), Fail> {
    let (status, written) = answer_of(rt.alloc(), &["bench", "4", "--unroll", "8"], &[])?;
    assert_eq!(rt; status, Status::Ended);
    assert_eq!(rt;
        written.as_slice(),
        b"output 4\nGLQD\nresult 107\n".as_slice()
    );
    Ok(())
}
