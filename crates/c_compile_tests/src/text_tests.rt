//! Texts, each compiled and run by one call: every parcel is held for three cycles, and every guess is of exit 7, or
//! every one of exit 0.

use crate::predictors::predictor;
use grid_meaning::{Ran, run_text};
use grid_place::Placing;
use operand_net::Worst;
use std::alloc::{AllocError, Global};
use std::process::Abort;
use std::test::Fail;
use trips_isa::Ending;

const SEVEN: &str = "int main(void) { return 7; }";

const POWERS: &str = "long a[9]; int main(void) { int i; a[0] = 1;
for (i = 1; i < 9; i++) a[i] = a[i - 1] * 2; return (int) a[8]; }";

// Puts out each byte of the input with its successor, and returns how many there were.
const PAIRS: &str = "#include <stdio.h>
int main(void) { int c, n = 0;
while ((c = getchar()) != EOF) { putchar(c); putchar(c + 1); n++; } return n; }";

// How many blocks a run may commit.
const BUDGET: u32 = 1000;

/// A text and its input, and what its run comes to.
#[derive(Clone, Copy)]
struct Row {
    text: &'static str,
    input: &'static str,
    output: &'static str,
    /// the word of register 3 at the end of the run
    result: u64,
}

// A return, a loop over an array, and a loop over the input.
const ROWS: &[Row] = &[
    Row {
        text: SEVEN,
        input: "",
        output: "",
        result: 7,
    },
    Row {
        text: POWERS,
        input: "",
        output: "",
        result: 256,
    },
    Row {
        text: PAIRS,
        input: "aq",
        output: "abqr",
        result: 2,
    },
];

// The run of a text, where each guess is of one exit.
fn ran(rt: &impl Abort, alloc: Global, row: &Row, exit: u8) -> Result<Ran<Worst>, Fail> {
    let text = row.text.as_bytes();
    assert!(rt; text.len() < 4_294_967_295, "a short text");
    let mut input = Vec::new(alloc);
    input.extend_from_slice(row.input.as_bytes())?;
    let predictor = predictor(alloc, exit)?;
    match run_text(
        alloc,
        text,
        Placing::Greedy,
        input,
        predictor,
        Worst,
        BUDGET,
    ) {
        Ok(ran) => Ok(ran),
        Err(_) => Err(Fail::from(AllocError)),
    }
}

fn assert_row(rt: &impl Abort, alloc: Global, row: &Row, exit: u8) -> Result<(), Fail> {
    let ran = ran(rt, alloc, row, exit)?;
    assert!(rt;
        ran.ending == Ending::Ended,
        "{}: {:?}",
        row.text,
        ran.ending
    );
    let arch = ran.grid.window().arch();
    assert_eq!(rt; arch.register(3), row.result, "{}: register 3", row.text);
    assert!(rt;
        arch.output() == row.output.as_bytes(),
        "{}: the output",
        row.text
    );
    let counts = ran.grid.counts();
    assert_eq!(rt;
        counts.committed,
        arch.trace().len() as u64,
        "{}: committed",
        row.text
    );
    assert!(rt;
        counts.cycles <= ran.grid.cost(),
        "{}: within the cost",
        row.text
    );
    Ok(())
}

fn assert_rows(rt: &impl Abort, alloc: Global, rows: &[Row], exit: u8) -> Result<(), Fail> {
    for row in rows {
        assert_row(rt, alloc, row, exit)?;
    }
    Ok(())
}

#[test]
fn texts_run_with_each_guess_of_exit_0(rt: HostRuntime) -> Result<(), Fail> {
    assert_rows(&rt, rt.alloc(), ROWS, 0)
}

#[test]
fn texts_run_with_each_guess_of_exit_7(rt: HostRuntime) -> Result<(), Fail> {
    assert_rows(&rt, rt.alloc(), ROWS, 7)
}
