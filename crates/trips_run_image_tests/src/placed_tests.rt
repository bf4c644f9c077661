//! Programs whose blocks are placed in several ways, compiled and run: the image that `compile` writes is the one
//! that `run` makes, as far as a run shows it.

use std::alloc::{AllocError, Global};
use std::process::Abort;
use std::test::Fail;
use trips_run::Status;
use trips_run_harness::answer_of;

/// A text, its input, and the report of its run.
type Row = (&'static str, &'static str, &'static str);

const COUNTER: &str = "#include <stdio.h>
int main(void) {
  int c; int in = 0; int words = 0;
  while ((c = getchar()) != EOF) {
    if (c == ' ' || c == '\\n' || c == '\\t') in = 0;
    else if (!in) { in = 1; words++; }
  }
  putchar('0' + words); putchar('\\n');
  return words;
}
";

const POWERS: &str = "long a[9]; int main(void) { int i; a[0] = 1;
for (i = 1; i < 9; i++) a[i] = a[i - 1] * 2; return (int) a[8]; }";

const ROWS: &[Row] = &[
    ("int main(void) { return 7; }", "", "output 0\n\nresult 7\n"),
    (COUNTER, "a bb\nccc", "output 2\n3\n\nresult 3\n"),
    (POWERS, "", "output 0\n\nresult 256\n"),
];

// Words that place blocks: near their producers, and by three numbers.
const PLACES: &[&[&str]] = &[&[], &["--place", "0"], &["--place", "1"], &["--place=5"]];

const NUMBERS: &[&[&str]] = &[
    &["--place", "0"],
    &["--place", "5"],
    &["--place", "18446744073709551615"],
];

// What words are answered to a text and an input, with more words behind them.
fn text_answer<'a>(
    alloc: Global,
    text: &'a str,
    input: &'a str,
    words: &[&'static str],
    more: &[&'static str],
) -> Result<(Status, Vec<u8>), AllocError> {
    let mut all = Vec::from_slice(alloc, words)?;
    all.extend_from_slice(more)?;
    answer_of(
        alloc,
        all.as_slice(),
        &[("a.c", text.as_bytes()), ("t", input.as_bytes())],
    )
}

// What the run of an image shows.
fn image_shown<'a>(alloc: Global, image: &'a [u8], input: &'a str) -> Result<Vec<u8>, AllocError> {
    let (_, shown) = answer_of(
        alloc,
        &[
            "run", "b.img", "--input", "t", "--regs", "--trace", "--cycles",
        ],
        &[("b.img", image), ("t", input.as_bytes())],
    )?;
    Ok(shown)
}

// The report of the text's run, and of the run of its image, with what is shown of both.
fn assert_placed(
    rt: &impl Abort,
    alloc: Global,
    row: &Row,
    place: &[&'static str],
) -> Result<(), AllocError> {
    let (text, input, report) = *row;
    let run = ["run", "a.c", "--input", "t"];
    let (_, written) = text_answer(alloc, text, input, &run, place)?;
    assert_eq!(rt; written.as_slice(), report.as_bytes(), "{text} {place:?}");
    let (status, image) = text_answer(alloc, text, input, &["compile", "a.c"], place)?;
    assert_eq!(rt; status, Status::Ended, "{text} {place:?}");
    let run = [
        "run", "a.c", "--input", "t", "--regs", "--trace", "--cycles",
    ];
    let (_, shown) = text_answer(alloc, text, input, &run, place)?;
    let again = image_shown(alloc, &image, input)?;
    assert_eq!(rt; again.as_slice(), shown.as_slice(), "{text} {place:?}");
    Ok(())
}

fn assert_all_placed(
    rt: &impl Abort,
    alloc: Global,
    row: &Row,
    places: &[&[&'static str]],
) -> Result<(), AllocError> {
    for place in places {
        assert_placed(rt, alloc, row, *place)?;
    }
    Ok(())
}

fn assert_rows(
    rt: &impl Abort,
    alloc: Global,
    rows: &[Row],
    places: &[&[&'static str]],
) -> Result<(), AllocError> {
    for row in rows {
        assert_all_placed(rt, alloc, row, places)?;
    }
    Ok(())
}

#[test]
fn every_placing_runs_alike(rt: HostRuntime) -> Result<(), Fail> {
    assert_rows(&rt, rt.alloc(), ROWS, PLACES)?;
    Ok(())
}

// Each placing of a text makes another image.
fn assert_apart(
    rt: &impl Abort,
    alloc: Global,
    text: &str,
    places: &[&[&'static str]],
) -> Result<(), AllocError> {
    let (_, greedy) = text_answer(alloc, text, "", &["compile", "a.c"], &[])?;
    let mut last = Vec::from_slice(alloc, greedy.as_slice())?;
    for place in places {
        let (_, image) = text_answer(alloc, text, "", &["compile", "a.c"], *place)?;
        assert!(rt; image.as_slice() != last.as_slice(), "{place:?}");
        last = image;
    }
    Ok(())
}

#[test]
fn each_number_places_otherwise(rt: HostRuntime) -> Result<(), Fail> {
    assert_apart(&rt, rt.alloc(), POWERS, NUMBERS)?;
    Ok(())
}
