//! Reports to files and sinks that take pieces, words that are no request, large files, and refused memory.
ghost use Rattle.std.specs.Prelude.{◌<◌};

use std::alloc::{AllocError, Global};
use std::process::Abort;
use std::test::Fail;
use trips_outside::{HonestFiles, HonestSink};
use trips_run::{Status, trips_run};
use trips_run_harness::{Calls, answer_in_pieces, answer_of, files_of, words_of};

const SEVEN: &str = "int main(void) { return 7; }";

const SEVEN_REPORT: &str = "output 0\n\nresult 7\n";

// A text with its status and its report.
type Row = (&'static str, Status, &'static str);

const SMALL: &[Row] = &[
    (SEVEN, Status::Ended, SEVEN_REPORT),
    (
        "int main(void) { return 0; }\n",
        Status::Ended,
        "output 0\n\nresult 0\n",
    ),
    (
        "int main(void) { return 65535; }",
        Status::Ended,
        "output 0\n\nresult 65535\n",
    ),
    (
        "int main(void) { return 65536; }",
        Status::Ended,
        "output 0\n\nresult 65536\n",
    ),
    ("", Status::Refused, "refused parse 1 Syntax line 1\n"),
    ("@", Status::Refused, "refused lex 1 BadByte line 1\n"),
];

// The file is read, and the sink written, in pieces of this size.
fn assert_pieces(
    rt: &impl Abort,
    alloc: Global,
    rows: &[Row],
    piece: usize,
) -> Result<(), AllocError>
    requires { 0 < piece }
{
    let calls = Calls { piece, failing: 0 };
    for (text, status, report) in rows {
        let held = [("a.c", text.as_bytes())];
        let (answered, written) = answer_in_pieces(alloc, &["run", "a.c"], &held, calls, calls)?;
        assert_eq!(rt; answered, *status, "{text} in pieces of {piece}");
        assert_eq!(rt;
            written.as_slice(),
            report.as_bytes(),
            "{text} in pieces of {piece}"
        );
    }
    Ok(())
}

#[test]
fn reports_the_number_whatever_the_pieces(rt: HostRuntime) -> Result<(), Fail> {
    assert_pieces(&rt, rt.alloc(), SMALL, 1)?;
    assert_pieces(&rt, rt.alloc(), SMALL, 4)?;
    assert_pieces(&rt, rt.alloc(), SMALL, 64)?;
    Ok(())
}

#[test]
fn reports_to_an_honest_sink(rt: HostRuntime) -> Result<(), Fail> {
    let alloc = rt.alloc();
    let words = words_of(alloc, &["run", "a.c"])?;
    let mut files = HonestFiles::make(files_of(alloc, &[("a.c", SEVEN.as_bytes())])?);
    let mut sink = HonestSink::make(alloc, 100)?;
    assert_eq!(rt;
        trips_run(alloc, &words, &mut files, &mut sink),
        Status::Ended
    );
    assert_eq!(rt; sink.written(), SEVEN_REPORT.as_bytes());
    Ok(())
}

const WORDS: &[&[&str]] = &[
    &[],
    &["run"],
    &["run", "-a"],
    &["walk", "a.c"],
    &["compile"],
    &["asm", "a.tasl", "--blocks", "1"],
    &["run", "a.c", "b.c"],
    &["run", "a.c", "--blocks", "0"],
    &["run", "a.c", "--blocks", "1", "--blocks", "2"],
    &["run", "b.img", "--place", "1"],
    &["bench", "65"],
];

fn assert_usage(rt: &impl Abort, alloc: Global, rows: &[&[&str]]) -> Result<(), AllocError> {
    for row in rows {
        let (status, written) = answer_of(alloc, *row, &[])?;
        assert_eq!(rt; status, Status::Usage);
        assert_eq!(rt; written.as_slice(), b"usage\n".as_slice());
    }
    Ok(())
}

#[test]
fn other_words_are_usage(rt: HostRuntime) -> Result<(), Fail> {
    assert_usage(&rt, rt.alloc(), WORDS)?;
    Ok(())
}

// A file of so many times this byte is refused so.
fn assert_size(
    rt: &impl Abort,
    alloc: Global,
    size: usize,
    byte: u8,
    report: &str,
) -> Result<(), AllocError> {
    let mut text = Vec::new(alloc);
    text.resize(size, byte)?;
    let (status, written) = answer_of(alloc, &["run", "a.c"], &[("a.c", &text)])?;
    assert_eq!(rt; status, Status::Refused, "{size} bytes");
    assert_eq!(rt; written.as_slice(), report.as_bytes(), "{size} bytes");
    Ok(())
}

// A file above the limit is refused, and one at the limit is judged by its text, whose tokens may
// be too many.
#[test]
fn large_files_are_refused(rt: HostRuntime) -> Result<(), Fail> {
    let alloc = rt.alloc();
    assert_size(&rt, alloc, 262_145, b' ', "refused file 2 TooLarge\n")?;
    assert_size(&rt, alloc, 262_144, b' ', "refused parse 1 Syntax line 1\n")?;
    assert_size(
        &rt,
        alloc,
        8_193,
        b';',
        "refused lex 4 TooManyTokens line 1\n",
    )?;
    Ok(())
}

// Whichever allocation is refused, nothing was written or the answer is the right one.
fn assert_nothing_or_all(rt: &impl Abort, alloc: Global, command: &str, report: &str) {
    let Ok((status, written)) = answer_of(alloc, &[command, "a.c"], &[("a.c", SEVEN.as_bytes())])
    else {
        return;
    };
    if status == Status::Memory {
        assert_eq!(rt; written.as_slice(), b"".as_slice(), "{command}");
    } else {
        assert_eq!(rt; status, Status::Ended, "{command}");
        assert_eq!(rt; written.as_slice(), report.as_bytes(), "{command}");
    }
}

#[test]
fn refused_memory_writes_nothing(rt: HostRuntime) {
    assert_nothing_or_all(&rt, rt.alloc(), "run", SEVEN_REPORT);
    let steps = "output 0\n\nresult 7\nsteps 4\n";
    assert_nothing_or_all(&rt, rt.alloc(), "eval", steps);
}
