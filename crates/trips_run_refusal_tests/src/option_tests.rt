//! The options of `run` and `eval`, and what is read for them.
use std::alloc::{AllocError, Global};
use std::process::Abort;
use std::test::Fail;
use trips_run::Status;
use trips_run_harness::answer_of;

const USAGES: &[&[&str]] = &[
    &["eval"],
    &["eval", "-a.c"],
    &["eval", "a.c", "--steps"],
    &["eval", "a.c", "--steps", "0"],
    &["eval", "a.c", "--steps", "4000001"],
    &["eval", "a.c", "--steps", "-1"],
    &["eval", "a.c", "--steps", "+1"],
    &["eval", "a.c", "--steps", ""],
    &["eval", "a.c", "--steps", "1e3"],
    &["eval", "a.c", "--steps", "99999999999999999999"],
    &["eval", "a.c", "--steps", "1", "--steps", "1"],
    &["eval", "a.c", "--input", "t", "--input", "t"],
    &["eval", "a.c", "--input", "--steps"],
    &["eval", "a.c", "--blocks", "1"],
    &["eval", "a.c", "b.c"],
    &["eval", "--steps", "1"],
    &["run", "a.c", "--steps", "1"],
    &["run", "a.c", "--blocks"],
    &["run", "a.c", "--blocks", "0"],
    &["run", "a.c", "--blocks", "4000001"],
    &["run", "a.c", "--input"],
    &["run", "a.c", "--input", "t", "--input", "t"],
    &["bench"],
    &["bench", "0"],
    &["bench", "65"],
    &["bench", "a.c"],
    &["bench", "-1"],
    &["bench", "1", "2"],
    &["bench", "1", "--steps", "1"],
    &["bench", "1", "--blocks", "0"],
    &["bench", "1", "--input", "t"],
    &["run", "--blocks", "1"],
    &["run", "a.c", "--regs=yes"],
    &["eval", "a.c", "--trace"],
    &["run", "b.img", "--place", "1"],
    &["run", "v.tasl", "--place", "1"],
    &["run", "a.c", "--place", "-1"],
    &["run", "a.c", "--place", "18446744073709551616"],
    &["run", "a.c", "--place", "1", "--place", "1"],
    &["compile", "a.c", "--place"],
    &["bench", "1", "--place", "x"],
    &["eval", "a.c", "--place", "1"],
];

// Each of these requests is answered so, and what is written begins so.
fn assert_words(
    rt: &impl Abort,
    alloc: Global,
    rows: &[&[&str]],
    held: &[(&str, &[u8])],
    status: Status,
    report: &[u8],
) -> Result<(), AllocError> {
    for words in rows {
        let (answered, written) = answer_of(alloc, *words, held)?;
        assert_eq!(rt; answered, status, "{words:?}");
        assert!(rt; written.starts_with(report), "{words:?}");
    }
    Ok(())
}

#[test]
fn other_options_are_usage(rt: HostRuntime) -> Result<(), Fail> {
    assert_words(
        &rt,
        rt.alloc(),
        USAGES,
        &[("a.c", b"int main(void) { }"), ("t", b"")],
        Status::Usage,
        b"usage\n",
    )?;
    Ok(())
}

const ORDERS: &[&[&str]] = &[
    &["eval", "a.c", "--input", "t", "--steps", "9"],
    &["eval", "a.c", "--steps", "9", "--input", "t"],
    &["eval", "--steps=9", "a.c", "--input=t"],
    &["eval", "--input", "t", "--steps", "9", "--", "a.c"],
];

const READER: &str = "#include <stdio.h>\nint main(void) { return getchar(); }";

#[test]
fn takes_both_options_in_either_order(rt: HostRuntime) -> Result<(), Fail> {
    assert_words(
        &rt,
        rt.alloc(),
        ORDERS,
        &[("a.c", READER.as_bytes()), ("t", b"a")],
        Status::Ended,
        b"output 0\n\nresult 97\nsteps ",
    )?;
    Ok(())
}

fn spaces(alloc: Global, count: usize) -> Result<Vec<u8>, AllocError> {
    let mut bytes = Vec::new(alloc);
    bytes.resize(count, b' ')?;
    Ok(bytes)
}

// What a command answers to a text and an input.
fn answer_over<'a>(
    alloc: Global,
    command: &str,
    text: &'a [u8],
    input: &'a [u8],
) -> Result<(Status, Vec<u8>), AllocError> {
    answer_of(
        alloc,
        &[command, "a.c", "--input", "t"],
        &[("a.c", text), ("t", input)],
    )
}

// What a command says of a text and an input of so many spaces.
fn assert_read(
    rt: &impl Abort,
    alloc: Global,
    command: &str,
    text: &[u8],
    input: usize,
    status: Status,
    report: &str,
) -> Result<(), AllocError> {
    let bytes = spaces(alloc, input)?;
    let (answered, written) = answer_over(alloc, command, text, bytes.as_slice())?;
    assert_eq!(rt; answered, status, "{command} {input}");
    assert_eq!(rt; written.as_slice(), report.as_bytes(), "{command} {input}");
    Ok(())
}

// And where there is no input of this name.
fn assert_unread(
    rt: &impl Abort,
    alloc: Global,
    command: &str,
    text: &[u8],
    status: Status,
    report: &str,
) -> Result<(), AllocError> {
    let (answered, written) = answer_of(
        alloc,
        &[command, "a.c", "--input", "t"],
        &[("a.c", text)],
    )?;
    assert_eq!(rt; answered, status, "{command}");
    assert_eq!(rt; written.as_slice(), report.as_bytes(), "{command}");
    Ok(())
}

const LARGE: &str = "refused file 2 TooLarge\n";

const MAIN: &[u8] = b"int main(void) { }";

fn assert_reads_in_order(
    rt: &impl Abort,
    alloc: Global,
    command: &str,
    ended: &str,
) -> Result<(), AllocError> {
    assert_unread(rt, alloc, command, MAIN, Status::ReadFault, "read fault\n")?;
    assert_unread(rt, alloc, command, b"@", Status::ReadFault, "read fault\n")?;
    let large = spaces(alloc, 262_145)?;
    assert_unread(rt, alloc, command, large.as_slice(), Status::Refused, LARGE)?;
    assert_read(rt, alloc, command, b"@", 1_048_577, Status::Refused, LARGE)?;
    let lexer = "refused lex 1 BadByte line 1\n";
    assert_read(rt, alloc, command, b"@", 1_048_576, Status::Refused, lexer)?;
    assert_read(rt, alloc, command, MAIN, 1_048_576, Status::Ended, ended)?;
    assert_read(rt, alloc, command, MAIN, 1_048_577, Status::Refused, LARGE)
}

// The program is read before its input, and both before the program is judged.
#[test]
fn reads_the_program_and_then_its_input(rt: HostRuntime) -> Result<(), Fail> {
    assert_reads_in_order(&rt, rt.alloc(), "eval", "output 0\n\nresult 0\nsteps 2\n")?;
    assert_reads_in_order(&rt, rt.alloc(), "run", "output 0\n\nresult 0\n")?;
    Ok(())
}
