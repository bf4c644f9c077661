//! `explain` on files: what is told of an accepted text, of one that each stage refuses, and of an image.
use std::alloc::{AllocError, Global};
use std::process::Abort;
use std::test::Fail;
use trips_run::Status;
use trips_run_harness::answer_of;

/// A text, the status, and what is told of it.
type Row = (&'static str, Status, &'static str);

const TOLD: &[Row] = &[
    (
        "int main(void)\n{\n    return 7;\n}\n",
        Status::Ended,
        "a.c: accepted, functions 1, lines 4, tokens 10\nresult 7 in 4 steps\noutput: 0 bytes\n",
    ),
    (
        "int f(void) { return 1; }\nint main(void) { return f(); }",
        Status::Ended,
        "a.c: accepted, functions 2, lines 2, tokens 22\nresult 1 in 8 steps\noutput: 0 bytes\n",
    ),
    (
        "int main(void) {\n\treturn @;\n}\n",
        Status::Refused,
        "a.c:2:9: lex BadByte: '@' begins no token\n\treturn @;\n\t       ^\n",
    ),
    (
        "auto int n;\n",
        Status::Refused,
        "a.c:1:1: parse Syntax: 'auto' does not stand here: write the declaration without it, and an object of \
            extern where it is defined\nauto int n;\n^\n",
    ),
    (
        "int main(void) { return total; }",
        Status::Refused,
        "a.c:1:25: type Unknown: 'total' is not declared before this place\nint main(void) { return total; }\n                        ^\n",
    ),
    (
        "int a;\n",
        Status::Refused,
        "a.c: type NoMain: no function int main(void) with a body is defined\n",
    ),
];

fn assert_told(rt: &impl Abort, alloc: Global, rows: &[Row]) -> Result<(), AllocError> {
    for (text, wanted, report) in rows {
        let held = [("a.c", text.as_bytes())];
        let (status, told) = answer_of(alloc, &["explain", "a.c"], &held)?;
        assert_eq!(rt; status, *wanted, "{text}");
        assert_eq!(rt; told.as_slice(), report.as_bytes(), "{text}");
    }
    Ok(())
}

#[test]
fn explains_texts(rt: HostRuntime) -> Result<(), Fail> {
    assert_told(&rt, rt.alloc(), TOLD)?;
    Ok(())
}

/// Reads a byte, and divides 60 by what is left of it behind 48.
const READS: &str =
    "#include <stdio.h>\nint main(void) {\n    int c = getchar();\n    putchar(c);\n    return 60 / (c - 48);\n}\n";

#[test]
fn evaluates_an_accepted_text(rt: HostRuntime) -> Result<(), Fail> {
    let alloc = rt.alloc();
    let held = [
        ("a.c", READS.as_bytes()),
        ("two", b"2".as_slice()),
        ("zero", b"0".as_slice()),
    ];
    let (status, told) = answer_of(alloc, &["explain", "a.c", "--input", "two"], &held)?;
    assert_eq!(rt; status, Status::Ended);
    assert!(rt;
        told.as_slice()
            .ends_with(b"\nresult 30 in 15 steps\noutput: 1 bytes\n2")
    );
    let (status, told) = answer_of(alloc, &["explain", "a.c", "--input", "zero"], &held)?;
    assert_eq!(rt; status, Status::Ended);
    assert!(rt;
        told.as_slice().ends_with(
            b"a.c:5:15: undefined: the quotient 60 / 0 divides by a zero of type \
        int (C17 6.5.5p5)\n    return 60 / (c - 48);\n              ^\noutput: 1 bytes\n0"
        )
    );
    let (status, told) = answer_of(alloc, &["explain", "a.c", "--steps", "4"], &held)?;
    assert_eq!(rt; status, Status::Ended);
    assert!(rt;
        told.as_slice().ends_with(
            b"\nnot done after 4 steps, at a.c:3:13\n    int c = getchar();\n\
        \x20           ^\noutput: 0 bytes\n"
        )
    );
    Ok(())
}

#[test]
fn explains_under_the_name_of_the_file(rt: HostRuntime) -> Result<(), Fail> {
    let held = [("my prices", b"@\n".as_slice())];
    let (status, told) = answer_of(rt.alloc(), &["explain", "my prices"], &held)?;
    assert_eq!(rt; status, Status::Refused);
    assert_eq!(rt;
        told.as_slice(),
        b"my prices:1:1: lex BadByte: '@' begins no token\n@\n^\n".as_slice()
    );
    Ok(())
}

#[test]
fn explains_what_a_file_is_by_its_name(rt: HostRuntime) -> Result<(), Fail> {
    let alloc = rt.alloc();
    let held = [("b.img", b"TRIPS".as_slice()), ("b.c", b"TRIPS".as_slice())];
    let (status, told) = answer_of(alloc, &["explain", "b.img"], &held)?;
    assert_eq!(rt; status, Status::Refused);
    assert_eq!(rt;
        told.as_slice(),
        b"b.img: byte 5: image Truncated: the file ends here, and a field or a chunk is not whole\n".as_slice()
    );
    let (status, _) = answer_of(alloc, &["explain", "b.c"], &held)?;
    assert_eq!(rt; status, Status::Refused);
    Ok(())
}

#[test]
fn explains_a_file_that_is_there(rt: HostRuntime) -> Result<(), Fail> {
    let (status, told) = answer_of(rt.alloc(), &["explain", "none.c"], &[])?;
    assert_eq!(rt; status, Status::ReadFault);
    assert_eq!(rt; told.as_slice(), b"read fault\n".as_slice());
    Ok(())
}
