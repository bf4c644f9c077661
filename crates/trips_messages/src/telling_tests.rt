//! Messages, worked by hand from docs/MESSAGES.md.

use crate::fault::Fault;
use crate::telling::{accepted, message, message_without_place};
use std::alloc::{AllocError, Global};
use std::process::Abort;
use std::test::Fail;

struct Row {
    text: &'static [u8],
    line: u32,
    fault: Fault,
    offset: u32,
    told: &'static str,
}

const ROWS: &[Row] = &[
    Row {
        text: b"int a;\n\tstruct s;\n",
        line: 2,
        fault: Fault::Syntax,
        offset: 8,
        told: "a.c:2:2: parse Syntax: 'struct' is left out: write a variable for each member, and an array for \
            each member of many\n\tstruct s;\n\t^\n",
    },
    Row {
        text: b"# pragma N 5",
        line: 1,
        fault: Fault::Directive,
        offset: 0,
        told: "a.c:1:1: lex Directive: '# pragma N 5' is no directive that is here: only #include, #define, \
            #undef, #ifdef, #ifndef, #else and #endif are\n# pragma N 5\n^\n",
    },
    Row {
        text: b"",
        line: 1,
        fault: Fault::Syntax,
        offset: 0,
        told: "a.c:1:1: parse Syntax: '' is all that stands here: write int main(void) { return 0; } at least\n\n^\n",
    },
    Row {
        text: b"x \xC3\xA4",
        line: 1,
        fault: Fault::BadByte,
        offset: 2,
        told: "a.c:1:3: lex BadByte: '195' is the number of a byte that begins no token: outside comments a \
            text has ASCII alone\nx ä\n  ^\n",
    },
];

fn assert_row(rt: &impl Abort, alloc: Global, row: &Row) -> Result<(), AllocError> {
    let told = message(alloc, "a.c", row.text, &[], row.line, row.fault, row.offset)?;
    assert_eq!(rt; told.as_slice(), row.told.as_bytes(), "{}", row.told);
    Ok(())
}

#[test]
fn tells_each_row(rt: HostRuntime) -> Result<(), Fail> {
    for row in ROWS {
        assert_row(&rt, rt.alloc(), row)?;
    }
    Ok(())
}

#[test]
fn tells_what_has_no_place(rt: HostRuntime) -> Result<(), Fail> {
    let told = message_without_place(rt.alloc(), "a.c", Fault::NoMain)?;
    let want = "a.c: type NoMain: no function int main(void) with a body is defined\n";
    assert_eq!(rt; told.as_slice(), want.as_bytes());
    let told = accepted(rt.alloc(), "a.c", 2, 3, 40)?;
    let want = "a.c: accepted, functions 2, lines 3, tokens 40\n";
    assert_eq!(rt; told.as_slice(), want.as_bytes());
    Ok(())
}
