//! Explanations of files: accepted, and refused by each stage.
ghost use Rattle.std.specs.Prelude.{◌<◌, length};

use crate::explanation::file_explained;
use std::alloc::{AllocError, Global};
use std::process::Abort;
use std::test::Fail;
use trips_requests::Status;

fn assert_explained(
    rt: &impl Abort,
    alloc: Global,
    text: &str,
    status: Status,
    report: &str,
) -> Result<(), AllocError>
    requires short { length text.now < 4_294_967_295 }
{
    let answer = file_explained(alloc, "a.c", text.as_bytes(), b"", 1_000)?;
    assert_eq!(rt; answer.status, status, "{text}");
    assert_eq!(rt; answer.report.as_slice(), report.as_bytes(), "{text}");
    Ok(())
}

#[test]
fn counts_an_accepted_text(rt: HostRuntime) -> Result<(), Fail> {
    let alloc = rt.alloc();
    assert_explained(
        &rt,
        alloc,
        "int main(void)\n{\n    return 0;\n}\n",
        Status::Ended,
        "a.c: accepted, functions 1, lines 4, tokens 10\nresult 0 in 4 steps\noutput: 0 bytes\n",
    )?;
    assert_explained(
        &rt,
        alloc,
        "int f(void);\nint main(void) { return f(); }\nint f(void) { return 1; }",
        Status::Ended,
        "a.c: accepted, functions 2, lines 3, tokens 28\nresult 1 in 8 steps\noutput: 0 bytes\n",
    )?;
    Ok(())
}

#[test]
fn tells_a_refusal_by_each_stage(rt: HostRuntime) -> Result<(), Fail> {
    let alloc = rt.alloc();
    assert_explained(
        &rt,
        alloc,
        "int a;\n\t@\n",
        Status::Refused,
        "a.c:2:2: lex BadByte: '@' begins no token\n\t@\n\t^\n",
    )?;
    assert_explained(
        &rt,
        alloc,
        "auto int n;\n",
        Status::Refused,
        "a.c:1:1: parse Syntax: 'auto' does not stand here: write the declaration without it, and an object of \
            extern where it is defined\nauto int n;\n^\n",
    )?;
    assert_explained(
        &rt,
        alloc,
        "int main(void) {\n    return n;\n}\n",
        Status::Refused,
        "a.c:2:12: type Unknown: 'n' is not declared before this place\n    return n;\n           ^\n",
    )?;
    assert_explained(
        &rt,
        alloc,
        "int a;\n",
        Status::Refused,
        "a.c: type NoMain: no function int main(void) with a body is defined\n",
    )?;
    Ok(())
}

#[test]
fn goes_on_behind_faults_of_typing(rt: HostRuntime) -> Result<(), Fail> {
    let alloc = rt.alloc();
    assert_explained(
        &rt,
        alloc,
        "int main(void) {\n    a = 1;\n    int x = b, y = x;\n    while (d < y) break;\n    return x + c;\n}\n",
        Status::Refused,
        "a.c:2:5: type Unknown: 'a' is not declared before this place\n    a = 1;\n    ^\n\
        a.c:3:13: type Unknown: 'b' is not declared before this place\n    int x = b, y = x;\n            ^\n\
        a.c:4:12: type Unknown: 'd' is not declared before this place\n    while (d < y) break;\n           ^\n\
        a.c:5:16: type Unknown: 'c' is not declared before this place\n    return x + c;\n               ^\n",
    )?;
    assert_explained(
        &rt,
        alloc,
        "int a[n];\nint main(void) { break; a = 1; return f(a[2]); }\n",
        Status::Refused,
        "a.c:1:7: type Unknown: 'n' is not declared before this place\nint a[n];\n      ^\n\
        a.c:2:18: type Mismatch: 'break' stands in no loop, nor break in a switch\n\
        int main(void) { break; a = 1; return f(a[2]); }\n                 ^\n\
        a.c:2:25: type Mismatch: 'a' does not fit here: look for an array or a void call as a value, a value that \
        is set, or no constant\n\
        int main(void) { break; a = 1; return f(a[2]); }\n                        ^\n\
        a.c:2:39: type Unknown: 'f' is called, and the text has no function of this name: define it before this \
        place\n\
        int main(void) { break; a = 1; return f(a[2]); }\n                                      ^\n",
    )?;
    Ok(())
}

/// A target text of a block with three instructions.
const TARGET: &str =
    "trips 1\ndata 0\nblock 0 mask 00000000\nW[0] write G[0]\nW[1] write G[3]\nN[0] genu 3 W[0]\n\
    N[1] genu 7 W[1]\nN[2] scall 0\n";

/// The same without the instruction that writes W[1].
const OWING: &str =
    "trips 1\ndata 0\nblock 0 mask 00000000\nW[0] write G[0]\nW[1] write G[3]\nN[0] genu 3 W[0]\n\
    N[2] scall 0\n";

const FILES: &[(&str, &str, Status, &str)] = &[
    (
        "v.tasl",
        TARGET,
        Status::Ended,
        "v.tasl: accepted, blocks 1, instructions 3\n",
    ),
    (
        "v.tasl",
        "trips 2\n",
        Status::Refused,
        "v.tasl:1: asm Syntax: no line that may stand here is spelled so; dis writes such lines\n",
    ),
    (
        "v.tasl",
        OWING,
        Status::Refused,
        "v.tasl: block 0: check NoToken W[1]: it gets no token in some case\n",
    ),
    (
        "b.img",
        "TRIPS",
        Status::Refused,
        "b.img: byte 5: image Truncated: the file ends here, and a field or a chunk is not whole\n",
    ),
    (
        "b.img",
        "TRIPSIMA",
        Status::Refused,
        "b.img: byte 0: image Magic: an image begins with TRIPSIMG; compile and asm write images\n",
    ),
    (
        "b.img",
        "TRIPSIMG\x00\x00\x00\x01\x00\x00\x00\x00",
        Status::Refused,
        "b.img: byte 12: image BadField: the field that begins here holds what it may not\n",
    ),
];

fn assert_file(
    rt: &impl Abort,
    alloc: Global,
    file: &str,
    bytes: &str,
    status: Status,
    report: &str,
) -> Result<(), AllocError> {
    if 1_000 < bytes.len() {
        return Ok(());
    }
    let answer = file_explained(alloc, file, bytes.as_bytes(), b"", 1_000)?;
    assert_eq!(rt; answer.status, status, "{report}");
    assert_eq!(rt; answer.report.as_slice(), report.as_bytes(), "{report}");
    Ok(())
}

#[test]
fn explains_images_and_target_texts(rt: HostRuntime) -> Result<(), Fail> {
    for (file, bytes, status, report) in FILES {
        assert_file(&rt, rt.alloc(), file, bytes, *status, report)?;
    }
    Ok(())
}
