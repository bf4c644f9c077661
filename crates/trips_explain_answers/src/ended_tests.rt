//! How evaluations of accepted texts end, their places counted by hand.
ghost use Rattle.std.specs.Prelude.{◌<◌, length};

use crate::explanation::file_explained;
use std::alloc::{AllocError, Global};
use std::process::Abort;
use std::test::Fail;
use trips_requests::Status;

/// A text, its input and the steps, and what is told behind the line that it is accepted.
type Row = (&'static str, &'static str, u32, &'static str);

/// Evaluations that are done: each call, main's too, each statement and each node of an expression is a step.
const DONE: &[Row] = &[
    (
        "int main(void) { return 7; }",
        "",
        4,
        "result 7 in 4 steps\noutput: 0 bytes\n",
    ),
    (
        "#include <stdio.h>\nint main(void) {\n    return getchar();\n}\n",
        "A",
        99,
        "result 65 in 5 steps\noutput: 0 bytes\n",
    ),
    (
        "#include <stdio.h>\nint main(void) {\n    putchar('a');\n    return -3;\n}\n",
        "",
        99,
        "result -3 in 9 steps\noutput: 1 bytes\na",
    ),
];

/// Each kind of reason at its place.
const UNDEFINED: &[Row] = &[
    (
        "int main(void) {\n    int n = 2147483647;\n    return n + 1;\n}\n",
        "",
        99,
        "a.c:3:14: undefined: the sum 2147483647 + 1 is no int (C17 6.5p5)\n    return n + 1;\n             ^\n\
        output: 0 bytes\n",
    ),
    // a compound assignment stands at its operator
    (
        "int main(void) {\n    int n = 2147483647;\n\tn += 1;\n    return 0;\n}\n",
        "",
        99,
        "a.c:3:4: undefined: the sum 2147483647 + 1 is no int (C17 6.5p5)\n\tn += 1;\n\t  ^\noutput: 0 bytes\n",
    ),
    (
        "int main(void) {\n    int d = 0;\n    return 1 + 7 / d;\n}\n",
        "",
        99,
        "a.c:3:18: undefined: the quotient 7 / 0 divides by a zero of type int (C17 6.5.5p5)\n\
        \x20   return 1 + 7 / d;\n                 ^\noutput: 0 bytes\n",
    ),
    (
        "int main(void) {\n    int n = -2147483647 - 1;\n    return -n;\n}\n",
        "",
        99,
        "a.c:3:12: undefined: the negation of -2147483648 is no int (C17 6.5p5)\n    return -n;\n           ^\n\
        output: 0 bytes\n",
    ),
    (
        "int main(void) {\n    int s = 32;\n    return 1 << s;\n}\n",
        "",
        99,
        "a.c:3:14: undefined: the shift 1 << 32 has a count outside the width of int (C17 6.5.7p3)\n\
        \x20   return 1 << s;\n             ^\noutput: 0 bytes\n",
    ),
    (
        "int main(void) {\n    int n = -1;\n    return n << 1;\n}\n",
        "",
        99,
        "a.c:3:14: undefined: the shift -1 << 1 is of a negative int (C17 6.5.7p4)\n    return n << 1;\n\
        \x20            ^\noutput: 0 bytes\n",
    ),
    // an element stands at the name of its array
    (
        "int a[3];\nint main(void) {\n    int i = 3;\n    return a[i];\n}\n",
        "",
        99,
        "a.c:4:12: undefined: the index 3 is outside its array of 3 (C17 6.5.6p8)\n    return a[i];\n           ^\n\
        output: 0 bytes\n",
    ),
    (
        "int a[2][3];\nint main(void) {\n    int i = 3;\n    return a[1][i];\n}\n",
        "",
        99,
        "a.c:4:12: undefined: an index is outside its dimension of an array of 6 in rows of 3 (C17 6.5.6p8)\n\
        \x20   return a[1][i];\n           ^\noutput: 0 bytes\n",
    ),
    (
        "int main(void) {\n    int n;\n    return (n);\n}\n",
        "",
        99,
        "a.c:3:13: undefined: a value is taken that was never set (C17 6.3.2.1p2)\n    return (n);\n            ^\n\
        output: 0 bytes\n",
    ),
    (
        "int f(void) { }\nint main(void) {\n    return f() + 1;\n}\n",
        "",
        99,
        "a.c:3:16: undefined: a value is taken of a call that returned none (C17 6.9.1p12)\n    return f() + 1;\n\
        \x20              ^\noutput: 0 bytes\n",
    ),
    // the statement takes it: no expression is told
    (
        "int f(void) { }\nint main(void) {\n    return f();\n}\n",
        "",
        99,
        "a.c: undefined: a value is taken of a call that returned none (C17 6.9.1p12)\noutput: 0 bytes\n",
    ),
    // what a macro stands for is at its name
    (
        "#define Q 1 / z\nint z;\nint main(void) {\n    return Q;\n}\n",
        "",
        99,
        "a.c:4:12: undefined: the quotient 1 / 0 divides by a zero of type int (C17 6.5.5p5)\n    return Q;\n\
        \x20          ^\noutput: 0 bytes\n",
    ),
    // with output
    (
        "#include <stdio.h>\nint z;\nint main(void) {\n    putchar('a');\n    putchar(10);\n    return 1 % z;\n}\n",
        "",
        99,
        "a.c:6:14: undefined: the remainder 1 % 0 divides by a zero of type int (C17 6.5.5p5)\n    return 1 % z;\n\
        \x20            ^\noutput: 2 bytes\na\n",
    ),
];

/// Nested calls, in the text and in the library.
const CALLED: &[Row] = &[
    (
        "int g(int n) {\n    return 10 / n;\n}\nint f(int n) {\n    return g(n - 1);\n}\nint main(void) {\n\
        \x20   return f(1);\n}\n",
        "",
        99,
        "a.c:2:15: undefined: the quotient 10 / 0 divides by a zero of type int (C17 6.5.5p5)\n    return 10 / n;\n\
        \x20             ^\ncalled in f at a.c:5:12\ncalled in main at a.c:8:12\noutput: 0 bytes\n",
    ),
    (
        "#include <string.h>\nchar s[2];\nint main(void) {\n    s[0] = s[1] = 'a';\n    return strlen(s);\n}\n",
        "",
        999,
        "a.c:1:1: undefined: the index 2 is outside its array of 2 (C17 6.5.6p8)\n#include <string.h>\n^\n\
        called in main at a.c:5:12\noutput: 0 bytes\n",
    ),
    // thirty-one calls are open, of which twenty are told
    (
        "int f(int n) {\n    int q = 1 / n;\n    return q + f(n - 1);\n}\nint main(void) {\n    return f(30);\n}\n",
        "",
        9_999,
        "a.c:2:15: undefined: the quotient 1 / 0 divides by a zero of type int (C17 6.5.5p5)\n    int q = 1 / n;\n\
        \x20             ^\n\
        called in f at a.c:3:16\ncalled in f at a.c:3:16\ncalled in f at a.c:3:16\ncalled in f at a.c:3:16\n\
        called in f at a.c:3:16\ncalled in f at a.c:3:16\ncalled in f at a.c:3:16\ncalled in f at a.c:3:16\n\
        called in f at a.c:3:16\ncalled in f at a.c:3:16\ncalled in f at a.c:3:16\ncalled in f at a.c:3:16\n\
        called in f at a.c:3:16\ncalled in f at a.c:3:16\ncalled in f at a.c:3:16\ncalled in f at a.c:3:16\n\
        called in f at a.c:3:16\ncalled in f at a.c:3:16\ncalled in f at a.c:3:16\ncalled in f at a.c:3:16\n\
        ..\noutput: 0 bytes\n",
    ),
];

/// Evaluations that are not done.
const HALTED: &[Row] = &[
    // the call of main, its body, the loop, the test and the statement are steps
    (
        "int main(void) {\n    while (1) 7;\n}\n",
        "",
        5,
        "not done after 5 steps, at a.c:2:15\n    while (1) 7;\n              ^\noutput: 0 bytes\n",
    ),
    (
        "int main(void) {\n    while (1) 7;\n}\n",
        "",
        4,
        "not done after 4 steps\noutput: 0 bytes\n",
    ),
    // two frames of 600,144 bytes are too large
    (
        "int f(int n) {\n    int a[150000];\n    return f(n + 1);\n}\nint main(void) {\n    return f(0);\n}\n",
        "",
        999,
        "the frames are too deep, at a.c:3:12\n    return f(n + 1);\n           ^\ncalled in main at a.c:6:12\n\
        output: 0 bytes\n",
    ),
];

fn assert_row(rt: &impl Abort, alloc: Global, row: &Row) -> Result<(), AllocError> {
    let (text, input, steps, told) = *row;
    if 1_000 < text.len() {
        return Ok(());
    }
    let answer = file_explained(alloc, "a.c", text.as_bytes(), input.as_bytes(), steps)?;
    assert_eq!(rt; answer.status, Status::Ended, "{text}");
    let report = answer.report.as_slice();
    let mut lines = report.split(|byte| *byte == b'\n');
    let first = lines.next().unwrap_or(b"");
    assert!(rt; first.starts_with(b"a.c: accepted, functions "), "{text}");
    let behind = report.get(first.len()..).unwrap_or(b"");
    let wanted = format!(in alloc; "\n{told}")?;
    assert_eq!(rt; behind, wanted.as_bytes(), "{text}");
    Ok(())
}

#[test]
fn tells_what_is_done(rt: HostRuntime) -> Result<(), Fail> {
    for row in DONE {
        assert_row(&rt, rt.alloc(), row)?;
    }
    Ok(())
}

#[test]
fn tells_where_it_is_undefined(rt: HostRuntime) -> Result<(), Fail> {
    for row in UNDEFINED {
        assert_row(&rt, rt.alloc(), row)?;
    }
    Ok(())
}

#[test]
fn tells_open_calls(rt: HostRuntime) -> Result<(), Fail> {
    for row in CALLED {
        assert_row(&rt, rt.alloc(), row)?;
    }
    Ok(())
}

#[test]
fn tells_where_it_is_not_done(rt: HostRuntime) -> Result<(), Fail> {
    for row in HALTED {
        assert_row(&rt, rt.alloc(), row)?;
    }
    Ok(())
}
