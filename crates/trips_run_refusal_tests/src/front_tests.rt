//! `run` on texts of C: small programs, and what each stage refuses.
use std::alloc::{AllocError, Global};
use std::process::Abort;
use std::test::Fail;
use trips_run::Status;
use trips_run_harness::answer_of;

const SMALL: &[(&str, &str)] = &[
    (
        "#define SEVEN 7\n#ifdef SEVEN\nint main(void) { return SEVEN; }\n#endif\n",
        "output 0\n\nresult 7\n",
    ),
    ("int main(void) { return 7; }", "output 0\n\nresult 7\n"),
    ("int main() { return 7; }", "output 0\n\nresult 7\n"),
    ("int main(void){return 7;}\n\n", "output 0\n\nresult 7\n"),
    (
        "/* seven */ signed int\nmain ( ) // none\n{ return 07 ; }",
        "output 0\n\nresult 7\n",
    ),
    (
        "int main(void) { return 0xfFfF; }",
        "output 0\n\nresult 65535\n",
    ),
    ("int main(void) { return 'a'; }", "output 0\n\nresult 97\n"),
    (
        "int main(void) { return 65536; }",
        "output 0\n\nresult 65536\n",
    ),
    ("int main(void) { return 7u; }", "output 0\n\nresult 7\n"),
    ("int main(void) { return 7L; }", "output 0\n\nresult 7\n"),
    ("int main(void) { return +7; }", "output 0\n\nresult 7\n"),
    ("int main(void) { return -7; }", "output 0\n\nresult -7\n"),
    (
        "int main(void) { return '\\377'; }",
        "output 0\n\nresult -1\n",
    ),
    ("int main(void) { return (7); }", "output 0\n\nresult 7\n"),
    (
        "int main(void) { return (int) 7; }",
        "output 0\n\nresult 7\n",
    ),
    ("int main(void) { return 3 + 4; }", "output 0\n\nresult 7\n"),
    ("int main(void) { ; return 7; }", "output 0\n\nresult 7\n"),
    ("int main(void) { return 7; ; }", "output 0\n\nresult 7\n"),
    ("int main(void) { { return 7; } }", "output 0\n\nresult 7\n"),
    ("int main(void) { }", "output 0\n\nresult 0\n"),
    (
        "int x; int main(void) { return 7; }",
        "output 0\n\nresult 7\n",
    ),
    (
        "int main(void); int main(void) { return 7; }",
        "output 0\n\nresult 7\n",
    ),
    (
        "#include <stdio.h>\nint main(void) { return 7; }",
        "output 0\n\nresult 7\n",
    ),
];

const LEXER: &[(&str, &str)] = &[
    ("@", "refused lex 1 BadByte line 1\n"),
    (
        "int main(void) {\n return 18446744073709551616; }",
        "refused lex 2 BadLiteral line 2\n",
    ),
    (
        "int main(void) { return 0xE+1; }",
        "refused lex 2 BadLiteral line 1\n",
    ),
    ("/*", "refused lex 3 Unclosed line 1\n"),
    ("#if A\n", "refused lex 5 Directive line 1\n"),
    (
        "int main(void) { return }\n@",
        "refused lex 1 BadByte line 2\n",
    ),
];

const DIRECTIVES: &[(&str, &str)] = &[
    ("\n#endif\n", "refused directive 1 Unbalanced line 2\n"),
    (
        "#define A 1\n#define A 2\n",
        "refused directive 2 Redefined line 2\n",
    ),
    ("#define A(x) x\n", "refused directive 3 BadDefine line 1\n"),
    (
        "#include <stdio.h>\nint main(void) { printf(\"%f\", 1); }\n",
        "refused directive 5 Format line 2\n",
    ),
];

const GRAMMAR: &[(&str, &str)] = &[
    ("", "refused parse 1 Syntax line 1\n"),
    ("\n\n", "refused parse 1 Syntax line 1\n"),
    (
        "int main(void) { return 1 }",
        "refused parse 1 Syntax line 1\n",
    ),
    (
        "int main(void)\n{ return 1;\n",
        "refused parse 1 Syntax line 2\n",
    ),
    (
        "int main(void)\n{ return y; }\n}",
        "refused parse 1 Syntax line 3\n",
    ),
    (
        "int main(void) { else return 7; }",
        "refused parse 1 Syntax line 1\n",
    ),
    (
        "int main(void) { return 7; } static",
        "refused parse 1 Syntax line 1\n",
    ),
];

const TYPING: &[(&str, &str)] = &[
    (
        "int main(void) { return y; }",
        "refused type 1 Unknown line 1\n",
    ),
    (
        "int main(void) { return\n f(); }",
        "refused type 1 Unknown line 2\n",
    ),
    (
        "int x = 1;\nint x = 2;\nint main(void) { return 7; }",
        "refused type 2 Twice line 2\n",
    ),
    (
        "int main(void) { return; }",
        "refused type 3 Mismatch line 1\n",
    ),
    (
        "int main(void) {\n 1 = 2; return 7; }",
        "refused type 3 Mismatch line 2\n",
    ),
    (
        "int main(void) {\n break; return 7; }",
        "refused type 3 Mismatch line 2\n",
    ),
    (
        "int f(int a) { return a; }\nint main(void) { return f(); }",
        "refused type 4 Arity line 2\n",
    ),
    ("int x;", "refused type 5 NoMain\n"),
    ("long main(void) { return 7; }", "refused type 5 NoMain\n"),
    (
        "int f(int a, int b, int c, int d, int e, int g, int h, int i,\n int j);\n\
         int main(void) { return 7; }",
        "refused type 7 TooManyParams line 2\n",
    ),
    (
        "int main(void) {\n char a[1048577]; return 7; }",
        "refused type 9 TooLarge line 2\n",
    ),
    // A constant expression has no call and no element; one of an unknown name is Unknown.
    (
        "int a[\nf(1)];\nint main(void) { return 7; }",
        "refused type 1 Unknown line 2\n",
    ),
    (
        "int f(int x);\nint a[\nf(1)];\nint main(void) { return 7; }",
        "refused type 1 Unknown line 3\n",
    ),
    (
        "int a =\nf(1);\nint main(void) { return 7; }",
        "refused type 1 Unknown line 2\n",
    ),
    (
        "int f(int x);\nint a =\nf(1);\nint main(void) { return 7; }",
        "refused type 1 Unknown line 3\n",
    ),
    (
        "int a[] = {1,\nf(1),};\nint main(void) { return 7; }",
        "refused type 1 Unknown line 2\n",
    ),
    (
        "int f(int x);\nint a[] = {1,\nf(1),};\nint main(void) { return 7; }",
        "refused type 1 Unknown line 3\n",
    ),
    (
        "int f(int x) { return x; }\nint a[\nf(1)];\nint main(void) { return 7; }",
        "refused type 3 Mismatch line 3\n",
    ),
    (
        "int f(int x);\nint a =\nf(1);\nint f(int x) { return x; }\nint main(void) { return 7; }",
        "refused type 3 Mismatch line 3\n",
    ),
    (
        "int x;\nint a =\nx(1);\nint main(void) { return 7; }",
        "refused type 3 Mismatch line 3\n",
    ),
    (
        "int f(int x);\nint a =\nf(\ny);\nint main(void) { return 7; }",
        "refused type 1 Unknown line 4\n",
    ),
    (
        "int a[\nb[0]];\nint main(void) { return 7; }",
        "refused type 1 Unknown line 2\n",
    ),
    (
        "int b[1];\nint a[\nb[0]];\nint main(void) { return 7; }",
        "refused type 3 Mismatch line 3\n",
    ),
    (
        "int a =\nb[\nc];\nint main(void) { return 7; }",
        "refused type 1 Unknown line 3\n",
    ),
    (
        "char a[1048576];\nlong b[] = {\nx };\nint main(void) { return 7; }",
        "refused type 9 TooLarge line 2\n",
    ),
    (
        "char a[1048568];\nlong b[] = { 1,\nx };\nint main(void) { return 7; }",
        "refused type 9 TooLarge line 2\n",
    ),
    (
        "char a[1048568];\nlong b[] = {\nx };\nint main(void) { return 7; }",
        "refused type 1 Unknown line 3\n",
    ),
    (
        "int main(void) {\nint a[\nf(1)]; return 7; }",
        "refused type 1 Unknown line 3\n",
    ),
    (
        "int f(int x);\nint main(void) {\nint a[\nf(1)]; return 7; }",
        "refused type 1 Unknown line 4\n",
    ),
];

// Each text under this command is answered by its report, with this status.
fn assert_rows(
    rt: &impl Abort,
    alloc: Global,
    command: &str,
    status: Status,
    rows: &[(&str, &str)],
) -> Result<(), AllocError> {
    for (text, report) in rows {
        let (answered, written) = answer_of(alloc, &[command, "a.c"], &[("a.c", text.as_bytes())])?;
        assert_eq!(rt; answered, status, "{command} {text}");
        assert_eq!(rt; written.as_slice(), report.as_bytes(), "{command} {text}");
    }
    Ok(())
}

#[test]
fn runs_each_small_program(rt: HostRuntime) -> Result<(), Fail> {
    assert_rows(&rt, rt.alloc(), "run", Status::Ended, SMALL)?;
    Ok(())
}

fn assert_refusals(rt: &impl Abort, alloc: Global, command: &str) -> Result<(), AllocError> {
    assert_rows(rt, alloc, command, Status::Refused, LEXER)?;
    assert_rows(rt, alloc, command, Status::Refused, DIRECTIVES)?;
    assert_rows(rt, alloc, command, Status::Refused, GRAMMAR)?;
    assert_rows(rt, alloc, command, Status::Refused, TYPING)
}

#[test]
fn refuses_by_the_first_stage(rt: HostRuntime) -> Result<(), Fail> {
    assert_refusals(&rt, rt.alloc(), "run")?;
    assert_refusals(&rt, rt.alloc(), "eval")?;
    Ok(())
}

// The text is answered so under `run`.
fn assert_run(
    rt: &impl Abort,
    alloc: Global,
    text: &str,
    status: Status,
    report: &str,
) -> Result<(), AllocError> {
    assert_rows(rt, alloc, "run", status, &[(text, report)])
}

// So many times this part.
fn push_times(text: &mut String, part: &str, count: usize) -> Result<(), AllocError> {
    for _i in 0..count {
        text.push_str(part)?;
    }
    Ok(())
}

// A number in so many parentheses.
fn nested(alloc: Global, count: usize) -> Result<String, AllocError> {
    let mut text = String::from_str(alloc, "int main(void) { return ")?;
    push_times(&mut text, "(", count)?;
    text.push_str("1")?;
    push_times(&mut text, ")", count)?;
    text.push_str("; }")?;
    Ok(text)
}

// The body of `main` is at depth 1, its statement at 2, and each parenthesis one deeper.
#[test]
fn nests_to_a_depth_of_64(rt: HostRuntime) -> Result<(), Fail> {
    let alloc = rt.alloc();
    let ended = "output 0\n\nresult 1\n";
    assert_run(
        &rt,
        alloc,
        nested(alloc, 62)?.as_str(),
        Status::Ended,
        ended,
    )?;
    let deep = "refused parse 2 TooDeep line 1\n";
    assert_run(
        &rt,
        alloc,
        nested(alloc, 63)?.as_str(),
        Status::Refused,
        deep,
    )?;
    Ok(())
}

fn push_scalars(alloc: Global, text: &mut String) -> Result<(), AllocError> {
    for i in 0..64u32 {
        text.push_str("int x")?;
        text.push_str(i.to_string(alloc)?.as_str())?;
        text.push_str("; ")?;
    }
    Ok(())
}

// A function of 64 scalars, and of more on line 3.
fn with_scalars(alloc: Global, more: &str) -> Result<String, AllocError> {
    let mut text = String::from_str(alloc, "int main(void) {\n")?;
    push_scalars(alloc, &mut text)?;
    text.push_str("\n")?;
    text.push_str(more)?;
    text.push_str(" return 0; }")?;
    Ok(text)
}

// The 65th scalar stands on line 3; a switch counts one.
#[test]
fn takes_64_scalars(rt: HostRuntime) -> Result<(), Fail> {
    let alloc = rt.alloc();
    let ended = "output 0\n\nresult 0\n";
    assert_run(
        &rt,
        alloc,
        with_scalars(alloc, "")?.as_str(),
        Status::Ended,
        ended,
    )?;
    let many = "refused type 6 TooManyScalars line 3\n";
    assert_run(
        &rt,
        alloc,
        with_scalars(alloc, "int y;")?.as_str(),
        Status::Refused,
        many,
    )?;
    assert_run(
        &rt,
        alloc,
        with_scalars(alloc, "switch (0) { }")?.as_str(),
        Status::Refused,
        many,
    )?;
    Ok(())
}

// Eight arguments, the last a sum of so many ones and one more, nested to the right.
fn with_need(alloc: Global, count: usize) -> Result<String, AllocError> {
    let mut text = String::from_str(alloc, "int f(int a, int b, int c, int d, int e, ")?;
    text.push_str("int g, int h, int i) { return i; } int main(void) { ")?;
    text.push_str("return f(1, 1, 1, 1, 1, 1, 1, ")?;
    push_times(&mut text, "1 + (", count)?;
    text.push_str("1")?;
    push_times(&mut text, ")", count)?;
    text.push_str("); }")?;
    Ok(text)
}

// Seven arguments wait while the eighth, a sum nested to the right, is evaluated.
#[test]
fn takes_a_need_of_16(rt: HostRuntime) -> Result<(), Fail> {
    let alloc = rt.alloc();
    let ended = "output 0\n\nresult 9\n";
    assert_run(
        &rt,
        alloc,
        with_need(alloc, 8)?.as_str(),
        Status::Ended,
        ended,
    )?;
    let need = "refused type 8 Need line 1\n";
    assert_run(
        &rt,
        alloc,
        with_need(alloc, 9)?.as_str(),
        Status::Refused,
        need,
    )?;
    Ok(())
}
