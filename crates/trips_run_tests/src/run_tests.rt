//! `run` on texts of C: it agrees with `eval` on output and result, and its budgets and its stack end it.
use crate::eval_tests::returning;
use crate::tables::{COUNTED, DEEP, DEEPER, EDGES, ENDED, UNSET, WORDS};
use std::alloc::{AllocError, Global};
use std::process::Abort;
use std::test::Fail;
use trips_run::Status;
use trips_run_harness::answer_of;

const TYPES: &[&str] = &[
    "char",
    "signed char",
    "unsigned char",
    "short",
    "unsigned short",
    "int",
    "unsigned int",
    "long",
    "unsigned long",
];

const OPERATORS: &[&str] = &[
    "+", "-", "*", "/", "%", "&", "|", "^", "<<", ">>", "<", "<=", ">", ">=", "==", "!=", "&&",
    "||", ",",
];

const ASSIGNERS: &[&str] = &[
    "=", "+=", "-=", "*=", "/=", "%=", "&=", "|=", "^=", "<<=", ">>=",
];

const PREFIXES: &[&str] = &["+", "-", "~", "!", "++", "--"];

const SUFFIXES: &[&str] = &["++", "--"];

// A statement of each kind, nested, with calls, arrays, and jumps out of loops.
const STATEMENTS: &[&str] = &[
    "int main(void) { int i; int s = 0; for (i = 0; i < 9; i++) { if (i == 3) continue; if (i == 7) break; s += i; } \
     return s; }",
    "int main(void) { int i = 0; do { i++; if (i == 2) continue; } while (i < 5); return i; }",
    "int main(void) { int i = 9; while (i) { i--; if (i < 4) break; } return i; }",
    "int a[4]; int main(void) { int i; for (i = 0; i < 4; i++) a[i] = i * i; return a[1] + a[2] * a[3]; }",
    "int f(int n, int a[]) { a[n] = n; return n == 0 ? 1 : n * f(n - 1, a); } int main(void) { int a[6]; \
     return f(5, a) + a[3]; }",
    "int e(int n); int o(int n) { return n == 0 ? 0 : e(n - 1); } int e(int n) { return n == 0 ? 1 : o(n - 1); } \
     int main(void) { return e(10) * 2 + o(7); }",
    "int f(int a, int b, int c, int d, int e, int g, int h, int i) { \
     return a + 2 * b + 3 * c + 4 * d + 5 * e + 6 * g + 7 * h + 8 * i; } \
     int main(void) { return f(1, 2, 3, 4, 5, 6, 7, 8); }",
    "int g; void f(void) { g = g * 2 + 1; } int main(void) { f(); f(); { int g = 5; f(); g++; } return g; }",
    "int main(void) { int x = 5; int y = x > 3 ? x < 5 ? 1 : 2 : 3; return (x == 5 && y == 2) || x / y; }",
    "char a[] = { 3, 1, 2, }; int main(void) { int i; int j; \
     for (i = 0; i < 3; i++) for (j = 0; j + 1 < 3; j++) if (a[j] > a[j + 1]) { char t = a[j]; a[j] = a[j + 1]; \
     a[j + 1] = t; } return a[0] * 100 + a[1] * 10 + a[2]; }",
    "long f(int n) { if (n < 2) return n; return f(n - 1) + f(n - 2); } int main(void) { return (int) f(12); }",
    "int main(void) { for (;;) { for (;;) break; break; } if (1) { } else return 1; return 2; }",
];

// What `run` reports is what `eval` reports, without the line of the steps.
fn assert_agrees(
    rt: &impl Abort,
    alloc: Global,
    text: &str,
    input: &[u8],
) -> Result<(), AllocError> {
    let held = [("a.c", text.as_bytes()), ("t", input)];
    let (told, evaluated) = answer_of(alloc, &["eval", "a.c", "--input", "t"], &held)?;
    let (status, written) = answer_of(alloc, &["run", "a.c", "--input", "t"], &held)?;
    assert_eq!(rt; told, Status::Ended, "eval {text}");
    assert_eq!(rt; status, Status::Ended, "run {text}");
    assert!(rt; evaluated.starts_with(written.as_slice()), "{text}");
    assert!(rt; written.len() + 6 < evaluated.len(), "{text}");
    Ok(())
}

// Whatever the reports are.
fn assert_each_agrees(
    rt: &impl Abort,
    alloc: Global,
    rows: &[(&str, &str)],
    input: &[u8],
) -> Result<(), AllocError> {
    for (text, _report) in rows {
        assert_agrees(rt, alloc, text, input)?;
    }
    Ok(())
}

#[test]
fn agrees_with_the_evaluation(rt: HostRuntime) -> Result<(), Fail> {
    assert_each_agrees(&rt, rt.alloc(), COUNTED, b"x")?;
    assert_each_agrees(&rt, rt.alloc(), ENDED, b"")?;
    Ok(())
}

// The texts that are defined, just beside those that are not.
fn assert_edges_agree(
    rt: &impl Abort,
    alloc: Global,
    rows: &[(&str, &str, &str)],
) -> Result<(), AllocError> {
    for (_outside, inside, _value) in rows {
        let text = returning(alloc, inside)?;
        assert_agrees(rt, alloc, text.as_str(), b"")?;
    }
    Ok(())
}

fn assert_set_agree(
    rt: &impl Abort,
    alloc: Global,
    rows: &[(&str, &str)],
) -> Result<(), AllocError> {
    for (_outside, inside) in rows {
        assert_agrees(rt, alloc, inside, b"")?;
    }
    Ok(())
}

#[test]
fn agrees_at_the_edges_of_ranges(rt: HostRuntime) -> Result<(), Fail> {
    assert_edges_agree(&rt, rt.alloc(), EDGES)?;
    assert_set_agree(&rt, rt.alloc(), UNSET)?;
    Ok(())
}

fn assert_texts_agree(rt: &impl Abort, alloc: Global, texts: &[&str]) -> Result<(), AllocError> {
    for text in texts {
        assert_agrees(rt, alloc, *text, b"")?;
    }
    Ok(())
}

fn assert_inputs_agree(
    rt: &impl Abort,
    alloc: Global,
    text: &str,
    inputs: &[&[u8]],
) -> Result<(), AllocError> {
    for input in inputs {
        assert_agrees(rt, alloc, text, *input)?;
    }
    Ok(())
}

const INPUTS: &[&[u8]] = &[b"a bb\nccc", b"", b"  \n\t "];

#[test]
fn agrees_on_each_statement_and_on_inputs(rt: HostRuntime) -> Result<(), Fail> {
    assert_texts_agree(&rt, rt.alloc(), STATEMENTS)?;
    assert_inputs_agree(&rt, rt.alloc(), WORDS, INPUTS)?;
    Ok(())
}

// A program of two variables of a type, and an expression of them.
fn of_type(
    alloc: Global,
    of: &str,
    before: &str,
    operator: &str,
    after: &str,
) -> Result<String, AllocError> {
    let mut text = String::from_str(alloc, "int main(void) { ")?;
    text.push_str(of)?;
    text.push_str(" x = 103; ")?;
    text.push_str(of)?;
    text.push_str(" y = 5; long z; z = (")?;
    text.push_str(before)?;
    text.push_str(operator)?;
    text.push_str(after)?;
    text.push_str("); return (int) (z % 1000 + x); }")?;
    Ok(text)
}

// Each operator between these texts, of two variables of a type.
fn assert_operators_agree(
    rt: &impl Abort,
    alloc: Global,
    of: &str,
    before: &str,
    operators: &[&str],
    after: &str,
) -> Result<(), AllocError> {
    for operator in operators {
        let text = of_type(alloc, of, before, *operator, after)?;
        assert_agrees(rt, alloc, text.as_str(), b"")?;
    }
    Ok(())
}

fn assert_types_agree(rt: &impl Abort, alloc: Global, types: &[&str]) -> Result<(), AllocError> {
    for of in types {
        assert_operators_agree(rt, alloc, *of, "x ", OPERATORS, " y")?;
        assert_operators_agree(rt, alloc, *of, "x ", ASSIGNERS, " y")?;
        assert_operators_agree(rt, alloc, *of, "", PREFIXES, "x")?;
        assert_operators_agree(rt, alloc, *of, "x", SUFFIXES, "")?;
    }
    Ok(())
}

#[test]
fn agrees_on_each_operator_at_each_type(rt: HostRuntime) -> Result<(), Fail> {
    assert_types_agree(&rt, rt.alloc(), TYPES)?;
    Ok(())
}

// A text within a number of blocks, with the status and the report.
type Row = (&'static str, &'static str, Status, &'static str);

const FOREVER: &str = "int main(void) { while (1) ; }";

const BUDGETS: &[Row] = &[
    (FOREVER, "100", Status::Budget, "output 0\n\nbudget 100\n"),
    (FOREVER, "1", Status::Budget, "output 0\n\nbudget 1\n"),
    (
        "int main(void) { return 7; }",
        "4000000",
        Status::Ended,
        "output 0\n\nresult 7\n",
    ),
    (DEEP, "2000000", Status::Ended, "output 0\n\nresult 6896\n"),
    (
        DEEPER,
        "2000000",
        Status::StackFull,
        "output 0\n\nstack full\n",
    ),
    // 16 blocks a step, and 16 more
    (
        "int main(void) { return 7; }",
        "80",
        Status::Ended,
        "output 0\n\nresult 7\n",
    ),
    (
        "int main(void) { }",
        "48",
        Status::Ended,
        "output 0\n\nresult 0\n",
    ),
    (
        "int f(void) { return 1; } int main(void) { f(); }",
        "144",
        Status::Ended,
        "output 0\n\nresult 0\n",
    ),
];

fn assert_budgets(rt: &impl Abort, alloc: Global, rows: &[Row]) -> Result<(), AllocError> {
    for (text, blocks, status, report) in rows {
        let (answered, written) = answer_of(
            alloc,
            &["run", "a.c", "--blocks", *blocks],
            &[("a.c", text.as_bytes())],
        )?;
        assert_eq!(rt; answered, *status, "{text} within {blocks}");
        assert_eq!(rt;
            written.as_slice(),
            report.as_bytes(),
            "{text} within {blocks}"
        );
    }
    Ok(())
}

#[test]
fn ends_with_its_budget_and_its_stack(rt: HostRuntime) -> Result<(), Fail> {
    assert_budgets(&rt, rt.alloc(), BUDGETS)?;
    Ok(())
}
