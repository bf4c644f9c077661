//! Units with objects of blocks, and what they come to: `z_` in a name stands for `.`.

use crate::with_objects;
use c_lex::lex;
use c_library::LibraryFault;
use c_tree::{Form, Lexeme};
use std::alloc::{AllocError, Global};
use std::process::Abort;
use std::test::Fail;

/// A unit, and what it comes to.
const ROWS: &[(&str, &str)] = &[
    // Nothing in a block has values.
    (
        "int g[2] = {1, 2}; int f(int x) { int a[2]; a[0] = (int) x; return a[0]; }",
        "int g[2] = {1, 2}; int f(int x) { int a[2]; a[0] = (int) x; return a[0]; }",
    ),
    // All elements have one, with a size and without.
    (
        "int f(void) { int a[2] = {1, 2}; int b[] = {x, g(1, 2),}; }",
        "int f(void) { int a[2]; a[0] = 1; a[1] = 2; int b[2]; b[0] = x; b[1] = g(1, 2); }",
    ),
    // 6.7.9, paragraph 21.
    (
        "int f(void) { char a[N + 1] = {0}; }",
        "int f(void) { char a[N + 1]; a[0] = 0; \
         for (int z_element = 1; z_element < (N + 1); z_element++) a[z_element] = 0; }",
    ),
    // In the order of the text, and paragraph 11.
    (
        "int f(void) { unsigned long n = 3, a[1] = {n}, m, k = {7}, j = {8,}; }",
        "int f(void) { unsigned long n = 3; unsigned long a[1]; a[0] = n; unsigned long m; unsigned long k = 7; \
         unsigned long j = 8; }",
    ),
    // Rows.
    (
        "int f(void) { { int a[][2] = {{1, 2}, {3}}; } }",
        "int f(void) { { int a[2][2]; a[0][0] = 1; a[0][1] = 2; a[1][0] = 3; \
         for (int z_element = 1; z_element < (2); z_element++) a[1][z_element] = 0; } }",
    ),
    (
        "int f(void) { int a[3][1] = {{1}, }; }",
        "int f(void) { int a[3][1]; a[0][0] = 1; for (int z_row = 1; z_row < (3); z_row++) \
         for (int z_element = 0; z_element < (1); z_element++) a[z_row][z_element] = 0; }",
    ),
    // 6.2.4, paragraph 3: in front of the function, by a name of its own, up to the end of the block.
    (
        "int g; int f(int x) { static int n = 3, a[2] = {1, 2}; { static long n; n++; } a[n]++; return (int) n; } \
         int h(int n) { return n; }",
        "int g; int nz_0000 = 3, az_0001[2] = {1, 2}; long nz_0002; int f(int x) { int n; int a; \
         { int n; nz_0002++; } az_0001[nz_0000]++; return (int) nz_0000; } int h(int n) { return n; }",
    ),
    // 6.2.1, paragraph 4: an inner declaration hides it.
    (
        "int f(void) { static int n; { int m = n, n = m, k[2] = {n, 2}; n = 1; } for (int i = n;;) n = (char) n; }",
        "int nz_0000; int f(void) { int n; { int m = nz_0000; int n = m; int k[2]; k[0] = n; k[1] = 2; n = 1; } \
         for (int i = nz_0000;;) nz_0000 = (char) nz_0000; }",
    ),
    // Refused by the `static` that stays: a function, a scope without a known end, and what is cut off.
    (
        "int f(void) { static int n; for (int i, n = 2;;) ; static int g(void); } int h(void) { static int x }",
        "int nz_0000; int gz_0001(void); int f(void) { int n; for (int i, static n = 2;;) ; int g; static } \
         int xz_0002 int h(void) { int x; static }",
    ),
    // What the grammar refuses stays.
    (
        "int f(void) { int a[2] = {}; int b[2][2] = {1, 2}; int c = {1, x}; for (int a[1] = {1};;) ; \
         unsigned a, long b = {1}; int d[1] = {1} 2; int x = {{1}",
        "int f(void) { int a[2] = {}; int b[2][2] = {1, 2}; int c = {1, x}; for (int a[1] = {1};;) ; \
         unsigned a, long b = {1}; int d[1] = {1} 2; int x = {{1}",
    ),
];

/// The tokens of a text.
fn tokens_of(rt: &impl Abort, alloc: Global, text: &str) -> Vec<Lexeme> {
    if 1000 < text.len() {
        panic!(rt; "{text}");
    }
    match lex(alloc, text.as_bytes()) {
        Ok(tokens) => tokens,
        Err(_) => panic!(rt; "{text}"),
    }
}

/// A form as it is told: a `.` of a name is `z_`.
fn told_form(alloc: Global, form: &Form) -> Result<String, AllocError> {
    let mut text = String::new(alloc);
    match form {
        Form::Name(name) => {
            for byte in name.as_slice() {
                if *byte == b'.' {
                    text.push_str("z_")?;
                } else {
                    text.push(char::from(*byte))?;
                }
            }
        }
        other => text.push_str(&format!(in alloc; "{:?}", other)?)?,
    }
    text.push(' ')?;
    Ok(text)
}

/// The forms of tokens.
fn told(alloc: Global, tokens: &[Lexeme]) -> Result<String, AllocError> {
    let mut text = String::new(alloc);
    for token in tokens {
        text.push_str(&told_form(alloc, &token.form)?)?;
    }
    Ok(text)
}

fn assert_row(rt: &impl Abort, alloc: Global, unit: &str, want: &str) -> Result<(), AllocError> {
    match with_objects(alloc, tokens_of(rt, alloc, unit)) {
        Ok(got) => {
            let got = told(alloc, &got)?;
            let want = told(alloc, &tokens_of(rt, alloc, want))?;
            assert_eq!(rt; got.as_str(), want.as_str(), "{unit}");
        }
        Err(LibraryFault::Memory) => return Err(AllocError),
        Err(_) => panic!(rt; "{unit}"),
    }
    Ok(())
}

#[test]
fn objects_are_told(rt: HostRuntime) -> Result<(), Fail> {
    for (unit, want) in ROWS.iter() {
        assert_row(&rt, rt.alloc(), unit, want)?;
    }
    Ok(())
}
