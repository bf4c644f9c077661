//! Units whose declarations have their keywords in any order.

use crate::worded;
use c_lex::lex;
use c_library::LibraryFault;
use c_tree::Lexeme;
use std::alloc::{AllocError, Global};
use std::process::Abort;
use std::test::Fail;

/// A unit, and what it comes to.
const ROWS: &[(&str, &str)] = &[
    // 6.7.2, paragraph 2.
    (
        "int unsigned x; long int unsigned y; short signed z;",
        "unsigned x; unsigned long y; short z;",
    ),
    (
        "long long x; int long unsigned long f(void);",
        "long x; unsigned long f(void);",
    ),
    (
        "int char x; signed signed y; short long z;",
        "int char x; signed signed y; short long z;",
    ),
    (
        "unsigned long int x; signed char y;",
        "unsigned long int x; signed char y;",
    ),
    // 6.7.1, 6.7.3, 6.7.4.
    (
        "static int x; static void f(void) { static int volatile n; }",
        "int x; void f(void) { static int n; }",
    ),
    (
        "static inline int f(register int a) { register int b; auto int c; }",
        "int f(int a) { int b; int c; }",
    ),
    (
        "extern int f(void); extern int x;",
        "int f(void); extern int x;",
    ),
    (
        "static extern int f(void); register int x;",
        "static extern int f(void); register int x;",
    ),
    (
        "int f(void) { for (register int i = 0;;) (register int) i; }",
        "int f(void) { for (int i = 0;;) (register int) i; }",
    ),
    (
        "int f(static int x); volatile x;",
        "int f(static int x); volatile x;",
    ),
    // 6.7.6.3, paragraph 7.
    (
        "int f(char *s, unsigned *restrict t) { s * t; }",
        "int f(char s[], unsigned t[]) { s * t; }",
    ),
    (
        "int f(char **s, int *a[]); int *g; int f(int *, char *const);",
        "int f(char **s, int *a[]); int *g; int f(int [], char []);",
    ),
    (
        "int f(void) { void g(int *a, const char *const s); int h(int *); return (int *) a; }",
        "int f(void) { void g(int a[], char s[]); int h(int *); return (int *) a; }",
    ),
    // 6.7.3, paragraph 6: a keyword stands where an object would be set that is const.
    (
        "const int x = 1, y[2] = {1, 2}; int const f(const char *s) { int z = x; z = y[x]; return s[z++]; }",
        "int x = 1, y[2] = {1, 2}; int f(char s[]) { int z = x; z = y[x]; return s[z++]; }",
    ),
    (
        "const int x = 1; int f(int *a) { a[x] = 2; if (x) ++a[x]; x = 2; }",
        "int x = 1; int f(int a[]) { a[x] = 2; if (x) ++a[x]; x const = 2; }",
    ),
    (
        "void f(const int n) { const int a = n, b = 2; (b)++; n += a[n]; --(n); } void g(int n) { n = 3; }",
        "void f(int n) { int a = n, b = 2; (b) const ++; n const += a[n]; --(const n); } void g(int n) { n = 3; }",
    ),
    (
        "const int t[2][2] = {{1}}; void f(char *const s) { s[1] = t[0][1]; t[s[0]][1] -= 1; for \
         (const int i = 0; i--;) ; }",
        "int t[2][2] = {{1}}; void f(char s[]) { s[1] = t[0][1]; t[s[0]][1] const -= 1; for (int i \
         = 0; i const --;) ; }",
    ),
    (
        "int f(void) { const int x = 1; int y = x ? 2, x = 3 : 4, z = 5; (const int) x; const y; }",
        "int f(void) { int x = 1; int y = x ? 2, x const = 3 : 4, z = 5; (int) x; const y; }",
    ),
];

/// The forms of tokens.
fn told(alloc: Global, tokens: &[Lexeme]) -> Result<String, AllocError> {
    let mut text = String::new(alloc);
    for token in tokens {
        text.push_str(&format!(in alloc; "{:?} ", token.form)?)?;
    }
    Ok(text)
}

fn tokens_of(rt: &impl Abort, alloc: Global, text: &str) -> Vec<Lexeme> {
    if 1000 < text.len() {
        panic!(rt; "{text}");
    }
    match lex(alloc, text.as_bytes()) {
        Ok(tokens) => tokens,
        Err(_) => panic!(rt; "{text}"),
    }
}

fn assert_row(rt: &impl Abort, alloc: Global, unit: &str, want: &str) -> Result<(), AllocError> {
    match worded(alloc, tokens_of(rt, alloc, unit)) {
        Ok(got) => {
            let got = told(alloc, &got)?;
            let want = told(alloc, &tokens_of(rt, alloc, want))?;
            assert_eq!(rt; got.as_str(), want.as_str(), "{unit}");
        }
        Err(LibraryFault::Memory) => return Err(AllocError),
        Err(_) => panic!(rt; "{unit}"),
    }
    Ok(())
}

#[test]
fn has_the_words_in_order(rt: HostRuntime) -> Result<(), Fail> {
    for (unit, want) in ROWS.iter() {
        assert_row(&rt, rt.alloc(), unit, want)?;
    }
    Ok(())
}
