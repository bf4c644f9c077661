//! Units with declarations of one object, and what they come to.

use crate::settled;
use c_lex::lex;
use c_library::LibraryFault;
use c_tree::{Form, Lexeme};
use std::alloc::{AllocError, Global};
use std::process::Abort;
use std::test::Fail;

/// A unit, and what it comes to.
const ROWS: &[(&str, &str)] = &[
    // Each object is declared once.
    (
        "int x, y = 2; int a[2] = {1, 2}; int f(int x) { int y; int x; return x; } int f(int);",
        "int x, y = 2; int a[2] = {1, 2}; int f(int x) { int y; int x; return x; } int f(int);",
    ),
    // 6.9.2, paragraph 4: the first declaration has the value, also of another row of declarators.
    (
        "int x; int x; int f(void) { return x; } int x = 3; int x; int z;",
        "int x = 3; int f(void) { return x; } int z;",
    ),
    (
        "int a[2], y; unsigned long v = 7, w; int b, a[2] = {1, 2}; unsigned long w = 9, v;",
        "int a[2] = {1, 2}; int y; unsigned long v = 7; unsigned long w = 9; int b;",
    ),
    ("int x, x, y;", "int x; int y;"),
    ("char s[]; char s[] = {65, 0};", "char s[] = {65, 0};"),
    (
        "extern char s[]; char s[] = {65, 0}; extern char s[];",
        "char s[] = {65, 0};",
    ),
    // 6.2.7, paragraph 4: another declaration tells the size that one leaves out.
    (
        "extern int x[]; int x[2] = {1, 2}; int y[3]; int y[]; int f(void) { extern int x[]; return x[0]; }",
        "int x[2] = {1, 2}; int y[3]; int f(void) { ; return x[0]; }",
    ),
    (
        "int f(void) { extern long m[][2]; return m[0][1]; } long m[1 + 2][2]; extern long m[], m[][3], m[][2];",
        "long m[1 + 2][2]; int f(void) { ; return m[0][1]; } extern long m[]; extern long m[][3];",
    ),
    // One that none completes is refused, and so are other sizes, and values of as many elements as another one has.
    ("int x[];", "int x[];"),
    ("extern int x[]; int y[2];", "extern int x[]; int y[2];"),
    ("int x[]; int x[2]; int x[3];", "int x[2]; int x[3];"),
    (
        "int x[2]; int x[] = {1, 2}; int x[];",
        "int x[2]; int x[] = {1, 2};",
    ),
    // 6.2.2, 6.9.2: `extern`, with qualifiers.
    (
        "extern int x, y; extern const volatile int t[2]; int x; int y = 1; int t[2] = {1}; extern int y;",
        "int x; int y = 1; int t[2] = {1};",
    ),
    ("extern long n = 3;", "long n = 3;"),
    // 6.7, 6.7.2, paragraph 2: words in any order.
    (
        "extern const unsigned int x; int extern y; unsigned x = 3; int y; long unsigned extern volatile int z; \
         unsigned long int z;",
        "unsigned x = 3; int y; unsigned long z;",
    ),
    (
        "extern extern int x; int x; extern static int y; int y; extern void v; extern v;",
        "extern extern int x; int x; extern static int y; int y; extern void v; extern v;",
    ),
    // An object of another unit is refused.
    ("extern int x; int y;", "extern int x; int y;"),
    ("extern int x; extern int x;", "extern int x;"),
    // Other types, other sizes and two values are refused.
    ("int x; long x;", "int x; long x;"),
    ("int x[2]; int x[3];", "int x[2]; int x[3];"),
    (
        "int x = 1; int x; int x = 2; int x = 3;",
        "int x = 1; int x = 2; int x = 3;",
    ),
    // 6.7.9, paragraphs 11 and 14: braces round the value of a scalar, and round a literal.
    (
        "int x = {1}, y, z = {(2, 3),}; char s[] = {{65, 0}}; unsigned char t[3] = {{65, 0},}; int v = {4}; int v;",
        "int x = 1; int y; int z = (2, 3); char s[] = {65, 0}; unsigned char t[3] = {65, 0}; int v = 4;",
    ),
    // 6.7.9, paragraphs 6, 17 and 19: designators, of arrays with one size.
    (
        "int a[5] = {[2] = 5, 6, [0] = 1}, b[] = {7, [3] = 8,}; int f(void) { static int c[3] = {[1] = 2}; \
         return c[1]; }",
        "int a[5] = {1, 0, 5, 6}, b[] = {7, 0, 0, 8}; int f(void) { static int c[3] = {0, 2}; return c[1]; }",
    ),
    (
        "int a[2 + 1] = {[1] = 5, [1] = f(2, 3), [0] = (1, 2)}; char s[] = {['\\2'] = 'a'};",
        "int a[2 + 1] = {(1, 2), f(2, 3)}; char s[] = {0, 0, 'a'};",
    ),
    // What is past the size, no constant, lost or no value stays, and so does a list of rows or of none.
    (
        "int a[2] = {[2] = 1}; int b[3] = {[1 + 1] = 1}; int c[] = {[0] = f(), [0] = 1}; int d[2] = {[0] = {1}}; \
         int e[2] = {[0] =, 1}; int g[2] = {[0], 1}; int h[2] = {1,, [0] = 1}; int i[] = {[4096] = 1}; \
         int j[1][2] = {[0] = {1, 2}}; int k = 1, [2] = 3;",
        "int a[2] = {[2] = 1}; int b[3] = {[1 + 1] = 1}; int c[] = {[0] = f(), [0] = 1}; int d[2] = {[0] = {1}}; \
         int e[2] = {[0] =, 1}; int g[2] = {[0], 1}; int h[2] = {1,, [0] = 1}; int i[] = {[4096] = 1}; \
         int j[1][2] = {[0] = {1, 2}}; int k = 1, [2] = 3;",
    ),
    // Lists that the grammar has, and what it refuses.
    (
        "int a[2] = {1}; char b[1][2] = {{1}}; int f(int x) { int y = {1}; return y; }",
        "int a[2] = {1}; char b[1][2] = {{1}}; int f(int x) { int y = {1}; return y; }",
    ),
    (
        "int x = {}; int y = {1, 2}; int a[2] = {{1, 2}}; char s[] = {{65}, {66}}; \
         char t[] = {{65}, 66}; int z = {1} + 1;",
        "int x = {}; int y = {1, 2}; int a[2] = {{1, 2}}; char s[] = {{65}, {66}}; \
         char t[] = {{65}, 66}; int z = {1} + 1;",
    ),
    // 6.2.2, paragraph 5, 6.7.6.3: prototypes of blocks, whose `;` stays.
    (
        "int x; int main(void) { int f(int), y; { extern int f(int a); void g(void); y = f(1); unsigned long h(); } } \
         int f(int a) { return a; }",
        "int x; int f(int a); void g(void); unsigned long h(); \
         int main(void) { int f(int), y; { ; ; y = f(1); ; } } int f(int a) { return a; }",
    ),
    (
        "int main(void) { if (1) int f(void); for (int f(void);;) ; int f(int) { } \
         int x = (int) f(2); int a[1] = {1} int f(void); }",
        "int main(void) { if (1) int f(void); for (int f(void);;) ; int f(int) { } \
         int x = (int) f(2); int a[1] = {1} int f(void); }",
    ),
    // 6.2.2, paragraph 4: objects that blocks declare `extern`, but where another one may have the name.
    (
        "int x; int f(void) { extern int x, y; { extern const int t[2]; return x + y + t[0]; } } int y = 1; int t[2];",
        "int x; int y = 1; int t[2]; int f(void) { ; { ; return x + y + t[0]; } }",
    ),
    (
        "int x; int f(int x) { extern int x; return x; } int g(void) { int y, x; { extern int x; } return y; } \
         int h(void) { extern int x = 1; return x; }",
        "int x; int f(int x) { extern int x; return x; } int g(void) { int y, x; { extern int x; } return y; } \
         int h(void) { extern int x = 1; return x; }",
    ),
    // What is no object stays, and so does what is malformed.
    (
        "extern int f(void), x; extern x; int x; int x[1] 2; int x[1] 2; int y; int y =; int f; void v; void v; int z",
        "extern int f(void), x; extern x; int x; int x[1] 2; int y =; int f; void v; void v; int z",
    ),
];

/// The tokens of a text.
fn tokens_of(rt: &impl Abort, alloc: Global, text: &str) -> Vec<Lexeme> {
    if 1000 < text.len() {
        panic!(rt; "{text}");
    }
    match lex(alloc, text.as_bytes()) {
        Ok(tokens) => tokens,
        Err(_) => panic!(rt; "{text}"),
    }
}

/// A form as it is told.
fn told_form(alloc: Global, form: &Form) -> Result<String, AllocError> {
    let mut text = String::new(alloc);
    match form {
        Form::Name(name) => {
            for byte in name.as_slice() {
                text.push(char::from(*byte))?;
            }
        }
        other => text.push_str(&format!(in alloc; "{:?}", other)?)?,
    }
    text.push(' ')?;
    Ok(text)
}

/// The forms of tokens.
fn told(alloc: Global, tokens: &[Lexeme]) -> Result<String, AllocError> {
    let mut text = String::new(alloc);
    for token in tokens {
        text.push_str(&told_form(alloc, &token.form)?)?;
    }
    Ok(text)
}

fn assert_row(rt: &impl Abort, alloc: Global, unit: &str, want: &str) -> Result<(), AllocError> {
    match settled(alloc, tokens_of(rt, alloc, unit)) {
        Ok(got) => {
            let got = told(alloc, &got)?;
            let want = told(alloc, &tokens_of(rt, alloc, want))?;
            assert_eq!(rt; got.as_str(), want.as_str(), "{unit}");
        }
        Err(LibraryFault::Memory) => return Err(AllocError),
        Err(_) => panic!(rt; "{unit}"),
    }
    Ok(())
}

#[test]
fn declarations_are_settled(rt: HostRuntime) -> Result<(), Fail> {
    for (unit, want) in ROWS.iter() {
        assert_row(&rt, rt.alloc(), unit, want)?;
    }
    Ok(())
}
