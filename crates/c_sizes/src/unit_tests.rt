//! Units with `sizeof`, and what they come to.

use crate::{is_sized, sized};
use c_lex::{LexFault, lex};
use c_library::LibraryFault;
use c_tree::Lexeme;
use std::alloc::{AllocError, Global};
use std::process::Abort;
use std::test::Fail;

/// A unit, and what it comes to.
const ROWS: &[(&str, &str)] = &[
    // 6.5.3.4, paragraph 7: how many elements an array has.
    (
        "int a[10]; int n = sizeof a / sizeof a[0];",
        "int a[10]; int n = (4ul * (10)) / 4ul;",
    ),
    (
        "int f(void) { unsigned char line[80 + 1]; return sizeof(line) - 1; }",
        "int f(void) { unsigned char line[80 + 1]; return (1ul * (80 + 1)) - 1; }",
    ),
    (
        "short t[] = {1, (2, 3), 1 ? 2, 3 : 4, 5,}; int n = sizeof t / sizeof(t[0]);",
        "short t[] = {1, (2, 3), 1 ? 2, 3 : 4, 5,}; int n = (2ul * (4ul)) / 2ul;",
    ),
    (
        "long m[][3] = {{1, 2, 3}, {4}}; int n = sizeof m / sizeof m[0]; int k = sizeof m[0] / sizeof m[0][0];",
        "long m[][3] = {{1, 2, 3}, {4}}; int n = (8ul * (2ul) * (3)) / (8ul * (3)); int k = (8ul * (3)) / 8ul;",
    ),
    // Scalars, and indexes that are names.
    (
        "int f(char c, unsigned long n) { int x, y[2], z = 1; return sizeof c + sizeof n + sizeof x + sizeof y[z]; }",
        "int f(char c, unsigned long n) { int x, y[2], z = 1; return 1ul + 8ul + 4ul + 4ul; }",
    ),
    (
        "int x[2]; int n = sizeof x[y];",
        "int x[2]; int n = sizeof x[y];",
    ),
    // 6.2.1, paragraph 4: an inner declaration hides an outer one, to the end of its block.
    (
        "int a[3]; int f(void) { { char a[5]; g(sizeof a); } return sizeof a; } int b = sizeof a;",
        "int a[3]; int f(void) { { char a[5]; g((1ul * (5))); } return (4ul * (3)); } int b = (4ul * (3));",
    ),
    (
        "int a[3]; int f(void) { int n = sizeof a; long a = sizeof a; return sizeof a; }",
        "int a[3]; int f(void) { int n = (4ul * (3)); long a = 8ul; return 8ul; }",
    ),
    // 6.2.1, paragraph 7: from the end of its declarator.
    (
        "int a[3]; int f(void) { int a[sizeof a]; }",
        "int a[3]; int f(void) { int a[sizeof a]; }",
    ),
    // Parameters hide names of the file to the end of their function or prototype; arrays are pointers there.
    (
        "char a[9]; int g(int a); int n = sizeof a; int f(int a[], int b[2][7]) { return sizeof a + sizeof a[0] \
         + sizeof b + sizeof b[0]; } int m = sizeof a;",
        "char a[9]; int g(int a); int n = (1ul * (9)); int f(int a[], int b[2][7]) { return 8ul + 4ul \
         + 8ul + (4ul * (7)); } int m = (1ul * (9));",
    ),
    // Of names that `for` declares nothing is told, to the end of the block.
    (
        "char i[9]; int f(void) { for (int i = 0, j; i < 3; i++) g(sizeof i, sizeof j); return sizeof i; } \
         int m = sizeof i;",
        "char i[9]; int f(void) { for (int i = 0, j; i < 3; i++) g(sizeof i, sizeof j); return sizeof i; } \
         int m = (1ul * (9));",
    ),
    // A `,` within brackets or `? :` declares nothing; behind these it does.
    (
        "char b[9]; int x; int f(void) { int a = g(1, b), c = x ? x, b : 1, d[2] = {x, b}, e = (x, b); \
         return sizeof b + sizeof e; }",
        "char b[9]; int x; int f(void) { int a = g(1, b), c = x ? x, b : 1, d[2] = {x, b}, e = (x, b); \
         return (1ul * (9)) + 4ul; }",
    ),
    (
        "char b[9]; int f(int x) { int a = x ? 1 : 2, b; switch (x) { case 1: a = 1, b = 2; } return sizeof b; }",
        "char b[9]; int f(int x) { int a = x ? 1 : 2, b; switch (x) { case 1: a = 1, b = 2; } return 4ul; }",
    ),
    (
        "char b[9]; int f(int x) { x = 1, b[0] = 2; g((int) x, b); return sizeof b; }",
        "char b[9]; int f(int x) { x = 1, b[0] = 2; g((int) x, b); return (1ul * (9)); }",
    ),
    // 6.4.4.1, 6.4.4.4: constants.
    (
        "int n = sizeof 'a' + sizeof 1L + sizeof 0xFFFFFFFFu + sizeof(2147483648) + sizeof((7)) + sizeof('a');",
        "int n = 4ul + 8ul + 4ul + 8ul + 4ul + 4ul;",
    ),
    // 6.3.1.1, 6.5.3.3: operators of one operand promote it.
    (
        "char c; long l; int n = sizeof +c + sizeof -l + sizeof ~c + sizeof !l + sizeof(c) + sizeof((c)) \
         + sizeof(-c) + sizeof(~!l);",
        "char c; long l; int n = 4ul + 8ul + 4ul + 4ul + 1ul + 1ul + 4ul + 4ul;",
    ),
    // 6.3.1.8, 6.5.5 to 6.5.14: of two operands, shifts and comparisons.
    (
        "short s, t[4]; long l; unsigned char c; int n = sizeof(s + c) + sizeof(s * l) + sizeof(t[s - 1] | c) \
         + sizeof(c << l) + sizeof(l >> c) + sizeof(s < l) + sizeof(l && l) + sizeof(-l - 1) + sizeof(s * -l);",
        "short s, t[4]; long l; unsigned char c; int n = 4ul + 8ul + 4ul + 4ul + 8ul + 4ul + 4ul + 8ul + 8ul;",
    ),
    // The operator that binds lowest.
    (
        "int i; long l; int n = sizeof(i + l < 1 | i) + sizeof((i == 1) + l) + sizeof(i << 1 | l) \
         + sizeof(!(i + l) * i);",
        "int i; long l; int n = 4ul + 8ul + 8ul + 4ul;",
    ),
    // 6.5.16, 6.5.4: assignments and casts; elements.
    (
        "char c; int i; long a[3], m[2][2]; int n = sizeof(c = a[0]) + sizeof(a[i] += 1) + sizeof((char) a[1]) \
         + sizeof((unsigned long) i + 1) + sizeof a[i * (2 - 1)] + sizeof m[i + 1] + sizeof -m[0][i];",
        "char c; int i; long a[3], m[2][2]; int n = 1ul + 8ul + 1ul + 8ul + 8ul + (8ul * (2)) + 8ul;",
    ),
    // 6.5.2.2: calls have the type that the function gives.
    (
        "int a[2], f(int), x; char c(void); long l(int a[]); _Bool t(int x) { return sizeof t(f(a[x]), (x, 1)); } \
         int n = sizeof f(x) + sizeof(c()) + sizeof(l(a) + f(1)) + sizeof -c() + sizeof((c())) + sizeof a[f(x)];",
        "int a[2], f(int), x; char c(void); long l(int a[]); _Bool t(int x) { return 1ul; } \
         int n = 4ul + 1ul + 8ul + 4ul + 1ul + 4ul;",
    ),
    // 6.5.2.4, 6.5.3.1: `++` and `--` promote nothing.
    (
        "char c, d[2]; long l; int n = sizeof c++ + sizeof --c + sizeof(c--) + sizeof(++l) + sizeof -c++ \
         + sizeof(d[c++]) + sizeof d[0]++ + sizeof (c)++ + sizeof(c++ + ++l) + sizeof ++(c) + sizeof((c)--) + sizeof(c - --c);",
        "char c, d[2]; long l; int n = 1ul + 1ul + 1ul + 8ul + 4ul + 1ul \
         + 1ul + 1ul + 8ul + 1ul + 1ul + 4ul;",
    ),
    // 6.5.17: a comma has the last operand; a void call may stand before it.
    (
        "char c; long l; void v(void); int n = sizeof(l, c) + sizeof(c, l) + sizeof(v(), c = 1, l) \
         + sizeof((l, c) + 1) + sizeof(c, l, c) + sizeof((v()), c);",
        "char c; long l; void v(void); int n = 1ul + 8ul + 8ul + 4ul + 1ul + 1ul;",
    ),
    // 6.5.15: the usual arithmetic conversions of both arms.
    (
        "char c; int i; long l; void v(void); int n = sizeof(i ? c : c) + sizeof(l ? i : l) + sizeof(i ? l : c) \
         + sizeof(i ? i ? c : i : i ? l : c) + sizeof(i ? c, l : c) + sizeof(i = l ? c : i) + sizeof(i ? i = 1 : c, l) \
         + sizeof(i < 1 ? c : c) + sizeof(i ? v() : v(), c) + sizeof((i ? c : l) + c) + sizeof(i ? c : l, c);",
        "char c; int i; long l; void v(void); int n = 4ul + 8ul + 8ul \
         + 8ul + 8ul + 4ul + 8ul \
         + 4ul + 1ul + 8ul + 1ul;",
    ),
    // 6.5.3: signs, casts and sizes one behind another.
    (
        "char c, a[3][2]; long l; int n = sizeof - -c + sizeof ~~l + sizeof !!l + sizeof(+(char)-l) + sizeof -(char)c \
         + sizeof((char)-l) + sizeof((long)-c + c) + sizeof((char)(short)l) + sizeof((char)++l) + sizeof(char)c;",
        "char c, a[3][2]; long l; int n = 4ul + 8ul + 4ul + 4ul + 4ul \
         + 1ul + 8ul + 1ul + 1ul + sizeof(char)c;",
    ),
    (
        "char c, a[3][2]; int n = sizeof sizeof c + sizeof(sizeof a / sizeof a[0]) + sizeof sizeof(a[1]) \
         + sizeof -sizeof c + sizeof(c ? sizeof c : c) + sizeof(sizeof(c)) + sizeof ~sizeof (c)++;",
        "char c, a[3][2]; int n = 8ul + 8ul + 8ul + 8ul \
         + 8ul + 8ul + 8ul;",
    ),
    // 7.21: what the include declares.
    (
        "#include <stdio.h>\nint n = sizeof getchar() + sizeof(putchar('a')) + sizeof EOF + sizeof(EOF);",
        "#include <stdio.h>\nint n = 4ul + 4ul + 4ul + 4ul;",
    ),
    // What no expression is, or has no size.
    (
        "int a[2], f(int), x; void v(void); void g(int p[]) { g(sizeof(p + 1), sizeof(a + 1), sizeof(long) x, \
         sizeof(a = x), sizeof(1 = x), sizeof(&x), sizeof(x +), sizeof(y + 1), sizeof(int), sizeof((void) x)); }",
        "int a[2], f(int), x; void v(void); void g(int p[]) { g(sizeof(p + 1), sizeof(a + 1), sizeof(long) x, \
         sizeof(a = x), sizeof(1 = x), sizeof(&x), sizeof(x +), sizeof(y + 1), sizeof(int), sizeof((void) x)); }",
    ),
    (
        "int a[2], f(int), x; void v(void); void g(int p[]) { g(sizeof v(), sizeof(v()), sizeof(x, v()), \
         sizeof(x ? v() : x), sizeof f(y), sizeof(x(1)), sizeof(f), sizeof(f(x)++), sizeof f(x)--, sizeof(v() ? 1 : 2), \
         sizeof(-v()), sizeof(x)++--, sizeof x++ ++, sizeof ++1, sizeof ++-x, sizeof(a++), sizeof(x ? 1), sizeof(x : 1), \
         sizeof(x ?: 1), sizeof(x ? a : a), sizeof(, x), sizeof(x,), sizeof((x, x)++), \
         sizeof(x = 1 = 2), sizeof h()); }",
        "int a[2], f(int), x; void v(void); void g(int p[]) { g(sizeof v(), sizeof(v()), sizeof(x, v()), \
         sizeof(x ? v() : x), sizeof f(y), sizeof(x(1)), sizeof(f), sizeof(f(x)++), sizeof f(x)--, sizeof(v() ? 1 : 2), \
         sizeof(-v()), sizeof(x)++--, sizeof x++ ++, sizeof ++1, sizeof ++-x, sizeof(a++), sizeof(x ? 1), sizeof(x : 1), \
         sizeof(x ?: 1), sizeof(x ? a : a), sizeof(, x), sizeof(x,), sizeof((x, x)++), \
         sizeof(x = 1 = 2), sizeof h()); }",
    ),
    // What stays: functions, other operands, sizes with names.
    (
        "int f(void); int n = sizeof f;",
        "int f(void); int n = sizeof f;",
    ),
    (
        "int a[3], x; int n = sizeof a[x + 1] + sizeof(x)++ + sizeof (a)[0] + sizeof -a + sizeof a[0][0] + sizeof a[];",
        "int a[3], x; int n = 4ul + 4ul + sizeof (a)[0] + sizeof -a + sizeof a[0][0] + sizeof a[];",
    ),
    (
        "int n; int a[n]; int b = sizeof a;",
        "int n; int a[n]; int b = sizeof a;",
    ),
    ("int b = sizeof a; int a;", "int b = sizeof a; int a;"),
    (
        "int f(int), x; int n = sizeof f(x",
        "int f(int), x; int n = sizeof f(x",
    ),
    ("int a; int b = sizeof", "int a; int b = sizeof"),
    ("int a; int b = sizeof (a", "int a; int b = sizeof (a"),
    (
        "int a[2]; int b = sizeof a[0",
        "int a[2]; int b = sizeof a[0",
    ),
];

/// The forms of tokens.
fn told(alloc: Global, tokens: &[Lexeme]) -> Result<String, AllocError> {
    let mut text = String::new(alloc);
    for token in tokens {
        text.push_str(&format!(in alloc; "{:?} ", token.form)?)?;
    }
    Ok(text)
}

fn tokens_of(rt: &impl Abort, alloc: Global, text: &str) -> Result<Vec<Lexeme>, AllocError> {
    if 1000 < text.len() {
        panic!(rt; "{text}");
    }
    match lex(alloc, text.as_bytes()) {
        Ok(tokens) => Ok(tokens),
        Err(LexFault::Memory) => Err(AllocError),
        Err(_) => panic!(rt; "{text}"),
    }
}

fn assert_row(rt: &impl Abort, alloc: Global, unit: &str, want: &str) -> Result<(), AllocError> {
    match sized(alloc, tokens_of(rt, alloc, unit)?) {
        Ok(got) => {
            let got = told(alloc, &got)?;
            let want = told(alloc, &tokens_of(rt, alloc, want)?)?;
            assert_eq!(rt; got.as_str(), want.as_str(), "{unit}");
        }
        Err(LibraryFault::Memory) => return Err(AllocError),
        Err(_) => panic!(rt; "{unit}"),
    }
    Ok(())
}

#[test]
fn gives_the_sizes(rt: HostRuntime) -> Result<(), Fail> {
    for (unit, want) in ROWS.iter() {
        assert_row(&rt, rt.alloc(), unit, want)?;
    }
    Ok(())
}

#[test]
fn has_no_sizeof(rt: HostRuntime) -> Result<(), Fail> {
    let alloc = rt.alloc();
    let without = tokens_of(&rt, alloc, "int a[2];")?;
    assert!(rt; is_sized(&without));
    let with = tokens_of(&rt, alloc, "int a = sizeof a;")?;
    assert!(rt; !is_sized(&with));
    Ok(())
}
