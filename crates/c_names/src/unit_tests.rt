//! Units with names of types and of enumeration constants, in the words of C.

use crate::unit::named;
use c_lex::lex;
use c_library::LibraryFault;
use c_tree::{Form, Lexeme, Word};
use std::alloc::{AllocError, Global};
use std::process::Abort;
use std::test::Fail;

/// A unit, in which the word `stdint_h` is the token of `<stdint.h>`, and what it comes to.
const ROWS: &[(&str, &str)] = &[
    // Nothing is named.
    ("int f(int x) { return x; }", "int f(int x) { return x; }"),
    // 6.7.8: from its declaration to the end of its block.
    (
        "typedef unsigned long word, *p; word x;",
        "typedef unsigned long word, *p; word x;",
    ),
    (
        "typedef unsigned long word, wide; word x; wide f(word y) { return (word) y; }",
        "unsigned long x; unsigned long f(unsigned long y) { return (unsigned long) y; }",
    ),
    (
        "void f(void) { typedef int T; T x; { T y; } } long T;",
        "void f(void) { int x; { int y; } } long T;",
    ),
    ("typedef int T; typedef T U; U x;", "int x;"),
    (
        "typedef const int T; typedef volatile T U; T x = 5; int f(T y) { U z; return y; }",
        "const int x = 5; int f(const int y) { volatile const int z; return y; }",
    ),
    ("typedef const T; T x;", "typedef const T; T x;"),
    (
        "typedef register int T; T x;",
        "typedef register int T; T x;",
    ),
    (
        "typedef int T; void f(void) { typedef long T; T x; } T y;",
        "void f(void) { long x; } int y;",
    ),
    ("typedef int int T; T x;", "typedef int int T; T x;"),
    ("int f(typedef int T);", "int f(typedef int T);"),
    ("typedef int T; typedef long T;", "typedef long T;"),
    ("typedef const int T; typedef int T;", "typedef int T;"),
    (
        "#include <stdio.h>\ntypedef long unsigned int size_t; size_t n;",
        "#include <stdio.h>\nlong unsigned int n;",
    ),
    ("enum { A }; typedef int A;", "typedef int A;"),
    (
        "#include <stdio.h>\nsize_t f(size_t n);",
        "#include <stdio.h>\nunsigned long f(unsigned long n);",
    ),
    ("#include <stddef.h>\nsize_t n;", "unsigned long n;"),
    (
        "#include <stddef.h>\nptrdiff_t d; wchar_t c;",
        "long d; int c;",
    ),
    ("for (;typedef int T;) T;", "for (;typedef int T;) T;"),
    // 6.7.2.2
    ("enum { A, B, C }; int x = A + B + C;", "int x = 0 + 1 + 2;"),
    (
        "enum color { RED = 3, GREEN, } c = RED; enum color d = GREEN;",
        "int c = 3; int d = 4;",
    ),
    (
        "enum { A = -1, B, C = B }; int x = A; int y = B; int z = C;",
        "int x = (-1); int y = ((-1) + 1); int z = (((-1) + 1));",
    ),
    ("enum { A = 2147483647, B };", "enum { A = 2147483647, B };"),
    (
        "enum { A = 1 << 4, B = A | 1 }; int x[A]; int y = B;",
        "int x[(1 << 4)]; int y = ((1 << 4) | 1);",
    ),
    ("enum { A = f }; int x = A;", "enum { A = f }; int x = A;"),
    ("enum { A = 1L };", "enum { A = 1L };"),
    ("enum { };", "enum { };"),
    ("enum { A, A };", "enum { A, A };"),
    (
        "void f(void) { enum { A = 7 }; g(A); } int A;",
        "void f(void) { g(7); } int A;",
    ),
    ("typedef enum { A, B } T; T x = B;", "int x = 1;"),
    (
        "typedef enum tag { A, B } T; enum tag x = B; T y = A;",
        "int x = 1; int y = 0;",
    ),
    ("enum other x;", "enum other x;"),
    ("static enum { A }; int x = A;", "static int ; int x = 0;"),
    // 6.5.3.4
    (
        "typedef short T; int x = sizeof(T) + sizeof(unsigned char) + sizeof ( long int unsigned );",
        "int x = 2ul + 1ul + 8ul;",
    ),
    (
        "int x = sizeof(int) + sizeof(long long) + sizeof(_Bool);",
        "int x = 4ul + 8ul + 1ul;",
    ),
    (
        "int x = sizeof(x) + sizeof(short char) + sizeof(int);",
        "int x = sizeof(x) + sizeof(short char) + 4ul;",
    ),
    (
        "int x = sizeof(const int) + sizeof(long unsigned volatile) + sizeof(const);",
        "int x = 4ul + 8ul + sizeof(const);",
    ),
    (
        "enum t { A } x; int y = sizeof(enum t) + sizeof(enum u);",
        "int x; int y = 4ul + sizeof(enum u);",
    ),
    // 7.19, 7.20
    (
        "size_t x; stdint_h uint8_t y; int_fast16_t z;",
        "size_t x; unsigned char y; long z;",
    ),
];

/// A token, of which the word `stdint_h` is the header.
fn included(alloc: Global, form: Form) -> Result<Form, AllocError> {
    match form {
        Form::Name(name) => {
            if name.as_slice() == b"stdint_h".as_slice() {
                Ok(Form::Name(Word::from_slice(alloc, b"<stdint.h>")?))
            } else {
                Ok(Form::Name(name))
            }
        }
        other => Ok(other),
    }
}

/// The tokens of a text.
fn tokens_of(alloc: Global, text: &str) -> Result<Vec<Lexeme>, AllocError> {
    let mut tokens = Vec::new(alloc);
    if 1000 < text.len() {
        return Ok(tokens);
    }
    match lex(alloc, text.as_bytes()) {
        Ok(all) => {
            for token in all {
                tokens.push(Lexeme {
                    offset: token.offset,
                    form: included(alloc, token.form)?,
                })?;
            }
            Ok(tokens)
        }
        Err(_) => Err(AllocError),
    }
}

/// The forms of tokens.
fn told(alloc: Global, tokens: &[Lexeme]) -> Result<String, AllocError> {
    let mut text = String::new(alloc);
    for token in tokens {
        text.push_str(&format!(in alloc; "{:?} ", token.form)?)?;
    }
    Ok(text)
}

fn assert_row(rt: &impl Abort, alloc: Global, unit: &str, want: &str) -> Result<(), AllocError> {
    match named(alloc, tokens_of(alloc, unit)?) {
        Ok(got) => {
            let got = told(alloc, &got)?;
            let want = told(alloc, &tokens_of(alloc, want)?)?;
            assert_eq!(rt; got.as_str(), want.as_str(), "{unit}");
        }
        Err(LibraryFault::Memory) => return Err(AllocError),
        Err(_) => panic!(rt; "{unit}"),
    }
    Ok(())
}

#[test]
fn replaces_names(rt: HostRuntime) -> Result<(), Fail> {
    for (unit, want) in ROWS.iter() {
        assert_row(&rt, rt.alloc(), unit, want)?;
    }
    Ok(())
}
