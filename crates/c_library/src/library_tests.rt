//! Units with the functions of the library that they call, as words with a blank between two.

use crate::LibraryFault;
use crate::library::with_library;
use crate::spelled::forms_of;
use c_tree::Lexeme;
use std::alloc::{AllocError, Global};
use std::process::Abort;
use std::test::Fail;

/// A unit, and what it comes to.
const ROWS: &[(&str, &str)] = &[
    // Nothing is called, or nothing behind its header.
    (
        "#include int f ( ) { return g ( abs ) ; }",
        "#include int f ( ) { return g ( abs ) ; }",
    ),
    (
        "#include int f ( ) { return abs ( 1 ) ; }",
        "#include int f ( ) { return abs ( 1 ) ; }",
    ),
    (
        "int f ( ) { return abs ( 1 ) ; } <stdlib.h> <string.h>",
        "int f ( ) { return abs ( 1 ) ; }",
    ),
    // 7.22.6.1, at the header, once.
    (
        "int g ; <stdlib.h> int f ( ) { return abs ( 1 ) + abs ( 2 ) ; }",
        "int g ; int abs ( int n ) { return n < 0 ? - n : n ; } int f ( ) { return abs ( 1 ) + abs ( 2 ) ; }",
    ),
    // A unit's own function stays the one that is called.
    (
        "<stdlib.h> int f ( ) { return abs ( 1 ) ; } int abs ( int n ) { return 3 ; }",
        "int f ( ) { return abs ( 1 ) ; } int abs ( int n ) { return 3 ; }",
    ),
    // 7.22.2.2: what a function names stands before it, at the header of both.
    (
        "<stdlib.h> void f ( void ) { srand ( 7 ) ; }",
        "unsigned long rand.next = 1 ; void srand ( unsigned int seed ) { rand.next = seed ; } \
         void f ( void ) { srand ( 7 ) ; }",
    ),
    // 7.22.4.4: what ends the run is beside the functions of the include, which stands before it here too.
    (
        "<stdlib.h> int f ( ) { exit ( 1 ) ; }",
        "#include void exit ( int status ) { exit.now ( status ) ; } int f ( ) { exit ( 1 ) ; }",
    ),
    (
        "#include <stdlib.h> int f ( ) { exit ( 1 ) ; }",
        "#include #include void exit ( int status ) { exit.now ( status ) ; } int f ( ) { exit ( 1 ) ; }",
    ),
    (
        "<stdlib.h> void exit ( int n ) { } int f ( ) { exit ( 1 ) ; }",
        "void exit ( int n ) { } int f ( ) { exit ( 1 ) ; }",
    ),
    // 7.22.4.1: the least long says that the program has aborted; both includes declare what ends the run.
    (
        "<stdlib.h> int f ( ) { abort ( ) ; }",
        "#include void abort ( void ) { exit.now ( ( unsigned long ) 1 << 63 ) ; } int f ( ) { abort ( ) ; }",
    ),
    (
        "<stdlib.h> int f ( ) { abort ( ) ; exit ( 1 ) ; }",
        "#include void abort ( void ) { exit.now ( ( unsigned long ) 1 << 63 ) ; } #include void exit ( int status ) { \
         exit.now ( status ) ; } int f ( ) { abort ( ) ; exit ( 1 ) ; }",
    ),
    (
        "<stdlib.h> void abort ( void ) { } int f ( ) { abort ( ) ; }",
        "void abort ( void ) { } int f ( ) { abort ( ) ; }",
    ),
    // 7.21.7.9, behind the include.
    (
        "#include <ctype.h> void f ( void ) { puts ( \"a ) ; isdigit ( 1 ) ; }",
        "#include int puts ( char s [ ] ) { int n = 0 ; while ( s [ n ] ) { putchar ( s [ n ] ) ; n ++ ; } \
         putchar ( 10 ) ; return n + 1 ; } int isdigit ( int c ) { return c >= 48 && c <= 57 ; } \
         void f ( void ) { puts ( \"a ) ; isdigit ( 1 ) ; }",
    ),
];

/// The tokens of words.
fn tokens_of(alloc: Global, text: &str) -> Result<Vec<Lexeme>, AllocError> {
    let mut tokens = Vec::new(alloc);
    let mut offset = 0u32;
    for form in forms_of(alloc, text.as_bytes())?.into_vec() {
        tokens.push(Lexeme { offset, form })?;
        offset = offset.wrapping_add(1);
    }
    Ok(tokens)
}

/// The forms of tokens.
fn told(alloc: Global, tokens: &[Lexeme]) -> Result<String, AllocError> {
    let mut text = String::new(alloc);
    for token in tokens {
        text.push_str(&format!(in alloc; "{:?} ", token.form)?)?;
    }
    Ok(text)
}

fn assert_row(rt: &impl Abort, alloc: Global, unit: &str, want: &str) -> Result<(), AllocError> {
    let tokens = tokens_of(alloc, unit)?;
    if 100 < tokens.len() {
        return Ok(());
    }
    match with_library(alloc, tokens) {
        Ok(got) => {
            let got = told(alloc, &got)?;
            let want = told(alloc, &tokens_of(alloc, want)?)?;
            assert_eq!(rt; got.as_str(), want.as_str(), "{unit}");
        }
        Err(LibraryFault::Memory) => return Err(AllocError),
        Err(_) => panic!(rt; "{unit}"),
    }
    Ok(())
}

#[test]
fn gives_what_is_called(rt: HostRuntime) -> Result<(), Fail> {
    for (unit, want) in ROWS.iter() {
        assert_row(&rt, rt.alloc(), unit, want)?;
    }
    Ok(())
}
