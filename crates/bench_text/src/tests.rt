//! The text with one function, and how long the texts are.

use crate::bench_text;
use std::alloc::{AllocError, Global};
use std::process::Abort;
use std::test::Fail;

const WITH_ONE: &[u8] = b"#include <stdio.h>\nlong a[16];\n\
    long f0(long x) { long i; for (i = 0; i < 16; i = i + 1) a[i] = x + i; \
    for (i = 1; i < 16; i = i + 1) a[i] = a[i] + a[i - 1]; return a[15] + 0; }\n\
    int main(void) { long x = 1;\nx = f0(x) % 1000; putchar(65 + (int) (x % 26));\n\
    return (int) x; }\n";

#[test]
fn one_function_is_the_text_of_the_page(rt: HostRuntime) -> Result<(), Fail> {
    let text = bench_text(rt.alloc(), 1)?;
    assert!(&rt; text.as_slice() == WITH_ONE, "the text with one function");
    Ok(())
}

// How many functions, and how many bytes.
const LENGTHS: &[(u32, usize)] = &[(0, 78), (1, 272), (10, 2_018), (11, 2_215), (64, 12_656)];

fn assert_lengths(rt: &impl Abort, alloc: Global, rows: &[(u32, usize)]) -> Result<(), AllocError> {
    for (count, bytes) in rows {
        let text = bench_text(alloc, *count)?;
        assert_eq!(rt; text.len(), *bytes, "bytes of {count} functions");
    }
    Ok(())
}

#[test]
fn each_function_adds_two_lines(rt: HostRuntime) -> Result<(), Fail> {
    assert_lengths(&rt, rt.alloc(), LENGTHS)?;
    Ok(())
}
