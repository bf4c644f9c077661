//! The comments of listings of small texts, and that nothing but comments is added.

use crate::listing_answer;
use block_check::CheckedImage;
use c_compile::compile;
use grid_place::Placing;
use std::alloc::Global;
use std::process::Abort;
use target_asm::print;
use target_file::bare;

/// How many bytes of a line are compared: all of a comment, and of the line of a block its number.
fn compared(line: &[u8]) -> usize {
    if line.starts_with(b"# ") {
        return line.len();
    }
    if !line.starts_with(b"block ") {
        return 0;
    }
    for (i, b) in line.iter().enumerate() {
        if *b == b'm' {
            return i.saturating_sub(1);
        }
    }
    line.len()
}

/// The comments of a listing, with the numbers of its blocks.
fn outline(alloc: Global, rt: &impl Abort, report: &[u8]) -> Vec<u8> {
    let mut out = Vec::new(alloc);
    let mut line = Vec::new(alloc);
    for b in report {
        if *b == b'\n' {
            let size = compared(&line);
            if size > 0 && size <= line.len() {
                let (front, _) = line.split_at(size);
                out.extend_from_slice(front).expect(rt, "memory");
                out.push(b'\n').expect(rt, "memory");
            }
            line = Vec::new(alloc);
        } else {
            line.push(*b).expect(rt, "memory");
        }
    }
    out
}

/// The listing of a text.
fn listing_of(alloc: Global, rt: &impl Abort, text: &str) -> Vec<u8> {
    let bytes = text.as_bytes();
    if bytes.len() >= 4_294_967_295 {
        return Vec::new(alloc);
    }
    match listing_answer(alloc, bytes, Placing::Greedy, 1) {
        Ok(report) => report,
        Err(_) => Vec::new(alloc),
    }
}

/// What `dis` writes of the image of a text.
fn target_of(alloc: Global, text: &str) -> Option<Vec<u8>> {
    let bytes = text.as_bytes();
    if bytes.len() >= 4_294_967_295 {
        return None;
    }
    let checked = compile(alloc, bytes, Placing::Greedy).ok()?;
    let image = checked.copy_out(alloc).ok()?;
    print(alloc, &image).ok()
}

// A text of C, and the comments of its listing with the numbers of the blocks behind them.
type Row = (&'static str, &'static str);

const ROWS: &[Row] = &[
    (
        "int half(int n) {
  int q = n / 2;
  return q;
}

int main(void) {
  int i;
  int sum = 0;
  for (i = 0; i < 9; i++) {
    sum += half(i);
  }
  return sum;
}
",
        "# start
block 0
# end
block 1
# full stack
block 2
# half: lines 1 to 4
# half: G[12] n, G[13] q
block 3
# half: lines 1 to 4
block 4
# main: lines 6 to 13
# main: G[12] i, G[13] sum
block 5
# main: lines 6 to 13
block 6
# main: lines 6 to 13
block 7
# main: lines 6 to 13
block 8
# main: lines 6 to 13
block 9
",
    ),
    (
        "#include <stdio.h>
int a[4];
static int pick(int n, int b[], long w)
{
  int i, c[3];
  switch (n) {
  case 1: { int x = 1; return x + b[0]; }
  default: { int y; y = w; c[1] = y; i = c[1]; }
  }
  return i;
}
int main(void) { int r = pick(1, a, 2L); puts(\"x\"); return r; }
",
        "# start
block 0
# end
block 1
# full stack
block 2
# puts: library
# puts: G[12] s, G[13] n
block 3
# puts: library
block 4
# puts: library
block 5
# puts: library
block 6
# puts: library
block 7
# puts: library
block 8
# pick: lines 3 to 11
# pick: G[12] n, G[13] b, G[14] w, G[15] i, G[17] x, G[18] y
block 9
# pick: lines 3 to 11
block 10
# pick: lines 3 to 11
block 11
# pick: lines 3 to 11
block 12
# pick: lines 3 to 11
block 13
# pick: lines 3 to 11
block 14
# pick: lines 3 to 11
block 15
# main: line 12
# main: G[12] r
block 16
# main: line 12
block 17
# main: line 12
block 18
# main: line 12
block 19
",
    ),
    (
        "int main(void) {
  int a_name_of_twenty_four_xyz = 1, b_name_of_twenty_four_xyz = 2, c_name_of_twenty_four_xyz = 3;
  int d = 4;
  { int d = 5; a_name_of_twenty_four_xyz += d; }
  return a_name_of_twenty_four_xyz + b_name_of_twenty_four_xyz + c_name_of_twenty_four_xyz + d;
}
",
        "# start
block 0
# end
block 1
# full stack
block 2
# main: lines 1 to 6
# main: G[12] a_name_of_twenty_four_xyz, G[13] b_name_of_twenty_four_xyz, G[14] c_name_of_twenty_four_xyz, G[15] d
# main: G[16] d
block 3
# main: lines 1 to 6
block 4
",
    ),
];

#[test]
fn comments_tell_the_functions(rt: HostRuntime) {
    let alloc = rt.alloc();
    for (text, comments) in ROWS {
        let report = listing_of(alloc, &rt, text);
        let said = outline(alloc, &rt, &report);
        let said = String::from_utf8_lossy(alloc, &said).expect(&rt, "memory");
        assert!(&rt; said.as_str() == *comments, "listing of {text}\n{said}");
    }
}

#[test]
fn without_comments_it_is_the_target_text(rt: HostRuntime) {
    let alloc = rt.alloc();
    for (text, _) in ROWS {
        let report = listing_of(alloc, &rt, text);
        let left = bare(alloc, &report).expect(&rt, "memory");
        let target = target_of(alloc, text).expect(&rt, "memory");
        assert_eq!(&rt; left, target, "listing of {text}");
    }
}
