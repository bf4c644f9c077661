//! `run` on texts whose blocks are full, and how many blocks a loop takes.
use std::alloc::{AllocError, Global};
use std::process::Abort;
use std::test::Fail;
use trips_run::Status;
use trips_run_harness::answer_of;

// A text, the blocks within which it ends, and its report.
type Few = (&'static str, &'static str, &'static str);

// A turn of these loops takes one block, which jumps to itself, and the way there and back six.
const FEW: &[Few] = &[
    (
        "long a[9]; int main(void) { int i; a[0] = 1; for (i = 1; i < 9; i++) a[i] = a[i - 1] * 2; \
         return (int) a[8]; }",
        "14",
        "output 0\n\nresult 256\n",
    ),
    (
        "int main(void) { int i; int s = 0; for (i = 0; i < 10; i++) { s = s * 3 + i; s = s % 1000; s = s ^ 5; } \
         return s; }",
        "16",
        "output 0\n\nresult 609\n",
    ),
];

fn assert_few(rt: &impl Abort, alloc: Global, rows: &[Few]) -> Result<(), AllocError> {
    for (text, blocks, report) in rows {
        let held = [("a.c", text.as_bytes())];
        let (status, written) = answer_of(alloc, &["run", "a.c", "--blocks", *blocks], &held)?;
        assert_eq!(rt; status, Status::Ended, "{text} within {blocks}");
        assert_eq!(rt;
            written.as_slice(),
            report.as_bytes(),
            "{text} within {blocks}"
        );
    }
    Ok(())
}

#[test]
fn loops_take_few_blocks(rt: HostRuntime) -> Result<(), Fail> {
    assert_few(&rt, rt.alloc(), FEW)?;
    Ok(())
}

// So many times a text.
fn put_often(text: &mut String, part: &str, often: u32) -> Result<(), AllocError> {
    for _time in 0..often {
        text.push_str(part)?;
    }
    Ok(())
}

// The beginning of a program, what is repeated in it, and its end.
type Crowd = (&'static str, &'static str, &'static str);

// Operations; constants; loads and stores; calls that save much; parts of a loop; tests; many variables, of
// which each is set and all are read.
const CROWDS: &[Crowd] = &[
    (
        "int main(void) { unsigned long x = 1; ",
        "x = x * 3 + 7; ",
        "return (int) (x % 1000); }",
    ),
    (
        "int main(void) { unsigned long x = 1; ",
        "x = x * 6364136223846793005 + 1442695040888963407; ",
        "return (int) (x % 1000); }",
    ),
    (
        "int a[8]; int main(void) { int i = 3; ",
        "a[i] = a[i] + i; a[i - 1] = a[i + 1] + 1; ",
        "return a[3] * 10 + a[2]; }",
    ),
    (
        "int f(int n) { return n + 1; } int main(void) { int a = 1; int b = 2; int c = 3; ",
        "a = f(b) + c; b = f(a + c) * f(c); b = b % 1000; ",
        "return a + b + c; }",
    ),
    (
        "int main(void) { int i; int s = 0; for (i = 0; i < 3; i++) { ",
        "s = s * 5 + i; s = s % 10007; ",
        "} return s; }",
    ),
    (
        "int main(void) { int x = 1; ",
        "x = x > 50 ? x - 49 : x + 3; if (x == 7 || x == 9 && x < 40) x++; ",
        "return x; }",
    ),
    (
        "int main(void) { int a=1,b=2,c=3,d=4,e=5,f=6,g=7,h=8,i=9,j=10,k=11,l=12,m=13,n=14,o=15,p=16; \
         int q=17,r=18,s=19,t=20,u=21,v=22,w=23,x=24,y=25,z=26; \
         int aa=27,bb=28,cc=29,dd=30,ee=31,ff=32,gg=33,hh=34,ii=35,jj=36; ",
        "a = b + jj; ",
        "return a+b+c+d+e+f+g+h+i+j+k+l+m+n+o+p+q+r+s+t+u+v+w+x+y+z+aa+bb+cc+dd+ee+ff+gg+hh+ii+jj; }",
    ),
];

fn assert_agrees(
    rt: &impl Abort,
    alloc: Global,
    crowd: &Crowd,
    often: u32,
) -> Result<(), AllocError> {
    let (before, part, after) = *crowd;
    let mut text = String::from_str(alloc, before)?;
    put_often(&mut text, part, often)?;
    text.push_str(after)?;
    let held = [("a.c", text.as_bytes())];
    let (told, evaluated) = answer_of(alloc, &["eval", "a.c"], &held)?;
    let (status, written) = answer_of(alloc, &["run", "a.c"], &held)?;
    assert_eq!(rt; told, Status::Ended, "eval {text}");
    assert_eq!(rt; status, Status::Ended, "run {text}");
    assert!(rt; evaluated.starts_with(written.as_slice()), "{text}");
    Ok(())
}

fn assert_all_agree(
    rt: &impl Abort,
    alloc: Global,
    crowds: &[Crowd],
    often: u32,
) -> Result<(), AllocError> {
    for crowd in crowds {
        assert_agrees(rt, alloc, crowd, often)?;
    }
    Ok(())
}

#[test]
fn agrees_where_blocks_are_full(rt: HostRuntime) -> Result<(), Fail> {
    let alloc = rt.alloc();
    assert_all_agree(&rt, alloc, CROWDS, 1)?;
    assert_all_agree(&rt, alloc, CROWDS, 40)?;
    Ok(())
}

// Its image holds guards and nulls (crates/c_compile_tests).
const CHOICE: &str =
    "#include <stdio.h>\nint main(void) { int x = 5; int c = getchar(); if (c < 0) x = 7; getchar(); return x; }";

// An input, and the report.
type Choice = (&'static [u8], &'static str);

const CHOICES: &[Choice] = &[
    (b"", "output 0\n\nresult 7\n"),
    (b"a", "output 0\n\nresult 5\n"),
];

fn assert_choices(rt: &impl Abort, alloc: Global, rows: &[Choice]) -> Result<(), AllocError> {
    for (input, report) in rows {
        let held = [("a.c", CHOICE.as_bytes()), ("t", *input)];
        let (status, written) = answer_of(alloc, &["run", "a.c", "--input", "t"], &held)?;
        assert_eq!(rt; status, Status::Ended, "{input:?}");
        assert_eq!(rt; written.as_slice(), report.as_bytes(), "{input:?}");
    }
    Ok(())
}

#[test]
fn a_leg_that_is_not_taken_changes_nothing(rt: HostRuntime) -> Result<(), Fail> {
    assert_choices(&rt, rt.alloc(), CHOICES)?;
    Ok(())
}
