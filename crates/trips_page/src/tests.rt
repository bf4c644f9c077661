//! Each export once, on a program that returns 7.

use crate::{
    page_assemble, page_check, page_compile, page_disassemble, page_evaluate, page_explain,
    page_explain_target, page_memory, page_record, page_run, page_run_image,
};
use std::alloc::Global;
use std::process::Abort;

const SEVEN: &[u8] = b"int main(void) { return 7; }\n";

// The bytes that were put, where all had room.
fn put(out: &[u8], count: usize) -> &[u8] {
    if count <= out.len() {
        &out[..count]
    } else {
        &[]
    }
}

// What stands behind the status.
fn report(answer: &[u8]) -> &[u8] {
    match answer.split_first() {
        Some((_, report)) => report,
        None => &[],
    }
}

#[test]
fn commands_answer_as_the_program_does(rt: HostRuntime) {
    let alloc = rt.alloc();
    let mut out = [0u8; 6000];
    let count = page_run(alloc, SEVEN, b"", 0, 100, 1, false, false, false, &mut out);
    assert_eq!(&rt; put(&out, count), b"\0output 0\n\nresult 7\n".as_slice());
    let count = page_evaluate(alloc, SEVEN, b"", 100, &mut out);
    assert!(&rt; put(&out, count).starts_with(b"\0output 0\n\nresult 7\nsteps "));
    let count = page_explain(alloc, b"int main(void) { return; }\n", &mut out);
    assert!(&rt; put(&out, count).starts_with(b"\x04program.c:1:"));
    let count = page_evaluate(alloc, SEVEN, b"", 0, &mut out);
    assert_eq!(&rt; count, 0);
}

// The image of the program behind its status.
fn compiled(rt: &impl Abort, alloc: Global, image: &mut [u8]) -> usize {
    let count = page_compile(alloc, SEVEN, 1, image);
    assert!(rt; put(image, count).starts_with(b"\0TRIPSIMG"));
    count
}

#[test]
fn images_are_told_and_run(rt: HostRuntime) {
    let alloc = rt.alloc();
    let mut room = [0u8; 6000];
    let size = compiled(&rt, alloc, &mut room);
    let image = report(put(&room, size));
    let mut out = [0u8; 6000];
    let count = page_check(alloc, image, &mut out);
    assert!(&rt; put(&out, count).starts_with(b"\0good "));
    let count = page_disassemble(alloc, image, &mut out);
    assert!(&rt; put(&out, count).starts_with(b"\0trips 1\n"));
    let mut again = [0u8; 6000];
    let told = page_explain_target(alloc, report(put(&out, count)), &mut again);
    assert!(&rt; put(&again, told).starts_with(b"\0program.tasl: accepted, "));
    let made = page_assemble(alloc, report(put(&out, count)), &mut again);
    assert_eq!(&rt; put(&again, made), put(&room, size));
    let count = page_run_image(alloc, image, b"", 0, 100, false, false, false, &mut out);
    assert_eq!(&rt; put(&out, count), b"\0output 0\n\nresult 7\n".as_slice());
    let count = page_memory(alloc, image, b"", 0, 100, 1000, 0, 16, &mut out);
    // the first word of main's frame, which is the address of block 1
    assert_eq!(&rt;
        put(&out, count),
        b"\x01\0\0\0\0\0\0\x01\x80\0\0\0\0\0\0\0\0".as_slice()
    );
    let count = page_record(alloc, image, b"", 0, 100, 1000, 10, &mut out);
    assert!(&rt; put(&out, count).starts_with(b"\x01\0\0\0\0\0\0"));
    assert!(&rt; put(&out, count).ends_with(b"\0\0"));
}
