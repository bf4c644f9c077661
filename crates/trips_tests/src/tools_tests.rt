//! The example image of docs/MACHINE.md through each tool, and files that the tools refuse.

use base::Memory;
use std::alloc::Global;
use std::process::Abort;
use trips_report::refusal_report;
use trips_tools::{Made, assembled, checked, disassembled};

// The image of one block that returns 7.
const SEVEN: &[u8] = b"trips 1
data 0
block 0 mask 00000000
W[0] write G[0]
W[1] write G[3]
N[0] genu 3 W[0]
N[1] genu 7 W[1]
N[2] scall 0
";

// Its store of number 0 has no token.
const NO_STORE: &[u8] = b"trips 1
data 0
block 0 mask 00000001
W[0] write G[0]
N[0] genu 3 W[0]
N[1] scall 0
";

// The bytes that were made.
fn bytes_of(rt: &impl Abort, made: Result<Made, Memory>) -> Vec<u8> {
    match made.expect(rt, "memory") {
        Made::Bytes(bytes) => bytes.into_vec(),
        Made::Refused(_) => panic!(rt; "refused"),
    }
}

// The report of the refusal.
fn refusal_of(rt: &impl Abort, alloc: Global, made: Result<Made, Memory>) -> Vec<u8> {
    match made.expect(rt, "memory") {
        Made::Bytes(_) => panic!(rt; "not refused"),
        Made::Refused(said) => refusal_report(alloc, said).expect(rt, "memory"),
    }
}

#[test]
fn an_image_goes_out_and_back(rt: HostRuntime) {
    let alloc = rt.alloc();
    let bytes = bytes_of(&rt, assembled(alloc, SEVEN));
    assert!(rt; bytes.len() == 276, "a head of 20 bytes and two chunks");
    let text = bytes_of(&rt, disassembled(alloc, &bytes));
    assert_eq!(rt; text.as_slice(), SEVEN, "the text");
    let report = bytes_of(&rt, checked(alloc, &bytes));
    assert_eq!(rt;
        report.as_slice(),
        b"good 1 blocks\n".as_slice(),
        "the report"
    );
}

#[test]
fn files_are_refused(rt: HostRuntime) {
    let alloc = rt.alloc();
    let no_goal = b"trips 1\ndata 0\nblock 0 mask 00000000\nN[0] bro 0 @5\n";
    let label = refusal_of(&rt, alloc, assembled(alloc, no_goal));
    assert_eq!(rt;
        label.as_slice(),
        b"refused asm 3 Label line 4\n".as_slice(),
        "a goal"
    );
    let magic = refusal_of(&rt, alloc, disassembled(alloc, b"TRIPSIMX"));
    assert_eq!(rt;
        magic.as_slice(),
        b"refused image 1 Magic\n".as_slice(),
        "a start"
    );
    let cut = refusal_of(&rt, alloc, checked(alloc, b"TRIPS"));
    assert_eq!(rt;
        cut.as_slice(),
        b"refused image 3 Truncated at 5\n".as_slice(),
        "an end"
    );
}

#[test]
fn a_block_without_its_store_is_refused(rt: HostRuntime) {
    let alloc = rt.alloc();
    let bytes = bytes_of(&rt, assembled(alloc, NO_STORE));
    let report = refusal_of(&rt, alloc, checked(alloc, &bytes));
    assert_eq!(rt;
        report.as_slice(),
        b"refused check 6 NoToken S[0] block 0\n".as_slice(),
        "a store"
    );
}
