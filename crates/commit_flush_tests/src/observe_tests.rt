//! What is told of a frame that runs, from its fill to its commit.

use crate::both::assert_table;
use crate::rows::Row;
use crate::rows::Row::{Address, Asks, Commits, Does, Lacks, Ready};
use frame_state::Event::{Deliver, Exit, Fetch, Fire, Flush, Load, Read, Seal, Store};
use frame_state::Lack;
use std::test::Fail;
use trips_isa::Stepped::Went;
use trips_isa::Token::{Null, Word};

/// A read, a load of number 0, a store of number 1, a write and a branch.
const BOTH: &str = "trips 1
data 0
block 0 mask 00000002
R[0] read G[5] N[0,0]
W[0] write G[6]
N[0] mov N[1,0] N[2,0]
N[1] ld 0 16 W[0]
N[2] sd 1 24
N[3] genu 9 N[2,1]
N[4] bro 0 @0
";

/// Each output comes, and what waits is answered.
const TO_THE_COMMIT: [Row; 62] = [
    Asks(0, 0),
    Address(0, 0, None),
    Lacks(0, None),
    Ready(0, 0, 0),
    Does(Fetch { block: 0 }),
    Asks(0, 0),
    Lacks(0, Some(Lack::Write(0))),
    Ready(0, 0b11000, 1),
    Ready(1, 0, 0),
    Ready(8, 0, 0),
    Does(Read { frame: 0, read: 0 }),
    Ready(0, 0b11000, 0),
    Does(Deliver { token: 256 }),
    Ready(0, 0b11001, 0),
    Does(Fire { frame: 0, slot: 0 }),
    Ready(0, 0b11000, 0),
    Does(Deliver { token: 0 }),
    Ready(0, 0b11010, 0),
    Does(Deliver { token: 1 }),
    Ready(0, 0b11010, 0),
    Does(Fire { frame: 0, slot: 1 }),
    Asks(0, 0b01),
    Address(0, 0, Some(Word(16))),
    Address(0, 1, None),
    Address(0, 32, None),
    Ready(0, 0b11000, 0),
    Does(Fire { frame: 0, slot: 3 }),
    Does(Deliver { token: 6 }),
    Ready(0, 0b10100, 0),
    Does(Fire { frame: 0, slot: 2 }),
    Asks(0, 0b11),
    Address(0, 1, Some(Word(24))),
    Lacks(0, Some(Lack::Write(0))),
    Does(Load {
        frame: 0,
        number: 0,
    }),
    Asks(0, 0b10),
    Address(0, 0, None),
    Lacks(0, Some(Lack::Write(0))),
    Does(Deliver { token: 2 }),
    Lacks(0, Some(Lack::Store(1))),
    Does(Store {
        frame: 0,
        number: 1,
    }),
    Asks(0, 0),
    Address(0, 1, None),
    Lacks(0, Some(Lack::Exit)),
    Ready(0, 0b10000, 0),
    Does(Fire { frame: 0, slot: 4 }),
    Lacks(0, Some(Lack::Exit)),
    Ready(0, 0, 0),
    Does(Exit { frame: 0 }),
    Lacks(0, None),
    Does(Fetch { block: 0 }),
    Lacks(1, Some(Lack::Write(0))),
    Ready(1, 0b11000, 1),
    Does(Seal { frame: 0 }),
    Asks(0, 0),
    Lacks(0, None),
    Ready(0, 0, 0),
    Commits(Went),
    Lacks(0, None),
    Lacks(1, Some(Lack::Write(0))),
    Does(Flush { frame: 1 }),
    Lacks(1, None),
    Ready(1, 0, 0),
];

/// A load of a null address.
const NULL: &str = "trips 1
data 0
block 0 mask 00000000
W[0] write G[6]
N[0] null N[1,0]
N[1] ld 3 16 W[0]
N[2] bro 0 @0
";

/// The address is null as long as the load waits.
const NULL_ADDRESS: [Row; 10] = [
    Does(Fetch { block: 0 }),
    Ready(0, 0b101, 0),
    Does(Fire { frame: 0, slot: 0 }),
    Does(Deliver { token: 0 }),
    Does(Fire { frame: 0, slot: 1 }),
    Asks(0, 0b1000),
    Address(0, 3, Some(Null)),
    Does(Flush { frame: 0 }),
    Asks(0, 0),
    Address(0, 3, None),
];

#[test]
fn outputs_come_until_none_is_lacking(rt: HostRuntime) -> Result<(), Fail> {
    assert_table(&rt, rt.alloc(), BOTH, 4, &TO_THE_COMMIT)
}

#[test]
fn a_null_address_waits(rt: HostRuntime) -> Result<(), Fail> {
    assert_table(&rt, rt.alloc(), NULL, 4, &NULL_ADDRESS)
}
