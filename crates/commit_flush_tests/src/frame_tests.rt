//! Registers that are forwarded, and blocks that were guessed.

use crate::both::assert_table;
use crate::rows::Row;
use crate::rows::Row::{Commits, Does, Holds, InFlight, Leads, Refuses};
use frame_state::Cause::{NoBlock, NoRead, NoToken, NotReady, NotYet, Wrong};
use frame_state::Event::{Deliver, Exit, Fetch, Fire, Read, Seal};
use std::test::Fail;
use trips_isa::Stepped::Went;

/// The second block writes a null token to register 5, the third reads it.
const NULL_WRITE: &str = "trips 1
data 0
block 0 mask 00000000
W[0] write G[5]
N[0] genu 7 W[0]
N[1] bro 0 @1
block 1 mask 00000000
W[0] write G[5]
N[0] null W[0]
N[1] bro 0 @2
block 2 mask 00000000
R[0] read G[5] N[0,0]
W[0] write G[6]
N[0] addi 1 W[0]
N[1] bro 0 @0
";

/// The read waits for both older writes, and passes over the null one.
const PASSES_OVER: [Row; 36] = [
    Does(Fetch { block: 0 }),
    Does(Fetch { block: 1 }),
    Does(Fetch { block: 2 }),
    Leads(None),
    Refuses(Read { frame: 2, read: 1 }, NoRead),
    Refuses(Read { frame: 2, read: 0 }, NotYet),
    Does(Fire { frame: 1, slot: 0 }),
    Does(Deliver { token: 320 }),
    Refuses(Read { frame: 2, read: 0 }, NotYet),
    Does(Fire { frame: 0, slot: 0 }),
    Does(Deliver { token: 0 }),
    Refuses(Fire { frame: 2, slot: 0 }, NotReady),
    Does(Read { frame: 2, read: 0 }),
    Refuses(Read { frame: 2, read: 0 }, NoRead),
    Refuses(Fire { frame: 2, slot: 0 }, NotReady),
    Does(Deliver { token: 896 }),
    Refuses(Deliver { token: 896 }, NoToken),
    Does(Fire { frame: 2, slot: 0 }),
    Does(Deliver { token: 640 }),
    Does(Fire { frame: 0, slot: 1 }),
    Does(Exit { frame: 0 }),
    Does(Fire { frame: 1, slot: 1 }),
    Does(Exit { frame: 1 }),
    Does(Fire { frame: 2, slot: 1 }),
    Does(Exit { frame: 2 }),
    InFlight(3),
    Leads(Some(0)),
    Does(Seal { frame: 2 }),
    Does(Seal { frame: 1 }),
    Does(Seal { frame: 0 }),
    Commits(Went),
    Commits(Went),
    Commits(Went),
    InFlight(0),
    Holds(5, 7),
    Holds(6, 8),
];

/// A read sees the nearest older write, and no younger one; behind all frames the committed register.
const NEAREST: [Row; 29] = [
    Does(Fetch { block: 0 }),
    Does(Fetch { block: 1 }),
    Does(Fetch { block: 2 }),
    Does(Fetch { block: 0 }),
    Does(Fire { frame: 3, slot: 0 }),
    Does(Deliver { token: 960 }),
    Does(Fire { frame: 1, slot: 0 }),
    Does(Deliver { token: 320 }),
    Refuses(Read { frame: 2, read: 0 }, NotYet),
    Does(Fire { frame: 0, slot: 0 }),
    Does(Deliver { token: 0 }),
    Does(Fire { frame: 0, slot: 1 }),
    Does(Exit { frame: 0 }),
    Does(Seal { frame: 0 }),
    Commits(Went),
    Does(Read { frame: 2, read: 0 }),
    Does(Deliver { token: 896 }),
    Does(Fire { frame: 2, slot: 0 }),
    Does(Deliver { token: 640 }),
    Does(Fire { frame: 1, slot: 1 }),
    Does(Exit { frame: 1 }),
    Does(Seal { frame: 1 }),
    Does(Fire { frame: 2, slot: 1 }),
    Does(Exit { frame: 2 }),
    Does(Seal { frame: 2 }),
    Commits(Went),
    Commits(Went),
    InFlight(1),
    Holds(6, 8),
];

/// An exit keeps the right next block, and flushes a wrong one and all behind it.
const WRONG_NEXT: [Row; 25] = [
    Refuses(Fetch { block: 1 }, Wrong),
    Refuses(Fetch { block: 3 }, NoBlock),
    Does(Fetch { block: 0 }),
    Does(Fetch { block: 2 }),
    Does(Fetch { block: 2 }),
    InFlight(3),
    Does(Fire { frame: 0, slot: 1 }),
    Does(Exit { frame: 0 }),
    InFlight(1),
    Leads(Some(1)),
    Refuses(Fetch { block: 2 }, Wrong),
    Refuses(Fetch { block: 0 }, Wrong),
    Does(Fetch { block: 1 }),
    InFlight(2),
    Leads(None),
    Does(Fetch { block: 2 }),
    Does(Fire { frame: 1, slot: 1 }),
    Does(Exit { frame: 1 }),
    InFlight(3),
    Does(Fire { frame: 0, slot: 0 }),
    Does(Deliver { token: 0 }),
    Does(Seal { frame: 0 }),
    Commits(Went),
    InFlight(2),
    Holds(5, 7),
];

#[test]
fn a_read_passes_over_a_null_write(rt: HostRuntime) -> Result<(), Fail> {
    assert_table(&rt, rt.alloc(), NULL_WRITE, 4, &PASSES_OVER)?;
    Ok(())
}

#[test]
fn a_read_sees_the_nearest_older_write(rt: HostRuntime) -> Result<(), Fail> {
    assert_table(&rt, rt.alloc(), NULL_WRITE, 4, &NEAREST)?;
    Ok(())
}

#[test]
fn an_exit_flushes_a_wrong_next_block(rt: HostRuntime) -> Result<(), Fail> {
    assert_table(&rt, rt.alloc(), NULL_WRITE, 4, &WRONG_NEXT)?;
    Ok(())
}
