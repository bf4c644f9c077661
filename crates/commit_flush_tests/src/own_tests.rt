//! Loads beside the stores of their own frame, and of a younger one.

use crate::both::assert_table;
use crate::rows::Row;
use crate::rows::Row::{Commits, Does, Holds, InFlight};
use frame_state::Event::{Deliver, Exit, Fetch, Fire, Flush, Load, Seal, Store};
use std::test::Fail;
use trips_isa::Stepped::Went;

/// A store, a load and a store, all of the four bytes at 64.
const OWN: &str = "trips 1
data 0
block 0 mask 00000005
W[0] write G[5]
N[0] genu 64 N[1,0]
N[1] lw 1 0 W[0]
N[2] genu 64 N[4,0]
N[3] genu 7 N[4,1]
N[4] sw 0 0
N[5] genu 64 N[7,0]
N[6] genu 9 N[7,1]
N[7] sw 2 0
N[8] bro 0 @0
";

/// A higher store of its frame leaves the load, a lower one flushes it.
const OF_ITS_FRAME: [Row; 43] = [
    Does(Fetch { block: 0 }),
    Does(Fetch { block: 0 }),
    Does(Fire { frame: 0, slot: 0 }),
    Does(Deliver { token: 0 }),
    Does(Fire { frame: 0, slot: 1 }),
    Does(Load {
        frame: 0,
        number: 1,
    }),
    Does(Fire { frame: 0, slot: 5 }),
    Does(Deliver { token: 10 }),
    Does(Fire { frame: 0, slot: 6 }),
    Does(Deliver { token: 12 }),
    Does(Fire { frame: 0, slot: 7 }),
    Does(Store {
        frame: 0,
        number: 2,
    }),
    InFlight(2),
    Does(Fire { frame: 0, slot: 2 }),
    Does(Deliver { token: 4 }),
    Does(Fire { frame: 0, slot: 3 }),
    Does(Deliver { token: 6 }),
    Does(Fire { frame: 0, slot: 4 }),
    Does(Store {
        frame: 0,
        number: 0,
    }),
    InFlight(0),
    Does(Fetch { block: 0 }),
    Does(Fire { frame: 0, slot: 2 }),
    Does(Deliver { token: 4 }),
    Does(Fire { frame: 0, slot: 3 }),
    Does(Deliver { token: 6 }),
    Does(Fire { frame: 0, slot: 4 }),
    Does(Store {
        frame: 0,
        number: 0,
    }),
    Does(Fire { frame: 0, slot: 5 }),
    Does(Deliver { token: 10 }),
    Does(Fire { frame: 0, slot: 6 }),
    Does(Deliver { token: 12 }),
    Does(Fire { frame: 0, slot: 7 }),
    Does(Store {
        frame: 0,
        number: 2,
    }),
    Does(Fire { frame: 0, slot: 0 }),
    Does(Deliver { token: 0 }),
    Does(Fire { frame: 0, slot: 1 }),
    Does(Load {
        frame: 0,
        number: 1,
    }),
    Does(Deliver { token: 2 }),
    Does(Fire { frame: 0, slot: 8 }),
    Does(Exit { frame: 0 }),
    Does(Seal { frame: 0 }),
    Commits(Went),
    Holds(5, 7),
];

/// A load sees no younger store. It keeps what it took from a store nearer than the one that is resolved.
const OF_YOUNGER: [Row; 83] = [
    Does(Fetch { block: 0 }),
    Does(Fetch { block: 0 }),
    Does(Fire { frame: 1, slot: 2 }),
    Does(Deliver { token: 324 }),
    Does(Fire { frame: 1, slot: 3 }),
    Does(Deliver { token: 326 }),
    Does(Fire { frame: 1, slot: 4 }),
    Does(Store {
        frame: 1,
        number: 0,
    }),
    Does(Fire { frame: 1, slot: 5 }),
    Does(Deliver { token: 330 }),
    Does(Fire { frame: 1, slot: 6 }),
    Does(Deliver { token: 332 }),
    Does(Fire { frame: 1, slot: 7 }),
    Does(Store {
        frame: 1,
        number: 2,
    }),
    Does(Fire { frame: 1, slot: 0 }),
    Does(Deliver { token: 320 }),
    Does(Fire { frame: 1, slot: 1 }),
    Does(Load {
        frame: 1,
        number: 1,
    }),
    Does(Fire { frame: 0, slot: 0 }),
    Does(Deliver { token: 0 }),
    Does(Fire { frame: 0, slot: 1 }),
    Does(Load {
        frame: 0,
        number: 1,
    }),
    Does(Fire { frame: 0, slot: 5 }),
    Does(Deliver { token: 10 }),
    Does(Fire { frame: 0, slot: 6 }),
    Does(Deliver { token: 12 }),
    Does(Fire { frame: 0, slot: 7 }),
    Does(Store {
        frame: 0,
        number: 2,
    }),
    InFlight(2),
    Does(Deliver { token: 322 }),
    Does(Fire { frame: 1, slot: 8 }),
    Does(Exit { frame: 1 }),
    Does(Seal { frame: 1 }),
    Does(Flush { frame: 0 }),
    InFlight(0),
    Does(Fetch { block: 0 }),
    Does(Fetch { block: 0 }),
    Does(Fire { frame: 1, slot: 2 }),
    Does(Deliver { token: 324 }),
    Does(Fire { frame: 1, slot: 3 }),
    Does(Deliver { token: 326 }),
    Does(Fire { frame: 1, slot: 4 }),
    Does(Store {
        frame: 1,
        number: 0,
    }),
    Does(Fire { frame: 1, slot: 0 }),
    Does(Deliver { token: 320 }),
    Does(Fire { frame: 1, slot: 1 }),
    Does(Load {
        frame: 1,
        number: 1,
    }),
    Does(Fire { frame: 0, slot: 2 }),
    Does(Deliver { token: 4 }),
    Does(Fire { frame: 0, slot: 3 }),
    Does(Deliver { token: 6 }),
    Does(Fire { frame: 0, slot: 4 }),
    Does(Store {
        frame: 0,
        number: 0,
    }),
    InFlight(2),
    Does(Fire { frame: 0, slot: 0 }),
    Does(Deliver { token: 0 }),
    Does(Fire { frame: 0, slot: 1 }),
    Does(Load {
        frame: 0,
        number: 1,
    }),
    Does(Fire { frame: 0, slot: 5 }),
    Does(Deliver { token: 10 }),
    Does(Fire { frame: 0, slot: 6 }),
    Does(Deliver { token: 12 }),
    Does(Fire { frame: 0, slot: 7 }),
    Does(Store {
        frame: 0,
        number: 2,
    }),
    InFlight(2),
    Does(Fire { frame: 1, slot: 5 }),
    Does(Deliver { token: 330 }),
    Does(Fire { frame: 1, slot: 6 }),
    Does(Deliver { token: 332 }),
    Does(Fire { frame: 1, slot: 7 }),
    Does(Store {
        frame: 1,
        number: 2,
    }),
    Does(Deliver { token: 322 }),
    Does(Fire { frame: 1, slot: 8 }),
    Does(Exit { frame: 1 }),
    Does(Seal { frame: 1 }),
    Does(Deliver { token: 2 }),
    Does(Fire { frame: 0, slot: 8 }),
    Does(Exit { frame: 0 }),
    Does(Seal { frame: 0 }),
    Commits(Went),
    Holds(5, 7),
    Commits(Went),
    Holds(5, 7),
];

#[test]
fn a_lower_store_of_its_frame_flushes(rt: HostRuntime) -> Result<(), Fail> {
    assert_table(&rt, rt.alloc(), OWN, 4, &OF_ITS_FRAME)?;
    Ok(())
}

#[test]
fn a_younger_store_is_not_seen(rt: HostRuntime) -> Result<(), Fail> {
    assert_table(&rt, rt.alloc(), OWN, 4, &OF_YOUNGER)?;
    Ok(())
}
