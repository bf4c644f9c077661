//! Loads that are guessed, and stores of an older frame that flush them.

use crate::both::assert_table;
use crate::rows::Row;
use crate::rows::Row::{Commits, Does, Holds, InFlight, Refuses, Stores};
use frame_state::Cause::{NoBlock, NoRequest, NoToken, Serial, Wrong};
use frame_state::Event::{Deliver, Exit, Fetch, Fire, Load, Seal, Store};
use std::test::Fail;
use trips_isa::Stepped::{Ended, Went};

/// The divide makes the store late.
const DIVIDE: &str = "trips 1
data 0
block 0 mask 00000001
N[0] genu 7 N[2,0]
N[1] genu 1 N[2,1]
N[2] divu N[4,0]
N[3] genu 171 N[4,1]
N[4] sb 0 0
N[5] bro 0 @1
block 1 mask 00000000
W[0] write G[0]
W[1] write G[3]
N[0] genu 0 N[1,0]
N[1] ld 0 0 W[1]
N[2] genu 3 W[0]
N[3] scall 0
";

/// The load is answered before the store is resolved, is flushed by it, and answered again.
const LOAD_FIRST: [Row; 44] = [
    Refuses(Fetch { block: 1 }, Wrong),
    Refuses(Fetch { block: 2 }, NoBlock),
    Does(Fetch { block: 0 }),
    Does(Fetch { block: 1 }),
    Refuses(Fetch { block: 0 }, Serial),
    Refuses(
        Load {
            frame: 1,
            number: 0,
        },
        NoRequest,
    ),
    Does(Fire { frame: 1, slot: 0 }),
    Does(Deliver { token: 320 }),
    Does(Fire { frame: 1, slot: 1 }),
    Refuses(
        Store {
            frame: 1,
            number: 0,
        },
        NoRequest,
    ),
    Does(Load {
        frame: 1,
        number: 0,
    }),
    Refuses(
        Load {
            frame: 1,
            number: 0,
        },
        NoRequest,
    ),
    Does(Fire { frame: 0, slot: 0 }),
    Does(Fire { frame: 0, slot: 1 }),
    Does(Deliver { token: 0 }),
    Does(Deliver { token: 2 }),
    Does(Fire { frame: 0, slot: 2 }),
    Does(Deliver { token: 4 }),
    Does(Fire { frame: 0, slot: 3 }),
    Does(Deliver { token: 6 }),
    Does(Fire { frame: 0, slot: 4 }),
    Refuses(
        Load {
            frame: 0,
            number: 0,
        },
        NoRequest,
    ),
    Does(Store {
        frame: 0,
        number: 0,
    }),
    Refuses(
        Store {
            frame: 0,
            number: 0,
        },
        NoRequest,
    ),
    InFlight(1),
    Does(Fetch { block: 1 }),
    InFlight(2),
    Does(Fire { frame: 1, slot: 0 }),
    Does(Deliver { token: 320 }),
    Does(Fire { frame: 1, slot: 1 }),
    Does(Load {
        frame: 1,
        number: 0,
    }),
    Does(Deliver { token: 322 }),
    Does(Fire { frame: 1, slot: 2 }),
    Does(Deliver { token: 324 }),
    Does(Fire { frame: 1, slot: 3 }),
    Does(Exit { frame: 1 }),
    Does(Seal { frame: 1 }),
    Does(Fire { frame: 0, slot: 5 }),
    Does(Exit { frame: 0 }),
    InFlight(2),
    Does(Seal { frame: 0 }),
    Commits(Went),
    Commits(Ended),
    Holds(3, 171),
];

/// The store is resolved before the load is answered.
const STORE_FIRST: [Row; 30] = [
    Does(Fetch { block: 0 }),
    Does(Fetch { block: 1 }),
    Does(Fire { frame: 0, slot: 0 }),
    Does(Fire { frame: 0, slot: 1 }),
    Does(Deliver { token: 0 }),
    Does(Deliver { token: 2 }),
    Does(Fire { frame: 0, slot: 2 }),
    Does(Deliver { token: 4 }),
    Does(Fire { frame: 0, slot: 3 }),
    Does(Deliver { token: 6 }),
    Does(Fire { frame: 0, slot: 4 }),
    Does(Store {
        frame: 0,
        number: 0,
    }),
    Does(Fire { frame: 1, slot: 0 }),
    Does(Deliver { token: 320 }),
    Does(Fire { frame: 1, slot: 1 }),
    Does(Load {
        frame: 1,
        number: 0,
    }),
    InFlight(2),
    Does(Deliver { token: 322 }),
    Does(Fire { frame: 1, slot: 2 }),
    Does(Deliver { token: 324 }),
    Does(Fire { frame: 1, slot: 3 }),
    Does(Exit { frame: 1 }),
    Does(Seal { frame: 1 }),
    Does(Fire { frame: 0, slot: 5 }),
    Does(Exit { frame: 0 }),
    InFlight(2),
    Does(Seal { frame: 0 }),
    Commits(Went),
    Commits(Ended),
    Holds(3, 171),
];

/// The same late store; what the second block loads is the value of a store of its own.
const COPIED: &str = "trips 1
data 0
block 0 mask 00000001
N[0] genu 7 N[2,0]
N[1] genu 1 N[2,1]
N[2] divu N[4,0]
N[3] genu 171 N[4,1]
N[4] sb 0 0
N[5] bro 0 @1
block 1 mask 00000002
W[0] write G[0]
N[0] genu 0 N[1,0]
N[1] ld 0 0 N[3,1]
N[2] genu 64 N[3,0]
N[3] sd 1 0
N[4] genu 3 W[0]
N[5] scall 0
";

/// The guessed load gives 0, which a store of its block keeps until the older store flushes both; then it gives 171.
const GUESSED: [Row; 38] = [
    Does(Fetch { block: 0 }),
    Does(Fetch { block: 1 }),
    Does(Fire { frame: 1, slot: 0 }),
    Does(Deliver { token: 320 }),
    Does(Fire { frame: 1, slot: 1 }),
    Does(Load {
        frame: 1,
        number: 0,
    }),
    Does(Deliver { token: 322 }),
    Does(Fire { frame: 1, slot: 2 }),
    Does(Deliver { token: 324 }),
    Does(Fire { frame: 1, slot: 3 }),
    Does(Store {
        frame: 1,
        number: 1,
    }),
    Stores(1, 1, Some(0)),
    Does(Fire { frame: 0, slot: 0 }),
    Does(Fire { frame: 0, slot: 1 }),
    Does(Deliver { token: 0 }),
    Does(Deliver { token: 2 }),
    Does(Fire { frame: 0, slot: 2 }),
    Does(Deliver { token: 4 }),
    Does(Fire { frame: 0, slot: 3 }),
    Does(Deliver { token: 6 }),
    Does(Fire { frame: 0, slot: 4 }),
    Does(Store {
        frame: 0,
        number: 0,
    }),
    InFlight(1),
    Stores(1, 1, None),
    Does(Fetch { block: 1 }),
    Does(Fire { frame: 1, slot: 0 }),
    Does(Deliver { token: 320 }),
    Does(Fire { frame: 1, slot: 1 }),
    Does(Load {
        frame: 1,
        number: 0,
    }),
    Does(Deliver { token: 322 }),
    Does(Fire { frame: 1, slot: 2 }),
    Does(Deliver { token: 324 }),
    Does(Fire { frame: 1, slot: 3 }),
    Does(Store {
        frame: 1,
        number: 1,
    }),
    Stores(1, 1, Some(171)),
    Does(Fire { frame: 0, slot: 5 }),
    Does(Exit { frame: 0 }),
    InFlight(2),
];

/// Stores a null, two bytes at 66 and two at 68; then four bytes are loaded from 64.
const OVERLAP: &str = "trips 1
data 0
block 0 mask 00000007
N[0] genu 66 N[2,0]
N[1] genu 258 N[2,1]
N[2] sh 0 0
N[3] null N[4,0]
N[4] sh 1 0
N[5] genu 9 N[4,1]
N[6] bro 0 @1
N[7] genu 68 N[9,0]
N[8] genu 1 N[9,1]
N[9] sh 2 0
block 1 mask 00000000
W[0] write G[5]
N[0] genu 64 N[1,0]
N[1] lw 0 0 W[0]
N[2] bro 0 @0
";

/// A null store and one beside the load flush nothing; one that covers a byte of it does.
const PARTLY: [Row; 43] = [
    Does(Fetch { block: 0 }),
    Does(Fetch { block: 1 }),
    Does(Fire { frame: 1, slot: 0 }),
    Does(Deliver { token: 320 }),
    Does(Fire { frame: 1, slot: 1 }),
    Does(Load {
        frame: 1,
        number: 0,
    }),
    Does(Fire { frame: 0, slot: 3 }),
    Does(Deliver { token: 6 }),
    Does(Fire { frame: 0, slot: 5 }),
    Does(Deliver { token: 10 }),
    Does(Fire { frame: 0, slot: 4 }),
    Does(Store {
        frame: 0,
        number: 1,
    }),
    InFlight(2),
    Does(Fire { frame: 0, slot: 7 }),
    Does(Deliver { token: 14 }),
    Does(Fire { frame: 0, slot: 8 }),
    Does(Deliver { token: 16 }),
    Does(Fire { frame: 0, slot: 9 }),
    Does(Store {
        frame: 0,
        number: 2,
    }),
    InFlight(2),
    Does(Fire { frame: 0, slot: 0 }),
    Does(Deliver { token: 0 }),
    Does(Fire { frame: 0, slot: 1 }),
    Does(Deliver { token: 2 }),
    Does(Fire { frame: 0, slot: 2 }),
    Does(Store {
        frame: 0,
        number: 0,
    }),
    InFlight(1),
    Refuses(Deliver { token: 322 }, NoToken),
    Does(Fetch { block: 1 }),
    Does(Fire { frame: 1, slot: 0 }),
    Does(Deliver { token: 320 }),
    Does(Fire { frame: 1, slot: 1 }),
    Does(Load {
        frame: 1,
        number: 0,
    }),
    Does(Deliver { token: 322 }),
    Does(Fire { frame: 1, slot: 2 }),
    Does(Exit { frame: 1 }),
    Does(Fire { frame: 0, slot: 6 }),
    Does(Exit { frame: 0 }),
    Does(Seal { frame: 0 }),
    Commits(Went),
    Does(Seal { frame: 1 }),
    Commits(Went),
    Holds(5, 258),
];

#[test]
fn a_load_before_the_store_is_flushed(rt: HostRuntime) -> Result<(), Fail> {
    assert_table(&rt, rt.alloc(), DIVIDE, 4, &LOAD_FIRST)?;
    Ok(())
}

#[test]
fn a_guessed_load_gives_what_stood_before(rt: HostRuntime) -> Result<(), Fail> {
    assert_table(&rt, rt.alloc(), COPIED, 4, &GUESSED)?;
    Ok(())
}

#[test]
fn a_load_behind_the_store_sees_it(rt: HostRuntime) -> Result<(), Fail> {
    assert_table(&rt, rt.alloc(), DIVIDE, 4, &STORE_FIRST)?;
    Ok(())
}

#[test]
fn a_store_that_covers_a_byte_flushes(rt: HostRuntime) -> Result<(), Fail> {
    assert_table(&rt, rt.alloc(), OVERLAP, 4, &PARTLY)?;
    Ok(())
}
