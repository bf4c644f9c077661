//! Each event and the causes of each, and numbers that name nothing.

use crate::both::assert_table;
use crate::rows::Row;
use crate::rows::Row::{Commits, Does, Holds, InFlight, Leads, Refuses};
use frame_state::Cause::{
    Missing, NoBlock, NoExit, NoFrame, NoInst, NoRead, NoRequest, NoToken, Over, Serial, Spent,
    Unsealed,
};
use frame_state::Event::{Commit, Deliver, Exit, Fetch, Fire, Flush, Load, Read, Seal, Store};
use std::test::Fail;
use trips_isa::Stepped::{Ended, Went};

/// Ends the run with the result 7.
const ENDING: &str = "trips 1
data 0
block 0 mask 00000000
W[0] write G[0]
W[1] write G[3]
N[0] genu 3 W[0]
N[1] genu 7 W[1]
N[2] scall 0
";

/// From the fill of a frame to the end of the run, and every event behind it.
const TO_THE_END: [Row; 37] = [
    InFlight(0),
    Leads(Some(0)),
    Refuses(Commit, Unsealed),
    Does(Fetch { block: 0 }),
    InFlight(1),
    Leads(None),
    Refuses(Fetch { block: 0 }, Serial),
    Does(Fire { frame: 0, slot: 0 }),
    Refuses(Fire { frame: 0, slot: 0 }, NoInst),
    Does(Deliver { token: 0 }),
    Refuses(Deliver { token: 0 }, NoToken),
    Does(Fire { frame: 0, slot: 1 }),
    Does(Deliver { token: 2 }),
    Refuses(Seal { frame: 0 }, Missing),
    Refuses(Exit { frame: 0 }, NoExit),
    Does(Fire { frame: 0, slot: 2 }),
    Refuses(Commit, Unsealed),
    Does(Exit { frame: 0 }),
    Leads(Some(0)),
    Refuses(Exit { frame: 0 }, NoExit),
    Does(Seal { frame: 0 }),
    Refuses(Seal { frame: 0 }, NoFrame),
    Refuses(Fire { frame: 0, slot: 0 }, NoFrame),
    Refuses(Deliver { token: 0 }, NoToken),
    Commits(Ended),
    InFlight(0),
    Holds(3, 7),
    Refuses(Fetch { block: 0 }, Over),
    Refuses(Read { frame: 0, read: 0 }, Over),
    Refuses(Fire { frame: 0, slot: 0 }, Over),
    Refuses(Deliver { token: 0 }, Over),
    Refuses(
        Load {
            frame: 0,
            number: 0,
        },
        Over,
    ),
    Refuses(
        Store {
            frame: 0,
            number: 0,
        },
        Over,
    ),
    Refuses(Exit { frame: 0 }, Over),
    Refuses(Seal { frame: 0 }, Over),
    Refuses(Flush { frame: 0 }, Over),
    Refuses(Commit, Over),
];

/// Turns for ever.
const TURNS: &str = "trips 1
data 0
block 0 mask 00000000
N[0] bro 0 @0
";

/// Numbers outside their ranges name nothing.
const OUTSIDE: [Row; 39] = [
    Refuses(Read { frame: 0, read: 0 }, NoFrame),
    Refuses(Fire { frame: 7, slot: 0 }, NoFrame),
    Refuses(
        Load {
            frame: 0,
            number: 0,
        },
        NoFrame,
    ),
    Refuses(
        Store {
            frame: 0,
            number: 0,
        },
        NoFrame,
    ),
    Refuses(Exit { frame: 0 }, NoFrame),
    Refuses(Seal { frame: 0 }, NoFrame),
    Refuses(Flush { frame: 0 }, NoFrame),
    Refuses(Deliver { token: 0 }, NoToken),
    Refuses(Fetch { block: 1 }, NoBlock),
    Refuses(Fetch { block: 4294967295 }, NoBlock),
    Does(Fetch { block: 0 }),
    Does(Fetch { block: 0 }),
    InFlight(2),
    Refuses(Read { frame: 8, read: 0 }, NoFrame),
    Refuses(Fire { frame: 8, slot: 0 }, NoFrame),
    Refuses(
        Load {
            frame: 8,
            number: 0,
        },
        NoFrame,
    ),
    Refuses(
        Store {
            frame: 8,
            number: 0,
        },
        NoFrame,
    ),
    Refuses(Exit { frame: 8 }, NoFrame),
    Refuses(Seal { frame: 8 }, NoFrame),
    Refuses(Flush { frame: 8 }, NoFrame),
    Refuses(
        Read {
            frame: 255,
            read: 0,
        },
        NoFrame,
    ),
    Refuses(
        Fire {
            frame: 255,
            slot: 0,
        },
        NoFrame,
    ),
    Refuses(
        Load {
            frame: 255,
            number: 0,
        },
        NoFrame,
    ),
    Refuses(
        Store {
            frame: 255,
            number: 0,
        },
        NoFrame,
    ),
    Refuses(Exit { frame: 255 }, NoFrame),
    Refuses(Seal { frame: 255 }, NoFrame),
    Refuses(Flush { frame: 255 }, NoFrame),
    Refuses(
        Fire {
            frame: 0,
            slot: 128,
        },
        NoInst,
    ),
    Refuses(
        Fire {
            frame: 0,
            slot: 255,
        },
        NoInst,
    ),
    Refuses(Read { frame: 0, read: 32 }, NoRead),
    Refuses(
        Read {
            frame: 0,
            read: 255,
        },
        NoRead,
    ),
    Refuses(
        Load {
            frame: 0,
            number: 32,
        },
        NoRequest,
    ),
    Refuses(
        Load {
            frame: 0,
            number: 255,
        },
        NoRequest,
    ),
    Refuses(
        Store {
            frame: 0,
            number: 32,
        },
        NoRequest,
    ),
    Refuses(
        Store {
            frame: 0,
            number: 255,
        },
        NoRequest,
    ),
    Refuses(Deliver { token: 2559 }, NoToken),
    Refuses(Deliver { token: 2560 }, NoToken),
    Refuses(Deliver { token: 65535 }, NoToken),
    InFlight(2),
];

/// Eight frames and no ninth. A flush leaves the older frames, and the lowest empty one is filled.
const FULL: [Row; 23] = [
    Does(Fetch { block: 0 }),
    Does(Fetch { block: 0 }),
    Does(Fetch { block: 0 }),
    Does(Fetch { block: 0 }),
    Does(Fetch { block: 0 }),
    Does(Fetch { block: 0 }),
    Does(Fetch { block: 0 }),
    Does(Fetch { block: 0 }),
    InFlight(8),
    Refuses(Fetch { block: 0 }, NoFrame),
    Does(Flush { frame: 7 }),
    InFlight(7),
    Refuses(Flush { frame: 7 }, NoFrame),
    Does(Flush { frame: 3 }),
    InFlight(3),
    Refuses(Fire { frame: 3, slot: 0 }, NoFrame),
    Does(Fetch { block: 0 }),
    InFlight(4),
    Does(Fire { frame: 3, slot: 0 }),
    Refuses(Fire { frame: 3, slot: 0 }, NoInst),
    Does(Flush { frame: 0 }),
    InFlight(0),
    Leads(Some(0)),
];

/// No block may be committed.
const NONE: [Row; 6] = [
    Does(Fetch { block: 0 }),
    Does(Fire { frame: 0, slot: 0 }),
    Does(Exit { frame: 0 }),
    Does(Seal { frame: 0 }),
    Refuses(Commit, Spent),
    InFlight(1),
];

/// One block may be committed.
const ONE: [Row; 12] = [
    Does(Fetch { block: 0 }),
    Does(Fire { frame: 0, slot: 0 }),
    Does(Exit { frame: 0 }),
    Does(Fetch { block: 0 }),
    Does(Fire { frame: 1, slot: 0 }),
    Does(Exit { frame: 1 }),
    Does(Seal { frame: 1 }),
    Refuses(Commit, Unsealed),
    Does(Seal { frame: 0 }),
    Commits(Went),
    InFlight(1),
    Refuses(Commit, Spent),
];

#[test]
fn a_frame_comes_to_its_end(rt: HostRuntime) -> Result<(), Fail> {
    assert_table(&rt, rt.alloc(), ENDING, 4, &TO_THE_END)?;
    Ok(())
}

#[test]
fn numbers_outside_name_nothing(rt: HostRuntime) -> Result<(), Fail> {
    assert_table(&rt, rt.alloc(), TURNS, 4, &OUTSIDE)?;
    Ok(())
}

#[test]
fn eight_frames_are_in_flight(rt: HostRuntime) -> Result<(), Fail> {
    assert_table(&rt, rt.alloc(), TURNS, 4, &FULL)?;
    Ok(())
}

#[test]
fn a_budget_of_none_is_spent(rt: HostRuntime) -> Result<(), Fail> {
    assert_table(&rt, rt.alloc(), TURNS, 0, &NONE)?;
    Ok(())
}

#[test]
fn a_budget_of_one_is_spent_at_the_second(rt: HostRuntime) -> Result<(), Fail> {
    assert_table(&rt, rt.alloc(), TURNS, 1, &ONE)?;
    Ok(())
}
