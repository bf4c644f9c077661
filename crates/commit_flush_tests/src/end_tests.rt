//! The end of a run at a marked output.

use crate::both::assert_table;
use crate::rows::Row;
use crate::rows::Row::{Commits, Does, Holds, InFlight, Refuses};
use frame_state::Cause::Over;
use frame_state::Event::{Commit, Deliver, Exit, Fetch, Fire, Read, Seal};
use std::test::Fail;
use trips_isa::Stepped::{Trap, Went};
use trips_isa::TrapCause::DivisionByZero;

/// The second block divides by 0, and the quotient is a write.
const FAULT: &str = "trips 1
data 0
block 0 mask 00000000
W[0] write G[5]
N[0] genu 7 W[0]
N[1] bro 0 @1
block 1 mask 00000000
R[0] read G[5] N[1,0]
W[0] write G[5]
N[0] genu 0 N[1,1]
N[1] divu W[0]
N[2] bro 0 @0
";

/// A marked output ends the run at its commit, and the committed state stays.
const MARKED: [Row; 25] = [
    Does(Fetch { block: 0 }),
    Does(Fetch { block: 1 }),
    Does(Fetch { block: 0 }),
    Does(Fire { frame: 0, slot: 0 }),
    Does(Deliver { token: 0 }),
    Does(Fire { frame: 0, slot: 1 }),
    Does(Exit { frame: 0 }),
    Does(Seal { frame: 0 }),
    Does(Read { frame: 1, read: 0 }),
    Does(Deliver { token: 576 }),
    Does(Fire { frame: 1, slot: 0 }),
    Does(Deliver { token: 320 }),
    Does(Fire { frame: 1, slot: 1 }),
    Does(Deliver { token: 322 }),
    Does(Fire { frame: 1, slot: 2 }),
    Does(Exit { frame: 1 }),
    Does(Seal { frame: 1 }),
    InFlight(3),
    Commits(Went),
    Holds(5, 7),
    Commits(Trap(DivisionByZero)),
    InFlight(0),
    Holds(5, 7),
    Refuses(Fetch { block: 0 }, Over),
    Refuses(Commit, Over),
];

#[test]
fn a_marked_output_ends_the_run(rt: HostRuntime) -> Result<(), Fail> {
    assert_table(&rt, rt.alloc(), FAULT, 4, &MARKED)?;
    Ok(())
}
