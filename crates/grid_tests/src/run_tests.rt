//! Runs that end, trap, or spend their budget.

use crate::runs::{Row, assert_run, ran};
use std::test::Fail;
use trips_isa::{Ending, TrapCause};

/// The program that returns 7: the first example of docs/MACHINE.md.
const SEVEN: Row = Row {
    text: "trips 1
data 0
block 0 mask 00000000
W[0] write G[0]
W[1] write G[3]
N[0] genu 3 W[0]
N[1] genu 7 W[1]
N[2] scall 0
",
    budget: 100,
    ending: Ending::Ended,
    result: 7,
    committed: 1,
};

/// A store whose value a division makes late, and a load of eight bytes in the next block that takes one of them from
/// it.
const STORED: Row = Row {
    text: "trips 1
data 0
block 0 mask 00000001
N[0] genu 7 N[2,0]
N[1] genu 1 N[2,1]
N[2] divu N[4,0]
N[3] genu 171 N[4,1]
N[4] sb 0 0
N[5] bro 0 @1
block 1 mask 00000000
W[0] write G[0]
W[1] write G[3]
N[0] genu 0 N[1,0]
N[1] ld 0 0 W[1]
N[2] genu 3 W[0]
N[3] scall 0
",
    budget: 100,
    ending: Ending::Ended,
    result: 171,
    committed: 2,
};

/// A block that leads to itself, and counts.
const FOREVER: &str = "trips 1
data 0
block 0 mask 00000000
R[0] read G[3] N[0,0]
W[0] write G[3]
N[0] addi 1 W[0]
N[1] bro 0 @0
";

const SPENT: Row = Row {
    text: FOREVER,
    budget: 40,
    ending: Ending::Budget,
    result: 40,
    committed: 40,
};

/// System call 4.
const FULL: Row = Row {
    text: "trips 1
data 0
block 0 mask 00000000
W[0] write G[0]
N[0] genu 4 W[0]
N[1] scall 0
",
    budget: 3,
    ending: Ending::StackFull,
    result: 0,
    committed: 1,
};

/// The second block divides by 0, and the quotient is a write.
const FAULT: Row = Row {
    text: "trips 1
data 0
block 0 mask 00000000
W[0] write G[3]
N[0] genu 7 W[0]
N[1] bro 0 @1
block 1 mask 00000000
R[0] read G[3] N[1,0]
W[0] write G[3]
N[0] genu 0 N[1,1]
N[1] divu W[0]
N[2] bro 0 @0
",
    budget: 5,
    ending: Ending::Trap {
        block: 1,
        cause: TrapCause::DivisionByZero,
    },
    result: 7,
    committed: 1,
};

#[test]
fn a_program_returns_seven(rt: HostRuntime) -> Result<(), Fail> {
    assert_run(&rt, rt.alloc(), SEVEN)
}

#[test]
fn a_load_sees_the_store_of_an_older_block(rt: HostRuntime) -> Result<(), Fail> {
    assert_run(&rt, rt.alloc(), STORED)
}

#[test]
fn a_budget_is_spent(rt: HostRuntime) -> Result<(), Fail> {
    assert_run(&rt, rt.alloc(), SPENT)
}

#[test]
fn the_stack_is_full(rt: HostRuntime) -> Result<(), Fail> {
    assert_run(&rt, rt.alloc(), FULL)
}

#[test]
fn a_fault_ends_the_run(rt: HostRuntime) -> Result<(), Fail> {
    assert_run(&rt, rt.alloc(), FAULT)
}

#[test]
fn frames_in_flight_are_flushed_at_the_end(rt: HostRuntime) -> Result<(), Fail> {
    let ran = ran(&rt, rt.alloc(), FOREVER, 0, 40)?;
    assert!(&rt;
        ran.grid.counts().flushed > 0,
        "younger frames were in flight"
    );
    Ok(())
}
